// Rows and planes of packed pixels.
#![tactic(auto)]

pub mod bands;
mod counts;
mod frame;

ghost use Rattle.std.specs.Prelude.{◌≡◌, ◌&&◌, not, ◌++◌, ◌+◌, ◌-◌, ◌*◌, ◌<◌, ◌≤◌, leb, ltb, eqb, length, get_or, replicate, take, drop};
ghost use Rattle.morphology.specs.Image.{bit_of, stride, is_clean};
ghost use Rattle.morphology.specs.Lists.{every_of, some_of, up_to};
ghost use Rattle.raster.specs.Limits.{max_frame, max_stride};
ghost use Rattle.raster.specs.Rows.{row_bit, read_bit, exchange_byte, join_byte, Pixelwise, RowIs, RowJoined};

pub use counts::count_ones;
pub use frame::Frame;

// The sides of the largest frame that the buffers serve, and the bytes of its rows.
pub const MAX_FRAME: usize = 1024;

pub const MAX_STRIDE: usize = MAX_FRAME / 8;

// How pixels are joined: by or, as in a dilation, or by and; those read as they are, or inverted.
#[derive(Clone, Copy)]
pub struct Join {
    pub dilating: bool,
    pub inverse: bool,
}

impl Join {
    // Two bytes joined pixel by pixel.
    fn join(self, a: u8, b: u8) -> u8
        ensures { result ≡ join_byte self.dilating a b }
    {
        if self.dilating {
            return a | b;
        }
        a & b
    }

    // The byte that exchanges foreground and background, or leaves them.
    fn exchange(self) -> u8
        ensures { result ≡ exchange_byte self.inverse }
    {
        if self.inverse {
            return 255;
        }
        0
    }
}

// Joins the pixels of src, inverted or not, to those of dst.
pub fn join_rows(how: Join, src: &[u8], dst: &mut [u8])
    requires { length dst.old ≤ length src.now }
    ensures { RowJoined how.dilating dst.old dst.new (read_bit how.inverse src.now) }
{
    let m = how.exchange();
    for i in 0..dst.len() {
        dst[i] = how.join(dst[i], src[i] ^ m);
    }
}

// Each pixel x of dst becomes pixel x + S of buf: a loop for each S, so that it shifts by constants.
pub fn move_rows<const S: u32>(buf: &[u8], dst: &mut [u8])
    requires { (S < 16) × (length dst.old + 2 ≤ length buf.now) }
    ensures { Pixelwise dst.old dst.new (λ x b. row_bit buf.now (x + S)) }
{
    let o = (S / 8) as usize;
    let d = S % 8;
    let e = 7 - d;
    for i in 0..dst.len() {
        dst[i] = (buf[o + i] << d) | (buf[o + i + 1] >> e >> 1);
    }
}

// Clears the first k pixels of a row.
pub fn clear_start(row: &mut [u8], k: u32)
    requires { (k < 8) × (0 < length row.old) }
    ensures { Pixelwise row.old row.new (λ x b. b && leb k x) }
{
    row[0] = row[0] << k >> k;
}

// Clears the padding of a row: its pixels from w on, of its last byte, which may be all padding.
pub fn clear_padding(row: &mut [u8], w: usize)
    requires { (w ≤ 8 * length row.old) × (8 * length row.old ≤ w + 8) × (0 < length row.old) × (length row.old ≤ max_stride) }
    ensures { Pixelwise row.old row.new (λ x b. b && ltb x w) }
{
    let last = row.len() - 1;
    let k = row.len() * 8 - w;
    row[last] = (u32::from(row[last]) >> k << k) as u8;
}

// Whether pixel k of the eight of a byte is foreground.
pub fn is_ink(byte: u8, k: usize) -> bool
    requires { k < 8 }
    ensures { result ≡ bit_of byte k }
{
    let bit = 128u8 >> k;
    (byte & bit) != 0
}

// dst becomes src.
pub fn copy(src: &[u8], dst: &mut [u8])
    requires { length src.now ≡ length dst.old }
    ensures { dst.new ≡ src.now }
{
    for i in 0..dst.len() {
        dst[i] = src[i];
    }
}

// The n bytes at p copied over the first n.
pub fn copy_down(work: &mut [u8], p: usize, n: usize)
    requires { (n ≤ p) × (p + n ≤ length work.old) }
    ensures { work.new ≡ take n (drop p work.old) ++ drop n work.old }
{
    for i in 0..n {
        work[i] = work[p + i];
    }
}

// The first n bytes copied to p.
pub fn copy_up(work: &mut [u8], p: usize, n: usize)
    requires { (n ≤ p) × (p + n ≤ length work.old) }
    ensures { RowIs p n work.old work.new (row_bit work.old) }
{
    for i in 0..n {
        work[p + i] = work[i];
    }
}

// Takes the foreground of src out of dst.
pub fn subtract(src: &[u8], dst: &mut [u8])
    requires { length src.now ≡ length dst.old }
    ensures { Pixelwise dst.old dst.new (λ x b. b && not (row_bit src.now x)) }
{
    for i in 0..dst.len() {
        dst[i] &= src[i] ^ 255;
    }
}

// Whether a byte of s is not 0.
pub fn has_ink(s: &[u8]) -> bool
    ensures { result ≡ some_of (λ b. not (eqb b 0)) s.now }
{
    let mut seen: u8 = 0;
    for b in s {
        seen |= *b;
    }
    seen != 0
}

// Whether two rows of r bytes of a plane, at a and at b, are the same.
pub fn same_rows(plane: &[u8], a: usize, b: usize, r: usize) -> bool
    requires { (a + r ≤ length plane.now) × (b + r ≤ length plane.now) }
    ensures { result ≡ every_of (λ i. eqb (get_or plane.now (a + i) 0) (get_or plane.now (b + i) 0)) (up_to r) }
{
    let mut differ: u8 = 0;
    for i in 0..r {
        differ |= plane[a + i] ^ plane[b + i];
    }
    differ == 0
}

// Whether an image of h rows of r bytes has no 1 in its padding.
#[tactic(auto, unfolding(morphology::specs::Image::stride))]
pub fn is_clean(s: &[u8], w: usize, h: usize, r: usize) -> bool
    requires { (r ≡ stride w) × (h * r ≤ length s.now) × (1 ≤ w) × (w ≤ max_frame) }
    ensures { result ≡ is_clean w h s.now }
{
    let m = 1u8 << (r * 8 - w);
    for y in 0..h {
        let last = y * r + (r - 1);
        if s[last] % m != 0 {
            return false;
        }
    }
    true
}
