// Label buffers beside planes: labels written where one plane has a point that another lacks.
#![tactic(auto)]

ghost use Rattle.std.specs.Prelude.{◌≡◌, ◌+◌, ◌*◌, ◌/◌, ◌<◌, ◌≤◌, ℕ, length};
ghost use Rattle.morphology.specs.Image.{bit_of};
ghost use Rattle.raster.specs.Frames.{Frame as IsFrame};
ghost use Rattle.raster.specs.Limits.{max_frame};
ghost use Rattle.label_write.specs.Labelled.{left_at, lacking, RowLabelled, RowsLabelled, Labelled};

use raster::Frame;

// v at each of at most eight labels whose pixel in a byte is foreground. Answers how many.
fn label_few(byte: u8, v: u8, labels: &mut [u8]) -> u32
    requires { length labels.old ≤ 8 }
    ensures { RowLabelled 0 (length labels.old) (bit_of byte) v labels.old labels.new result }
{
    for x in 0..labels.len() {
        // Read whether it stays or not: the compiler makes no branch of the choice.
        let old = labels[x];
        let ink = raster::is_ink(byte, x);
        labels[x] = if ink { v } else { old };
    }
    let k = 8 - labels.len();
    (u32::from(byte) >> k).count_ones()
}

// The m labels from at on, of one byte of each plane; passed over where nothing is left.
fn label_byte(s: &[u8], a: usize, b: usize, at: usize, m: usize, v: u8, labels: &mut [u8]) -> u32
    requires { (a < length s.now) × (b < length s.now) × (m ≤ 8) × (at + m ≤ length labels.old) }
    ensures { RowLabelled at m (left_at s.now a b) v labels.old labels.new result }
{
    let left = s[a] & (s[b] ^ 255);
    if left == 0 {
        return 0;
    }
    label_few(left, v, &mut labels[at..at + m])
}

// The w labels from at on, of the rows at a and at b, by whole bytes and what is left of the last. Rows of less than a byte are told apart first: the
// compiler makes a loop of their own of them.
fn label_bytes(s: &[u8], a: usize, b: usize, at: usize, w: usize, v: u8, labels: &mut [u8]) -> u32
    requires { (a + (w + 7) / 8 ≤ length s.now) × (b + (w + 7) / 8 ≤ length s.now) × (w ≤ max_frame) × (at + w ≤ length labels.old) }
    ensures { RowLabelled at w (left_at s.now a b) v labels.old labels.new result }
{
    if 0 < w && w < 8 {
        return label_byte(s, a, b, at, w, v, labels);
    }
    let whole = w / 8;
    let mut n = 0;
    for k in 0..whole {
        n += label_byte(s, a + k, b + k, at + 8 * k, 8, v, labels);
    }
    if w % 8 == 0 {
        return n;
    }
    n + label_byte(s, a + whole, b + whole, at + 8 * whole, w % 8, v, labels)
}

// Row y of the first plane and of the plane at q; passed over where they are the same.
fn label_line(s: &[u8], w: usize, r: usize, q: usize, y: usize, v: u8, labels: &mut [u8]) -> u32
    requires { (r ≡ (w + 7) / 8) × (w ≤ max_frame) × (y * r + r ≤ q) × (q + y * r + r ≤ length s.now) × (y * w + w ≤ length labels.old) }
    ensures { RowLabelled (y * w) w (left_at s.now (y * r) (q + y * r)) v labels.old labels.new result }
{
    let a = y * r;
    let b = q + a;
    if raster::same_rows(s, a, b, r) {
        return 0;
    }
    label_bytes(s, a, b, y * w, w, v, labels)
}

// Rows y to e of the first plane and of the plane at q; passed over at once where they are all the same.
fn label_rows(
    s: &[u8],
    w: usize,
    r: usize,
    q: usize,
    y: usize,
    e: usize,
    v: u8,
    labels: &mut [u8],
) -> u32
    requires { IsFrame w e r × (y ≤ e) × (e * r ≤ q) × (q + e * r ≤ length s.now) × (e * w ≤ length labels.old) }
    ensures { (h : ℕ) → e ≤ h → RowsLabelled w (lacking w h q s.now) v y e labels.old labels.new result }
{
    let top = y * r;
    if raster::same_rows(s, top, q + top, (e - y) * r) {
        return 0;
    }
    let mut n = 0;
    for i in y..e {
        n += label_line(s, w, r, q, i, v, labels);
    }
    n
}

// v at each point of the first plane that the plane at q lacks, by blocks of sixteen rows. Answers how many.
pub fn label_plane(s: &[u8], f: Frame, q: usize, v: u8, labels: &mut [u8]) -> u32
    requires { (f.h * f.r ≤ q) × (q + f.h * f.r ≤ length s.now) × (length labels.old ≡ f.w * f.h) }
    ensures { Labelled f.w f.h (lacking f.w f.h q s.now) v labels.old labels.new result }
{
    let Frame { w, h, r, .. } = f;
    let blocks = h.div_ceil(16);
    let mut n = 0;
    for k in 0..blocks {
        let y = 16 * k;
        n += label_rows(s, w, r, q, y, h.min(y + 16), v, labels);
    }
    n
}
