// What an element asks of the pixels around each pixel, joined to a plane by strips of rows.
#![tactic(auto)]

ghost use Rattle.std.specs.Prelude.{◌≡◌, not, ◌&&◌, cond, false, ◌+◌, ◌*◌, ◌<◌, ◌≤◌, eqb, length};
ghost use Rattle.raster.specs.Limits.{max_frame, max_stride};
ghost use Rattle.raster.specs.Rows.{Pixelwise, PlaneIs, RowJoined, read_bit, row_bit};
ghost use Rattle.neighbours.specs.Neighbours.{NearRows, Moved, turned, is_within, column_of, neighbours, source_bit, strip_bit, PlaneJoined};
ghost use Rattle.neighbours.specs.Strips.{Joining, Loading, Shift, Stride};

use raster::{Frame, Join};

// Bytes of the rows that are joined at a time, and of these with the two rows above them and the two below.
const STRIP: usize = 2048;

const NEAR: usize = STRIP + 4 * raster::MAX_STRIDE;

// The offset k - 2 as k; in a dilation its negative.
fn reflect(dilating: bool, k: usize) -> usize
    requires { k < 5 }
    ensures { result ≡ turned dilating k }
{
    if dilating { 4 - k } else { k }
}

// The rows y - 2 to y + n + 2 of a plane, background where there is no such row, into buf from its byte 1 on.
fn load_near(plane: &[u8], r: usize, h: usize, y: usize, n: usize, buf: &mut [u8])
    requires { Loading plane.now r h y n buf.old }
    ensures { NearRows plane.now r h y n buf.new }
{
    buf.fill(0);
    let blank = 2usize.saturating_sub(y);
    let from = y.saturating_sub(2);
    let rows = (y + n + 2).min(h) - from;
    let at = blank * r + 1;
    let a = from * r;
    raster::copy(&plane[a..a + rows * r], &mut buf[at..at + rows * r]);
}

// Each pixel x of dst becomes pixel x + s of buf.
fn move_bytes(buf: &[u8], s: u32, dst: &mut [u8])
    requires { Shift s × (length dst.old + 2 ≤ length buf.now) }
    ensures { Pixelwise dst.old dst.new (λ x b. row_bit buf.now (x + s)) }
{
    match s {
        6 => raster::move_rows::<6>(buf, dst),
        7 => raster::move_rows::<7>(buf, dst),
        8 => raster::move_rows::<8>(buf, dst),
        9 => raster::move_rows::<9>(buf, dst),
        _ => raster::move_rows::<10>(buf, dst),
    }
}

// Clears the pixels x of a row that a move by s takes from beyond its ends: those without 8 ≤ x + s < 8 r + 8.
fn clear_end(row: &mut [u8], s: u32)
    requires { Shift s × Stride (length row.old) }
    ensures { Pixelwise row.old row.new (λ x b. b && is_within (length row.old) (x + s)) }
{
    if s < 8 {
        raster::clear_start(row, 8 - s);
        return;
    }
    raster::clear_padding(row, row.len() * 8 + 8 - s as usize);
}

// The same for m rows of r bytes.
fn clear_ends(strip: &mut [u8], s: u32, r: usize, m: usize)
    requires { Shift s × Stride r × (m * r ≤ length strip.old) }
    ensures { PlaneIs 0 r m strip.old strip.new (λ y x. row_bit strip.old (8 * (0 + y * r) + x) && is_within r (x + s)) }
{
    for y in 0..m {
        let d = y * r;
        clear_end(&mut strip[d..d + r], s);
    }
}

// The m rows in buf moved: pixel x of each becomes what it has at x + s - 8, background beyond its ends.
fn move_strip(buf: &[u8], s: u32, r: usize, m: usize, strip: &mut [u8])
    requires { Shift s × Stride r × (m * r + 2 ≤ length buf.now) × (m * r ≤ length strip.old) }
    ensures { Moved buf.now s r m strip.new }
{
    move_bytes(buf, s, &mut strip[..m * r]);
    let wraps = s != 8;
    if wraps {
        clear_ends(strip, s, r, m);
    }
}

// Joins the pixels of src, inverted or not, to dst where digit is 1.
fn join_if(how: Join, digit: u32, src: &[u8], dst: &mut [u8])
    requires { length dst.old ≤ length src.now }
    ensures { RowJoined how.dilating dst.old dst.new (λ x. cond (eqb digit 1) (read_bit how.inverse src.now x) (not how.dilating)) }
{
    if digit == 1 {
        raster::join_rows(how, src, dst);
    }
}

// Joins a column of the element, its bits 0, 5, 10, 15 and 20, of the moved rows in strip to dst.
fn join_column(how: Join, strip: &[u8], r: usize, column: u32, dst: &mut [u8])
    requires { (r ≤ max_stride) × (4 * r + length dst.old ≤ length strip.now) }
    ensures { RowJoined how.dilating dst.old dst.new
        (λ x. column_of how.dilating column (λ k. read_bit how.inverse strip.now (8 * (k * r) + x))) }
{
    let n = dst.len();
    let mut rest = column;
    for k in 0..5 {
        let at = reflect(how.dilating, k) * r;
        join_if(how, rest % 2, &strip[at..at + n], dst);
        rest /= 32;
    }
}

// Joins column j of the element, bits 0, 5, 10, 15 and 20 of column, of the rows in buf to the n rows of dst.
fn join_moved(
    how: Join,
    buf: &[u8],
    strip: &mut [u8],
    r: usize,
    n: usize,
    j: usize,
    column: u32,
    dst: &mut [u8],
)
    requires { (j < 5) × Joining r n buf.now strip.old dst.old }
    ensures { PlaneJoined how.dilating 0 r n dst.old dst.new
        (λ y x. column_of how.dilating column (λ k. strip_bit how.inverse buf.now r (x + (turned how.dilating j + 6)) (y + k))) }
{
    let points = column % 2
        + column / 32 % 2
        + column / 1024 % 2
        + column / 32768 % 2
        + column / 1048576 % 2;
    let empty = points == 0;
    if empty {
        return;
    }
    move_strip(buf, reflect(how.dilating, j) as u32 + 6, r, n + 4, strip);
    join_column(how, &strip[..], r, column, dst);
}

// Joins what the element asks of the rows in buf to the n rows of dst, a column of the element at a time.
fn join_strip(
    how: Join,
    buf: &[u8],
    strip: &mut [u8],
    r: usize,
    n: usize,
    element: u32,
    dst: &mut [u8],
)
    requires { Joining r n buf.now strip.old dst.old }
    ensures { PlaneJoined how.dilating 0 r n dst.old dst.new
        (λ y x. neighbours how.dilating element (strip_bit how.inverse buf.now r) x y) }
{
    let mut rest = element;
    for j in 0..5 {
        join_moved(how, buf, strip, r, n, j, rest, dst);
        rest /= 2;
    }
}

// Joins what the element asks of an image to the rows y to y + n of out.
fn join_near(
    how: Join,
    image: &[u8],
    out: &mut [u8],
    r: usize,
    h: usize,
    y: usize,
    n: usize,
    element: u32,
    buf: &mut [u8],
    strip: &mut [u8],
)
    requires { Loading image.now r h y n buf.old × (0 < r) × (h * r ≤ length out.old) × ((n + 4) * r ≤ length strip.old) }
    ensures { PlaneJoined how.dilating (0 + y * r) r n out.old out.new
        (λ Y x. neighbours how.dilating element (source_bit how.inverse image.now r h) x (y + Y)) }
{
    load_near(image, r, h, y, n, buf);
    let d = y * r;
    join_strip(how, &buf[..], strip, r, n, element, &mut out[d..d + n * r]);
}

// Joins what the element asks of an image to each row of out, a strip at a time.
pub fn join_plane(how: Join, image: &[u8], out: &mut [u8], f: Frame, element: u32)
    requires { (f.h * f.r ≤ length image.now) × (f.h * f.r ≤ length out.old) }
    ensures { PlaneJoined how.dilating 0 f.r f.h out.old out.new
        (λ y x. neighbours how.dilating element (source_bit how.inverse image.now f.r f.h) x y) }
{
    let Frame { h, r, .. } = f;
    let mut buf = [0u8; NEAR + 2];
    let mut strip = [0u8; NEAR];
    let most = STRIP / r;
    let mut y: usize = 0;
    while y < h {
        let n = most.min(h - y);
        join_near(how, image, out, r, h, y, n, element, &mut buf, &mut strip);
        y += n;
    }
}
