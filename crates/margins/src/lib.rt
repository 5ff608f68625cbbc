// Whether a dilation of a plane leaves the frame: by the ink within the element's reach of an edge.
#![tactic(auto)]

ghost use Rattle.std.specs.Prelude.{◌≡◌, ◌-◌, ◌*◌, ◌<◌, ◌≤◌, T, length};
ghost use Rattle.morphology.specs.Element.{offsets, bit};
ghost use Rattle.morphology.specs.Falls.{falls_off};
ghost use Rattle.morphology.specs.Image.{image_set, is_clean};
ghost use Rattle.margins.specs.Columns.{Seen, columns_ink};

use elements::Reach;
use raster::Frame;

// The bytes c of h rows of r bytes, or-ed: four rows at a time, in two parts that do not wait for each other.
fn seen(s: &[u8], r: usize, h: usize, c: usize) -> u8
    requires { (c < r) × (h * r ≤ length s.now) }
    ensures { Seen s.now r h c result }
{
    let mut v = 0;
    let mut u = 0;
    for k in 0..h / 4 {
        let i = 4 * k * r + c;
        v |= s[i] | s[i + r];
        u |= s[i + 2 * r] | s[i + 3 * r];
    }
    v |= u;
    for y in h / 4 * 4..h {
        v |= s[y * r + c];
    }
    v
}

// Whether h rows of r bytes have ink in one of the first `left` columns.
fn left_ink(s: &[u8], r: usize, h: usize, left: usize) -> bool
    requires { (0 < r) × (h * r ≤ length s.now) × (left ≤ 2) }
    ensures { result ≡ columns_ink s.now r h 0 left }
{
    if left == 0 {
        return false;
    }
    seen(s, r, h, 0) >> (8 - left) != 0
}

// Whether they have ink in one of the last `right` columns before w: with the padding, which is clean, the ends of the last bytes, or those bytes and a pixel.
#[tactic(auto, unfolding(morphology::specs::Image::stride))]
fn right_ink(s: &[u8], f: Frame, right: usize) -> bool
    requires { (f.h * f.r ≤ length s.now) × T (is_clean f.w f.h s.now) × (right ≤ 2) × (right < f.w) }
    ensures { result ≡ columns_ink s.now f.r f.h (f.w - right) f.w }
{
    let Frame { w, h, r, .. } = f;
    if right == 0 {
        return false;
    }
    let last = seen(s, r, h, r - 1);
    let tail = 8 * r - w + right;
    if tail > 8 {
        return (seen(s, r, h, r - 2) % 2 != 0) | (last != 0);
    }
    u32::from(last) % (1u32 << tail) != 0
}

// Whether a point of a plane, moved by an offset of the element, is off the frame.
#[tactic(auto, unfolding(morphology::specs::Image::stride))]
pub fn falls_off(f: Frame, element: u32, plane: &[u8]) -> bool
    requires { (f.h * f.r ≤ length plane.now) × T (bit element 12) × T (is_clean f.w f.h plane.now) }
    ensures { result ≡ falls_off f.w f.h (offsets element) (image_set f.w f.h plane.now) }
{
    let Frame { w, h, r, .. } = f;
    let Reach {
        left,
        right,
        up,
        down,
    } = Reach::of(element);
    if w <= left + right || h <= up + down {
        return raster::has_ink(&plane[..h * r]);
    }
    let above = raster::has_ink(&plane[..up * r]);
    let below = raster::has_ink(&plane[(h - down) * r..h * r]);
    let first = left_ink(plane, r, h, left);
    let last = right_ink(plane, f, right);
    above | below | first | last
}
