// Erosions and dilations one after the other in the first plane of work; handing out and clearing.
#![tactic(auto)]

ghost use Rattle.std.specs.Prelude.{◌≡◌, ◌++◌, ◌*◌, ◌<◌, ◌≤◌, ◌^◌, T, length, replicate, take, drop};
ghost use Rattle.morphology.specs.Element.{offsets, is_element};
ghost use Rattle.morphology.specs.Falls.{falls_off};
ghost use Rattle.morphology.specs.Image.{image_set, is_clean, clip};
ghost use Rattle.morphology.specs.Morphology.{erode as erode_set, dilate as dilate_set, times};
ghost use Rattle.iteration.specs.Steps.{First, HandedOut, dilated};

use raster::Frame;

// The area of an image that was written, and whether a point of a dilation fell off on the way to it.
#[derive(Clone, Copy, Debug, PartialEq, Eq)]
pub struct Inked {
    pub area: u32,
    pub clipped: bool,
}

// The first plane eroded in place, by way of the second.
fn erode_step(f: Frame, element: u32, work: &mut [u8])
    requires { (2 * f.p ≤ length work.old) × T (is_element element) × T (is_clean f.w f.h work.old) }
    ensures { First f.w f.h f.p (erode_set (offsets element) (image_set f.w f.h work.old)) work.old work.new }
{
    let Frame { p, .. } = f;
    planes::erode_plane(f, p, element, work);
    raster::copy_down(work, p, p);
}

// The first plane dilated in place, by way of the second, and clipped at the frame. Answers whether a point of the dilation fell off.
pub fn dilate_step(f: Frame, element: u32, work: &mut [u8]) -> bool
    requires { (2 * f.p ≤ length work.old) × T (is_element element) × T (is_clean f.w f.h work.old) }
    ensures plane { First f.w f.h f.p (clip f.w f.h (dilate_set (offsets element) (image_set f.w f.h work.old))) work.old work.new }
    ensures clipped { result ≡ falls_off f.w f.h (offsets element) (image_set f.w f.h work.old) }
{
    let Frame { p, .. } = f;
    let clipped = planes::dilate_plane(f, p, element, work);
    raster::copy_down(work, p, p);
    clipped
}

// The first plane eroded n times in place; no more once it is empty.
pub fn erode_times(f: Frame, element: u32, n: u32, work: &mut [u8])
    requires { (2 * f.p ≤ length work.old) × T (is_element element) × T (is_clean f.w f.h work.old) }
    ensures { First f.w f.h f.p (erode_set (times (offsets element) n) (image_set f.w f.h work.old)) work.old work.new }
{
    let Frame { p, .. } = f;
    for _erosion in 0..n {
        if !raster::has_ink(&work[..p]) {
            return;
        }
        erode_step(f, element, work);
    }
}

// The first plane dilated n times in place; not at all where it is empty. Answers whether a point fell off in one of them, and so by the n-fold element.
pub fn dilate_times(f: Frame, element: u32, n: u32, work: &mut [u8]) -> bool
    requires { (2 * f.p ≤ length work.old) × T (is_element element) × T (is_clean f.w f.h work.old) }
    ensures plane { First f.w f.h f.p (dilated f.w f.h (offsets element) n (image_set f.w f.h work.old)) work.old work.new }
    ensures clipped { result ≡ falls_off f.w f.h (times (offsets element) n) (image_set f.w f.h work.old) }
{
    let Frame { p, .. } = f;
    if !raster::has_ink(&work[..p]) {
        return false;
    }
    let mut clipped = false;
    for _dilation in 0..n {
        clipped |= dilate_step(f, element, work);
    }
    clipped
}

// The three planes of work cleared.
pub fn clear_work(p: usize, work: &mut [u8])
    requires { (3 * p ≤ length work.old) × (p < 2 ^ 20) }
    ensures { work.new ≡ replicate (3 * p) 0 ++ drop (3 * p) work.old }
{
    work[..3 * p].fill(0);
}

// The first plane counted and copied to out, and three planes of work cleared.
pub fn hand_out(p: usize, out: &mut [u8], work: &mut [u8]) -> u32
    requires { (3 * p ≤ length work.old) × (length out.old ≡ p) × (p < 2 ^ 20) }
    ensures { HandedOut p (take p work.old) result out.new work.old work.new }
{
    let ones = raster::count_ones(&work[..p]);
    raster::copy(&work[..p], out);
    clear_work(p, work);
    ones
}
