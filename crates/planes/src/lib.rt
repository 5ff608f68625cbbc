// One erosion, dilation or opening of a plane in the lent work.
#![tactic(auto)]

ghost use Rattle.std.specs.Prelude.{◌≡◌, Bool, ◌&&◌, false, ◌+◌, ◌*◌, ◌<◌, ◌≤◌, ltb, T, length};
ghost use Rattle.morphology.specs.Element.{offsets, bit};
ghost use Rattle.morphology.specs.Falls.{falls_off};
ghost use Rattle.morphology.specs.Image.{image_set, pack, is_clean, clip};
ghost use Rattle.morphology.specs.Morphology.{erode, dilate, opening};
ghost use Rattle.raster.specs.Limits.{max_frame, max_stride};
ghost use Rattle.raster.specs.Rows.{PlaneIs, overwrite, row_bit};
ghost use Rattle.neighbours.specs.Neighbours.{near_bit, neighbours};
ghost use Rattle.planes.specs.Begun.{Begun};

use raster::{Frame, Join};

// Begins the plane at q, for an erosion or a dilation, with the first plane, which the element's origin asks for. The rest of the element is returned.
fn begin_plane(work: &mut [u8], q: usize, f: Frame, element: u32) -> u32
    requires { (f.h * f.r ≤ q) × (q + f.h * f.r ≤ length work.old) × T (bit element 12) }
    ensures { (t : Bool) → Begun t q f.r f.h element result work.old work.new }
{
    let Frame { h, r, .. } = f;
    raster::copy_up(work, q, h * r);
    element - elements::ORIGIN
}

// Clears the padding of h rows at q.
fn clear_rows(work: &mut [u8], q: usize, f: Frame)
    requires { (q + f.h * f.r ≤ length work.old) }
    ensures { PlaneIs q f.r f.h work.old work.new (λ y x. row_bit work.old (8 * (q + y * f.r) + x) && ltb x f.w) }
{
    let Frame { w, h, r, .. } = f;
    for y in 0..h {
        let d = q + y * r;
        raster::clear_padding(&mut work[d..d + r], w);
    }
}

// The first plane, h rows of r bytes, eroded or dilated into the plane at q, with what a dilation puts into the padding.
fn morph_plane(dilating: bool, work: &mut [u8], q: usize, f: Frame, element: u32)
    requires { (f.h * f.r ≤ q) × (q + f.h * f.r ≤ length work.old) × T (bit element 12) }
    ensures { PlaneIs q f.r f.h work.old work.new (λ y x. neighbours dilating element (near_bit work.old f.r f.h) x y) }
{
    let rest = begin_plane(work, q, f, element);
    let (first, plane) = work.split_at_mut(q);
    let how = Join {
        dilating,
        inverse: false,
    };
    neighbours::join_plane(how, &first[..], plane, f, rest);
}

// The first plane of work, eroded into the one at q.
pub fn erode_plane(f: Frame, q: usize, element: u32, work: &mut [u8])
    requires { (f.h * f.r ≤ q) × (q + f.h * f.r ≤ length work.old) × T (bit element 12) × T (is_clean f.w f.h work.old) }
    ensures { work.new ≡ overwrite q (pack f.w f.h (erode (offsets element) (image_set f.w f.h work.old))) work.old }
{
    morph_plane(false, work, q, f, element);
}

// The first plane of work, dilated into the one at q and clipped at the frame. Answers whether a point of the dilation fell off.
pub fn dilate_plane(f: Frame, q: usize, element: u32, work: &mut [u8]) -> bool
    requires { (f.h * f.r ≤ q) × (q + f.h * f.r ≤ length work.old) × T (bit element 12) × T (is_clean f.w f.h work.old) }
    ensures plane { work.new ≡ overwrite q (pack f.w f.h (clip f.w f.h (dilate (offsets element) (image_set f.w f.h work.old))))
        work.old }
    ensures clipped { result ≡ falls_off f.w f.h (offsets element) (image_set f.w f.h work.old) }
{
    let clipped = margins::falls_off(f, element, &work[..]);
    morph_plane(true, work, q, f, element);
    let clears = clipped;
    if clears {
        clear_rows(work, q, f);
    }
    clipped
}

// The first plane of work, eroded into the one at q; that one, dilated into the next: the opening. Answers what the dilation does, that nothing fell off.
pub fn open_plane(f: Frame, q: usize, element: u32, work: &mut [u8]) -> bool
    requires { (f.h * f.r ≤ q) × (q + q + f.h * f.r ≤ length work.old) × T (bit element 12) × T (is_clean f.w f.h work.old) }
    ensures planes { work.new ≡ overwrite (q + q) (pack f.w f.h (opening (offsets element) (image_set f.w f.h work.old)))
        (overwrite q (pack f.w f.h (erode (offsets element) (image_set f.w f.h work.old))) work.old) }
    ensures clipped { result ≡ false }
{
    erode_plane(f, q, element, work);
    dilate_plane(f, q, element, &mut work[q..])
}
