// What the larger points cover: grown by one size, and eroded again.
#![tactic(auto)]

ghost use Rattle.morphology.specs.Element.{offsets};
ghost use Rattle.covers.specs.Grown.{CoverStart, CoverPair, CoverGrown, CoverTested};

use elements::Reach;
use raster::Frame;

// The first plane dilated into the second, on the rows that it reaches. Answers whether a point of the dilation fell off: then the second is of no use.
pub fn grow(f: Frame, element: u32, work: &mut [u8]) -> bool
    requires { CoverStart f.w f.h f.r f.p element work.old }
    ensures { CoverGrown f.w f.h f.p (offsets element) work.old work.new result }
{
    let Frame { w, h, r, p } = f;
    let from = raster::bands::first_row(&work[..p], r, 0, h);
    let to = raster::bands::end_row(&work[..p], r, from, h);
    if from == to {
        return false;
    }
    let Reach { up, down, .. } = Reach::of(element);
    // those rows, as far as the frame has them
    let first = from.saturating_sub(up);
    let end = h - (h - to).saturating_sub(down);
    let n = end - first;
    let band = Frame {
        w,
        h: n,
        r,
        p: n * r,
    };
    planes::dilate_plane(band, p, element, &mut work[first * r..])
}

// Whether the second plane, eroded, is the first. The first lies in the second; rows where that is blank are passed over.
pub fn is_eroded(f: Frame, element: u32, work: &mut [u8]) -> bool
    requires { CoverPair f.w f.h f.r f.p element work.old }
    ensures { CoverTested f.w f.h f.p (offsets element) work.old work.new result }
{
    let Frame { w, h, r, p } = f;
    let from = raster::bands::first_row(&work[p..2 * p], r, 0, h);
    let to = raster::bands::end_row(&work[p..2 * p], r, from, h);
    let n = to - from;
    let band = Frame {
        w,
        h: n,
        r,
        p: n * r,
    };
    planes::erode_plane(band, p, element, &mut work[p + from * r..]);
    raster::same_rows(&work[..], from * r, 2 * p + from * r, n * r)
}
