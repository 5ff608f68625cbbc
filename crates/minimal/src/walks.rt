// The walk of 01: by size, smallest first, and within a size by place.
ghost use Rattle.std.specs.Prelude.{◌≡◌, false, ◌*◌, ◌<◌, length};
ghost use Rattle.morphology.specs.Element.{offsets};
ghost use Rattle.morphology.specs.Labels.{max_label};
ghost use Rattle.morphology.specs.Minimal.{minimal_labels};
ghost use Rattle.minimal.specs.Bands.{CoverAt, ink_at};
ghost use Rattle.minimal.specs.Covers.{counts};
ghost use Rattle.minimal.specs.Moves.{below, Within};
ghost use Rattle.minimal.specs.Sizes.{Shape, AllFit, WalkBegun, Left};
ghost use Rattle.minimal.specs.Walks.{StepDone, Walked};

use crate::bands::Band;
use crate::covers::{Down, Twice};
use crate::{bands, covers, places, sizes};
use raster::Frame;

// Drops the point at place i, where each place of its cover counts two or more, and counts its cover down.
fn step(
    f: Frame,
    band: Band,
    a: usize,
    i: usize,
    labels: &mut [u8],
    plane: &[u8],
    counters: &mut [u16],
)
    requires { CoverAt f.w f.h f.r band i labels.old plane.now × Within (below (f.w * f.h) (ink_at f.w f.h plane.now)) i a (length counters.old) }
    ensures { StepDone f.w f.h a i plane.now labels.old counters.old labels.new counters.new }
{
    if covers::visit_cover::<Twice>(plane, f, band, a, i, counters) {
        labels[i] = 0;
        covers::visit_cover::<Down>(plane, f, band, a, i, counters);
    }
}

// Walks the points of size n, whose shape the plane is, place by place.
fn walk_size(
    f: Frame,
    element: u32,
    a: usize,
    n: usize,
    labels: &mut [u8],
    plane: &[u8],
    counters: &mut [u16],
)
    requires { Shape f.w f.h f.r (offsets element) n a plane.now × AllFit f.w f.h (offsets element) labels.old × (n < max_label)
        × (counters.old ≡ counts f.w f.h (offsets element) labels.old) }
    ensures { Walked f.w f.h (offsets element) n labels.old labels.new counters.new }
{
    let band = bands::band_of(plane, f.h, f.r);
    let v = (n + 1) as u8;
    let mut i = places::next_place(&labels[..], v, 0);
    while i < labels.len() {
        step(f, band, a, i, labels, plane, counters);
        i = places::next_place(&labels[..], v, i + 1);
    }
}

// Walks the sizes, from the smallest to the largest. Answers whether a point of a shape fell off: none does.
pub fn walk(
    f: Frame,
    element: u32,
    a: usize,
    top: usize,
    labels: &mut [u8],
    work: &mut [u8],
    counters: &mut [u16],
) -> bool
    requires { WalkBegun f.w f.h f.r f.p element a top labels.old work.old × (counters.old ≡ counts f.w f.h (offsets element) labels.old) }
    ensures labels { labels.new ≡ minimal_labels f.w f.h (offsets element) labels.old }
    ensures work { Left f.p work.old work.new }
    ensures clipped { result ≡ false }
{
    let Frame { p, .. } = f;
    sizes::mark(f, a, work);
    let mut clipped = false;
    for n in 0..top {
        clipped |= sizes::reach_size(f, element, a, n, work);
        walk_size(f, element, a, n, labels, &work[..p], counters);
    }
    clipped
}
