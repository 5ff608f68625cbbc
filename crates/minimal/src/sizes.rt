// The shape of each size, and the covers of all points counted, size by size.
ghost use Rattle.std.specs.Prelude.{◌≡◌, false, ◌+◌, ◌*◌, ◌-◌, ◌<◌, ◌≤◌, ◌^◌, T, length, get_or};
ghost use Rattle.morphology.specs.Element.{is_element, offsets};
ghost use Rattle.morphology.specs.Labels.{max_label, points_of};
ghost use Rattle.morphology.specs.Lists.{greatest};
ghost use Rattle.iteration.specs.Steps.{First};
ghost use Rattle.minimal.specs.Covers.{single, Stays, counts};
ghost use Rattle.minimal.specs.Sizes.{Shape, AllFit, Counting, WalkBegun, Left};

use crate::bands::Band;
use crate::covers::Up;
use crate::{bands, covers, places};
use raster::Frame;

// Counts up the covers of all points of size n, whose shape the plane is.
fn count_size(
    f: Frame,
    element: u32,
    a: usize,
    n: usize,
    labels: &[u8],
    plane: &[u8],
    counters: &mut [u16],
)
    requires { Shape f.w f.h f.r (offsets element) n a plane.now × AllFit f.w f.h (offsets element) labels.now × (n < max_label)
        × Counting f.w f.h (offsets element) labels.now n 0 counters.old }
    ensures { Counting f.w f.h (offsets element) labels.now (n + 1) 0 counters.new }
{
    let band = bands::band_of(plane, f.h, f.r);
    let v = (n + 1) as u8;
    let mut i = places::next_place(labels, v, 0);
    while i < labels.len() {
        covers::visit_cover::<Up>(plane, f, band, a, i, counters);
        i = places::next_place(labels, v, i + 1);
    }
}

// The first plane emptied but for the pixel of place a.
pub fn mark(f: Frame, a: usize, work: &mut [u8])
    requires { (f.h * f.r ≤ length work.old) × (a < f.w * f.h) }
    ensures { First f.w f.h (f.h * f.r) (single f.w a) work.old work.new }
{
    let Frame { w, h, r, .. } = f;
    work[..h * r].fill(0);
    let x = a % w;
    work[a / w * r + x / 8] = 128u8 >> ((x % 8) as u32);
}

// The shape of size n in the first plane, from that of size n - 1; that of size 0 is there already. Answers whether a point of it fell off: none does.
pub fn reach_size(f: Frame, element: u32, a: usize, n: usize, work: &mut [u8]) -> bool
    requires { (2 * f.p ≤ length work.old) × T (is_element element)
        × Shape f.w f.h f.r (offsets element) (n - 1) a work.old × Stays f.w f.h (offsets element) n a }
    ensures shape { Shape f.w f.h f.r (offsets element) n a work.new }
    ensures work { Left f.p work.old work.new }
    ensures clipped { result ≡ false }
{
    let first = n == 0;
    if first {
        return false;
    }
    iteration::dilate_step(f, element, work)
}

// The first place of the largest label.
pub fn tallest(labels: &[u8]) -> usize
    requires { 0 < length labels.now }
    ensures { (result < length labels.now) × (get_or labels.now result 0 ≡ greatest labels.now) }
{
    let top = label_read::greatest(labels);
    places::next_place(labels, top, 0)
}

// The number of points.
pub fn points_of(labels: &[u8]) -> u32
    requires { length labels.now < 2 ^ 32 }
    ensures { result ≡ points_of labels.now }
{
    let mut n: u32 = 0;
    for label in labels {
        n += u32::from(*label != 0);
    }
    n
}

// Counts how often each place is covered, from the smallest size to the largest. Answers whether a point of a shape fell off: none does.
pub fn count_up(
    f: Frame,
    element: u32,
    a: usize,
    top: usize,
    labels: &[u8],
    work: &mut [u8],
    counters: &mut [u16],
) -> bool
    requires { WalkBegun f.w f.h f.r f.p element a top labels.now work.old × (length counters.old ≡ f.w * f.h) }
    ensures counters { counters.new ≡ counts f.w f.h (offsets element) labels.now }
    ensures work { Left f.p work.old work.new }
    ensures clipped { result ≡ false }
{
    let Frame { p, .. } = f;
    counters.fill(0);
    mark(f, a, work);
    let mut clipped = false;
    for n in 0..top {
        clipped |= reach_size(f, element, a, n, work);
        count_size(f, element, a, n, labels, &work[..p], counters);
    }
    clipped
}
