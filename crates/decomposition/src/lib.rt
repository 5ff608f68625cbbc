// The turns of a decomposition: labels of an image by size.
#![tactic(auto)]

ghost use Rattle.std.specs.Prelude.{false, ◌≡◌, ◌+◌, ◌*◌, ◌≤◌, T, length, replicate, take};
ghost use Rattle.morphology.specs.Element.{offsets, is_element};
ghost use Rattle.morphology.specs.Image.{image_set, is_clean};
ghost use Rattle.morphology.specs.Labels.{max_label};
ghost use Rattle.morphology.specs.Operations.{cleared};
ghost use Rattle.iteration.specs.Steps.{Ready};
ghost use Rattle.raster.specs.Frames.{Sheet};
ghost use Rattle.iteration.specs.Bands.{Banded};
ghost use Rattle.decomposition.specs.Turns.{TurnStart, Turned, Stepped, Took, Finished};

use raster::Frame;

// What the turns of a decomposition found: the points, how many turns had one, and whether a point of a dilation fell off.
#[derive(Clone, Copy)]
pub struct Found {
    pub points: u32,
    pub turns: u32,
    pub clipped: bool,
}

// The points that an opening lacks, and whether one of its dilation fell off.
#[derive(Clone, Copy)]
struct Lacked {
    points: u32,
    clipped: bool,
}

// One turn of a decomposition: the first plane eroded, and v at its points that its opening lacks. Answers how many.
fn turn(f: Frame, q: usize, element: u32, v: u8, labels: &mut [u8], work: &mut [u8]) -> Lacked
    requires { TurnStart f.w f.h f.r q element labels.old work.old }
    ensures turn { Turned f.w f.h q (offsets element) v work.old work.new labels.old labels.new result.points }
    ensures clipped { result.clipped ≡ false }
{
    let Frame { h, r, .. } = f;
    let clipped = planes::open_plane(f, q, element, work);
    let points = label_write::label_plane(&work[..], f, q + q, v, labels);
    raster::copy_down(work, q, h * r);
    Lacked { points, clipped }
}

// A turn on the rows from..to alone, outside of which the first plane is empty.
fn turn_band(
    f: Frame,
    from: usize,
    to: usize,
    element: u32,
    v: u8,
    labels: &mut [u8],
    work: &mut [u8],
) -> Lacked
    requires { TurnStart f.w f.h f.r (f.h * f.r) element labels.old work.old × Banded f.h f.r from to (take (f.h * f.r) work.old) }
    ensures turn { Stepped f.w f.h (f.h * f.r) (offsets element) v work.old work.new
        labels.old labels.new result.points }
    ensures clipped { result.clipped ≡ false }
{
    let Frame { w, h, r, .. } = f;
    let rows = to - from;
    let at = from * w;
    let band = Frame {
        w,
        h: rows,
        r,
        p: rows * r,
    };
    turn(
        band,
        h * r,
        element,
        v,
        &mut labels[at..at + rows * w],
        &mut work[from * r..],
    )
}

// Turns until the first plane is empty, each on the rows that still hold ink; turn n writes n + 1.
fn take_turns(f: Frame, element: u32, labels: &mut [u8], work: &mut [u8]) -> Found
    requires { (f.w ≤ max_label) × (f.h ≤ max_label) × (3 * f.p ≤ length work.old) × (labels.old ≡ replicate (f.w * f.h) 0)
        × T (is_element element) × T (is_clean f.w f.h work.old) }
    ensures turns { Took f.w f.h f.p (offsets element) (image_set f.w f.h work.old) result.turns
        work.old work.new labels.new result.points }
    ensures clipped { result.clipped ≡ false }
{
    let Frame { h, r, p, .. } = f;
    let mut points: u32 = 0;
    let mut clipped = false;
    let mut n: u32 = 0;
    let mut from = raster::bands::first_row(&work[..p], r, 0, h);
    let mut to = raster::bands::end_row(&work[..p], r, from, h);
    while from < to {
        let new = turn_band(f, from, to, element, (n + 1) as u8, labels, work);
        points += new.points;
        clipped |= new.clipped;
        n += 1;
        from = raster::bands::first_row(&work[..p], r, from, to);
        to = raster::bands::end_row(&work[..p], r, from, to);
    }
    Found {
        points,
        turns: n,
        clipped,
    }
}

// An image that is not refused, decomposed into labels. Nothing fell off.
pub fn decompose_into(
    f: Frame,
    element: u32,
    image: &[u8],
    labels: &mut [u8],
    work: &mut [u8],
) -> Found
    requires { Ready f.w f.h image.now image.now work.old × (f.w ≤ max_label) × (f.h ≤ max_label) × (length labels.old ≡ f.w * f.h) × T (is_element element) }
    ensures done { Finished f.w f.h (offsets element) (image_set f.w f.h image.now) result.turns labels.new result.points }
    ensures work { work.new ≡ cleared f.w f.h work.old }
    ensures clipped { result.clipped ≡ false }
{
    let Frame { p, .. } = f;
    raster::copy(image, &mut work[..p]);
    labels.fill(0);
    let found = take_turns(f, element, labels, work);
    iteration::clear_work(p, work);
    found
}
