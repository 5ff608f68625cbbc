// Row 5 of the table of refusals: a point of a map that leaves the frame.
#![tactic(auto)]

ghost use Rattle.std.specs.Prelude.{◌≡◌, ◌*◌, ◌<◌, ◌≤◌, leb, T, length, get_or};
ghost use Rattle.morphology.specs.Element.{is_element, offsets};
ghost use Rattle.morphology.specs.Lists.{some_of, up_to};
ghost use Rattle.morphology.specs.Refusals.{is_wild};
ghost use Rattle.raster.specs.Limits.{max_frame};
ghost use Rattle.containment.specs.Wild.{room_at, Room, Limit, Limits, over};

use elements::Reach;

// The largest label of the labels' type, and the size of a point that has it.
const MAX_LABEL: u8 = 255;

const MAX_SIZE: usize = MAX_LABEL as usize - 1;

// How often step goes into space; the largest size where it is 0.
fn steps(space: usize, step: usize) -> usize
    requires { step ≤ 2 }
    ensures { Room (λ n. leb (n * step) space) result }
{
    match step {
        0 => MAX_SIZE,
        1 => space,
        _ => space / 2,
    }
}

// The largest size that has room at x on a side, where the element goes lo back and hi forward.
fn room(side: usize, lo: usize, hi: usize, x: usize) -> usize
    requires { (lo ≤ 2) × (hi ≤ 2) × (x < side) }
    ensures { Room (room_at side lo hi x) result }
{
    let back = steps(x, lo);
    let forward = steps(side - 1 - x, hi);
    back.min(forward)
}

// The largest label that may stand where sizes up to room fit: n + 1 is that of size n.
fn limit(room: usize) -> u8
    ensures { Limit (λ n. leb n room) result }
{
    room.min(MAX_SIZE) as u8 + 1
}

// The largest label that may stand at x on a side.
fn limit_at(side: usize, lo: usize, hi: usize, x: usize) -> u8
    requires { (lo ≤ 2) × (hi ≤ 2) × (x < side) }
    ensures { Limit (room_at side lo hi x) result }
{
    limit(room(side, lo, hi, x))
}

// The largest label that may stand in each column.
fn column_limits(w: usize, lo: usize, hi: usize, limits: &mut [u8])
    requires { (lo ≤ 2) × (hi ≤ 2) × (w ≤ length limits.old) }
    ensures { Limits w lo hi limits.new }
{
    for x in 0..w {
        limits[x] = limit_at(w, lo, hi, x);
    }
}

// Whether a label is above the limit of its column, or that of its row.
fn row_is_wild(row: &[u8], limits: &[u8], limit: u8) -> bool
    requires { length row.now ≤ length limits.now }
    ensures { result ≡ some_of (λ x. over (get_or row.now x 0) (get_or limits.now x 0) limit) (up_to (length row.now)) }
{
    let mut wild = false;
    for (x, label) in row.iter().enumerate() {
        wild |= limits[x].min(limit) < *label;
    }
    wild
}

// Whether a label is above the limit of its column or its row.
fn has_wild(w: usize, h: usize, element: u32, labels: &[u8]) -> bool
    requires { (w ≤ max_frame) × (length labels.now ≡ w * h) × T (is_element element) }
    ensures { result ≡ is_wild w h (offsets element) labels.now }
{
    let Reach {
        left,
        right,
        up,
        down,
    } = Reach::of(element);
    let mut limits = [0u8; raster::MAX_FRAME];
    column_limits(w, left, right, &mut limits);
    for y in 0..h {
        let at = y * w;
        if row_is_wild(&labels[at..at + w], &limits, limit_at(h, up, down, y)) {
            return true;
        }
    }
    false
}

// Row 5: a point of the map leaves the frame when it is dilated to its size. One of size 0 does not: where all are, or none is there, none is looked at again.
pub fn is_wild(w: usize, h: usize, element: u32, labels: &[u8]) -> bool
    requires { (w ≤ max_frame) × (length labels.now ≡ w * h) × T (is_element element) }
    ensures { result ≡ is_wild w h (offsets element) labels.now }
{
    let tame = label_read::greatest(labels) <= 1;
    if tame {
        return false;
    }
    has_wild(w, h, element, labels)
}
