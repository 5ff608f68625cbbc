// Where a plane is not blank: the rows and bytes that a cover has to go through.
ghost use Rattle.std.specs.Prelude.{◌+◌, ◌*◌, ◌≤◌, length};
ghost use Rattle.minimal.specs.Bands.{Blank, Strip, Bounds};

// What is not blank of a plane, with a margin or not: the rows between those above and under, and of these the bytes from left on, up to right.
#[derive(Clone, Copy)]
pub struct Band {
    pub above: usize,
    pub under: usize,
    pub left: usize,
    pub right: usize,
}

// The blank bytes at the left of the row at d, left at most.
fn row_left(plane: &[u8], d: usize, left: usize) -> usize
    requires { d + left ≤ length plane.now }
    ensures { (result ≤ left) × Blank d (d + result) plane.now }
{
    for j in 0..left {
        if plane[d + j] != 0 {
            return j;
        }
    }
    left
}

// Where the blank bytes at the right of the row at d begin, right at least.
fn row_right(plane: &[u8], d: usize, r: usize, right: usize) -> usize
    requires { (d + r ≤ length plane.now) × (right ≤ r) }
    ensures { (right ≤ result) × (result ≤ r) × Blank (d + result) (d + r) plane.now }
{
    for j in (right..r).rev() {
        if plane[d + j] != 0 {
            return j + 1;
        }
    }
    right
}

// The blank bytes at the left of all rows between.
fn blank_left(plane: &[u8], r: usize, from: usize, to: usize) -> usize
    requires { to * r ≤ length plane.now }
    ensures { (result ≤ r) × Strip r from to 0 result plane.now }
{
    let mut left = r;
    for y in from..to {
        left = row_left(plane, y * r, left);
    }
    left
}

// Where those at their right begin.
fn blank_right(plane: &[u8], r: usize, from: usize, to: usize, left: usize) -> usize
    requires { (to * r ≤ length plane.now) × (left ≤ r) }
    ensures { (left ≤ result) × (result ≤ r) × Strip r from to result r plane.now }
{
    let mut right = left;
    for y in from..to {
        right = row_right(plane, y * r, r, right);
    }
    right
}

// The band of a plane.
pub fn band_of(plane: &[u8], h: usize, r: usize) -> Band
    requires { h * r ≤ length plane.now }
    ensures { Bounds h r result plane.now }
{
    let above = raster::bands::first_row(plane, r, 0, h);
    let end = raster::bands::end_row(plane, r, above, h);
    let under = h - end;
    let left = blank_left(plane, r, above, end);
    let right = blank_right(plane, r, above, end, left);
    Band {
        above,
        under,
        left,
        right,
    }
}
