// The band of rows of a plane that holds ink.
ghost use Rattle.std.specs.Prelude.{◌*◌, ◌≤◌, length};
ghost use Rattle.raster.specs.Bands.{FirstRow, EndRow};

// The first row of r bytes from row from on that has ink; to if there is none before it.
pub fn first_row(s: &[u8], r: usize, from: usize, to: usize) -> usize
    requires { (from ≤ to) × (to * r ≤ length s.now) }
    ensures { FirstRow r from to s.now result }
{
    for y in from..to {
        let at = y * r;
        if crate::has_ink(&s[at..at + r]) {
            return y;
        }
    }
    to
}

// One past the last row of r bytes before row to that has ink; from if there is none from it on.
pub fn end_row(s: &[u8], r: usize, from: usize, to: usize) -> usize
    requires { (from ≤ to) × (to * r ≤ length s.now) }
    ensures { EndRow r from to s.now result }
{
    for y in (from..to).rev() {
        let at = y * r;
        if crate::has_ink(&s[at..at + r]) {
            return y + 1;
        }
    }
    from
}
