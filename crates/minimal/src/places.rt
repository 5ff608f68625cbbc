// The places of a label, found one after the other.
ghost use Rattle.std.specs.Prelude.{◌<◌, ◌≤◌, length};
ghost use Rattle.minimal.specs.Sizes.{NextPlace, Without};

// Passes over blocks of k places without label v.
fn past_blocks(labels: &[u8], v: u8, k: usize, from: usize) -> usize
    requires { (from ≤ length labels.now) × (0 < k) }
    ensures { (from ≤ result) × (result ≤ length labels.now) × Without v from result labels.now }
{
    let mut i = from;
    while labels.len() - i >= k {
        if label_read::has_label(&labels[i..i + k], v) {
            return i;
        }
        i += k;
    }
    i
}

// The next place with label v, or the end; one by one.
fn past_places(labels: &[u8], v: u8, from: usize) -> usize
    requires { from ≤ length labels.now }
    ensures { NextPlace v from labels.now result }
{
    for i in from..labels.len() {
        if labels[i] == v {
            return i;
        }
    }
    labels.len()
}

// The same; most places are passed over by blocks.
pub fn next_place(labels: &[u8], v: u8, from: usize) -> usize
    requires { from ≤ length labels.now }
    ensures { NextPlace v from labels.now result }
{
    if from < labels.len() && labels[from] == v {
        return from;
    }
    let far = past_blocks(labels, v, 64, from);
    let near = past_blocks(labels, v, 16, far);
    past_places(labels, v, near)
}
