// Points read from labels: the largest label, rows with a label, points joined to a plane.
#![tactic(auto)]

ghost use Rattle.std.specs.Prelude.{◌≡◌, ◌||◌, ◌+◌, ◌*◌, ◌-◌, ◌<◌, ◌≤◌, eqb, T, length};
ghost use Rattle.morphology.specs.Image.{from_bits, is_clean, pack};
ghost use Rattle.morphology.specs.Lists.{greatest as greatest_of, some_of};
ghost use Rattle.raster.specs.Limits.{max_frame};
ghost use Rattle.raster.specs.Rows.{Pixelwise, overwrite};
ghost use Rattle.label_read.specs.Points.{greatest_below, is_label, Tops, with_points};

use raster::Frame;

// The largest label.
pub fn greatest(labels: &[u8]) -> u8
    ensures { result ≡ greatest_of labels.now }
{
    let mut m: u8 = 0;
    for b in labels {
        m = m.max(*b);
    }
    m
}

// The largest label of a row that is below v.
fn greatest_below(row: &[u8], v: u8) -> u8
    ensures { result ≡ greatest_below v row.now }
{
    let mut m: u8 = 0;
    for b in row {
        let below = if *b < v { *b } else { 0 };
        m = m.max(below);
    }
    m
}

// The largest label of each row.
pub fn row_tops(labels: &[u8], w: usize, h: usize, tops: &mut [u8])
    requires { (w ≤ max_frame) × (length labels.now ≡ w * h) × (h ≤ length tops.old) × (length tops.old ≤ max_frame) }
    ensures { Tops w h (greatest_of labels.now) labels.now tops.new }
{
    for y in 0..h {
        let a = y * w;
        tops[y] = greatest(&labels[a..a + w]);
    }
}

// Whether a label of the row is v.
pub fn has_label(row: &[u8], v: u8) -> bool
    ensures { result ≡ some_of (λ b. eqb b v) row.now }
{
    let mut seen = false;
    for b in row {
        seen |= *b == v;
    }
    seen
}

// The labels that are v, at most eight of them, as bits, the first one highest.
fn bits_of(part: &[u8], v: u8) -> u8
    requires { length part.now ≤ 8 }
    ensures { result ≡ from_bits (is_label part.now v) 0 (length part.now) }
{
    let mut bits: u8 = 0;
    for b in part {
        bits = bits * 2 + u8::from(*b == v);
    }
    bits
}

// The eight labels from x on that are v, as a byte; none is past the row's end. Most eights have none.
fn byte_of(row: &[u8], x: usize, v: u8) -> u8
    requires { x < length row.now }
    ensures { result ≡ from_bits (is_label row.now v) x 8 }
{
    let m = row.len() - x;
    if m < 8 {
        return bits_of(&row[x..], v) << ((8 - m) as u32);
    }
    if !has_label(&row[x..x + 8], v) {
        return 0;
    }
    bits_of(&row[x..x + 8], v)
}

// The labels of a row that are v joined to its pixels.
fn join_labels(row: &[u8], v: u8, pixels: &mut [u8])
    requires { 8 * length pixels.old < length row.now + 8 }
    ensures { Pixelwise pixels.old pixels.new (λ x b. b || is_label row.now v x) }
{
    for i in 0..pixels.len() {
        pixels[i] |= byte_of(row, 8 * i, v);
    }
}

// The same, where top is the row's largest label not above v: a row without label v is passed over. Answers the largest label below v.
fn add_row(row: &[u8], top: u8, v: u8, pixels: &mut [u8]) -> u8
    requires { (top ≡ greatest_below (v + 1) row.now) × (8 * length pixels.old < length row.now + 8) }
    ensures { (result ≡ greatest_below v row.now)
        × Pixelwise pixels.old pixels.new (λ x b. b || is_label row.now v x) }
{
    if top < v {
        return top;
    }
    join_labels(row, v, pixels);
    greatest_below(row, v)
}

// The points with label v joined to a plane. tops holds each row's largest label not above v, and then that below v.
pub fn add_points(labels: &[u8], tops: &mut [u8], f: Frame, v: u8, plane: &mut [u8])
    requires { (0 < v) × (length labels.now ≡ f.w * f.h) × (f.h * f.r ≤ length plane.old) × T (is_clean f.w f.h plane.old)
        × Tops f.w f.h v labels.now tops.old × (f.h ≤ length tops.old) }
    ensures plane { plane.new ≡ overwrite 0 (pack f.w f.h (with_points f.w f.h labels.now v plane.old)) plane.old }
    ensures tops { Tops f.w f.h (v - 1) labels.now tops.new }
{
    let Frame { w, h, r, .. } = f;
    for y in 0..h {
        let a = y * w;
        let d = y * r;
        tops[y] = add_row(&labels[a..a + w], tops[y], v, &mut plane[d..d + r]);
    }
}
