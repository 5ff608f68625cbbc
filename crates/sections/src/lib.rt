// The runs of one size, from a plane of foreground and a plane of mask: measured, or written.
#![tactic(auto)]

mod words;

ghost use Rattle.std.specs.Prelude.{◌≡◌, ◌+◌, ◌*◌, ◌/◌, ◌<◌, ◌≤◌, ◌^◌, T, length, drop, min};
ghost use Rattle.morphology.specs.Image.{image_set, is_clean, ones_of};
ghost use Rattle.raster.specs.Limits.{max_frame};
ghost use Rattle.sections.specs.Kinds.{runs_of, kinds_from};
ghost use Rattle.sections.specs.Pens.{Marked, PenRoom, PenWalked};
ghost use Rattle.sections.specs.Words.{Word, row_kinds};

use raster::Frame;
pub use words::{Measure, Pen, Place, Write};

// Eight bytes from i on as one number.
fn load(s: &[u8], i: usize) -> u64
    requires { i + 8 ≤ length s.now }
    ensures { Word s.now (8 * i) 64 result }
{
    u64::from_be_bytes([
        s[i],
        s[i + 1],
        s[i + 2],
        s[i + 3],
        s[i + 4],
        s[i + 5],
        s[i + 6],
        s[i + 7],
    ])
}

// The n bytes from i on as one number; eight bytes are one load.
pub fn load_few(s: &[u8], i: usize, n: usize) -> u64
    requires { (i + n ≤ length s.now) × (n ≤ 8) }
    ensures { Word s.now (8 * i) (8 * n) result }
{
    if n == 8 {
        return load(s, i);
    }
    let mut v: u64 = 0;
    for k in 0..n {
        v = v * 256 + s[i + k] as u64;
    }
    v
}

// The runs that end in the first m pixels of the rows at bytes a, of foreground, and b, of mask.
fn walk_few<P: Pen>(s: &[u8], a: usize, b: usize, m: usize, pen: Place, out: &mut [u8]) -> Place
    requires { (0 < m) × (m ≤ 64) × (a + (m + 7) / 8 ≤ length s.now) × (b + (m + 7) / 8 ≤ length s.now) × (pen.run < 2 ^ 24)
        × PenRoom P.down out.old pen.at (runs_of pen.run (row_kinds s.now a b 0 m)) }
    ensures { PenWalked P.down (row_kinds s.now a b 0 m) out.old out.new pen.at pen.run result.at result.run }
{
    let n = (m + 7) / 8;
    let padding = (8 * n - m) as u32;
    let ink = load_few(s, a, n) >> padding;
    let mask = load_few(s, b, n) >> padding;
    words::walk_word::<P>(m as u32, ink, mask, pen, out)
}

// The same for 64 pixels, a whole word; where the rows are the same there it has no point, and what the pen knows at once is not walked.
fn walk_whole<P: Pen>(s: &[u8], a: usize, b: usize, pen: Place, out: &mut [u8]) -> Place
    requires { (a + 8 ≤ length s.now) × (b + 8 ≤ length s.now) × (pen.run < 2 ^ 24) × PenRoom P.down out.old pen.at (runs_of pen.run (row_kinds s.now a b 0 64)) }
    ensures { PenWalked P.down (row_kinds s.now a b 0 64) out.old out.new pen.at pen.run result.at result.run }
{
    let ink = load(s, a);
    let mask = load(s, b);
    if ink == mask {
        return Place {
            at: pen.at,
            run: pen.run + u64::count_ones(u64::MAX ^ mask),
        };
    }
    if let Some(end) = P::at_once(ink, mask, pen) {
        return end;
    }
    words::walk_word::<P>(64, ink, mask, pen, out)
}

// The same for rows of any width, by whole words and what is left.
fn walk_row<P: Pen>(s: &[u8], a: usize, b: usize, w: usize, mut pen: Place, out: &mut [u8]) -> Place
    requires { (a + (w + 7) / 8 ≤ length s.now) × (b + (w + 7) / 8 ≤ length s.now) × (pen.run + w < 2 ^ 24) × (w ≤ max_frame)
        × PenRoom P.down out.old pen.at (runs_of pen.run (row_kinds s.now a b 0 w)) }
    ensures { PenWalked P.down (row_kinds s.now a b 0 w) out.old out.new pen.at pen.run result.at result.run }
{
    for k in 0..w / 64 {
        pen = walk_whole::<P>(s, a + 8 * k, b + 8 * k, pen, out);
    }
    let left = w % 64;
    if left == 0 {
        return pen;
    }
    let x = w / 64 * 8;
    walk_few::<P>(s, a + x, b + x, left, pen, out)
}

// The foreground pixels of some bytes; none are counted where there is none.
pub fn ink_of(s: &[u8]) -> u32
    requires { length s.now < 2 ^ 20 }
    ensures { result ≡ ones_of s.now }
{
    if !raster::has_ink(s) {
        return 0;
    }
    raster::count_ones(s)
}

// The runs that end in the n rows of the first plane under the plane at q; where the two are the same there is none, and what is not masked is counted at once.
fn walk_block<P: Pen>(f: Frame, q: usize, s: &[u8], mut pen: Place, out: &mut [u8]) -> Place
    requires { (f.h * f.r ≤ q) × (q + f.h * f.r ≤ length s.now) × T (is_clean f.w f.h (drop q s.now)) × (pen.run + f.w * f.h < 2 ^ 24)
        × PenRoom P.down out.old pen.at (runs_of pen.run (kinds_from f.w (image_set f.w f.h s.now) (image_set f.w f.h (drop q s.now)) 0 (f.w * f.h))) }
    ensures { PenWalked P.down (kinds_from f.w (image_set f.w f.h s.now) (image_set f.w f.h (drop q s.now)) 0 (f.w * f.h))
        out.old out.new pen.at pen.run result.at result.run }
{
    let Frame { w, h, r, .. } = f;
    if raster::same_rows(s, 0, q, h * r) {
        let covered = ink_of(&s[q..q + h * r]);
        let pixels = (w * h) as u32;
        return Place {
            at: pen.at,
            run: pen.run + (pixels - covered),
        };
    }
    for y in 0..h {
        let a = y * r;
        pen = walk_row::<P>(s, a, q + a, w, pen, out);
    }
    pen
}

// The rows of a block.
const BLOCK: usize = 4;

// How many rows a block has that begins with row y: four, or those that are left.
pub fn block_rows(y: usize, h: usize) -> usize
    requires { y < h }
    ensures { (0 < result) × (y + result ≤ h) × (y + result ≡ min (y + BLOCK) h) }
{
    (h - y).min(BLOCK)
}

// The runs that end in the h rows of the first plane under the plane at q, block by block.
fn walk_blocks<P: Pen>(f: Frame, q: usize, s: &[u8], mut pen: Place, out: &mut [u8]) -> Place
    requires { (f.h * f.r ≤ q) × (q + f.h * f.r ≤ length s.now) × T (is_clean f.w f.h (drop q s.now)) × (pen.run + f.w * f.h < 2 ^ 24)
        × PenRoom P.down out.old pen.at (runs_of pen.run (kinds_from f.w (image_set f.w f.h s.now) (image_set f.w f.h (drop q s.now)) 0 (f.w * f.h))) }
    ensures { PenWalked P.down (kinds_from f.w (image_set f.w f.h s.now) (image_set f.w f.h (drop q s.now)) 0 (f.w * f.h))
        out.old out.new pen.at pen.run result.at result.run }
{
    let Frame { w, h, r, .. } = f;
    for y in (0..h).step_by(BLOCK) {
        let n = block_rows(y, h);
        let band = Frame {
            w,
            h: n,
            r,
            p: n * r,
        };
        pen = walk_block::<P>(band, q, &s[y * r..], pen, out);
    }
    pen
}

// The runs that end in the h rows of the first plane under the plane at q, where `run` pixels were counted before them; none where the two are the same.
// Answers where the pen stands.
pub fn walk_plane<P: Pen>(
    f: Frame,
    q: usize,
    s: &[u8],
    at: usize,
    run: u32,
    out: &mut [u8],
) -> usize
    requires { (f.h * f.r ≤ q) × (q + f.h * f.r ≤ length s.now) × T (is_clean f.w f.h (drop q s.now)) × (run + f.w * f.h < 2 ^ 24)
        × PenRoom P.down out.old at (runs_of run (kinds_from f.w (image_set f.w f.h s.now) (image_set f.w f.h (drop q s.now)) 0 (f.w * f.h))) }
    ensures { Marked P.down (runs_of run (kinds_from f.w (image_set f.w f.h s.now) (image_set f.w f.h (drop q s.now)) 0 (f.w * f.h)))
        out.old out.new at result }
{
    if raster::same_rows(s, 0, q, f.h * f.r) {
        return at;
    }
    let pen = Place { at, run };
    walk_blocks::<P>(f, q, s, pen, out).at
}
