// The points of one size, read from a stream into a plane that has their mask.
#![tactic(auto)]

ghost use Rattle.std.specs.Prelude.{◌||◌, ◌≡◌, ◌+◌, ◌*◌, ◌-◌, ◌/◌, ◌<◌, ◌≤◌, ◌^◌, T, length};
ghost use Rattle.coding.specs.Symbols.{symbols_of};
ghost use Rattle.morphology.specs.Element.{bit};
ghost use Rattle.morphology.specs.Image.{is_clean};
ghost use Rattle.raster.specs.Limits.{max_frame};
ghost use Rattle.raster.specs.Rows.{RowIs, row_bit};
ghost use Rattle.placing.specs.Planes.{PixelsWalked, SizeRead, plane_place, row_place};

use raster::Frame;
use reading::{Next, Run};

// Joins the foreground of a word of n bytes to those at a.
fn store(plane: &mut [u8], a: usize, n: usize, v: u64)
    requires { (a + n ≤ length plane.old) × (n ≤ 8) × (v < 2 ^ (8 * n)) }
    ensures { RowIs a n plane.old plane.new (λ x. row_bit plane.old (8 * a + x) || bit v (8 * n - 1 - x)) }
{
    let bytes = v.to_be_bytes();
    for i in 0..n {
        plane[a + i] |= bytes[8 - n + i];
    }
}

// The points in the first m pixels at byte a.
fn place_few(
    stream: &[u8],
    limit: u32,
    m: usize,
    a: usize,
    run: Run,
    plane: &mut [u8],
) -> Option<Next>
    requires { (0 < m) × (m ≤ 64) × (m ≤ limit) × (a + (m + 7) / 8 ≤ length plane.old) × (run.left < limit) × (limit < 2 ^ 24) × (run.at < 2 ^ 39) }
    ensures { PixelsWalked (symbols_of stream.now) limit m (row_place a) run.left run.at plane.old plane.new result }
{
    let n = (m + 7) / 8;
    let padding = 8 * n - m;
    let mask = sections::load_few(&plane[..], a, n) >> padding;
    let placed = seeking::place_word(stream, limit, m as u32, mask, run);
    if placed.points != 0 {
        store(plane, a, n, placed.points << padding);
    }
    placed.next
}

// The points in a row of w pixels at byte a, word by word.
fn place_row(
    stream: &[u8],
    limit: u32,
    w: usize,
    a: usize,
    mut run: Run,
    plane: &mut [u8],
) -> Option<Next>
    requires { (0 < w) × (w ≤ limit) × (w ≤ max_frame) × (a + (w + 7) / 8 ≤ length plane.old) × (run.left < limit) × (limit < 2 ^ 24) × (run.at < 2 ^ 38) }
    ensures { PixelsWalked (symbols_of stream.now) limit w (row_place a) run.left run.at plane.old plane.new result }
{
    let words = (w - 1) / 64;
    for x in 0..words {
        let next = place_few(stream, limit, 64, a + 8 * x, run, plane)?;
        let Next::Run(after) = next else {
            return Some(next);
        };
        run = after;
    }
    place_few(stream, limit, w - 64 * words, a + 8 * words, run, plane)
}

// The points in n rows of r bytes; where they all come later, what is not masked is counted at once.
fn place_block(stream: &[u8], limit: u32, f: Frame, mut run: Run, block: &mut [u8]) -> Option<Next>
    requires { (f.w ≤ limit) × (f.h * f.r ≤ length block.old) × T (is_clean f.w f.h block.old) × (run.left < limit) × (limit < 2 ^ 24) × (run.at < 2 ^ 37) }
    ensures { PixelsWalked (symbols_of stream.now) limit (f.w * f.h) (plane_place f.w f.r) run.left run.at block.old block.new result }
{
    let Frame { w, h, r, .. } = f;
    let covered = sections::ink_of(&block[..h * r]);
    let free = (w * h) as u32 - covered;
    if free <= run.left {
        let left = run.left - free;
        return Some(Next::Run(Run { left, at: run.at }));
    }
    for y in 0..h {
        let next = place_row(stream, limit, w, y * r, run, block)?;
        let Next::Run(after) = next else {
            return Some(next);
        };
        run = after;
    }
    Some(Next::Run(run))
}

// The points in h rows, block by block.
fn place_blocks(stream: &[u8], limit: u32, f: Frame, mut run: Run, plane: &mut [u8]) -> Option<Next>
    requires { (f.w ≤ limit) × (length plane.old ≡ f.h * f.r) × T (is_clean f.w f.h plane.old) × (run.left < limit) × (limit < 2 ^ 24)
        × (run.at < 2 ^ 36 + 2 ^ 24) }
    ensures { PixelsWalked (symbols_of stream.now) limit (f.w * f.h) (plane_place f.w f.r) run.left run.at plane.old plane.new result }
{
    let Frame { w, h, r, .. } = f;
    let mut y: usize = 0;
    while y < h {
        let n = sections::block_rows(y, h);
        let band = Frame {
            w,
            h: n,
            r,
            p: n * r,
        };
        let next = place_block(stream, limit, band, run, &mut plane[y * r..])?;
        let Next::Run(after) = next else {
            return Some(next);
        };
        run = after;
        y += n;
    }
    Some(Next::Run(run))
}

// One size, from symbol `at` on, over the pixels outside the mask that a plane has: its points are joined to the mask. Answers the symbol after it, if it can
// be read.
pub fn read_size(stream: &[u8], at: usize, f: Frame, plane: &mut [u8]) -> Option<usize>
    requires { (0 < f.h) × (length plane.old ≡ f.h * f.r) × T (is_clean f.w f.h plane.old) × (at < 2 ^ 36) }
    ensures { SizeRead (symbols_of stream.now) f.w f.h at plane.old plane.new result }
{
    let Frame { w, h, .. } = f;
    let limit = (w * h) as u32;
    match reading::first_run(stream, at, limit)? {
        Next::Ended(end) => Some(end),
        Next::Run(first) => match place_blocks(stream, limit, f, first, plane)? {
            Next::Ended(end) => Some(end),
            Next::Run(past) => None,
        },
    }
}
