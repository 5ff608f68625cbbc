// What a point covers, in counters: counted up, tested, counted down.
ghost use Rattle.std.specs.Prelude.{◌≡◌, true, false, ◌+◌, ◌*◌, ◌<◌, ◌^◌};
ghost use Rattle.morphology.specs.Image.{bit_of};
ghost use Rattle.raster.specs.Rows.{row_bit};
ghost use Rattle.minimal.specs.Bands.{InBand, CoverRow, ink_at};
ghost use Rattle.minimal.specs.Moves.{below, Task, count, test, Takes, Slot, after, passes, Ready, Done};

use crate::bands::Band;
use raster::Frame;

// What is done at each counter of a cover.
pub trait Visit {
    ghost task: { Task };

    // Whether the cover is gone through further.
    fn visit(counter: &mut u16) -> bool
        requires { Takes task counter.old }
        ensures { (counter.new ≡ after task counter.old) × (result ≡ passes task counter.old) };
}

// One more.
pub struct Up;

impl Visit for Up {
    ghost task = { count true };

    fn visit(counter: &mut u16) -> bool {
        *counter += 1;
        true
    }
}

// One less.
pub struct Down;

impl Visit for Down {
    ghost task = { count false };

    fn visit(counter: &mut u16) -> bool {
        *counter -= 1;
        true
    }
}

// Whether it is two or more.
pub struct Twice;

impl Visit for Twice {
    ghost task = { test };

    fn visit(counter: &mut u16) -> bool {
        *counter >= 2
    }
}

// The counter of a pixel that is moved from a to at, where it is foreground.
fn visit_pixel<V: Visit>(ink: bool, at: usize, a: usize, counters: &mut [u16]) -> bool
    requires { ink ≡ true → Slot V.task at a counters.old }
    ensures { Done V.task (below 1 (λ _. ink)) at a counters.old counters.new result }
{
    if ink {
        return V::visit(&mut counters[at - a]);
    }
    true
}

// The counters of a byte's eight pixels.
fn visit_bits<V: Visit>(b: u8, at: usize, a: usize, counters: &mut [u16]) -> bool
    requires { (at < 2 ^ 32) × Ready V.task (below 8 (bit_of b)) at a counters.old }
    ensures { Done V.task (below 8 (bit_of b)) at a counters.old counters.new result }
{
    let mut all = true;
    for k in 0..8 {
        all &= visit_pixel::<V>(raster::is_ink(b, k), at + k, a, counters);
    }
    all
}

// The same; a blank byte is passed over, and a full one is known where it is compiled.
fn visit_byte<V: Visit>(b: u8, at: usize, a: usize, counters: &mut [u16]) -> bool
    requires { (at < 2 ^ 32) × Ready V.task (below 8 (bit_of b)) at a counters.old }
    ensures { Done V.task (below 8 (bit_of b)) at a counters.old counters.new result }
{
    match b {
        0 => true,
        255 => visit_bits::<V>(255, at, a, counters),
        _ => visit_bits::<V>(b, at, a, counters),
    }
}

// The counters of a row's pixels: the r bytes at d, blank before left and from right on.
fn visit_row<V: Visit>(
    plane: &[u8],
    d: usize,
    r: usize,
    left: usize,
    right: usize,
    at: usize,
    a: usize,
    counters: &mut [u16],
) -> bool
    requires { CoverRow d r left right at plane.now
        × Ready V.task (below (8 * r) (λ k. row_bit plane.now (8 * d + k))) at a counters.old }
    ensures { Done V.task (below (8 * r) (λ k. row_bit plane.now (8 * d + k))) at a counters.old counters.new result }
{
    for j in left..right {
        if !visit_byte::<V>(plane[d + j], at + 8 * j, a, counters) {
            return false;
        }
    }
    true
}

// The counters of a plane's pixels, moved from a to i, as long as each says that it goes on. Whether all do.
pub fn visit_cover<V: Visit>(
    plane: &[u8],
    f: Frame,
    band: Band,
    a: usize,
    i: usize,
    counters: &mut [u16],
) -> bool
    requires { InBand f.w f.h f.r band plane.now × (i < 2 ^ 30) × Ready V.task (below (f.w * f.h) (ink_at f.w f.h plane.now)) i a counters.old }
    ensures { Done V.task (below (f.w * f.h) (ink_at f.w f.h plane.now)) i a counters.old counters.new result }
{
    let Frame { w, h, r, .. } = f;
    for y in band.above..h - band.under {
        let d = y * r;
        let at = i + y * w;
        if !visit_row::<V>(plane, d, r, band.left, band.right, at, a, counters) {
            return false;
        }
    }
    true
}
