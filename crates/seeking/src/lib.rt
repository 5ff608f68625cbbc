// Words of up to 64 pixels: the points that the runs of a stream place in them.
#![tactic(auto)]

ghost use Rattle.std.specs.Prelude.{false, ◌≡◌, ℕ, ◌+◌, ◌*◌, ◌/◌, ◌<◌, ◌≤◌, ◌^◌, T, drop, replicate};
ghost use Rattle.std.specs.Int.Count.{ones};
ghost use Rattle.coding.specs.Symbols.{symbols_of};
ghost use Rattle.morphology.specs.Element.{bit};
ghost use Rattle.reading.specs.Seeking.{next_run, seek};
ghost use Rattle.seeking.specs.Words.{Advanced, Onward, WordSought, word_bits};

use reading::{Next, Run};

// The points of a word, and what follows in the stream, if it can be read.
#[derive(Clone, Copy)]
pub struct Placed {
    pub points: u64,
    pub next: Option<Next>,
}

// The height of the free pixel that k others are above.
fn pick(free: u64, k: u32) -> u32
    requires { k < ones free }
    ensures { (result < 64) × T (bit free result) × (ones (free / 2 ^ (result + 1)) ≡ k) }
{
    let mut rest = free;
    for _ in 0..k {
        rest %= 1u64 << rest.ilog2();
    }
    rest.ilog2()
}

// The points in the m pixels of a word, of which a mask covers some.
fn place_masked(stream: &[u8], limit: u32, m: u32, mask: u64, mut run: Run) -> Placed
    requires { (0 < m) × (m ≤ 64) × (mask < 2 ^ m) × (run.left < limit) × (limit < 2 ^ 24) × (run.at < 2 ^ 39) }
    ensures { WordSought (symbols_of stream.now) limit m (word_bits m mask) (seek run.left (drop run.at (symbols_of stream.now)))
        result.points result.next × Advanced limit m run.left run.at result.next }
{
    let mut free = (u64::MAX >> (64 - m)) ^ mask;
    let mut count = free.count_ones();
    let mut points: u64 = 0;
    while run.left < count {
        let bit = 1u64 << pick(free, run.left);
        points += bit;
        free %= bit;
        count = free.count_ones();
        let next = reading::next_run(stream, run.at, limit);
        let Some(follows) = next else {
            return Placed { points, next };
        };
        let Next::Run(after) = follows else {
            return Placed { points, next };
        };
        run = after;
    }
    let left = run.left - count;
    Placed {
        points,
        next: Some(Next::Run(Run { left, at: run.at })),
    }
}

// Points of runs of one or two digits, up to symbol `at`, and the pixels left below them.
#[derive(Clone, Copy)]
struct Short {
    points: u64,
    top: u32,
    at: usize,
}

// The runs of one or two digits that follow a run and its comma and end in the next `top` pixels, of which none is masked, as far as a word of symbols shows
// them. A run of one digit and its point take as many pixels as the symbol says.
fn short_runs(stream: &[u8], at: usize, top: u32) -> Short
    requires { (top ≤ 64) × (at < 2 ^ 40) }
    ensures { ((limit : ℕ) → top ≤ limit
        → Onward limit top (replicate top false) (next_run limit (drop at (symbols_of stream.now))) result.points
        result.top (replicate result.top false) (next_run limit (drop result.at (symbols_of stream.now))))
        × (result.at + 2 * result.top ≤ at + 2 * top) × (result.top ≤ top) }
{
    let mut points: u64 = 0;
    let mut rest = top;
    let mut j = at;
    if at / 4 + 8 <= stream.len() {
        let mut window = sections::load_few(stream, at / 4, 8) << (2 * (at % 4));
        let end = at + 27;
        while j < end {
            let three = (window >> 58) as u32;
            let first = three / 16;
            let mut pixels = first;
            let mut symbols = 2;
            if three / 4 % 4 != 0 {
                if three % 4 != 0 {
                    break;
                }
                let leads = first < 2;
                if leads {
                    break;
                }
                pixels = 3 * first + three / 4 % 4 - 3;
                symbols = 3;
            }
            if first == 0 || pixels > rest {
                break;
            }
            rest -= pixels;
            points += 1u64 << rest;
            window <<= 2 * symbols;
            j += symbols;
        }
    }
    Short {
        points,
        top: rest,
        at: j,
    }
}

// The points in the m pixels of a word that no mask covers.
fn place_open(stream: &[u8], limit: u32, m: u32, mut run: Run) -> Placed
    requires { (run.left < m) × (m ≤ 64) × (m ≤ limit) × (limit < 2 ^ 24) × (run.at < 2 ^ 39) }
    ensures { WordSought (symbols_of stream.now) limit m (replicate m false) (seek run.left (drop run.at (symbols_of stream.now)))
        result.points result.next × Advanced limit m run.left run.at result.next }
{
    let mut top = m - run.left - 1;
    let mut points = 1u64 << top;
    loop {
        let short = short_runs(stream, run.at, top);
        points += short.points;
        let next = reading::next_run(stream, short.at, limit);
        let Some(follows) = next else {
            return Placed { points, next };
        };
        let Next::Run(after) = follows else {
            return Placed { points, next };
        };
        if after.left >= short.top {
            let left = after.left - short.top;
            return Placed {
                points,
                next: Some(Next::Run(Run { left, at: after.at })),
            };
        }
        top = short.top - after.left - 1;
        points += 1u64 << top;
        run = after;
    }
}

// The points in the m pixels of a word of mask. Most often there is no mask, or no point.
pub fn place_word(stream: &[u8], limit: u32, m: u32, mask: u64, run: Run) -> Placed
    requires { (0 < m) × (m ≤ 64) × (m ≤ limit) × (mask < 2 ^ m) × (run.left < limit) × (limit < 2 ^ 24) × (run.at < 2 ^ 39) }
    ensures { WordSought (symbols_of stream.now) limit m (word_bits m mask) (seek run.left (drop run.at (symbols_of stream.now)))
        result.points result.next × Advanced limit m run.left run.at result.next }
{
    if mask != 0 {
        return place_masked(stream, limit, m, mask, run);
    }
    if m <= run.left {
        let left = run.left - m;
        return Placed {
            points: 0,
            next: Some(Next::Run(Run { left, at: run.at })),
        };
    }
    place_open(stream, limit, m, run)
}
