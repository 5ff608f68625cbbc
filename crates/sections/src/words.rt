// Words of up to 64 pixels: the runs that end in them, measured or written.
ghost use Rattle.std.specs.Prelude.{Bool, false, true, ◌≡◌, List, [], ◌∷◌, IfSome, ℕ, ◌+◌, ◌-◌, ◌*◌, ◌/◌, ◌<◌, ◌≤◌, ◌^◌, T, length, replicate};
ghost use Rattle.std.specs.Int.Count.{ones};
ghost use Rattle.coding.specs.Writing.{runs_symbols};
ghost use Rattle.sections.specs.Kinds.{count_after, runs_of};
ghost use Rattle.sections.specs.Pens.{Marked, PenRoom, PenWalked};
ghost use Rattle.sections.specs.Words.{Dense, word_kinds};

// Where a pen stands in a stream of symbols, and the pixels counted since the last point.
#[derive(Clone, Copy)]
pub struct Place {
    pub at: usize,
    pub run: u32,
}

// What a pen does at runs: it writes them, where it is down, or it only moves as far as they reach.
pub trait Pen {
    ghost down: { Bool };

    // One run and its comma. Answers where the next stands.
    fn end_run(at: usize, run: u32, out: &mut [u8]) -> usize
        requires { PenRoom down out.old at (run ∷ []) }
        ensures { Marked down (run ∷ []) out.old out.new at result };

    // n runs of no pixel, each with its comma.
    fn empty_runs(at: usize, n: u32, out: &mut [u8]) -> usize
        requires { PenRoom down out.old at (replicate n 0) }
        ensures { Marked down (replicate n 0) out.old out.new at result };

    // The runs that end in a whole word, where they are known at once and none is written.
    fn at_once(ink: u64, mask: u64, pen: Place) -> Option<Place>
        requires { (pen.run < 2 ^ 24) × (pen.at + length (runs_symbols (runs_of pen.run (word_kinds 64 ink mask))) < 2 ^ 40) }
        ensures { IfSome result (λ p. (s : List ℕ) → PenWalked down (word_kinds 64 ink mask) s s pen.at pen.run p.at p.run) };
}

// It is up.
pub struct Measure;

impl Pen for Measure {
    ghost down = { false };

    fn end_run(at: usize, run: u32, out: &mut [u8]) -> usize {
        at + (coding::digits(run) as usize) + 1
    }

    fn empty_runs(at: usize, n: u32, out: &mut [u8]) -> usize {
        at + 2 * n as usize
    }

    fn at_once(ink: u64, mask: u64, pen: Place) -> Option<Place> {
        if mask != 0 || !is_dense(ink) {
            return None;
        }
        Some(measure_dense(pen, ink))
    }
}

// It is down.
pub struct Write;

impl Pen for Write {
    ghost down = { true };

    fn end_run(at: usize, run: u32, out: &mut [u8]) -> usize {
        coding::put_run(out, at, run)
    }

    fn empty_runs(at: usize, n: u32, out: &mut [u8]) -> usize {
        let n = n as usize;
        for k in 0..n {
            coding::put(out, at + 2 * k, 1);
        }
        at + 2 * n
    }

    fn at_once(ink: u64, mask: u64, pen: Place) -> Option<Place> {
        None
    }
}

// How many pixels are free from height `top` down to the point at height h. Most often all of them are.
fn count_free(rest: u64, h: u32, top: u32) -> u32
    requires { (h < top) × (top ≤ 64) × (rest < 2 ^ top) }
    ensures { result ≡ ones (rest / 2 ^ h) }
{
    let d = top - h - 1;
    let gap = rest >> h;
    if gap == (u64::MAX >> (63 - d)) - 1 {
        return d;
    }
    u64::count_ones(gap)
}

// How many of the highest of h pixels are foreground, one after the other.
fn leading_points(left: u64, h: u32) -> u32
    requires { (h < 64) × (left < 2 ^ h) }
    ensures { (result ≤ h) × (left / 2 ^ (h - result) ≡ 2 ^ result - 1) }
{
    let gaps = ((1u64 << h) - 1) - left;
    if left <= gaps {
        return 0;
    }
    u64::leading_zeros(gaps) + h - 64
}

// The runs that end in the m pixels of a word of foreground and a word of mask.
pub fn walk_word<P: Pen>(m: u32, ink: u64, mask: u64, pen: Place, out: &mut [u8]) -> Place
    requires { (0 < m) × (m ≤ 64) × (ink < 2 ^ m) × (mask < 2 ^ m) × (pen.run < 2 ^ 24) × PenRoom P.down out.old pen.at (runs_of pen.run (word_kinds m ink mask)) }
    ensures { PenWalked P.down (word_kinds m ink mask) out.old out.new pen.at pen.run result.at result.run }
{
    let either = ink | mask;
    let mut left = either ^ mask;
    let mut rest = (u64::MAX >> (64 - m)) ^ either;
    let mut top = m;
    let mut j = pen.at;
    let mut k = pen.run;
    while left != 0 {
        let h = 63 - u64::leading_zeros(left);
        j = P::end_run(j, k + count_free(rest, h, top), out);
        k = 0;
        let bit = 1u64 << h;
        left %= bit;
        rest %= bit;
        top = h;
        let n = leading_points(left, h);
        if n != 0 {
            j = P::empty_runs(j, n, out);
            top = h - n;
            let low = 1u64 << top;
            left %= low;
            rest %= low;
        }
    }
    Place {
        at: j,
        run: k + u64::count_ones(rest),
    }
}

// Whether a word has no three background pixels side by side.
fn is_dense(ink: u64) -> bool
    ensures { T result → Dense 64 ink }
{
    let gaps = ink ^ u64::MAX;
    gaps & (gaps >> 1) & (gaps >> 2) == 0
}

// The runs that end in a dense word under no mask, measured: each but the first has one digit.
fn measure_dense(pen: Place, ink: u64) -> Place
    requires { Dense 64 ink × (pen.run < 2 ^ 24) × (pen.at + length (runs_symbols (runs_of pen.run (word_kinds 64 ink 0))) < 2 ^ 40) }
    ensures { (result.at ≡ pen.at + length (runs_symbols (runs_of pen.run (word_kinds 64 ink 0)))) × (result.run ≡ count_after pen.run (word_kinds 64 ink 0)) }
{
    let first = coding::digits(pen.run + u64::leading_zeros(ink));
    let rest = 2 * u64::count_ones(ink) - 1;
    Place {
        at: pen.at + ((first + rest) as usize),
        run: u64::trailing_zeros(ink),
    }
}
