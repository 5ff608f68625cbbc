// Symbols of codes read from bytes: runs, and where a size ends.
#![tactic(auto)]

ghost use Rattle.std.specs.Prelude.{◌≡◌, ◌<◌, ◌≤◌, ◌^◌, MatchOption, length, get_or, drop};
ghost use Rattle.coding.specs.Symbols.{symbols_of};
ghost use Rattle.reading.specs.Nexts.{Nearby, next_of};
ghost use Rattle.reading.specs.Seeking.{next_run, first_run};

// A run of which `left` pixels are to be passed before its point, and the symbol after its comma.
#[derive(Clone, Copy)]
pub struct Run {
    pub left: u32,
    pub at: usize,
}

// What follows in a stream, if it can be read: the end of the size, with the symbol after it; or a run.
#[derive(Clone, Copy)]
pub enum Next {
    Ended(usize),
    Run(Run),
}

// Symbol j of a stream, unless the stream ends before it.
fn symbol(stream: &[u8], j: usize) -> Option<u8>
    ensures { MatchOption result (length (symbols_of stream.now) ≤ j) (λ a. (j < length (symbols_of stream.now)) × (a ≡ get_or (symbols_of stream.now) j 0)) }
{
    let byte = *stream.get(j / 4)?;
    Some((byte >> (6 - 2 * (j % 4))) % 4)
}

// The run that begins with its first digit at symbol `at`, digit by digit up to a comma. It is given up where the stream ends, a digit follows a leading 0,
// or the value is limit or more.
fn take_run(stream: &[u8], first: u8, at: usize, limit: u32) -> Option<Next>
    requires { (at < length (symbols_of stream.now)) × (at < 2 ^ 40) × (limit < 2 ^ 24) × (0 < first)
        × (first ≡ get_or (symbols_of stream.now) at 0) }
    ensures { (next_of (symbols_of stream.now) result ≡ next_run limit (drop at (symbols_of stream.now))) × Nearby at result }
{
    let mut v = (first - 1) as u32;
    for j in at + 1.. {
        if v >= limit {
            return None;
        }
        let s = symbol(stream, j)?;
        if s == 0 {
            return Some(Next::Run(Run { left: v, at: j + 1 }));
        }
        let lead = v == 0;
        if lead {
            return None;
        }
        v = v * 3 + (s - 1) as u32;
    }
    None
}

// What follows a run and its comma: a comma ends the size, otherwise a run begins at symbol `at`.
pub fn next_run(stream: &[u8], at: usize, limit: u32) -> Option<Next>
    requires { (at < 2 ^ 40) × (limit < 2 ^ 24) }
    ensures { (next_of (symbols_of stream.now) result ≡ next_run limit (drop at (symbols_of stream.now))) × Nearby at result }
{
    let first = symbol(stream, at)?;
    if first == 0 {
        return Some(Next::Ended(at + 1));
    }
    take_run(stream, first, at, limit)
}

// What a size begins with: two commas end it, otherwise a run begins at symbol `at`.
pub fn first_run(stream: &[u8], at: usize, limit: u32) -> Option<Next>
    requires { (at < 2 ^ 40) × (limit < 2 ^ 24) }
    ensures { (next_of (symbols_of stream.now) result ≡ first_run limit (drop at (symbols_of stream.now))) × Nearby at result }
{
    let first = symbol(stream, at)?;
    if first != 0 {
        return take_run(stream, first, at, limit);
    }
    let digit = symbol(stream, at + 1)? != 0;
    if digit {
        return None;
    }
    Some(Next::Ended(at + 2))
}
