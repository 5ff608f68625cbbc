// Symbols of codes written into bytes, and the digits of a run.
#![tactic(auto)]

ghost use Rattle.std.specs.Prelude.{[], ◌∷◌, ◌≡◌, ℕ, ◌+◌, ◌*◌, ◌-◌, ◌%◌, ◌<◌, ◌≤◌, ◌^◌, length, get_or, set};
ghost use Rattle.std.proofs.lemmas.List.Edits.{sets};
ghost use Rattle.coding.specs.Symbols.{digit_symbols, numeral, symbols_of};

// How far symbol j of a stream stands from the low end of its byte.
fn shift(j: usize) -> u32
    ensures { result ≡ 6 - 2 * (j % 4) }
{
    (6 - 2 * (j % 4)) as u32
}

// Writes symbol j of a stream that has a comma there.
pub fn put(stream: &mut [u8], j: usize, s: u8)
    requires { (j < 4 * length stream.old) × (s < 4) × (get_or (symbols_of stream.old) j 0 ≡ 0) }
    ensures { symbols_of stream.new ≡ set (symbols_of stream.old) j s }
{
    let i = j / 4;
    stream[i] += s << shift(j);
}

// Writes symbols j and j + 1 of a stream that has commas there, by one store where both lie in one byte.
fn put_two(stream: &mut [u8], j: usize, s: u8, t: u8)
    requires { (j < 2 ^ 40) × (j + 1 < 4 * length stream.old) × (s < 4) × (t < 4)
        × (get_or (symbols_of stream.old) j 0 ≡ 0) × (get_or (symbols_of stream.old) (j + 1) 0 ≡ 0) }
    ensures { symbols_of stream.new ≡ sets (symbols_of stream.old) j (s ∷ t ∷ []) }
{
    if j % 4 < 3 {
        let i = j / 4;
        stream[i] += (4 * s + t) << (shift(j) - 2);
        return;
    }
    put(stream, j, s);
    put(stream, j + 1, t);
}

// The number of base-3 digits of a run, counted one by one.
fn digits_long(n: u32) -> u32
    ensures { result ≡ length (numeral n) }
{
    let mut left = n;
    let mut d: u32 = 1;
    while left >= 3 {
        left /= 3;
        d += 1;
    }
    d
}

// The number of base-3 digits of a run. Most runs are short.
pub fn digits(n: u32) -> u32
    ensures { result ≡ length (numeral n) }
{
    if n < 3 {
        return 1;
    }
    if n < 9 {
        return 2;
    }
    digits_long(n)
}

// Writes the digits of a run from symbol j on, where there are commas, the lowest first; answers where the next run begins.
fn put_long(stream: &mut [u8], j: usize, n: u32) -> usize
    requires { (j < 2 ^ 40) × (j + length (numeral n) ≤ 4 * length stream.old)
        × ((k : ℕ) → k < length (numeral n) → get_or (symbols_of stream.old) (j + k) 0 ≡ 0) }
    ensures symbols { symbols_of stream.new ≡ sets (symbols_of stream.old) j (digit_symbols (numeral n)) }
    ensures next { result ≡ j + length (numeral n) + 1 }
{
    let d = digits_long(n) as usize;
    let mut left = n;
    for k in (j..j + d).rev() {
        put(stream, k, (left % 3 + 1) as u8);
        left /= 3;
    }
    j + d + 1
}

// Writes the digits of a run from symbol j on, where there are commas, and answers where the next run begins.
pub fn put_run(stream: &mut [u8], j: usize, n: u32) -> usize
    requires { (j < 2 ^ 40) × (j + length (numeral n) ≤ 4 * length stream.old)
        × ((k : ℕ) → k < length (numeral n) → get_or (symbols_of stream.old) (j + k) 0 ≡ 0) }
    ensures symbols { symbols_of stream.new ≡ sets (symbols_of stream.old) j (digit_symbols (numeral n)) }
    ensures next { result ≡ j + length (numeral n) + 1 }
{
    if n < 3 {
        put(stream, j, (n + 1) as u8);
        return j + 2;
    }
    if n < 9 {
        put_two(stream, j, (n / 3 + 1) as u8, (n % 3 + 1) as u8);
        return j + 3;
    }
    put_long(stream, j, n)
}
