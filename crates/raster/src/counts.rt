// Ones counted by words of eight bytes, seven words at a time.
ghost use Rattle.std.specs.Prelude.{◌≡◌, ◌+◌, ◌*◌, ◌%◌, ◌<◌, ◌≤◌, ◌^◌, length, take};
ghost use Rattle.std.specs.Int.Count.{ones};
ghost use Rattle.morphology.specs.Image.{ones_of};
ghost use Rattle.raster.specs.Counts.{Gathered, ones_apart};

// The ones of three words at each of their 64 places, as a number of two binary digits.
#[derive(Clone, Copy)]
struct Sums {
    low: u64,
    high: u64,
}

// The number of ones in a word.
fn count_word(v: u64) -> u64
    ensures { (result ≡ ones v) × (result ≤ 64) }
{
    u64::from(v.count_ones())
}

// The eight bytes from i on as one number: the compiler makes one load of them.
fn word(s: &[u8], i: usize) -> u64
    requires { i + 8 ≤ length s.now }
    ensures { Gathered s.now i 8 result }
{
    u64::from_le_bytes(s[i..i + 8].try_into().unwrap())
}

// Three words added place by place.
fn add_three(a: u64, b: u64, c: u64) -> Sums
    ensures { ones result.low + 2 * ones result.high ≡ ones a + ones b + ones c }
{
    let x = a ^ b;
    Sums {
        low: x ^ c,
        high: (a & b) | (x & c),
    }
}

// Three words, p bytes apart, the first at i, added place by place.
fn add_apart(s: &[u8], p: usize, i: usize) -> Sums
    requires { i + 2 * p + 8 ≤ length s.now }
    ensures { ones result.low + 2 * ones result.high ≡ ones_apart s.now p 8 i 3 }
{
    add_three(word(s, i), word(s, i + p), word(s, i + p + p))
}

// The number of ones in seven words, p bytes apart, the first at i: three counts in place of seven.
fn count_apart(s: &[u8], p: usize, i: usize) -> u64
    requires { i + 6 * p + 8 ≤ length s.now }
    ensures { (result ≡ ones_apart s.now p 8 i 7) × (result ≤ 448) }
{
    let a = add_apart(s, p, i);
    let b = add_apart(s, p, i + 3 * p);
    let one = add_three(a.low, b.low, word(s, i + 6 * p));
    let two = add_three(a.high, b.high, one.high);
    count_word(one.low) + 2 * count_word(two.low) + 4 * count_word(two.high)
}

// The number of ones in seven parts of p bytes, a word of each part at a time.
fn count_parts(s: &[u8], p: usize) -> u64
    requires { (p % 8 ≡ 0) × (7 * p ≤ length s.now) × (length s.now < 2 ^ 20) }
    ensures { (result ≡ ones_of (take (7 * p) s.now)) × (result ≤ 56 * p) }
{
    let mut n = 0;
    for k in 0..p / 8 {
        n += count_apart(s, p, 8 * k);
    }
    n
}

// The number of ones in some bytes: by words, and what is left by bytes.
fn count_few(s: &[u8]) -> u64
    requires { length s.now < 2 ^ 20 }
    ensures { (result ≡ ones_of s.now) × (result ≤ 64 * length s.now) }
{
    let (words, rest) = s.as_chunks();
    let mut n = 0;
    for w in words {
        n += count_word(u64::from_le_bytes(*w));
    }
    for b in rest {
        n += count_word(u64::from(*b));
    }
    n
}

// The number of ones in the bytes of s: in seven parts of equal length, a multiple of four words, and in what is left.
pub fn count_ones(s: &[u8]) -> u32
    requires { length s.now < 2 ^ 20 }
    ensures { result ≡ ones_of s.now }
{
    let p = s.len() / 224 * 32;
    let parts = count_parts(s, p);
    (parts + count_few(&s[7 * p..])) as u32
}
