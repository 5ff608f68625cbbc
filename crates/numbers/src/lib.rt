// Numbers in bytes, lowest first.
#![tactic(auto)]

ghost use Rattle.std.specs.Prelude.{◌≡◌, ◌+◌, ◌*◌, ◌≤◌, length};
ghost use Rattle.numbers.specs.Numbers.{counter_bytes, counters_of, four_bytes, number_at};

// The number of the four bytes at a place.
pub fn number(s: &[u8], at: usize) -> u32
    requires { at + 4 ≤ length s.now }
    ensures { result ≡ number_at s.now at }
{
    u32::from_le_bytes(s[at..at + 4].try_into().unwrap())
}

// The four bytes of a number.
pub fn four_bytes(n: u32) -> [u8; 4]
    ensures { result ≡ four_bytes n }
{
    n.to_le_bytes()
}

// Counters become the numbers of two bytes each.
pub fn read_counters(bytes: &[u8], counters: &mut [u16])
    requires { length bytes.now ≡ 2 * length counters.old }
    ensures { counters.new ≡ counters_of bytes.now }
{
    for i in 0..counters.len() {
        counters[i] = u16::from_le_bytes([bytes[2 * i], bytes[2 * i + 1]]);
    }
}

// Bytes become the counters' numbers, two bytes each.
pub fn write_counters(counters: &[u16], bytes: &mut [u8])
    requires { length bytes.old ≡ 2 * length counters.now }
    ensures { bytes.new ≡ counter_bytes counters.now }
{
    for i in 0..counters.len() {
        let [low, high] = counters[i].to_le_bytes();
        bytes[2 * i] = low;
        bytes[2 * i + 1] = high;
    }
}
