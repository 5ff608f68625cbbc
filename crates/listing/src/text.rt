// Text appended to a buffer: each function writes from `at` on and answers where the text ends.
ghost use Rattle.std.specs.Prelude.{[], ◌∷◌, map, ◌≡◌, ◌*◌, length};
ghost use Rattle.listing.specs.Appended.{Appended, TextFits};
ghost use Rattle.listing.specs.Text.{decimal, line, map_text, word_at};

// A byte.
pub fn put(byte: u8, at: usize, out: &mut [u8]) -> usize
    requires { TextFits (byte ∷ []) at out.old }
    ensures { Appended (byte ∷ []) at result out.old out.new }
{
    out[at] = byte;
    at + 1
}

// Bytes.
pub fn put_bytes(text: &[u8], at: usize, out: &mut [u8]) -> usize
    requires { TextFits text.now at out.old }
    ensures { Appended text.now at result out.old out.new }
{
    let end = at + text.len();
    out[at..end].copy_from_slice(text);
    end
}

// A number in decimal.
pub fn put_decimal(n: u32, at: usize, out: &mut [u8]) -> usize
    requires { TextFits (decimal n) at out.old }
    ensures { Appended (decimal n) at result out.old out.new }
{
    let short = n < 10;
    if short {
        return put(b'0' + n as u8, at, out);
    }
    let last = put_decimal(n / 10, at, out);
    put(b'0' + (n % 10) as u8, last, out)
}

// Word i of a line, a number, after a space but for the first.
pub fn put_word(i: usize, n: u32, at: usize, out: &mut [u8]) -> usize
    requires { TextFits (word_at i (decimal n)) at out.old }
    ensures { Appended (word_at i (decimal n)) at result out.old out.new }
{
    if i == 0 {
        return put_decimal(n, at, out);
    }
    let word = put(b' ', at, out);
    put_decimal(n, word, out)
}

// A row of labels as a line.
pub fn put_row(row: &[u8], at: usize, out: &mut [u8]) -> usize
    requires { TextFits (line (map decimal row.now)) at out.old }
    ensures { Appended (line (map decimal row.now)) at result out.old out.new }
{
    let mut next = at;
    for (i, label) in row.iter().enumerate() {
        next = put_word(i, *label as u32, next, out);
    }
    put(b'\n', next, out)
}

// A map of h rows of w labels.
pub fn put_map(w: usize, h: usize, labels: &[u8], at: usize, out: &mut [u8]) -> usize
    requires { (length labels.now ≡ w * h) × TextFits (map_text w h labels.now) at out.old }
    ensures { Appended (map_text w h labels.now) at result out.old out.new }
{
    let mut next = at;
    for y in 0..h {
        next = put_row(&labels[y * w..y * w + w], next, out);
    }
    next
}
