// The program of 01 but for its reading and writing: from the bytes read to the bytes printed.
#![tactic(auto)]

mod answer;
mod text;

ghost use Rattle.std.specs.Prelude.{◌≡◌, ◌+◌, ◌*◌, length, replicate};
ghost use Rattle.morphology.specs.Image.{plane_bytes};
ghost use Rattle.listing.specs.Appended.{Appended, Listed, TextFits};
ghost use Rattle.listing.specs.Printed.{longest, outcome_text, printed, side, side_bytes, taken};

use refusals::Refusal;

// The largest side, a byte, and the bytes of the longest row.
const SIDE: usize = 255;

const STRIDE: usize = (SIDE + 7) / 8;

// Bytes to read: one more than the longest input has, which is then refused (`printed-enough`).
pub const INPUT: usize = 6 + SIDE * STRIDE + 1;

// The longest output: the first line, and labels of three digits, each with what ends it.
pub const OUTPUT: usize = 18 + SIDE * SIDE * 4;

// An image decomposed in labels and work of its size, and listed.
fn list_within(
    w: u32,
    h: u32,
    element: u32,
    image: &[u8],
    labels: &mut [u8],
    work: &mut [u8],
    out: &mut [u8],
) -> usize
    requires { (labels.old ≡ replicate (w * h) 0) × (work.old ≡ replicate (3 * plane_bytes w h) 0)
        × TextFits (outcome_text w h (taken w h element image.now)) 0 out.old }
    ensures { Appended (outcome_text w h (taken w h element image.now)) 0 result out.old out.new }
{
    let answer = skeleton::decompose(w, h, element, image, labels, work);
    answer::put_answer(answer, w, h, &labels[..], 0, out)
}

// An image listed, with labels and work for the largest.
fn list_image(
    w: u8,
    h: u8,
    element: u32,
    image: &[u8],
    labels: &mut [u8],
    work: &mut [u8],
    out: &mut [u8],
) -> usize
    requires { (labels.old ≡ replicate (side * side) 0) × (work.old ≡ replicate (3 * (side * side_bytes)) 0) × (length out.old ≡ longest) }
    ensures { Appended (outcome_text w h (taken w h element image.now)) 0 result out.old out.new }
{
    let places = w as usize * (h as usize);
    let bytes = 3 * (h as usize * ((w as usize + 7) / 8));
    list_within(
        w as u32,
        h as u32,
        element,
        image,
        &mut labels[..places],
        &mut work[..bytes],
        out,
    )
}

// The input listed, with labels and work for the largest image.
fn list_bytes(input: &[u8], labels: &mut [u8], work: &mut [u8], out: &mut [u8]) -> usize
    requires { (labels.old ≡ replicate (side * side) 0) × (work.old ≡ replicate (3 * (side * side_bytes)) 0) × (length out.old ≡ longest) }
    ensures { Appended (printed input.now) 0 result out.old out.new }
{
    if input.len() < 6 {
        return answer::put_refusal(Refusal::Lengths, 0, out);
    }
    let element = numbers::number(input, 2);
    list_image(input[0], input[1], element, &input[6..], labels, work, out)
}

// What is printed for the bytes read, at the start of out; answers how many bytes it has.
pub fn list(input: &[u8], out: &mut [u8; OUTPUT]) -> usize
    ensures { Listed (printed input.now) result out.old out.new }
{
    let mut labels = [0u8; SIDE * SIDE];
    let mut work = [0u8; 3 * SIDE * STRIDE];
    list_bytes(input, &mut labels, &mut work, out)
}
