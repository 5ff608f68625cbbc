// A decomposition's answer as text, appended to a buffer.
ghost use Rattle.std.specs.Prelude.{[], ◌∷◌, ◌≡◌, ◌*◌, length};
ghost use Rattle.refusals.specs.Refusal.{number_of};
ghost use Rattle.skeleton.specs.Decomposed.{answer_of};
ghost use Rattle.listing.specs.Appended.{Appended, TextFits};
ghost use Rattle.listing.specs.Printed.{answer_text, no_size, refusal_text, skeleton_text};
ghost use Rattle.listing.specs.Text.{decimal, spaced};

use crate::text;
use refusals::Refusal;
use skeleton::Skeleton;

// A refusal.
pub fn put_refusal(refusal: Refusal, at: usize, out: &mut [u8]) -> usize
    requires { TextFits (refusal_text (number_of refusal)) at out.old }
    ensures { Appended (refusal_text (number_of refusal)) at result out.old out.new }
{
    let n = u8::from(refusal);
    let word = text::put_bytes(b"refused", at, out);
    let number = text::put_word(1, n as u32, word, out);
    text::put(b'\n', number, out)
}

// Width, height and number of points.
fn put_counts(w: u32, h: u32, points: u32, at: usize, out: &mut [u8]) -> usize
    requires { TextFits (spaced (decimal w ∷ decimal h ∷ decimal points ∷ [])) at out.old }
    ensures { Appended (spaced (decimal w ∷ decimal h ∷ decimal points ∷ [])) at result out.old out.new }
{
    let first = text::put_decimal(w, at, out);
    let second = text::put_word(1, h, first, out);
    text::put_word(2, points, second, out)
}

// An empty image, which has no largest size.
fn put_blank(w: u32, h: u32, labels: &[u8], at: usize, out: &mut [u8]) -> usize
    requires { (length labels.now ≡ w * h) × TextFits (skeleton_text w h 0 no_size labels.now) at out.old }
    ensures { Appended (skeleton_text w h 0 no_size labels.now) at result out.old out.new }
{
    let counts = put_counts(w, h, 0, at, out);
    let none = text::put_bytes(b" -\n", counts, out);
    text::put_map(w as usize, h as usize, labels, none, out)
}

// A skeleton.
fn put_skeleton(
    w: u32,
    h: u32,
    points: u32,
    largest: u32,
    labels: &[u8],
    at: usize,
    out: &mut [u8],
) -> usize
    requires { (length labels.now ≡ w * h) × TextFits (skeleton_text w h points (decimal largest) labels.now) at out.old }
    ensures { Appended (skeleton_text w h points (decimal largest) labels.now) at result out.old out.new }
{
    let counts = put_counts(w, h, points, at, out);
    let size = text::put_word(3, largest, counts, out);
    let line = text::put(b'\n', size, out);
    text::put_map(w as usize, h as usize, labels, line, out)
}

// The answer, and the labels where it is no refusal.
pub fn put_answer(
    answer: Result<Option<Skeleton>, Refusal>,
    w: u32,
    h: u32,
    labels: &[u8],
    at: usize,
    out: &mut [u8],
) -> usize
    requires { (length labels.now ≡ w * h) × TextFits (answer_text w h (answer_of answer) labels.now) at out.old }
    ensures { Appended (answer_text w h (answer_of answer) labels.now) at result out.old out.new }
{
    match answer {
        Err(refusal) => put_refusal(refusal, at, out),
        Ok(None) => put_blank(w, h, labels, at, out),
        Ok(Some(found)) => put_skeleton(w, h, found.points, found.largest, labels, at, out),
    }
}
