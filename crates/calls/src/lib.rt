// A call of a public operation by its number, with its answer as numbers.
#![tactic(auto)]

mod format;

ghost use Rattle.std.specs.Prelude.{◌≡◌, cond, [], ◌∷◌, ◌^◌, ltb, length};
ghost use Rattle.morphology.specs.Answers.{answered, outcome, refused as refused_answer};
ghost use Rattle.morphology.specs.Image.{ones_of};
ghost use Rattle.dilation.specs.Dilation.{answer_of as dilated_answer};
ghost use Rattle.encoding.specs.Encoded.{answer_of as encoded_answer};
ghost use Rattle.refusals.specs.Refusal.{answer_of as written_answer, number_of};
ghost use Rattle.skeleton.specs.Decomposed.{answer_of as decomposed_answer};
ghost use Rattle.thinning.specs.Thinned.{answer_of as thinned_answer};
ghost use Rattle.calls.specs.Called.{called};
ghost use Rattle.calls.specs.Replies.{answer_of, reply_of};

use encoding::Stream;
pub use format::{HEADER, answer};
use iteration::Inked;
use refusals::Refusal;
use skeleton::Skeleton;
use thinning::Thinned;

// An answer: the refusal's number, 0 if there is none, and how many values there are, with 0 for those that are not there.
#[repr(C)]
#[derive(Clone, Copy, Debug, PartialEq, Eq)]
pub struct Reply {
    pub refusal: u8,
    pub count: u8,
    pub first: u32,
    pub second: u32,
    pub third: u32,
}

// A refusal.
fn refused(refusal: Refusal) -> Reply
    ensures { result ≡ reply_of (refused_answer (number_of refusal)) }
{
    Reply {
        refusal: u8::from(refusal),
        count: 0,
        first: 0,
        second: 0,
        third: 0,
    }
}

// One value.
fn one(v: u32) -> Reply
    ensures { result ≡ reply_of (answered (v ∷ [])) }
{
    Reply {
        refusal: 0,
        count: 1,
        first: v,
        second: 0,
        third: 0,
    }
}

// Two values.
fn two(v: u32, u: u32) -> Reply
    ensures { result ≡ reply_of (answered (v ∷ u ∷ [])) }
{
    Reply {
        refusal: 0,
        count: 2,
        first: v,
        second: u,
        third: 0,
    }
}

// The answer of an erosion, an opening, a reconstruction, a minimisation, hit-or-miss or the reader of codes.
impl From<Result<u32, Refusal>> for Reply {
    ghost from_gives = { λ a r. r ≡ reply_of (written_answer a) };

    fn from(a: Result<u32, Refusal>) -> Reply {
        match a {
            Ok(n) => one(n),
            Err(refusal) => refused(refusal),
        }
    }
}

// The answer of a decomposition.
impl From<Result<Option<Skeleton>, Refusal>> for Reply {
    ghost from_gives = { λ a r. r ≡ reply_of (decomposed_answer a) };

    fn from(a: Result<Option<Skeleton>, Refusal>) -> Reply {
        match a {
            Ok(None) => one(0),
            Ok(Some(found)) => two(found.points, found.largest),
            Err(refusal) => refused(refusal),
        }
    }
}

// The answer of a thinning.
impl From<Result<Thinned, Refusal>> for Reply {
    ghost from_gives = { λ a r. r ≡ reply_of (thinned_answer a) };

    fn from(a: Result<Thinned, Refusal>) -> Reply {
        match a {
            Ok(done) => Reply {
                refusal: 0,
                count: 3,
                first: done.passes,
                second: done.removed,
                third: done.left,
            },
            Err(refusal) => refused(refusal),
        }
    }
}

// The answer of the writer of codes.
impl From<Result<Option<Stream>, Refusal>> for Reply {
    ghost from_gives = { λ a r. r ≡ reply_of (encoded_answer a) };

    fn from(a: Result<Option<Stream>, Refusal>) -> Reply {
        match a {
            Ok(None) => one(0),
            Ok(Some(stream)) => two(stream.bytes, stream.largest),
            Err(refusal) => refused(refusal),
        }
    }
}

// The answer of a dilation: its area, and 1 where a point of it fell off.
impl From<Result<Inked, Refusal>> for Reply {
    ghost from_gives = { λ a r. r ≡ reply_of (dilated_answer a) };

    fn from(a: Result<Inked, Refusal>) -> Reply {
        match a {
            Ok(inked) => two(inked.area, u32::from(inked.clipped)),
            Err(refusal) => refused(refusal),
        }
    }
}

// Calls operation `op`: x is read, y, z and c are lent. A buffer that the operation does not have stays as it is.
pub fn call(
    op: u8,
    w: u32,
    h: u32,
    a: u32,
    b: u32,
    x: &[u8],
    y: &mut [u8],
    z: &mut [u8],
    c: &mut [u16],
) -> Reply
    ensures outcome { outcome (answer_of result) (y.new ∷ z.new ∷ c.new ∷ [])
        ≡ called op w h a b x.now y.old z.old c.old }
    ensures zeros { result ≡ reply_of (answer_of result) }
{
    match op {
        0 => skeleton::erode(w, h, a, b, x, y, z).into(),
        1 => skeleton::open(w, h, a, b, x, y, z).into(),
        2 => skeleton::decompose(w, h, a, x, y, z).into(),
        3 => skeleton::reconstruct(w, h, a, b, x, y, z).into(),
        4 => minimal::minimise(w, h, a, y, z, c).into(),
        5 => thinning::hit_or_miss(w, h, a, b, x, y).into(),
        6 => thinning::thin(w, h, y, z).into(),
        7 => encoding::encode(w, h, a, x, y, z).into(),
        8 => decoding::decode(w, h, a, Some(b), x, y, z).into(),
        9 => decoding::decode(w, h, a, None, x, y, z).into(),
        _ => dilation::dilate(w, h, a, x, y, z).into(),
    }
}

// No lent plane has as many bytes.
const TOO_LONG: usize = 1048576;

// The number of ones in the bytes of s, as the operations count an area; 0 where there are too many.
pub fn count(s: &[u8]) -> u32
    ensures { result ≡ cond (ltb (length s.now) (2 ^ 20)) (ones_of s.now) 0 }
{
    if s.len() >= TOO_LONG {
        return 0;
    }
    raster::count_ones(s)
}
