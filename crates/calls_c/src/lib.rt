// `calls::call` and `calls::count` for C callers, for bench/ and tests/: a slice goes as a pointer and a length.
#![tactic(auto)]

ghost use Rattle.std.specs.Prelude.{◌≡◌, cond, [], ◌∷◌, ◌^◌, ltb, length};
ghost use Rattle.morphology.specs.Answers.{outcome};
ghost use Rattle.morphology.specs.Image.{ones_of};
ghost use Rattle.calls.specs.Called.{called};
ghost use Rattle.calls.specs.Replies.{answer_of, reply_of};

use calls::Reply;

// Calls operation `op`: x is read, y, z and c are lent. A buffer that the operation does not have stays as it is.
#[unsafe(no_mangle)]
pub extern "C" fn call(
    op: u8,
    w: u32,
    h: u32,
    a: u32,
    b: u32,
    x: &[u8],
    y: &mut [u8],
    z: &mut [u8],
    c: &mut [u16],
) -> Reply
    ensures outcome { outcome (answer_of result) (y.new ∷ z.new ∷ c.new ∷ [])
        ≡ called op w h a b x.now y.old z.old c.old }
    ensures zeros { result ≡ reply_of (answer_of result) }
{
    calls::call(op, w, h, a, b, x, y, z, c)
}

// The number of ones in the bytes of s, as the operations count an area; 0 where there are too many.
#[unsafe(no_mangle)]
pub extern "C" fn count(s: &[u8]) -> u32
    ensures { result ≡ cond (ltb (length s.now) (2 ^ 20)) (ones_of s.now) 0 }
{
    calls::count(s)
}
