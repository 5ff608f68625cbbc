// Calls and replies as bytes.
ghost use Rattle.std.specs.Prelude.{[], ◌∷◌, ◌≡◌};
ghost use Rattle.calls.specs.Format.{replied, reply_bytes};

use crate::Reply;
use refusals::Refusal;

// The bytes of a call before its buffers.
pub const HEADER: usize = 33;

// The bytes of a reply without its buffers.
fn reply_bytes(r: Reply) -> [u8; 14]
    ensures { result ≡ reply_bytes r }
{
    let a = numbers::four_bytes(r.first);
    let b = numbers::four_bytes(r.second);
    let c = numbers::four_bytes(r.third);
    [
        r.refusal, r.count, a[0], a[1], a[2], a[3], b[0], b[1], b[2], b[3], c[0], c[1], c[2], c[3],
    ]
}

// Makes the call of a header, with x, y, z and c as they were read, and leaves the reply's buffers in y, z and c. Answers the bytes before them.
// The counters, as many as c has pairs of bytes, are left as the call leaves them.
pub fn answer(
    header: &[u8; HEADER],
    x: &[u8],
    y: &mut [u8],
    z: &mut [u8],
    c: &mut [u8],
    counters: &mut [u16],
) -> [u8; 14]
    ensures { result ∷ y.new ∷ z.new ∷ c.new ∷ counters.new ∷ []
        ≡ replied header.now x.now y.old z.old c.old counters.old }
{
    if c.len() != 2 * counters.len() {
        return reply_bytes(crate::refused(Refusal::Lengths));
    }
    numbers::read_counters(&c[..], counters);
    let w = numbers::number(header, 1);
    let h = numbers::number(header, 5);
    let a = numbers::number(header, 9);
    let b = numbers::number(header, 13);
    let reply = crate::call(header[0], w, h, a, b, x, y, z, counters);
    numbers::write_counters(&counters[..], c);
    reply_bytes(reply)
}
