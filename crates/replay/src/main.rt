// Reads calls of the public functions from standard input, makes each, and writes a reply to each at once.
//
// A call is a header of 33 bytes, then the buffers x, y, z and c. Numbers are u32, lowest byte first.
//
//     0        the operation: 0 erode, 1 open, 2 decompose, 3 reconstruct, 4 minimise, 5 hit_or_miss, 6 thin, 7 encode,
//              8 decode with a largest size, 9 decode of a blank, 10 a dilation with its own answer, which is no public function
//     1..17    w, h, a, b: a is the element (0 to 4, 7 to 10) or the mask's foreground (5);
//              b is n (0, 1), the cut (3), the mask's background (5) or the largest size (8); an operation passes over what it does not have
//     17..33   the lengths of x, y and z in bytes and of c in counters: x at most 1,048,576, each other at most 65,536; a counter has two bytes,
//              lowest first
//
// x is only read; y, z and c are lent, and what an operation does not have stays as it is.
//
//     erode, open    x image, y out, z work           minimise       y labels, z work, c counters
//     decompose      x image, y labels, z work        hit_or_miss    x image, y out
//     reconstruct    x labels, y image, z work        thin           y image, z work
//     encode         x image, y out, z work           decode         x stream, y image, z work
//     dilation       x image, y out, z work
//
// A reply is 14 bytes, then y, z and c as they are after the call.
//
//     0        the refusal's number, 0 if there is none
//     1        how many values the answer has: none if it is refused; decompose and encode have 2, or 1 of a blank image, a dilation 2, thin 3, the others 1
//     2..14    three values, 0 where there is none
//
// It ends at the end of the input, at input that ends inside a call, at a read that fails, at an operation above 10 and at a length above these.
#![tactic(auto)]

ghost use Rattle.std.specs.Prelude.{◌≡◌, ◌*◌, length};

// The longest buffer that is read, and that is lent.
const LONG: usize = 1048576;

const SIZE: usize = 65536;

// Calls in a run; more than any input has.
const CALLS: u64 = 1 << 63;

// Fills a buffer from standard input; none where not all of it was there.
fn fill(rt: &HostRuntime, s: &mut [u8]) -> Option<()> {
    let count = input::read_all(&mut rt.stdin(), s).ok()?;
    (count == s.len()).then_some(())
}

// Writes to standard output; none where that could not be done.
fn put(rt: &HostRuntime, s: &[u8]) -> Option<()> {
    rt.write_all(s).ok()
}

// Reads the buffers of a call, which have its lengths, makes the call and writes its reply; none where not all of it could be done.
fn serve(
    rt: &HostRuntime,
    header: &[u8; calls::HEADER],
    x: &mut [u8],
    y: &mut [u8],
    z: &mut [u8],
    c: &mut [u8],
    counters: &mut [u16],
) -> Option<()>
    requires { length c.old ≡ 2 * length counters.old }
{
    fill(rt, x)?;
    fill(rt, y)?;
    fill(rt, z)?;
    fill(rt, c)?;
    let reply = calls::answer(header, &x[..], y, z, c, counters);
    put(rt, &reply)?;
    put(rt, &y[..])?;
    put(rt, &z[..])?;
    put(rt, &c[..])
}

// Reads a call that fits the buffers, makes it and writes its reply; none where there was none.
fn turn(
    rt: &HostRuntime,
    x: &mut [u8],
    y: &mut [u8],
    z: &mut [u8],
    c: &mut [u8],
    counters: &mut [u16],
) -> Option<()> {
    let mut header = [0u8; calls::HEADER];
    fill(rt, &mut header)?;
    let xs = numbers::number(&header, 17) as usize;
    let ys = numbers::number(&header, 21) as usize;
    let zs = numbers::number(&header, 25) as usize;
    let cs = numbers::number(&header, 29) as usize;
    if header[0] > 10 {
        return None;
    }
    serve(
        rt,
        &header,
        x.get_mut(..xs)?,
        y.get_mut(..ys)?,
        z.get_mut(..zs)?,
        c.get_mut(..2 * cs)?,
        counters.get_mut(..cs)?,
    )
}

fn main(rt: HostRuntime) {
    let mut x = [0u8; LONG];
    let mut y = [0u8; SIZE];
    let mut z = [0u8; SIZE];
    let mut c = [0u8; 2 * SIZE];
    let mut counters = [0u16; SIZE];
    for _ in 0..CALLS {
        if turn(&rt, &mut x, &mut y, &mut z, &mut c, &mut counters).is_none() {
            return;
        }
    }
}
