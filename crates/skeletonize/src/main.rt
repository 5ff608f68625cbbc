// The program of 01: reads an image and its element from standard input, prints its skeleton. Where a read fails it prints nothing.
// Input past `listing::INPUT` bytes is not read: it changes nothing (`printed-enough` in listing/proofs/PrintedLaws.antt).
#![tactic(auto)]

fn main(rt: HostRuntime) {
    let mut bytes = [0u8; listing::INPUT];
    let mut out = [0u8; listing::OUTPUT];
    let Ok(count) = input::read_all(&mut rt.stdin(), &mut bytes) else {
        return;
    };
    let n = listing::list(&bytes[..count], &mut out);
    let _ = rt.write_all(&out[..n]);
}
