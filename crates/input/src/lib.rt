// Reading to the end of the input, which is told from a read that failed.
#![tactic(auto)]

ghost use Rattle.input.specs.Filled.{Filled};

use std::io;
use std::io::{ErrorKind, Read};

// How often a read is made again; more than any run has.
const TRIES: u64 = 1 << 63;

// Reads into the start of buf until it is full or the input ends, and answers how many bytes that were, or the error of a read that failed.
// A read that a signal interrupted is made again.
pub fn read_all<R: Read>(from: &mut R, buf: &mut [u8]) -> io::Result<usize>
    ensures { Filled result buf.new }
{
    let mut done: usize = 0;
    let mut tries: u64 = TRIES;
    while done < buf.len() {
        match from.read(&mut buf[done..]) {
            Ok(0) => return Ok(done),
            Ok(more) => done += more,
            Err(error) => {
                if tries == 0 || error.kind() != ErrorKind::Interrupted {
                    return Err(error);
                }
                tries -= 1;
            }
        }
    }
    Ok(done)
}
