// Plays a plan as rehearse does, and writes the image of the table that is left to standard output: a plan appended to it goes on next day. An
// input that is not played is told on standard error, in rehearse's words. What is written to each is one proved function of the input; what is
// read, and whether it arrives, no contract can say.
#![tactic(auto)]

use rehearsal::input::read_full;
use rehearsal::{IMAGE, MOST, save};
use std::io;
use std::io::Write;

// One byte more than is allowed is read, so that a longer input is seen to be longer.
fn main(rt: HostRuntime) -> io::Result<()> {
    let mut input = [0u8; MOST + 1];
    let mut buffer = [0u8; IMAGE];
    let n = read_full(&mut rt.stdin(), &mut input)?;
    match save(&input[..n], &mut buffer) {
        Ok(end) => rt.stdout().write_all(&buffer[..end]),
        Err(end) => rt.stderr().write_all(&buffer[..end]),
    }
}
