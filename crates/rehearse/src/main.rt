// Rehearses a plan. Standard input is a table's image and the actions behind it; standard output tells the reply to each action and the table
// that is left. All that is printed is one proved function of the input; what is read and written no contract can say.
#![tactic(auto)]

use rehearsal::input::read_full;
use rehearsal::{MOST, ROOM, rehearse};
use std::io;
use std::io::Write;

// One byte more than is allowed is read, so that a longer input is seen to be longer.
fn main(rt: HostRuntime) -> io::Result<()> {
    let mut input = [0u8; MOST + 1];
    let mut buffer = [0u8; ROOM];
    let n = read_full(&mut rt.stdin(), &mut input)?;
    let end = rehearse(&input[..n], &mut buffer);
    rt.stdout().write_all(&buffer[..end])
}
