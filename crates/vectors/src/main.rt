// Runs of every entry point, through the C face. Standard input has a call in each line, the function's name and its
// operands with a space between; the program writes a line for each: the three numbers of the reply, then its results.
//
// Numbers are decimal. Bytes are two lower-case hex digits each, and `-` is none of them. A situation by value is its
// length and its six bytes. `compile` and `untable` are told how many bytes to lend, all of them 170, and their lines end in a sum
// over the lent bytes after the call. A line that calls nothing of this is answered by `?`. A read or a write that fails ends the
// program with its error.

#![tactic(auto)]

mod calls;
mod printing;
mod reading;

use std::io;
use std::io::{Input, Read};

// The most characters of a line, and the most lines.
const LINE: usize = 12001;

const LINES: u64 = 1000000000;

// Whether there was a line.
fn run<R: Read>(rt: &impl Print, source: &mut R) -> io::Result<bool> {
    let mut room = [0u8; LINE];
    let line = reading::line(source, &mut room)?;
    if line.is_empty() {
        return Ok(false);
    }
    calls::call(rt, line)?;
    Ok(true)
}

fn main(rt: HostRuntime) -> io::Result<()> {
    let mut source = rt.reader();
    for _ in 0..LINES {
        if !run(&rt, &mut source)? {
            return Ok(());
        }
    }
    Ok(())
}
