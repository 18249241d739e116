// Standard input and files, read until a buffer is full, the input ends or a read fails, with these told apart.
//
// It promises that the count lies within the buffer. Which bytes come is the reader's to say. `move_front` makes room for more
// behind bytes that are still wanted: exactly these then stand at the front. It refuses nothing.

#![tactic(auto)]

ghost use Rattle.input.specs.Counts.{IsPrefixLen};
ghost use Rattle.input.specs.Meaning.{Moved};

use std::io;
use std::io::Read;

// How many bytes came, and why a read failed behind them, if one did. Both are wanted at once: `read_file` promises that the count lies
// within the buffer also where a read failed.
#[derive(Clone, Copy)]
pub struct Input {
    pub count: usize,
    pub failed: Option<io::Error>,
}

// Reads from an open file, behind bytes that are there already. These are among the count.
pub fn read_file<R: Read>(file: &mut R, bytes: &mut [u8], from: usize) -> Input
    ensures { IsPrefixLen result.count bytes.new }
{
    let mut count = from.min(bytes.len());
    // A read moves the count as far as it likes, so that no range gives it.
    while count < bytes.len() {
        match file.read(&mut bytes[count..]) {
            Ok(0) => break,
            Ok(more) => count += more,
            Err(error) => {
                return Input {
                    count,
                    failed: Some(error),
                };
            }
        }
    }
    Input {
        count,
        failed: None,
    }
}

// Reads from standard input, which `rt` gives.
pub fn read_input(rt: &impl io::Input, bytes: &mut [u8]) -> Input
    ensures { IsPrefixLen result.count bytes.new }
{
    read_file(&mut rt.reader(), bytes, 0)
}

// Moves the bytes between two places to the front, as far as there are any. Returns how many they are.
pub fn move_front(bytes: &mut [u8], from: usize, to: usize) -> usize
    ensures { Moved bytes.old from to bytes.new result }
{
    let end = to.min(bytes.len());
    let start = from.min(end);
    bytes.copy_within(start..end, 0);
    end - start
}
