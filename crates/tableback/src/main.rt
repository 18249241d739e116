// tableback COLUMNS: writes the table of what the node array on standard input answers at the situations of so many columns.
//
// The table goes to standard output. A refusal is told in one line on standard error, as tablecheck prints it, and nothing is written
// to standard output; so is what cannot be done: no argument or one that is no number, an array that cannot be read or that is longer
// than 266,240 bytes, a table that cannot be written.

#![tactic(auto)]

use refusals::Refusal;
use std::env::{Env, FillError};
use text::Page;

// The longest array that is read. Compiling never gives more than 200,771 nodes.
const NODES: usize = 266240;

// The longest table that is given back: 64 rows of six columns.
const TABLE: usize = 644;

// The line of a refusal is shorter: three numbers of at most 20 digits.
const LINE: usize = 128;

// The longest argument that is read as a number.
const ARGUMENT: usize = 4096;

// Tells a line on standard error. Where that fails too, nobody is left to be told.
fn say(rt: &HostRuntime, line: &[u8]) {
    let _ = rt.stderr().write_all(line);
}

fn tell(rt: &HostRuntime, refusal: Refusal) {
    let mut line = [0u8; LINE];
    let mut page = Page::new(&mut line);
    page.refusal(refusal);
    say(rt, page.written());
}

fn give_back(rt: &HostRuntime, nodes: &[u8], columns: usize) {
    let mut table = [0u8; TABLE];
    match untable::untable(nodes, columns, &mut table) {
        Ok(length) => {
            if rt.write_all(&table[..length]).is_err() {
                say(rt, b"tableback: the table could not be written\n");
            }
        }
        Err(refusal) => tell(rt, refusal),
    }
}

// Is there a byte behind those that were read? A read that fails counts as one.
fn goes_on(rt: &HostRuntime) -> bool {
    let mut byte = [0u8; 1];
    let behind = input::read_input(rt, &mut byte);
    behind.failed.is_some() || behind.count != 0
}

fn read_nodes(rt: &HostRuntime, columns: usize) {
    let mut nodes = [0u8; NODES];
    let read = input::read_input(rt, &mut nodes);
    if read.failed.is_some() {
        return say(rt, b"tableback: standard input could not be read\n");
    }
    if goes_on(rt) {
        return say(rt, b"tableback: the array has more than 266240 bytes\n");
    }
    give_back(rt, &nodes[..read.count], columns);
}

// Was the program started with an argument of this number? Its own name has the number 0.
fn is_given(env: &impl Env, argument: usize) -> bool {
    !matches!(env.arg(argument, &mut []), Err(FillError::NotPresent))
}

fn main(rt: HostRuntime) {
    if !is_given(&rt, 1) || is_given(&rt, 2) {
        return say(
            &rt,
            b"tableback: wanted is the number of columns: tableback COLUMNS\n",
        );
    }
    let mut word = [0u8; ARGUMENT];
    // A longer argument counts as none that is a number.
    let length = rt.arg(1, &mut word).unwrap_or(0);
    match decimals::number_in(&word[..length]) {
        Some(columns) => read_nodes(&rt, columns),
        None => say(
            &rt,
            b"tableback: the number of columns is not a number in decimal\n",
        ),
    }
}
