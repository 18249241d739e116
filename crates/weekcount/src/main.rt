// weekcount BATCH VOICE..: counts what each voice gives to the notices of a batch, and prints each voice's record.
//
// The batch is read one window at a time and all voices go through it at once, so memory does not grow with it. When the whole
// batch is read, each voice's record is printed (`reports`), and at the end, where the batch was refused, why.
// What cannot be done is told in one line on standard error, and then nothing is printed: no argument or no voice, a file that
// cannot be read, more than 32 voices, voices of more than 65,536 bytes together. A file whose name is not UTF-8 cannot be read.

#![tactic(auto)]

mod files;
mod windows;

use counts::Counts;
use files::{NAME, STORE, Told, VOICES};
use refusals::{Numbers, Refusal};
use std::env::{Env, FillError};
use std::io;
use text::Page;

// A record is at most 1,200 bytes longer than its name, and a name has at most 4,096.
const TEXT: usize = 8192;

// Prints the record of the voice that an argument names.
fn print_record(rt: &HostRuntime, argument: usize, counts: Counts) -> io::Result<()> {
    let mut buffer = [0u8; NAME];
    let name = files::name_of(rt, argument, &mut buffer)?;
    let mut text = [0u8; TEXT];
    let mut page = Page::new(&mut text);
    reports::put_record(&mut page, name, counts);
    rt.write_all(page.written())
}

// Prints why the batch was refused.
fn print_batch(rt: &HostRuntime, refusal: Refusal) -> io::Result<()> {
    let mut text = [0u8; TEXT];
    let mut page = Page::new(&mut text);
    reports::put_batch(&mut page, Numbers::from(refusal));
    rt.write_all(page.written())
}

// Prints every voice's record, and behind them why the batch was refused, if it was.
fn print_week(rt: &HostRuntime, weeks: &[Counts], refused: Option<Refusal>) -> io::Result<()> {
    for (i, counts) in weeks.iter().enumerate() {
        print_record(rt, i + 2, *counts)?;
    }
    match refused {
        Some(refusal) => print_batch(rt, refusal),
        None => Ok(()),
    }
}

// How many arguments the program was started with, its own name among them.
fn argument_count(env: &impl Env) -> usize {
    for argument in 0..usize::MAX {
        if let Err(FillError::NotPresent) = env.arg(argument, &mut []) {
            return argument;
        }
    }
    usize::MAX
}

fn run(rt: &HostRuntime) -> Result<(), Told> {
    let arguments = argument_count(rt);
    if arguments < 3 {
        return Err(files::tell(
            rt,
            b"weekcount: wanted are a batch and a voice or more: weekcount BATCH VOICE..\n",
        ));
    }
    let count = arguments - 2;
    let mut buffer = [0u8; NAME];
    let path = files::name_of(rt, 1, &mut buffer).map_err(|error| files::fail(
        rt,
        b"the name of the batch",
        error,
    ))?;
    let mut store = [0u8; STORE];
    let mut voices: [&[u8]; VOICES] = [&[]; VOICES];
    files::read_voices(rt, count, &mut store, &mut voices)?;
    let mut weeks = [counts::none(); VOICES];
    let refused = windows::count_batch(rt, path, &voices[..count], &mut weeks[..count])?;
    if print_week(rt, &weeks[..count], refused).is_err() {
        return Err(files::tell(rt, b"weekcount: the records could not be written\n"));
    }
    Ok(())
}

fn main(rt: HostRuntime) {
    let _ = run(&rt);
}
