// The files that the arguments name. What cannot be read is told in one line on standard error.
ghost use Rattle.std.specs.Prelude.{◌≤◌, length, IfOk};
ghost use Rattle.input.specs.Counts.{IsPrefixLen};

use std::env::{Env, FillError};
use std::fs::File;
use std::io;
use std::io::{Cursor, ErrorKind, Write};

// The most voices.
pub const VOICES: usize = 32;

// How many bytes all voices together may have.
pub const STORE: usize = 65536;

// The longest name of a file, and so the longest argument that is taken.
pub const NAME: usize = 4096;

// How many bytes of an error's text are told. The system's texts are shorter.
const ERROR: usize = 256;

// What std puts behind the system's text for an error, before its number.
const NUMBER: &[u8] = b" (os error ";

// The system's number for a name that is too long.
const NAME_TOO_LONG: i32 = 36;

// What went wrong was told.
#[derive(Clone, Copy)]
pub struct Told;

fn say(rt: &HostRuntime, part: &[u8]) {
    let _ = Print::write_all(&rt.stderr(), part);
}

// Tells a line on standard error. Where that fails too, nobody is left to be told.
pub fn tell(rt: &HostRuntime, line: &[u8]) -> Told {
    say(rt, line);
    Told
}

// The text of an error without the system's number.
fn words_of(text: &[u8]) -> &[u8] {
    let number = text.windows(NUMBER.len()).position(|part| part == NUMBER);
    &text[..number.unwrap_or(text.len())]
}

// Tells what went wrong with a file, after its name.
pub fn fail(rt: &HostRuntime, path: &[u8], error: io::Error) -> Told {
    let mut text = Cursor::new([0u8; ERROR]);
    let _ = write!(text, "{error}");
    let end = text.position().min(ERROR as u64) as usize;
    let bytes = text.into_inner();
    say(rt, b"weekcount: ");
    say(rt, path);
    say(rt, b": ");
    say(rt, words_of(&bytes[..end]));
    tell(rt, b"\n")
}

// The name that an argument gives, in the buffer.
pub fn name_of<'a>(rt: &HostRuntime, argument: usize, buffer: &'a mut [u8]) -> io::Result<&'a [u8]>
    ensures { IfOk result (λ name. length name.now ≤ length buffer.entry.now) }
{
    match rt.arg(argument, buffer) {
        Ok(length) => Ok(&buffer[..length]),
        Err(FillError::TooLong) => Err(io::Error::from_raw_os_error(NAME_TOO_LONG)),
        Err(FillError::NotPresent) => Err(io::Error::from(ErrorKind::NotFound)),
    }
}

// An open file, and its name for what is told of it.
#[derive(Drop)]
pub struct Source<'a> {
    rt: &'a HostRuntime,
    path: &'a [u8],
    file: File,
}

impl<'a> Source<'a> {
    // The name must be UTF-8, since std opens no other.
    pub fn open(rt: &'a HostRuntime, path: &'a [u8]) -> Result<Self, Told> {
        let file = match str::from_utf8(path) {
            Ok(name) => File::open(rt, name),
            Err(_) => Err(io::Error::new(ErrorKind::InvalidFilename, "the name is not UTF-8")),
        };
        match file {
            Ok(file) => Ok(Source { rt, path, file }),
            Err(error) => Err(fail(rt, path, error)),
        }
    }

    // Reads as much as there is room for, behind bytes that are there already. These are among the count.
    pub fn read(&mut self, room: &mut [u8], from: usize) -> Result<usize, Told>
        ensures { IfOk result (λ count. IsPrefixLen count room.new) }
    {
        let read = input::read_file(&mut self.file, room, from);
        match read.failed {
            Some(error) => Err(fail(self.rt, self.path, error)),
            None => Ok(read.count),
        }
    }
}

// Reads a voice from a file, and one byte more to see that it has ended. Returns how many bytes it has.
fn read_voice(rt: &HostRuntime, path: &[u8], room: &mut [u8]) -> Result<usize, Told>
    ensures { IfOk result (λ length. IsPrefixLen length room.new) }
{
    let mut voice = Source::open(rt, path)?;
    let length = voice.read(room, 0)?;
    if voice.read(&mut [0u8; 1], 0)? != 0 {
        return Err(tell(rt, b"weekcount: the voices have more than 65536 bytes\n"));
    }
    Ok(length)
}

// Reads the voices that the arguments behind the batch's name, one behind another.
pub fn read_voices<'a>(
    rt: &HostRuntime,
    count: usize,
    store: &'a mut [u8],
    voices: &mut [&'a [u8]],
) -> Result<(), Told>
    ensures { IfOk result (λ _. count ≤ length voices.new) }
{
    let most = voices.len();
    let mut room = store;
    for (i, voice) in voices.iter_mut().take(count).enumerate() {
        let mut name = [0u8; NAME];
        let path = name_of(rt, i + 2, &mut name).map_err(|error| fail(
            rt,
            b"the name of a voice",
            error,
        ))?;
        let length = read_voice(rt, path, room)?;
        let (read, rest) = room.split_at_mut(length);
        *voice = read;
        room = rest;
    }
    if most < count {
        return Err(tell(rt, b"weekcount: more than 32 voices\n"));
    }
    Ok(())
}
