// What the words of a line stand for. Of a word that is malformed nothing is promised.
ghost use Rattle.std.specs.Prelude.{◌≡◌, ◌<◌, ◌≤◌, length, take, IfOk};

use carmuspeno::CarmSituation;
use std::io;
use std::io::Read;

const LINE_FEED: u8 = 10;

const SPACE: u8 = 32;

// The next byte of the input, or none where it ended.
fn next<R: Read>(source: &mut R) -> io::Result<Option<u8>> {
    let mut byte = [0u8; 1];
    let count = source.read(&mut byte)?;
    Ok(if count == 0 { None } else { Some(byte[0]) })
}

// Reads a line with its line feed: no bytes where the input ended.
pub fn line<'a, R: Read>(source: &mut R, room: &'a mut [u8]) -> io::Result<&'a [u8]>
    ensures { IfOk result (λ line. length line.now ≤ length room.entry.now) }
{
    for count in 0..room.len() {
        let Some(byte) = next(source)? else {
            return Ok(&room[..count]);
        };
        room[count] = byte;
        if byte == LINE_FEED {
            return Ok(&room[..count + 1]);
        }
    }
    Ok(room)
}

// Where the first word ends: at a space or at the line feed.
fn word_end(text: &[u8]) -> usize
    ensures { result ≤ length text.now }
{
    text.iter()
        .position(|&byte| byte <= SPACE)
        .unwrap_or(text.len())
}

// The first word.
pub fn word(text: &[u8]) -> &[u8] {
    &text[..word_end(text)]
}

// What stands after the first word and its space.
pub fn rest(text: &[u8]) -> &[u8] {
    let end = word_end(text);
    if end < text.len() {
        return &text[end + 1..];
    }
    &text[end..]
}

// A number in decimal, which wraps.
pub fn number(text: &[u8]) -> u64 {
    text.iter().fold(
        0u64,
        |n, &byte| n.wrapping_mul(10).wrapping_add(u64::from(byte % 16)),
    )
}

// A number as a byte.
pub fn byte(text: &[u8]) -> u8 {
    (number(text) % 256) as u8
}

// A hex digit's value: 0 to 9 end in that digit of base 16, and a to f in 1 to 6.
fn hex_digit(byte: u8) -> u8
    ensures { result < 16 }
{
    if byte < b'a' {
        byte % 16
    } else {
        (byte % 16 + 9) % 16
    }
}

// The bytes that the text spells, put at the start of `room`.
pub fn bytes<'a>(text: &[u8], room: &'a mut [u8]) -> &'a [u8]
    ensures { length result.now ≤ length room.entry.now }
{
    let count = (text.len() / 2).min(room.len());
    for (byte, digits) in room.iter_mut().zip(text.chunks_exact(2)) {
        *byte = hex_digit(digits[0]) * 16 + hex_digit(digits[1]);
    }
    &room[..count]
}

// As many of these bytes as the text says, at most all of them.
pub fn front<'a>(text: &[u8], all: &'a mut [u8]) -> &'a mut [u8]
    ensures { result.now ≡ take (length result.now) all.entry.now }
{
    let count = (number(text) as usize).min(all.len());
    &mut all[..count]
}

// The situation that the first two words spell.
pub fn situation(text: &[u8]) -> CarmSituation {
    let mut answers = [0u8; 6];
    bytes(word(rest(text)), &mut answers);
    CarmSituation {
        length: number(word(text)),
        answers,
    }
}
