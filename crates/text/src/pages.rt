// Pages: text written one part behind another.
ghost use Rattle.std.specs.Prelude.{◌≡◌, ◌≤◌, length, take};

use crate::{LINE_FEED, SPACE, put_bytes, spell};
use refusals::{Numbers, Refusal};

// A lent buffer, and the place in it that is written next.
#[derive(Drop)]
pub struct Page<'a> {
    text: &'a mut [u8],
    next: usize,
    ghost inside: { next ≤ length text.now },
}

impl<'a> Page<'a> {
    ghost use Rattle.refusals.specs.Meaning.{numbers};
    ghost use Rattle.text.specs.Meaning.{number_text, line, refusal_line, Begun, Opened, Wrote};

    pub fn new(text: &'a mut [u8]) -> Self
        ensures { Begun text.entry result }
    {
        Page { text, next: 0 }
    }

    // A page that goes on at a place of the buffer, or at its end where that comes first.
    pub fn at(text: &'a mut [u8], place: usize) -> Self
        ensures { Opened text.entry place result }
    {
        let next = place.min(text.len());
        Page { text, next }
    }

    // What is written.
    pub fn written(&self) -> &[u8]
        ensures { result.now ≡ take self.now.next self.now.text.now }
    {
        &self.text[..self.next]
    }

    pub fn bytes(&mut self, part: &[u8])
        ensures { Wrote self.old part.now self.new }
    {
        self.next = put_bytes(self.text, self.next, part);
    }

    // A number in decimal, and the byte behind it.
    pub fn number(&mut self, n: usize, end: u8)
        ensures { Wrote self.old (number_text n end) self.new }
    {
        let mut digits = [b'0'; 20];
        let first = spell(n, &mut digits);
        self.bytes(&digits[first..]);
        self.bytes(&[end]);
    }

    // A word and a number as a line.
    pub fn line(&mut self, word: &[u8], n: usize)
        ensures { Wrote self.old (line word.now n) self.new }
    {
        self.bytes(word);
        self.number(n, LINE_FEED);
    }

    // The one line that the three numbers of a refusal print, whatever they are.
    pub fn refused(&mut self, three: Numbers)
        ensures { Wrote self.old (refusal_line three) self.new }
    {
        self.bytes(b"refused ");
        self.number(usize::from(three.number), SPACE);
        self.number(three.place, SPACE);
        self.number(three.second, LINE_FEED);
    }

    // The same of a refusal.
    pub fn refusal(&mut self, refusal: Refusal)
        ensures { Wrote self.old (refusal_line (numbers refusal)) self.new }
    {
        self.refused(Numbers::from(refusal));
    }
}
