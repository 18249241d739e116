// Replies, written.
use carmuspeno::{CarmAnswer, CarmSituation};
use std::{fmt, io};

// A situation by value: its length, and its six bytes in hex.
#[derive(Clone, Copy)]
pub struct Shown(pub CarmSituation);

impl fmt::Display for Shown {
    fn fmt<W: fmt::Write>(&self, f: &mut fmt::Formatter<W>) -> fmt::Result {
        let length = self.0.length;
        write!(f, "{length} ")?;
        for answer in self.0.answers {
            write!(f, "{answer:02x}")?;
        }
        Ok(())
    }
}

// The counts by number, with a space before each.
#[derive(Clone, Copy)]
pub struct Listed(pub [u64; 32]);

impl fmt::Display for Listed {
    fn fmt<W: fmt::Write>(&self, f: &mut fmt::Formatter<W>) -> fmt::Result {
        for count in self.0 {
            write!(f, " {count}")?;
        }
        Ok(())
    }
}

// The whole line of a reply that answers.
pub fn answer(rt: &impl Print, reply: CarmAnswer) -> io::Result<()> {
    println!(rt;
        "{} {} {} {}",
        reply.number, reply.place, reply.second, reply.answer
    )
}
