// Batches: the notices of a week one behind another, each the value of a field of tag 17.
//
// `check` judges the field at the front of what is left of a batch. `walk` goes through the fields of a part of a batch, so that a
// batch can be read from a file in memory that does not grow with it: it says how many bytes whole fields without a fault take,
// how many notices may still come, and why it stopped if a field was refused. Where more bytes are to come, it leaves a field
// alone until so many bytes are there as the longest field has.
//
// Refused, in this order at each field: fewer than three bytes left, SHORT; another tag than 17, TAG; the 1,000,001st notice,
// WEEK; a length above 288, LEN; a value past the end, SHORT. The place is the field's offset.

#![tactic(auto)]

ghost use Rattle.std.specs.Prelude.{◌≡◌};
ghost use Rattle.refusals.specs.Meaning.{checked};
ghost use Rattle.batches.specs.Meaning.{fault, due, walked, walk_of};

use fields::HEADER;
use refusals::{Kind, Refusal};

pub const MOST_NOTICES: usize = 1000000;

// The tag of a field that holds a notice.
const NOTICE: u8 = 17;

// The most bytes of a notice: 32 facts of nine bytes.
const LONGEST: usize = 288;

// The most bytes of a field.
pub const FIELD: usize = 291;

// Why a walk stopped, if a field was refused; how many bytes the fields before it take; and how many notices may still come.
#[derive(Clone, Copy)]
pub struct Walked {
    pub refused: Option<Refusal>,
    pub length: usize,
    pub left: usize,
}

// Is the field that `rest` starts with a notice? It stands at the offset `at`, and `left` notices may still come.
#[tactic(auto, using(crate::proofs::Faults::fault_laws))]
pub fn check(rest: &[u8], at: usize, left: usize) -> Result<(), Refusal>
    ensures { checked result ≡ fault left at rest.now }
{
    if fields::short_header(rest) {
        return Err(Refusal::at(Kind::Short, at));
    }
    if fields::tag(rest) != NOTICE {
        return Err(Refusal::at(Kind::Tag, at));
    }
    let size = fields::size(rest);
    if left == 0 {
        return Err(Refusal::at(Kind::Week, at));
    }
    if size > LONGEST {
        return Err(Refusal::at(Kind::Len, at));
    }
    if fields::short_value(rest, size) {
        return Err(Refusal::at(Kind::Short, at));
    }
    Ok(())
}

// Is the field at the front of so many bytes judged now? Where the batch has ended, wherever there is a byte.
fn due(bytes: usize, ended: bool) -> bool
    ensures { result ≡ due ended bytes }
{
    if ended { bytes != 0 } else { FIELD <= bytes }
}

// Goes through the fields of a part of a batch. `left` notices may still come, and `ended` says that the part is the last one.
// A refusal's place is counted from the front of the part.
pub fn walk(part: &[u8], left: usize, ended: bool) -> Walked
    ensures { walked result ≡ walk_of ended left part.now }
{
    let mut length = 0;
    let mut left = left;
    // The offset moves by the size that each field says, so that no range gives it.
    while due(part.len() - length, ended) {
        let rest = &part[length..];
        if let Err(refusal) = check(rest, length, left) {
            return Walked {
                refused: Some(refusal),
                length,
                left,
            };
        }
        length += HEADER + fields::size(rest);
        left -= 1;
    }
    Walked {
        refused: None,
        length,
        left,
    }
}
