// A table's default: the optional field directly behind the columns field, tag 3, length 1, an answer.
//
// Each function takes the part of a table behind its columns field, and promises of any bytes what its definitions say: how many
// bytes the field takes there (none where the tag is not 3), what is wrong with it, and the answer, silent where there is none.
// It refuses, where the tag is 3, in this order: SHORT for fewer than three bytes, LEN, SHORT for a value past the end, VALUE
// (place: that byte). A default that stands elsewhere is no row, so the reading of rows refuses it by TAG.

#![tactic(auto)]

ghost use Rattle.std.specs.Prelude.{◌≡◌};
ghost use Rattle.refusals.specs.Meaning.{checked};
ghost use Rattle.defaults.specs.Meaning.{default_answer, default_size, default_in, default_fault};

use answers::Answer;
use fields::HEADER;
use refusals::{Kind, Refusal};

// Its tag, the offset in the table at which it stands, and that of its value.
const DEFAULT: u8 = 3;

const OFFSET: usize = 4;

const VALUE_OFFSET: usize = 7;

// How many bytes the default's field takes at the front of a part: none where it does not stand there.
pub fn size(part: &[u8]) -> usize
    ensures { result ≡ default_size part.now }
{
    if fields::tag(part) != DEFAULT {
        return 0;
    }
    HEADER + 1
}

// Is what stands at the front of a part a default, if its tag says so?
#[tactic(auto, using(crate::proofs::DefaultFields::fault_laws))]
pub fn check(part: &[u8]) -> Result<(), Refusal>
    ensures { checked result ≡ default_fault part.now }
{
    if fields::tag(part) != DEFAULT {
        return Ok(());
    }
    if fields::short_header(part) {
        return Err(Refusal::at(Kind::Short, OFFSET));
    }
    if fields::size(part) != 1 {
        return Err(Refusal::at(Kind::Len, OFFSET));
    }
    if fields::short_value(part, 1) {
        return Err(Refusal::at(Kind::Short, OFFSET));
    }
    if part[HEADER] > 3 {
        return Err(Refusal::at(Kind::Value, VALUE_OFFSET));
    }
    Ok(())
}

// The default's answer.
pub fn answer(part: &[u8]) -> Answer
    ensures { result ≡ default_answer (default_in part.now) }
{
    if part.len() <= HEADER {
        return Answer::Silent;
    }
    if fields::tag(part) != DEFAULT {
        return Answer::Silent;
    }
    Answer::from(part[HEADER])
}
