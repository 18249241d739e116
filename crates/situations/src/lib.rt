// Situations: n answers, one for each column, n from 1 to 6. The check that every call on a situation starts with, and merging.
// The crate `base4` has the numbers of situations.
//
// It promises that a merger is the join column by column, and that a refused merge hands back the first situation as it came.
// It refuses by SITUATION: a length outside 1 to 6 (place: the length), else the first answer above 3 (place: its index).
// A merge looks at its first operand so, then at its second, then at unequal lengths (place: the second's length).

#![tactic(auto)]

ghost use Rattle.std.specs.Prelude.{◌≡◌, ◌≤◌};
ghost use Rattle.refusals.specs.Meaning.{checked};
ghost use Rattle.situations.specs.Meaning.{fault, fault_of, merge_bytes, merge_of, merged};
ghost use Rattle.situations.specs.Inside.{join_numbers};

use answers::{Answer, operators};
use refusals::{Kind, Refusal};

// A situation by value. Only the answers below the length count. It is a length beside six bytes, of any content, since C hands it over
// so and memory is fixed; what is wrong with one is said by its check.
#[derive(Clone, Copy)]
pub struct Situation {
    pub length: usize,
    pub answers: [u8; 6],
}

// Why two situations do not merge, and the first of them as it came.
#[derive(Clone, Copy)]
pub struct Unmerged {
    pub refusal: Refusal,
    pub situation: Situation,
}

// Are these bytes a situation?
#[tactic(auto, using(crate::proofs::Faults::fault_laws))]
pub fn check(situation: &[u8]) -> Result<(), Refusal>
    ensures { checked result ≡ fault situation.now }
{
    let length = situation.len();
    if length < 1 {
        return Err(Refusal::at(Kind::Situation, length));
    }
    if 6 < length {
        return Err(Refusal::at(Kind::Situation, length));
    }
    match fields::first_above(situation, 3) {
        Some(place) => Err(Refusal::at(Kind::Situation, place)),
        None => Ok(()),
    }
}

// The number of the join of two answers with these numbers.
fn join_numbers(p: u8, q: u8) -> u8
    ensures { result ≡ join_numbers p q }
{
    u8::from(operators::join(Answer::from(p), Answer::from(q)))
}

// The first n answers joined with the other's, the rest as they came.
fn joined(answers: [u8; 6], other: [u8; 6], n: usize) -> [u8; 6]
    requires { n ≤ 6 }
    ensures { result ≡ merge_bytes n answers other }
{
    let mut merged = answers;
    for i in 0..n {
        merged[i] = join_numbers(answers[i], other[i]);
    }
    merged
}

impl Situation {
    // Is this a situation?
    pub fn check(self) -> Result<(), Refusal>
        ensures { checked result ≡ fault_of self }
    {
        let length = self.length;
        let answers = self.answers;
        if 6 < length {
            return Err(Refusal::at(Kind::Situation, length));
        }
        check(&answers[..length])
    }

    // Does this situation merge with another one?
    fn check_merge(self, other: Situation) -> Result<(), Refusal>
        ensures { checked result ≡ (merge_of self other).refusal }
    {
        self.check()?;
        other.check()?;
        let length = other.length;
        if self.length != length {
            return Err(Refusal::at(Kind::Situation, length));
        }
        Ok(())
    }

    // This situation joined with another one, column by column.
    pub fn merge(self, other: Situation) -> Result<Situation, Unmerged>
        ensures { merged result ≡ merge_of self other }
    {
        match self.check_merge(other) {
            Ok(()) => {
                let length = self.length;
                let answers = self.answers;
                let more = other.answers;
                Ok(Situation {
                    length,
                    answers: joined(answers, more, length),
                })
            }
            Err(refusal) => Err(Unmerged {
                refusal,
                situation: self,
            }),
        }
    }
}
