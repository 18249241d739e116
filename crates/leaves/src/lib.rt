// The tests that ask a notice: a comparison and a test for presence, answered where they stand in a voice.
//
// Both take the offset of their code, and give the set of truths that the test may have with the offset after it. A comparison with an absent fact may be true or false; whether a fact is present is certain.
//
// Refused: a fact number or a value that is incomplete, CUT, its place the code.

#![tactic(auto)]

ghost use Rattle.std.specs.Prelude.{◌≡◌};
ghost use Rattle.notices.specs.Meaning.{facts_in};
ghost use Rattle.truths.specs.Meaning.{truth_set};
ghost use Rattle.trees.specs.Meaning.{may_compare, comparison_at, present_at, reading};
ghost use Rattle.leaves.specs.Meaning.{held};

use notices::Comparison;
use refusals::{Kind, Refusal};
use sets::Set;

// A voice, and the notice that it is asked about: any bytes.
#[derive(Clone, Copy)]
pub struct Hearing<'a> {
    pub voice: &'a [u8],
    pub notice: &'a [u8],
}

// A code, a fact number and a value.
const COMPARISON: usize = 7;

// A code and a fact number.
const PRESENCE: usize = 3;

// What a comparison may come to: on an absent fact both.
#[tactic(auto, unfolding(sets::specs::Meaning::set_of))]
fn compare_seen(comparison: Comparison, seen: Option<u32>, value: u32) -> Set<bool>
    ensures { result ≡ truth_set (may_compare comparison seen value) }
{
    match seen {
        None => truths::certain(false).union(truths::certain(true)),
        Some(x) => truths::certain(notices::compare(comparison, x, value)),
    }
}

impl Hearing<'_> {
    // A comparison whose code stands at an offset of the voice: a fact number and a value follow.
    #[tactic(auto, using(crate::proofs::Comparisons::compared_laws))]
    pub fn compared_at(
        &self,
        at: usize,
        comparison: Comparison,
    ) -> Result<(Set<bool>, usize), Refusal>
        ensures { reading result ≡ held (facts_in 32 self.now.notice.now) (comparison_at self.now.voice.now at comparison) }
    {
        let voice = self.voice;
        if voice.len().saturating_sub(at) < COMPARISON {
            return Err(Refusal::at(Kind::Cut, at));
        }
        let fact = fields::two(voice[at + 1], voice[at + 2]);
        let value = fields::four(voice[at + 3], voice[at + 4], voice[at + 5], voice[at + 6]);
        let seen = notices::look_up(self.notice, fact);
        Ok((compare_seen(comparison, seen, value), at + COMPARISON))
    }

    // Whether the fact is present whose number follows the code at an offset of the voice.
    #[tactic(auto, using(crate::proofs::Comparisons::present_laws))]
    pub fn present_at(&self, at: usize) -> Result<(Set<bool>, usize), Refusal>
        ensures { reading result ≡ held (facts_in 32 self.now.notice.now) (present_at self.now.voice.now at) }
    {
        let voice = self.voice;
        if voice.len().saturating_sub(at) < PRESENCE {
            return Err(Refusal::at(Kind::Cut, at));
        }
        let fact = fields::two(voice[at + 1], voice[at + 2]);
        let seen = notices::look_up(self.notice, fact);
        Ok((truths::certain(seen.is_some()), at + PRESENCE))
    }
}
