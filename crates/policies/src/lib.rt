// Policies and tests: a policy may hold tests, and a test may hold a policy. They are answered while they are read.
//
// `policy` takes any bytes as a voice and as a notice, an offset of the voice and how many levels are left, and gives the set of
// answers that the policy there may give to the facts of the notice, with the offset after it. All of it is read even where
// its answers are known sooner.
//
// Refused, in this order at each level: none left, NEST; no byte left, CUT; a byte that is no code of the kind wanted,
// CODE; a fact number or a value that is incomplete, CUT, its place the code.

#![tactic(auto)]

ghost use Rattle.std.specs.Prelude.{◌≡◌};
ghost use Rattle.notices.specs.Meaning.{facts_in};
ghost use Rattle.trees.specs.Meaning.{policy_at, test_at, reading};
ghost use Rattle.leaves.specs.Meaning.{held};
ghost use Rattle.policies.specs.Meaning.{told};

use answers::Answer;
use codes::{PolicyKind, TestKind};
use leaves::Hearing;
use refusals::{Kind, Refusal};
use sets::Set;

// The policy at an offset of the voice, with so many levels left.
#[cycle(policy_test)]
#[tactic(auto, using(crate::proofs::Levels::policy_laws))]
pub fn policy(hearing: &Hearing, at: usize, left: usize) -> Result<(Set<Answer>, usize), Refusal>
    ensures { reading result ≡ told (facts_in 32 hearing.now.notice.now) (policy_at left hearing.now.voice.now at) }
{
    if left == 0 {
        return Err(Refusal::at(Kind::Nest, at));
    }
    if hearing.voice.len() <= at {
        return Err(Refusal::at(Kind::Cut, at));
    }
    match PolicyKind::from(hearing.voice[at]) {
        PolicyKind::Constant(a) => Ok((Set::only(a), at + 1)),
        PolicyKind::One(operator) => {
            let (p, end) = policy(hearing, at + 1, left - 1)?;
            Ok((sets::apply_one(operator, p), end))
        }
        PolicyKind::Two(operator) => {
            let (p, next) = policy(hearing, at + 1, left - 1)?;
            let (q, end) = policy(hearing, next, left - 1)?;
            Ok((sets::apply_two(operator, p, q), end))
        }
        PolicyKind::When => {
            let (t, next) = test(hearing, at + 1, left - 1)?;
            let (p, end) = policy(hearing, next, left - 1)?;
            Ok((truths::when_held(t, p), end))
        }
        PolicyKind::Foreign => Err(Refusal::at(Kind::Code, at)),
    }
}

// The test at an offset of the voice, with so many levels left.
#[cycle(policy_test)]
#[tactic(auto, using(crate::proofs::Levels::test_laws))]
fn test(hearing: &Hearing, at: usize, left: usize) -> Result<(Set<bool>, usize), Refusal>
    ensures { reading result ≡ held (facts_in 32 hearing.now.notice.now) (test_at left hearing.now.voice.now at) }
{
    if left == 0 {
        return Err(Refusal::at(Kind::Nest, at));
    }
    if hearing.voice.len() <= at {
        return Err(Refusal::at(Kind::Cut, at));
    }
    match TestKind::from(hearing.voice[at]) {
        TestKind::Not => {
            let (t, end) = test(hearing, at + 1, left - 1)?;
            Ok((truths::negated(t), end))
        }
        TestKind::Joint(joint) => {
            let (t, next) = test(hearing, at + 1, left - 1)?;
            let (u, end) = test(hearing, next, left - 1)?;
            Ok((truths::combine(joint, t, u), end))
        }
        TestKind::Comparison(comparison) => hearing.compared_at(at, comparison),
        TestKind::Present => hearing.present_at(at),
        TestKind::Answers(wanted) => {
            let (p, end) = policy(hearing, at + 1, left - 1)?;
            Ok((truths::is_answer(wanted, p), end))
        }
        TestKind::Foreign => Err(Refusal::at(Kind::Code, at)),
    }
}
