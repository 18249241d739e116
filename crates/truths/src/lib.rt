// What tests and policies make of sets of truths, which say what a test may be. It refuses nothing.

#![tactic(auto)]

ghost use Rattle.std.specs.Prelude.{◌≡◌, not, [], ◌∷◌, map};
ghost use Rattle.sets.specs.Meaning.{answer_set, answers_in, pairs};
ghost use Rattle.truths.specs.Meaning.{truth_set, truths_in, combine, answered, whenever};

use answers::Answer;
use codes::Joint;
use sets::Set;

// The test that is surely this.
pub fn certain(truth: bool) -> Set<bool>
    ensures { result ≡ truth_set (truth ∷ []) }
{
    Set::only(truth)
}

// Not: the opposite of every possible truth.
pub fn negated(set: Set<bool>) -> Set<bool>
    ensures { result ≡ truth_set (map not (truths_in set)) }
{
    set.map(|t: bool| !t)
}

// Two truths, certain both.
fn combined(joint: Joint, t: bool, u: bool) -> bool
    ensures { result ≡ combine joint t u }
{
    match joint {
        Joint::And => t && u,
        Joint::Or => t || u,
    }
}

// And, or: every pair of possible truths.
pub fn combine(joint: Joint, first: Set<bool>, second: Set<bool>) -> Set<bool>
    ensures { result ≡ truth_set (pairs (combine joint) (truths_in first) (truths_in second)) }
{
    first.pairs(second, |t, u| combined(joint, t, u))
}

// Whether a policy with this set of answers gives the wanted one.
pub fn is_answer(wanted: Answer, set: Set<Answer>) -> Set<bool>
    ensures { result ≡ truth_set (map (answered wanted) (answers_in set)) }
{
    set.map(|p| p == wanted)
}

// When: silent where the test may be false, and the policy's answers where it may be true.
pub fn when_held(test: Set<bool>, policy: Set<Answer>) -> Set<Answer>
    ensures { result ≡ answer_set (whenever (truths_in test) (answers_in policy)) }
{
    test.fold(Set::empty(), |image: Set<Answer>, truth| {
        if truth {
            image.union(policy.map(|p| p))
        } else {
            image.union(Set::only(Answer::Silent))
        }
    })
}
