// The first failing step, sought through all situations.
//
// The answers at all situations of n columns come as planes. It promises the first of the steps that fail: the lowest situation
// in base 4, and the first step from it, as steps has it. It refuses nothing: more than six columns have no step.
//
// A word without a failing step is passed over (`sifting`), and only from one with a failing step on are the situations tried
// one by one.

#![tactic(auto)]

ghost use Rattle.std.specs.Prelude.{◌≡◌, ◌-◌, ◌^◌, ◌<◌, IfSome};
ghost use Rattle.situations.specs.Meaning.{weight};
ghost use Rattle.steps.specs.Meaning.{first_from, situation_fails, step_from, first_step, step_told, in_words};

mod sifting;

use planes::Planes;
use steps::Raise;

// The situations of a word.
const WORD: usize = 64;

// The first step that fails, from one situation on.
#[tactic(auto, using(crate::proofs::FirstSituation::situation_laws))]
fn first_from(planes: &Planes, n: usize, from: usize) -> Option<Raise>
    requires { from < weight n }
    ensures told { step_told n (weight n) result
        ≡ step_from (in_words planes.now.bury planes.now.keep) n
        (first_from (situation_fails (in_words planes.now.bury planes.now.keep) n) (4 ^ n - from) from) }
    ensures inside { IfSome result (λ r. r.number < weight n) }
{
    for w in from..base4::weight(n) {
        if let Some(raise) = steps::step_from(planes, n, w) {
            return Some(raise);
        }
    }
    None
}

// The first step that fails, of n columns.
#[tactic(auto, using(crate::proofs::FirstSituation::word_laws))]
pub fn first_step(planes: &Planes, n: usize) -> Option<Raise>
    ensures told { step_told n (weight n) result ≡ first_step (in_words planes.now.bury planes.now.keep) n }
    ensures inside { IfSome result (λ r. r.number < weight n) }
{
    for word in 0..base4::weight(n).div_ceil(WORD) {
        if sifting::word_fails(planes, n, word) {
            return first_from(planes, n, word * WORD);
        }
    }
    None
}
