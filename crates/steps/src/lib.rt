// The steps from one situation: a step raises one column, and fails where the answer before is not contained in the answer
// after.
//
// The answers at all situations of n columns come as planes. It promises the first of the steps that fail from a situation: the
// lowest column, then the lowest new answer. It refuses nothing: more than six columns have no step, and neither has a number of
// no situation.

#![tactic(auto)]

ghost use Rattle.std.specs.Prelude.{◌≡◌, ◌<◌, IfSome};
ghost use Rattle.planes.specs.Meaning.{lane};
ghost use Rattle.situations.specs.Meaning.{weight, situation_at};
ghost use Rattle.steps.specs.Meaning.{first_answer, answer_told, step_at, step_from, step_told, in_words};
ghost use Rattle.steps.specs.Inside.{held, grown, Numbered, AtColumn};

use answers::Answer;
use planes::Planes;

// A step that fails, by the number of its situation in base 4, the column that it raises, and the column's new answer.
#[derive(Clone, Copy)]
pub struct Raise {
    pub number: usize,
    pub column: usize,
    pub answer: Answer,
}

// The bit of the situation with a number.
fn bit_at(words: &[u64; 64], w: usize) -> u64
    ensures { result ≡ held words.now w }
{
    let word = words.get(w / 64).copied().unwrap_or(0);
    (word >> (w % 64)) % 2
}

// The answer at the situation with a number.
fn answer_at(planes: &Planes, w: usize) -> Answer
    ensures { result ≡ lane planes.now.bury planes.now.keep w }
{
    let low = bit_at(&planes.bury, w);
    let high = bit_at(&planes.keep, w);
    Answer::from((low + 2 * high) as u8)
}

// Is the answer at one situation contained in the answer at another one?
fn grows(planes: &Planes, from: usize, to: usize) -> bool
    ensures { result ≡ grown planes.now.bury planes.now.keep from to }
{
    let before = answer_at(planes, from);
    let after = answer_at(planes, to);
    answers::contained(before, after)
}

// The lowest new answer of a step at a column that fails. A step sets a bit of the column's digit; where the bit is set already
// there is no step, and the situation is held against itself.
#[tactic(auto, using(crate::proofs::FirstAnswer::answer_laws))]
fn first_answer(planes: &Planes, n: usize, w: usize, column: usize) -> Option<Answer>
    requires { AtColumn n w column }
    ensures { answer_told result ≡ first_answer (in_words planes.now.bury planes.now.keep) (situation_at n w) column }
{
    let e = n - 1 - column;
    let one = base4::weight(e);
    let two = 2 * one;
    let old = base4::digit(w, e) as u8;
    if !grows(planes, w, w | one) {
        return Some(Answer::from(old | 1));
    }
    if !grows(planes, w, w | two) {
        return Some(Answer::from(old | 2));
    }
    None
}

// The first failing step from a situation: the lowest column with one, and its lowest new answer there.
#[tactic(auto, using(crate::proofs::FirstColumn::column_laws))]
fn step_at(planes: &Planes, n: usize, w: usize) -> Option<Raise>
    requires { Numbered n w }
    ensures told { step_told n w result ≡ step_at (in_words planes.now.bury planes.now.keep) n w }
    ensures inside { IfSome result (λ r. r.number < weight n) }
{
    for column in 0..n {
        if let Some(answer) = first_answer(planes, n, w, column) {
            return Some(Raise {
                number: w,
                column,
                answer,
            });
        }
    }
    None
}

// The same for any number.
pub fn step_from(planes: &Planes, n: usize, w: usize) -> Option<Raise>
    ensures told { step_told n w result ≡ step_from (in_words planes.now.bury planes.now.keep) n w }
    ensures inside { IfSome result (λ r. r.number < weight n) }
{
    if w < base4::weight(n) {
        step_at(planes, n, w)
    } else {
        None
    }
}
