// The operators on answers.
ghost use Rattle.std.specs.Prelude.{◌≡◌};
ghost use Rattle.answers.specs.Meaning.{negate, turn, floor, ceiling, meet, join, truth_meet, truth_join, implication, guard, priority, replace, apply_one, apply_two};
ghost use Rattle.answers.specs.Inside.{settled, provided};

use crate::Answer;

// The operators with one operand.
#[derive(Clone, Copy, Debug, PartialEq, Eq)]
pub enum One {
    Negate,
    Turn,
    Floor,
    Ceiling,
}

// The operators with two operands; Replace(x) replaces x in the first by the second.
#[derive(Clone, Copy, Debug, PartialEq, Eq)]
pub enum Two {
    Meet,
    Join,
    TruthMeet,
    TruthJoin,
    Implication,
    Guard,
    Priority,
    Replace(Answer),
}

pub fn negate(p: Answer) -> Answer
    ensures { result ≡ negate p }
{
    match p {
        Answer::Silent => Answer::Silent,
        Answer::Bury => Answer::Keep,
        Answer::Keep => Answer::Bury,
        Answer::Clash => Answer::Clash,
    }
}

pub fn turn(p: Answer) -> Answer
    ensures { result ≡ turn p }
{
    Answer::from((u8::from(p) + 1) % 4)
}

// What is decided stays, and what is open (silent, clash) becomes another answer.
fn settled(other: Answer, p: Answer) -> Answer
    ensures { result ≡ settled other p }
{
    match p {
        Answer::Bury | Answer::Keep => p,
        Answer::Silent | Answer::Clash => other,
    }
}

#[tactic(auto, using(crate::proofs::Cases::case_laws))]
pub fn floor(p: Answer) -> Answer
    ensures { result ≡ floor p }
{
    settled(Answer::Bury, p)
}

#[tactic(auto, using(crate::proofs::Cases::case_laws))]
pub fn ceiling(p: Answer) -> Answer
    ensures { result ≡ ceiling p }
{
    settled(Answer::Keep, p)
}

// Meet and join keep the claims that both have, and that either has.
pub fn meet(p: Answer, q: Answer) -> Answer
    ensures { result ≡ meet p q }
{
    Answer::from(u8::from(p) & u8::from(q))
}

pub fn join(p: Answer, q: Answer) -> Answer
    ensures { result ≡ join p q }
{
    Answer::from(u8::from(p) | u8::from(q))
}

// The truth operators: truth meet claims keep where both do and bury where either does, truth join the other way round.
pub fn truth_meet(p: Answer, q: Answer) -> Answer
    ensures { result ≡ truth_meet p q }
{
    let both = u8::from(p) & u8::from(q);
    let either = u8::from(p) | u8::from(q);
    Answer::from((both & 2) | (either & 1))
}

pub fn truth_join(p: Answer, q: Answer) -> Answer
    ensures { result ≡ truth_join p q }
{
    let both = u8::from(p) & u8::from(q);
    let either = u8::from(p) | u8::from(q);
    Answer::from((either & 2) | (both & 1))
}

// The second operand where the first claims keep, else another answer.
fn provided(p: Answer, q: Answer, otherwise: Answer) -> Answer
    ensures { result ≡ provided p q otherwise }
{
    match p {
        Answer::Keep | Answer::Clash => q,
        Answer::Silent | Answer::Bury => otherwise,
    }
}

#[tactic(auto, using(crate::proofs::Cases::case_laws))]
pub fn implication(p: Answer, q: Answer) -> Answer
    ensures { result ≡ implication p q }
{
    provided(p, q, Answer::Keep)
}

#[tactic(auto, using(crate::proofs::Cases::case_laws))]
pub fn guard(p: Answer, q: Answer) -> Answer
    ensures { result ≡ guard p q }
{
    provided(p, q, Answer::Silent)
}

pub fn priority(p: Answer, q: Answer) -> Answer
    ensures { result ≡ priority p q }
{
    if p == Answer::Silent { q } else { p }
}

// x in p replaced by q.
pub fn replace(x: Answer, p: Answer, q: Answer) -> Answer
    ensures { result ≡ replace x p q }
{
    if p == x { q } else { p }
}

pub fn apply_one(operator: One, p: Answer) -> Answer
    ensures { result ≡ apply_one operator p }
{
    match operator {
        One::Negate => negate(p),
        One::Turn => turn(p),
        One::Floor => floor(p),
        One::Ceiling => ceiling(p),
    }
}

pub fn apply_two(operator: Two, p: Answer, q: Answer) -> Answer
    ensures { result ≡ apply_two operator p q }
{
    match operator {
        Two::Meet => meet(p, q),
        Two::Join => join(p, q),
        Two::TruthMeet => truth_meet(p, q),
        Two::TruthJoin => truth_join(p, q),
        Two::Implication => implication(p, q),
        Two::Guard => guard(p, q),
        Two::Priority => priority(p, q),
        Two::Replace(x) => replace(x, p, q),
    }
}
