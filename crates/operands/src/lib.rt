// The operators, and contained-in, where the operands are bytes.
//
// It promises the operator's answer for operands that are answers.
// It refuses the first operand above 3: VALUE, its place the operand's index (x, p, q for replace).

#![tactic(auto)]

ghost use Rattle.std.specs.Prelude.{◌≡◌};
ghost use Rattle.refusals.specs.Meaning.{checked};
ghost use Rattle.answers.specs.Meaning.{answered};
ghost use Rattle.operands.specs.Meaning.{operand_fault, operands_of, one_of, two_of, replace_of, contained_of, related};

use answers::operators::{One, Two};
use answers::{Answer, operators};
use refusals::{Kind, Refusal};

// Are all operands answers?
fn check(operands: &[u8]) -> Result<(), Refusal>
    ensures { checked result ≡ operand_fault operands.now }
{
    match fields::first_above(operands, 3) {
        Some(place) => Err(Refusal::at(Kind::Value, place)),
        None => Ok(()),
    }
}

pub fn one(operator: One, p: u8) -> Result<Answer, Refusal>
    ensures { answered result ≡ one_of operator p }
{
    check(&[p])?;
    Ok(operators::apply_one(operator, Answer::from(p)))
}

// Are the operands of an operator answers? The answer that is replaced counts as one of them.
fn check_two(operator: Two, p: u8, q: u8) -> Result<(), Refusal>
    ensures { checked result ≡ operand_fault (operands_of operator p q) }
{
    match operator {
        Two::Replace(x) => check(&[u8::from(x), p, q]),
        _ => check(&[p, q]),
    }
}

pub fn two(operator: Two, p: u8, q: u8) -> Result<Answer, Refusal>
    ensures { answered result ≡ two_of operator p q }
{
    check_two(operator, p, q)?;
    Ok(operators::apply_two(operator, Answer::from(p), Answer::from(q)))
}

pub fn replace(x: u8, p: u8, q: u8) -> Result<Answer, Refusal>
    ensures { answered result ≡ replace_of x p q }
{
    check(&[x, p, q])?;
    Ok(operators::replace(Answer::from(x), Answer::from(p), Answer::from(q)))
}

pub fn contained(p: u8, q: u8) -> Result<bool, Refusal>
    ensures { related result ≡ contained_of p q }
{
    check(&[p, q])?;
    Ok(answers::contained(Answer::from(p), Answer::from(q)))
}
