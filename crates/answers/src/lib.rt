// The four answers, both orders on them, and every operator of the document.
//
// They take answers and refuse nothing. The crate `operands` has the same for operands that are bytes.

#![tactic(auto)]

ghost use Rattle.std.specs.Prelude.{◌≡◌};
ghost use Rattle.answers.specs.Meaning.{number, from_number, contained};

pub mod operators;

#[derive(Clone, Copy, Debug, PartialEq, Eq)]
pub enum Answer {
    Silent = 0,
    Bury = 1,
    Keep = 2,
    Clash = 3,
}

// The document's number of an answer.
impl From<Answer> for u8 {
    ghost from_gives = { λ a n. n ≡ number a };

    fn from(a: Answer) -> u8 {
        a as u8
    }
}

// The answer with this number. Every caller has made sure that there is one; above 3 it is clash.
impl From<u8> for Answer {
    ghost from_gives = { λ n a. a ≡ from_number n };

    fn from(n: u8) -> Answer {
        match n {
            0 => Answer::Silent,
            1 => Answer::Bury,
            2 => Answer::Keep,
            _ => Answer::Clash,
        }
    }
}

// Is p contained in q?
pub fn contained(p: Answer, q: Answer) -> bool
    ensures { result ≡ contained p q }
{
    // an answer is its claims, bury 1 and keep 2: p is in q when p has no claim that q lacks
    u8::from(p) & u8::from(q) == u8::from(p)
}
