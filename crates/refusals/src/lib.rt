// The refusals: what can be wrong with an input, by document 01's names and numbers.
//
// A call that may refuse gives a `Result<_, Refusal>`; `checked` and `replied` of its definitions say which three numbers a caller
// gets of that. This crate refuses nothing itself. Number 0 is success, 15 is unused, and 22 to 27 are not given yet.

#![tactic(auto)]

ghost use Rattle.std.specs.Prelude.{◌≡◌};
ghost use Rattle.refusals.specs.Meaning.{none, refused, kind_number, refusal_at, numbers};

use std::marker::Model;

// What is wrong.
#[derive(Clone, Copy, Debug, PartialEq, Eq)]
pub enum Kind {
    Short = 1,
    Start = 2,
    Tag = 3,
    Len = 4,
    Value = 5,
    Rows = 6,
    Overlap = 7,
    Room = 8,
    Node = 9,
    Column = 10,
    Under = 11,
    Deep = 12,
    End = 13,
    Situation = 14,
    Code = 16,
    Cut = 17,
    Nest = 18,
    Tail = 19,
    Rise = 20,
    Facts = 21,
    Week = 28,
}

// The number that a caller gets.
impl From<Kind> for u8 {
    ghost from_gives = { λ kind number. number ≡ kind_number kind };

    fn from(kind: Kind) -> u8 {
        kind as u8
    }
}

// What is wrong, its place (an offset or an index, unless said) and a second number, which only OVERLAP has.
#[derive(Clone, Copy, Debug, PartialEq, Eq)]
pub struct Refusal {
    pub kind: Kind,
    pub place: usize,
    pub second: usize,
}

// The three numbers that every reply starts with: a refusal's, or zeros. They are taken as they come, so that numbers from
// elsewhere can be told too, of a kind or not.
#[derive(Clone, Copy, Debug, PartialEq, Eq)]
pub struct Numbers {
    pub number: u8,
    pub place: usize,
    pub second: usize,
}

impl Model for Numbers {
    ghost use Rattle.refusals.specs.Meaning.{Numbers};

    ghost Value = { Numbers };

    ghost view = { λ three. record { number = three.number; place = three.place; second = three.second } };

    ghost inverse = { λ three. record { number = three.number; place = three.place; second = three.second } };
}

// The numbers of success.
pub fn none() -> Numbers
    ensures { result ≡ none }
{
    Numbers {
        number: 0,
        place: 0,
        second: 0,
    }
}

// A number at a place, with no second number.
pub fn refused(number: u8, place: usize) -> Numbers
    ensures { result ≡ refused number place }
{
    let second = 0;
    Numbers {
        number,
        place,
        second,
    }
}

impl From<Refusal> for Numbers {
    ghost from_gives = { λ refusal three. three ≡ numbers refusal };

    fn from(refusal: Refusal) -> Numbers {
        Numbers {
            number: u8::from(refusal.kind),
            place: refusal.place,
            second: refusal.second,
        }
    }
}

impl Refusal {
    // A refusal at a place, with no second number.
    pub fn at(kind: Kind, place: usize) -> Refusal
        ensures { result ≡ refusal_at kind place }
    {
        Refusal {
            kind,
            place,
            second: 0,
        }
    }
}
