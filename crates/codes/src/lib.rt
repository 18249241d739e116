// The codes of voices: what a byte asks for where a policy is wanted, and where a test is wanted.
//
// It refuses nothing: a byte that is no code of the kind wanted is Foreign, and the reader of voices refuses it.

#![tactic(auto)]

ghost use Rattle.std.specs.Prelude.{◌≡◌};
ghost use Rattle.codes.specs.Meaning.{policy_kind, test_kind};

use answers::Answer;
use answers::operators::{One, Two};
use notices::Comparison;

// What a code asks for, and what is made of it.
#[derive(Clone, Copy, Debug, PartialEq, Eq)]
pub enum PolicyKind {
    Constant(Answer),
    One(One),
    Two(Two),
    When,
    Foreign,
}

#[derive(Clone, Copy, Debug, PartialEq, Eq)]
pub enum TestKind {
    Not,
    Joint(Joint),
    Comparison(Comparison),
    Present,
    Answers(Answer),
    Foreign,
}

// The tests made of two tests.
#[derive(Clone, Copy, Debug, PartialEq, Eq)]
pub enum Joint {
    And,
    Or,
}

// What a byte asks for where a policy is wanted.
impl From<u8> for PolicyKind {
    ghost from_gives = { λ code kind. kind ≡ policy_kind code };

    #[tactic(auto, unfolding(crate::specs::Meaning::policy_kind))]
    fn from(code: u8) -> PolicyKind {
        match code {
            0 => PolicyKind::Constant(Answer::Silent),
            1 => PolicyKind::Constant(Answer::Bury),
            2 => PolicyKind::Constant(Answer::Keep),
            3 => PolicyKind::Constant(Answer::Clash),
            8 => PolicyKind::One(One::Negate),
            9 => PolicyKind::One(One::Floor),
            10 => PolicyKind::One(One::Ceiling),
            12 => PolicyKind::Two(Two::TruthMeet),
            13 => PolicyKind::Two(Two::TruthJoin),
            14 => PolicyKind::Two(Two::Meet),
            15 => PolicyKind::Two(Two::Join),
            16 => PolicyKind::Two(Two::Implication),
            17 => PolicyKind::Two(Two::Guard),
            18 => PolicyKind::Two(Two::Priority),
            20 => PolicyKind::Two(Two::Replace(Answer::Silent)),
            21 => PolicyKind::Two(Two::Replace(Answer::Bury)),
            22 => PolicyKind::Two(Two::Replace(Answer::Keep)),
            23 => PolicyKind::Two(Two::Replace(Answer::Clash)),
            24 => PolicyKind::When,
            _ => PolicyKind::Foreign,
        }
    }
}

// What a byte asks for where a test is wanted.
impl From<u8> for TestKind {
    ghost from_gives = { λ code kind. kind ≡ test_kind code };

    #[tactic(auto, unfolding(crate::specs::Meaning::test_kind))]
    fn from(code: u8) -> TestKind {
        match code {
            40 => TestKind::Not,
            41 => TestKind::Joint(Joint::And),
            42 => TestKind::Joint(Joint::Or),
            43 => TestKind::Comparison(Comparison::Equal),
            44 => TestKind::Comparison(Comparison::AtLeast),
            45 => TestKind::Comparison(Comparison::Below),
            46 => TestKind::Present,
            48 => TestKind::Answers(Answer::Silent),
            49 => TestKind::Answers(Answer::Bury),
            50 => TestKind::Answers(Answer::Keep),
            51 => TestKind::Answers(Answer::Clash),
            _ => TestKind::Foreign,
        }
    }
}
