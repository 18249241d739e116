// The growth check of a node array: is there a step after which its answer no longer contains the answer before?
//
// It promises, for any array that evaluates, yes exactly when no step fails, and else the first failing step: the lowest
// situation in base 4, then the lowest column, then the lowest new answer.
// It refuses n outside 1 to 6 (SITUATION, place n), then as the evaluator does: NODE, COLUMN, UNDER, DEEP, END.
//
// The answers at all situations come from planes, and the first failing step in them from seeking: here stands the reply.

#![tactic(auto)]

ghost use Rattle.std.specs.Prelude.{◌≡◌};
ghost use Rattle.refusals.specs.Meaning.{none};
ghost use Rattle.growth.specs.Meaning.{without, told, verdict_told, growth_of, growth_told};

use answers::Answer;
use refusals::Refusal;
use situations::Situation;

// Is nothing that the array has said lost in a merger? A no shows the first failing step.
#[derive(Clone, Copy)]
pub enum Verdict {
    Yes,
    No(Fall),
}

// A step after which the answer no longer contains the answer before: its situation, the column that it raises, and the
// column's new answer.
#[derive(Clone, Copy)]
pub struct Fall {
    pub situation: Situation,
    pub column: usize,
    pub answer: Answer,
}

// A verdict as it is told: its number, 1 for yes and 2 for no, and the step that a no shows. Numbers from elsewhere are taken as they come.
#[derive(Clone, Copy)]
pub struct Told {
    pub verdict: u8,
    pub situation: Situation,
    pub column: usize,
    pub answer: u8,
}

// A verdict that shows no step.
fn stepless(verdict: u8) -> Told
    ensures { told none result ≡ without none verdict }
{
    Told {
        verdict,
        situation: Situation {
            length: 0,
            answers: [0; 6],
        },
        column: 0,
        answer: 0,
    }
}

// Neither yes nor no, and no step.
pub fn neither() -> Told
    ensures { told none result ≡ without none 0 }
{
    stepless(0)
}

impl From<Verdict> for Told {
    ghost from_gives = { λ verdict t. told none t ≡ verdict_told verdict };

    fn from(verdict: Verdict) -> Told {
        match verdict {
            Verdict::Yes => stepless(1),
            Verdict::No(fall) => Told {
                verdict: 2,
                situation: fall.situation,
                column: fall.column,
                answer: u8::from(fall.answer),
            },
        }
    }
}

// Does the array keep the law that nothing it has said is lost in a merger?
pub fn check_growth(nodes: &[u8], columns: usize) -> Result<Verdict, Refusal>
    ensures { growth_told result ≡ growth_of nodes.now columns }
{
    let planes = planes::fill(nodes, columns)?;
    match seeking::first_step(&planes, columns) {
        Some(raise) => {
            let fall = Fall {
                situation: base4::situation_at(columns, raise.number),
                column: raise.column,
                answer: raise.answer,
            };
            Ok(Verdict::No(fall))
        }
        None => Ok(Verdict::Yes),
    }
}
