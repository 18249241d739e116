// The numbers of the C face: its structs, and our results turned into them. include/carmuspeno.h declares the structs.
//
// It promises that each conversion gives the numbers of the reply that its result is, each 64 bits wide, and nothing else. A reply can
// also be handed over as its three numbers beside what it has: these are taken as they come, lawful or not. A situation goes both
// ways, lawful or not.
// It refuses nothing itself: number, place and second number are those of the refusal, and 0 where there is none.

#![tactic(auto)]

ghost use Rattle.std.specs.Prelude.{◌≡◌};
ghost use Rattle.answers.specs.Meaning.{answered};
ghost use Rattle.operands.specs.Meaning.{related};
ghost use Rattle.situations.specs.Meaning.{merged};
ghost use Rattle.notices.specs.Meaning.{facts_read};
ghost use Rattle.voices.specs.Meaning.{may_answer};
ghost use Rattle.weeks.specs.Meaning.{counted};
ghost use Rattle.compiler.specs.Meaning.{compiled};
ghost use Rattle.growth.specs.Meaning.{told, growth_told};
ghost use Rattle.listing.specs.Meaning.{wrote};
ghost use Rattle.face.specs.Meaning.{answer_face, contained_face, compiled_face, situation_face, situation_behind, merged_face, growth_face, noticed_face};
ghost use Rattle.face.specs.Meaning.{heard_face, week_face, written_face, three};

use answers::Answer;
use compiler::Sizes;
use counts::Counts;
use growth::{Told, Verdict};
use refusals::{Numbers, Refusal};
use situations::{Situation, Unmerged};
use voices::Possible;
use weeks::Week;

#[repr(C)]
#[derive(Clone, Copy)]
pub struct CarmAnswer {
    pub number: u64,
    pub place: u64,
    pub second: u64,
    pub answer: u64,
}

#[repr(C)]
#[derive(Clone, Copy)]
pub struct CarmCompiled {
    pub number: u64,
    pub place: u64,
    pub second: u64,
    pub columns: u64,
    pub rows: u64,
    pub nodes: u64,
}

#[repr(C)]
#[derive(Clone, Copy)]
pub struct CarmSituation {
    pub length: u64,
    pub answers: [u8; 6],
}

#[repr(C)]
#[derive(Clone, Copy)]
pub struct CarmMerged {
    pub number: u64,
    pub place: u64,
    pub second: u64,
    pub situation: CarmSituation,
}

// The verdict is 0 for neither (a refusal), 1 for yes, 2 for no.
#[repr(C)]
#[derive(Clone, Copy)]
pub struct CarmGrowth {
    pub number: u64,
    pub place: u64,
    pub second: u64,
    pub verdict: u64,
    pub situation: CarmSituation,
    pub column: u64,
    pub answer: u64,
}

#[repr(C)]
#[derive(Clone, Copy)]
pub struct CarmNoticed {
    pub number: u64,
    pub place: u64,
    pub second: u64,
    pub facts: u64,
}

// The set has bit a for each answer a that the voice may give; the answer is its meet.
#[repr(C)]
#[derive(Clone, Copy)]
pub struct CarmHeard {
    pub number: u64,
    pub place: u64,
    pub second: u64,
    pub set: u64,
    pub answer: u64,
}

// How many notices gave each answer, how many were refused, and at each index how many with that number.
#[repr(C)]
#[derive(Clone, Copy)]
pub struct CarmWeek {
    pub number: u64,
    pub place: u64,
    pub second: u64,
    pub silent: u64,
    pub bury: u64,
    pub keep: u64,
    pub clash: u64,
    pub refused: u64,
    pub by_number: [u64; 32],
}

// How many bytes stand at the front of the lent buffer.
#[repr(C)]
#[derive(Clone, Copy)]
pub struct CarmWritten {
    pub number: u64,
    pub place: u64,
    pub second: u64,
    pub length: u64,
}

// The three numbers that every reply starts with, as wide as C has them.
#[derive(Clone, Copy)]
struct Three {
    number: u64,
    place: u64,
    second: u64,
}

impl From<Numbers> for Three {
    ghost from_gives = { λ numbers wide. wide ≡ three numbers };

    fn from(numbers: Numbers) -> Three {
        Three {
            number: u64::from(numbers.number),
            place: numbers.place as u64,
            second: numbers.second as u64,
        }
    }
}

impl From<(Numbers, Answer)> for CarmAnswer {
    ghost from_gives = { λ reply face. face ≡ answer_face (record { refusal = reply.0; answer = reply.1 }) };

    fn from(reply: (Numbers, Answer)) -> CarmAnswer {
        let (numbers, answer) = reply;
        let three = Three::from(numbers);
        CarmAnswer {
            number: three.number,
            place: three.place,
            second: three.second,
            answer: u64::from(u8::from(answer)),
        }
    }
}

impl From<Result<Answer, Refusal>> for CarmAnswer {
    ghost from_gives = { λ reply face. face ≡ answer_face (answered reply) };

    fn from(reply: Result<Answer, Refusal>) -> CarmAnswer {
        match reply {
            Ok(answer) => CarmAnswer::from((refusals::none(), answer)),
            Err(refusal) => CarmAnswer::from((Numbers::from(refusal), Answer::Silent)),
        }
    }
}

// 1 where p is contained in q, else 0.
impl From<(Numbers, bool)> for CarmAnswer {
    ghost from_gives = { λ reply face. face ≡ contained_face (record { refusal = reply.0; contained = reply.1 }) };

    fn from(reply: (Numbers, bool)) -> CarmAnswer {
        let (numbers, contained) = reply;
        let three = Three::from(numbers);
        CarmAnswer {
            number: three.number,
            place: three.place,
            second: three.second,
            answer: u64::from(contained),
        }
    }
}

impl From<Result<bool, Refusal>> for CarmAnswer {
    ghost from_gives = { λ reply face. face ≡ contained_face (related reply) };

    fn from(reply: Result<bool, Refusal>) -> CarmAnswer {
        match reply {
            Ok(contained) => CarmAnswer::from((refusals::none(), contained)),
            Err(refusal) => CarmAnswer::from((Numbers::from(refusal), false)),
        }
    }
}

impl From<(Numbers, Sizes)> for CarmCompiled {
    ghost from_gives = { λ reply face. face ≡ compiled_face (record { refusal = reply.0; columns = reply.1.columns; rows = reply.1.rows; nodes = reply.1.nodes }) };

    fn from(reply: (Numbers, Sizes)) -> CarmCompiled {
        let (numbers, sizes) = reply;
        let three = Three::from(numbers);
        CarmCompiled {
            number: three.number,
            place: three.place,
            second: three.second,
            columns: sizes.columns as u64,
            rows: sizes.rows as u64,
            nodes: sizes.nodes as u64,
        }
    }
}

impl From<Result<Sizes, Refusal>> for CarmCompiled {
    ghost from_gives = { λ reply face. face ≡ compiled_face (compiled reply) };

    fn from(reply: Result<Sizes, Refusal>) -> CarmCompiled {
        match reply {
            Ok(sizes) => CarmCompiled::from((refusals::none(), sizes)),
            Err(refusal) => {
                let nothing = Sizes {
                    columns: 0,
                    rows: 0,
                    nodes: 0,
                };
                CarmCompiled::from((Numbers::from(refusal), nothing))
            }
        }
    }
}

impl From<CarmSituation> for Situation {
    ghost from_gives = { λ face s. s ≡ situation_behind face };

    fn from(s: CarmSituation) -> Situation {
        let answers = s.answers;
        Situation {
            length: s.length as usize,
            answers,
        }
    }
}

impl From<Situation> for CarmSituation {
    ghost from_gives = { λ s face. face ≡ situation_face s };

    fn from(s: Situation) -> CarmSituation {
        let answers = s.answers;
        CarmSituation {
            length: s.length as u64,
            answers,
        }
    }
}

impl From<(Numbers, Situation)> for CarmMerged {
    ghost from_gives = { λ reply face. face ≡ merged_face (record { refusal = reply.0; situation = reply.1 }) };

    fn from(reply: (Numbers, Situation)) -> CarmMerged {
        let (numbers, situation) = reply;
        let three = Three::from(numbers);
        CarmMerged {
            number: three.number,
            place: three.place,
            second: three.second,
            situation: CarmSituation::from(situation),
        }
    }
}

// A refused merge hands back its first situation.
impl From<Result<Situation, Unmerged>> for CarmMerged {
    ghost from_gives = { λ reply face. face ≡ merged_face (merged reply) };

    fn from(reply: Result<Situation, Unmerged>) -> CarmMerged {
        match reply {
            Ok(situation) => CarmMerged::from((refusals::none(), situation)),
            Err(unmerged) => CarmMerged::from((
                Numbers::from(unmerged.refusal),
                unmerged.situation,
            )),
        }
    }
}

impl From<(Numbers, Told)> for CarmGrowth {
    ghost from_gives = { λ reply face. face ≡ growth_face (told reply.0 reply.1) };

    fn from(reply: (Numbers, Told)) -> CarmGrowth {
        let (numbers, told) = reply;
        let three = Three::from(numbers);
        let from = told.situation;
        CarmGrowth {
            number: three.number,
            place: three.place,
            second: three.second,
            verdict: u64::from(told.verdict),
            situation: CarmSituation::from(from),
            column: told.column as u64,
            answer: u64::from(told.answer),
        }
    }
}

impl From<Result<Verdict, Refusal>> for CarmGrowth {
    ghost from_gives = { λ reply face. face ≡ growth_face (growth_told reply) };

    fn from(reply: Result<Verdict, Refusal>) -> CarmGrowth {
        match reply {
            Ok(verdict) => CarmGrowth::from((refusals::none(), Told::from(verdict))),
            Err(refusal) => CarmGrowth::from((Numbers::from(refusal), growth::neither())),
        }
    }
}

impl From<(Numbers, usize)> for CarmNoticed {
    ghost from_gives = { λ reply face. face ≡ noticed_face (record { refusal = reply.0; facts = reply.1 }) };

    fn from(reply: (Numbers, usize)) -> CarmNoticed {
        let (numbers, facts) = reply;
        let three = Three::from(numbers);
        CarmNoticed {
            number: three.number,
            place: three.place,
            second: three.second,
            facts: facts as u64,
        }
    }
}

impl From<Result<usize, Refusal>> for CarmNoticed {
    ghost from_gives = { λ reply face. face ≡ noticed_face (facts_read reply) };

    fn from(reply: Result<usize, Refusal>) -> CarmNoticed {
        match reply {
            Ok(facts) => CarmNoticed::from((refusals::none(), facts)),
            Err(refusal) => CarmNoticed::from((Numbers::from(refusal), 0)),
        }
    }
}

impl From<(Numbers, Possible)> for CarmHeard {
    ghost from_gives = { λ reply face. face ≡ heard_face (record { refusal = reply.0; set = reply.1.set; answer = reply.1.answer }) };

    fn from(reply: (Numbers, Possible)) -> CarmHeard {
        let (numbers, possible) = reply;
        let three = Three::from(numbers);
        CarmHeard {
            number: three.number,
            place: three.place,
            second: three.second,
            set: u64::from(possible.set),
            answer: u64::from(u8::from(possible.answer)),
        }
    }
}

impl From<Result<Possible, Refusal>> for CarmHeard {
    ghost from_gives = { λ reply face. face ≡ heard_face (may_answer reply) };

    fn from(reply: Result<Possible, Refusal>) -> CarmHeard {
        match reply {
            Ok(possible) => CarmHeard::from((refusals::none(), possible)),
            Err(refusal) => {
                let nothing = Possible {
                    set: 0,
                    answer: Answer::Silent,
                };
                CarmHeard::from((Numbers::from(refusal), nothing))
            }
        }
    }
}

impl From<(Numbers, Counts)> for CarmWeek {
    ghost from_gives = { λ reply face. face ≡ week_face (record { refusal = reply.0; counts = reply.1 }) };

    fn from(reply: (Numbers, Counts)) -> CarmWeek {
        let (numbers, counts) = reply;
        let three = Three::from(numbers);
        let by_number = counts.numbers;
        CarmWeek {
            number: three.number,
            place: three.place,
            second: three.second,
            silent: counts.silent,
            bury: counts.bury,
            keep: counts.keep,
            clash: counts.clash,
            refused: counts.refused,
            by_number,
        }
    }
}

impl From<Week> for CarmWeek {
    ghost from_gives = { λ week face. face ≡ week_face (counted week) };

    fn from(week: Week) -> CarmWeek {
        let counts = week.counts;
        match week.refused {
            Some(refusal) => CarmWeek::from((Numbers::from(refusal), counts)),
            None => CarmWeek::from((refusals::none(), counts)),
        }
    }
}

impl From<(Numbers, usize)> for CarmWritten {
    ghost from_gives = { λ reply face. face ≡ written_face (record { refusal = reply.0; length = reply.1 }) };

    fn from(reply: (Numbers, usize)) -> CarmWritten {
        let (numbers, length) = reply;
        let three = Three::from(numbers);
        CarmWritten {
            number: three.number,
            place: three.place,
            second: three.second,
            length: length as u64,
        }
    }
}

impl From<Result<usize, Refusal>> for CarmWritten {
    ghost from_gives = { λ reply face. face ≡ written_face (wrote reply) };

    fn from(reply: Result<usize, Refusal>) -> CarmWritten {
        match reply {
            Ok(length) => CarmWritten::from((refusals::none(), length)),
            Err(refusal) => CarmWritten::from((Numbers::from(refusal), 0)),
        }
    }
}
