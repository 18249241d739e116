// The face: every entry point in the words of C. crates/carmuspeno_c exports each of these functions, which a library cannot do itself.
//
// It promises that each function gives the numbers of the function that it calls, and nothing else: every contract here
// cites the definition that the called function's contract cites. Nothing keeps a slice after it returns.
// It refuses nothing itself: number, place and second number are those of the function called.

#![tactic(auto)]

ghost use Rattle.std.specs.Prelude.{◌≡◌, length};
ghost use Rattle.operands.specs.Meaning.{one_of, two_of, replace_of, contained_of};
ghost use Rattle.answers.specs.declared.operators.One.TheVariants as one;
ghost use Rattle.answers.specs.declared.operators.Two.TheVariants as two;
ghost use Rattle.situations.specs.Meaning.{merge_of};
ghost use Rattle.notices.specs.Meaning.{notice_of};
ghost use Rattle.voices.specs.Meaning.{speak_of, hear_of};
ghost use Rattle.weeks.specs.Meaning.{week_of};
ghost use Rattle.compiler.specs.Meaning.{compile_of, written_of};
ghost use Rattle.nodes.specs.Meaning.{evaluate_of};
ghost use Rattle.growth.specs.Meaning.{growth_of};
ghost use Rattle.listing.specs.Meaning as listing;
ghost use Rattle.untable.specs.Meaning.{table_back, untable_of};
ghost use Rattle.face.specs.Meaning.{answer_face, contained_face, compiled_face, situation_behind, merged_face, growth_face, noticed_face};
ghost use Rattle.face.specs.Meaning.{heard_face, week_face, written_face};

use answers::operators::{One, Two};
pub use face::{
    CarmAnswer, CarmCompiled, CarmGrowth, CarmHeard, CarmMerged, CarmNoticed, CarmSituation,
    CarmWeek, CarmWritten,
};
use situations::Situation;

// One function for each operator, as include/carmuspeno.h declares them.
pub fn carm_negate(p: u8) -> CarmAnswer
    ensures { result ≡ answer_face (one_of one.Negate p) }
{
    CarmAnswer::from(operands::one(One::Negate, p))
}

pub fn carm_turn(p: u8) -> CarmAnswer
    ensures { result ≡ answer_face (one_of one.Turn p) }
{
    CarmAnswer::from(operands::one(One::Turn, p))
}

pub fn carm_floor(p: u8) -> CarmAnswer
    ensures { result ≡ answer_face (one_of one.Floor p) }
{
    CarmAnswer::from(operands::one(One::Floor, p))
}

pub fn carm_ceiling(p: u8) -> CarmAnswer
    ensures { result ≡ answer_face (one_of one.Ceiling p) }
{
    CarmAnswer::from(operands::one(One::Ceiling, p))
}

pub fn carm_meet(p: u8, q: u8) -> CarmAnswer
    ensures { result ≡ answer_face (two_of two.Meet p q) }
{
    CarmAnswer::from(operands::two(Two::Meet, p, q))
}

pub fn carm_join(p: u8, q: u8) -> CarmAnswer
    ensures { result ≡ answer_face (two_of two.Join p q) }
{
    CarmAnswer::from(operands::two(Two::Join, p, q))
}

pub fn carm_truth_meet(p: u8, q: u8) -> CarmAnswer
    ensures { result ≡ answer_face (two_of two.TruthMeet p q) }
{
    CarmAnswer::from(operands::two(Two::TruthMeet, p, q))
}

pub fn carm_truth_join(p: u8, q: u8) -> CarmAnswer
    ensures { result ≡ answer_face (two_of two.TruthJoin p q) }
{
    CarmAnswer::from(operands::two(Two::TruthJoin, p, q))
}

pub fn carm_implication(p: u8, q: u8) -> CarmAnswer
    ensures { result ≡ answer_face (two_of two.Implication p q) }
{
    CarmAnswer::from(operands::two(Two::Implication, p, q))
}

pub fn carm_guard(p: u8, q: u8) -> CarmAnswer
    ensures { result ≡ answer_face (two_of two.Guard p q) }
{
    CarmAnswer::from(operands::two(Two::Guard, p, q))
}

pub fn carm_priority(p: u8, q: u8) -> CarmAnswer
    ensures { result ≡ answer_face (two_of two.Priority p q) }
{
    CarmAnswer::from(operands::two(Two::Priority, p, q))
}

// x in p replaced by q.
pub fn carm_replace(x: u8, p: u8, q: u8) -> CarmAnswer
    ensures { result ≡ answer_face (replace_of x p q) }
{
    CarmAnswer::from(operands::replace(x, p, q))
}

// 1 where p is contained in q, else 0.
pub fn carm_contained(p: u8, q: u8) -> CarmAnswer
    ensures { result ≡ contained_face (contained_of p q) }
{
    CarmAnswer::from(operands::contained(p, q))
}

pub fn carm_compile(table: &[u8], nodes: &mut [u8]) -> CarmCompiled
    ensures reply { result ≡ compiled_face (compile_of table.now (length nodes.old)) }
    ensures written { nodes.new ≡ written_of table.now nodes.old }
{
    CarmCompiled::from(compiler::compile(table, nodes))
}

pub fn carm_evaluate(nodes: &[u8], situation: &[u8]) -> CarmAnswer
    ensures { result ≡ answer_face (evaluate_of nodes.now situation.now) }
{
    CarmAnswer::from(evaluator::evaluate(nodes, situation))
}

pub fn carm_merge(first: CarmSituation, second: CarmSituation) -> CarmMerged
    ensures { result ≡ merged_face (merge_of (situation_behind first) (situation_behind second)) }
{
    let old = Situation::from(first);
    CarmMerged::from(old.merge(Situation::from(second)))
}

pub fn carm_check_growth(nodes: &[u8], columns: u64) -> CarmGrowth
    ensures { result ≡ growth_face (growth_of nodes.now columns) }
{
    CarmGrowth::from(growth::check_growth(nodes, columns as usize))
}

pub fn carm_read_notice(notice: &[u8]) -> CarmNoticed
    ensures { result ≡ noticed_face (notice_of notice.now) }
{
    CarmNoticed::from(notices::read_notice(notice))
}

// What the voice's column receives: the meet of the set below.
pub fn carm_speak(notice: &[u8], voice: &[u8]) -> CarmAnswer
    ensures { result ≡ answer_face (speak_of notice.now voice.now) }
{
    CarmAnswer::from(voices::speak(notice, voice))
}

// The set of all that the voice may answer, and its meet.
pub fn carm_speak_set(notice: &[u8], voice: &[u8]) -> CarmHeard
    ensures { result ≡ heard_face (hear_of notice.now voice.now) }
{
    CarmHeard::from(voices::speak_set(notice, voice))
}

// The voice's record over a batch of notices.
pub fn carm_count_week(batch: &[u8], voice: &[u8]) -> CarmWeek
    ensures { result ≡ week_face (week_of batch.now voice.now) }
{
    CarmWeek::from(weeks::count_week(batch, voice))
}

// The table of what the nodes answer at the situations of so many columns.
pub fn carm_untable(nodes: &[u8], columns: u64, table: &mut [u8]) -> CarmWritten
    ensures reply { result ≡ written_face (untable_of nodes.now columns (length table.old)) }
    ensures written { table.new
        ≡ listing.written_of (table_back nodes.now columns) (untable_of nodes.now columns (length table.old))
        table.old }
{
    CarmWritten::from(untable::untable(nodes, columns as usize, table))
}
