// The exports: every function of the face under its C name, for the firmware and the service to link. include/carmuspeno.h declares
// them.
//
// Each calls the function of that name in the library carmuspeno, and has its clauses. A slice is a pointer and a length, and the
// pointer of an empty slice may be null. Nothing keeps a pointer after it returns.

#![tactic(auto)]

ghost use Rattle.std.specs.Prelude.{◌≡◌, length};
ghost use Rattle.operands.specs.Meaning.{one_of, two_of, replace_of, contained_of};
ghost use Rattle.answers.specs.declared.operators.One.TheVariants as one;
ghost use Rattle.answers.specs.declared.operators.Two.TheVariants as two;
ghost use Rattle.situations.specs.Meaning.{merge_of};
ghost use Rattle.notices.specs.Meaning.{notice_of};
ghost use Rattle.voices.specs.Meaning.{speak_of, hear_of};
ghost use Rattle.weeks.specs.Meaning.{week_of};
ghost use Rattle.compiler.specs.Meaning.{compile_of, written_of};
ghost use Rattle.nodes.specs.Meaning.{evaluate_of};
ghost use Rattle.growth.specs.Meaning.{growth_of};
ghost use Rattle.listing.specs.Meaning as listing;
ghost use Rattle.untable.specs.Meaning.{table_back, untable_of};
ghost use Rattle.face.specs.Meaning.{answer_face, contained_face, compiled_face, situation_behind, merged_face, growth_face, noticed_face};
ghost use Rattle.face.specs.Meaning.{heard_face, week_face, written_face};

use face::{
    CarmAnswer, CarmCompiled, CarmGrowth, CarmHeard, CarmMerged, CarmNoticed, CarmSituation,
    CarmWeek, CarmWritten,
};

#[unsafe(no_mangle)]
pub extern "C" fn carm_negate(p: u8) -> CarmAnswer
    ensures { result ≡ answer_face (one_of one.Negate p) }
{
    carmuspeno::carm_negate(p)
}

#[unsafe(no_mangle)]
pub extern "C" fn carm_turn(p: u8) -> CarmAnswer
    ensures { result ≡ answer_face (one_of one.Turn p) }
{
    carmuspeno::carm_turn(p)
}

#[unsafe(no_mangle)]
pub extern "C" fn carm_floor(p: u8) -> CarmAnswer
    ensures { result ≡ answer_face (one_of one.Floor p) }
{
    carmuspeno::carm_floor(p)
}

#[unsafe(no_mangle)]
pub extern "C" fn carm_ceiling(p: u8) -> CarmAnswer
    ensures { result ≡ answer_face (one_of one.Ceiling p) }
{
    carmuspeno::carm_ceiling(p)
}

#[unsafe(no_mangle)]
pub extern "C" fn carm_meet(p: u8, q: u8) -> CarmAnswer
    ensures { result ≡ answer_face (two_of two.Meet p q) }
{
    carmuspeno::carm_meet(p, q)
}

#[unsafe(no_mangle)]
pub extern "C" fn carm_join(p: u8, q: u8) -> CarmAnswer
    ensures { result ≡ answer_face (two_of two.Join p q) }
{
    carmuspeno::carm_join(p, q)
}

#[unsafe(no_mangle)]
pub extern "C" fn carm_truth_meet(p: u8, q: u8) -> CarmAnswer
    ensures { result ≡ answer_face (two_of two.TruthMeet p q) }
{
    carmuspeno::carm_truth_meet(p, q)
}

#[unsafe(no_mangle)]
pub extern "C" fn carm_truth_join(p: u8, q: u8) -> CarmAnswer
    ensures { result ≡ answer_face (two_of two.TruthJoin p q) }
{
    carmuspeno::carm_truth_join(p, q)
}

#[unsafe(no_mangle)]
pub extern "C" fn carm_implication(p: u8, q: u8) -> CarmAnswer
    ensures { result ≡ answer_face (two_of two.Implication p q) }
{
    carmuspeno::carm_implication(p, q)
}

#[unsafe(no_mangle)]
pub extern "C" fn carm_guard(p: u8, q: u8) -> CarmAnswer
    ensures { result ≡ answer_face (two_of two.Guard p q) }
{
    carmuspeno::carm_guard(p, q)
}

#[unsafe(no_mangle)]
pub extern "C" fn carm_priority(p: u8, q: u8) -> CarmAnswer
    ensures { result ≡ answer_face (two_of two.Priority p q) }
{
    carmuspeno::carm_priority(p, q)
}

// x in p replaced by q.
#[unsafe(no_mangle)]
pub extern "C" fn carm_replace(x: u8, p: u8, q: u8) -> CarmAnswer
    ensures { result ≡ answer_face (replace_of x p q) }
{
    carmuspeno::carm_replace(x, p, q)
}

// 1 where p is contained in q, else 0.
#[unsafe(no_mangle)]
pub extern "C" fn carm_contained(p: u8, q: u8) -> CarmAnswer
    ensures { result ≡ contained_face (contained_of p q) }
{
    carmuspeno::carm_contained(p, q)
}

#[unsafe(no_mangle)]
pub extern "C" fn carm_compile(table: &[u8], nodes: &mut [u8]) -> CarmCompiled
    ensures reply { result ≡ compiled_face (compile_of table.now (length nodes.old)) }
    ensures written { nodes.new ≡ written_of table.now nodes.old }
{
    carmuspeno::carm_compile(table, nodes)
}

#[unsafe(no_mangle)]
pub extern "C" fn carm_evaluate(nodes: &[u8], situation: &[u8]) -> CarmAnswer
    ensures { result ≡ answer_face (evaluate_of nodes.now situation.now) }
{
    carmuspeno::carm_evaluate(nodes, situation)
}

#[unsafe(no_mangle)]
pub extern "C" fn carm_merge(first: CarmSituation, second: CarmSituation) -> CarmMerged
    ensures { result ≡ merged_face (merge_of (situation_behind first) (situation_behind second)) }
{
    carmuspeno::carm_merge(first, second)
}

#[unsafe(no_mangle)]
pub extern "C" fn carm_check_growth(nodes: &[u8], columns: u64) -> CarmGrowth
    ensures { result ≡ growth_face (growth_of nodes.now columns) }
{
    carmuspeno::carm_check_growth(nodes, columns)
}

#[unsafe(no_mangle)]
pub extern "C" fn carm_read_notice(notice: &[u8]) -> CarmNoticed
    ensures { result ≡ noticed_face (notice_of notice.now) }
{
    carmuspeno::carm_read_notice(notice)
}

// What the voice's column receives: the meet of the set below.
#[unsafe(no_mangle)]
pub extern "C" fn carm_speak(notice: &[u8], voice: &[u8]) -> CarmAnswer
    ensures { result ≡ answer_face (speak_of notice.now voice.now) }
{
    carmuspeno::carm_speak(notice, voice)
}

// The set of all that the voice may answer, and its meet.
#[unsafe(no_mangle)]
pub extern "C" fn carm_speak_set(notice: &[u8], voice: &[u8]) -> CarmHeard
    ensures { result ≡ heard_face (hear_of notice.now voice.now) }
{
    carmuspeno::carm_speak_set(notice, voice)
}

// The voice's record over a batch of notices.
#[unsafe(no_mangle)]
pub extern "C" fn carm_count_week(batch: &[u8], voice: &[u8]) -> CarmWeek
    ensures { result ≡ week_face (week_of batch.now voice.now) }
{
    carmuspeno::carm_count_week(batch, voice)
}

// The table of what the nodes answer at the situations of so many columns.
#[unsafe(no_mangle)]
pub extern "C" fn carm_untable(nodes: &[u8], columns: u64, table: &mut [u8]) -> CarmWritten
    ensures reply { result ≡ written_face (untable_of nodes.now columns (length table.old)) }
    ensures written { table.new
        ≡ listing.written_of (table_back nodes.now columns) (untable_of nodes.now columns (length table.old))
        table.old }
{
    carmuspeno::carm_untable(nodes, columns, table)
}
