// The lines that `tablecheck` prints for a table that compiles: the counts, and the growth check's.
//
// Each function writes them on a page (`text`) and promises that exactly this text then stands there and no other byte has changed;
// where the buffer ends first, the text is cut off there. It takes any counts and anything that is told of a verdict (whatever is not the
// yes is a no), and refuses nothing.

#![tactic(auto)]

ghost use Rattle.std.specs.Prelude.{◌++◌, take};
ghost use Rattle.text.specs.Meaning.{Wrote};
ghost use Rattle.compiler.specs.Meaning.{accept_compiled};
ghost use Rattle.refusals.specs.Meaning.{none};
ghost use Rattle.growth.specs.Meaning.{told, verdict_told};
ghost use Rattle.lines.specs.Meaning.{count_lines, growth_no, answers_text, raised_text, growth_line};

use compiler::Sizes;
use growth::{Told, Verdict};
use situations::Situation;
use text::{LINE_FEED, Page, SPACE};

// What is read, and what that compiles to.
pub fn put_counts(page: &mut Page<'_>, sizes: Sizes)
    ensures { Wrote page.old (count_lines (accept_compiled sizes)) page.new }
{
    page.line(b"columns ", sizes.columns);
    page.line(b"rows ", sizes.rows);
    page.line(b"nodes ", sizes.nodes);
}

// A no, with the answers of the situation that it shows.
fn put_no(page: &mut Page<'_>, answers: &[u8])
    ensures { Wrote page.old (growth_no ++ answers_text answers.now) page.new }
{
    page.bytes(b"growth no ");
    for &answer in answers {
        page.number(answer as usize, SPACE);
    }
}

// The same of a situation by value: what stands behind its length does not count, and it has room for six answers.
fn put_shown(page: &mut Page<'_>, situation: Situation)
    ensures { Wrote page.old (growth_no ++ answers_text (take situation.length situation.answers)) page.new }
{
    let answers = situation.answers;
    let columns = situation.length.min(answers.len());
    put_no(page, &answers[..columns]);
}

// The column raised and its new answer.
fn put_raised(page: &mut Page<'_>, column: usize, answer: u8)
    ensures { Wrote page.old (raised_text column answer) page.new }
{
    page.bytes(b"column ");
    page.number(column, SPACE);
    page.bytes(b"to ");
    page.number(answer as usize, LINE_FEED);
}

// What is told of a verdict.
pub fn put_told(page: &mut Page<'_>, verdict: Told)
    ensures { Wrote page.old (growth_line (told none verdict)) page.new }
{
    if verdict.verdict == 1 {
        return page.bytes(b"growth yes\n");
    }
    put_shown(page, verdict.situation);
    put_raised(page, verdict.column, verdict.answer);
}

// The growth check's verdict.
pub fn put_growth(page: &mut Page<'_>, verdict: Verdict)
    ensures { Wrote page.old (growth_line (verdict_told verdict)) page.new }
{
    put_told(page, Told::from(verdict));
}
