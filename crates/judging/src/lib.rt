// Judging a table: the text that `tablecheck` prints for the bytes of one, written at the front of a lent buffer.
//
// It promises, for every input, exactly that text for its first 1,024 bytes, with 4,223 bytes of room for nodes: the lines of
// columns, rows, nodes and growth, or the one line of a refusal. It returns the text's length and changes no byte behind it.
// It refuses nothing, but a lent buffer below 256 bytes gets no text and the length 0: 256 are enough for every text.

#![tactic(auto)]

ghost use Rattle.std.specs.Prelude.{◌≡◌, cond, ◌++◌, ltb, length, take, drop, MatchResult};
ghost use Rattle.refusals.specs.Meaning.{numbers};
ghost use Rattle.text.specs.Meaning.{Printed, Wrote};
ghost use Rattle.tables.specs.Meaning.{table_of};
ghost use Rattle.formula.specs.Meaning.{table_nodes};
ghost use Rattle.compiler.specs.Meaning.{accept_compiled, compile_of};
ghost use Rattle.growth.specs.Meaning.{verdict_told, growth_of};
ghost use Rattle.judging.specs.Meaning.{text_of};

use compiler::Sizes;
use growth::Verdict;
use refusals::Refusal;
use text::Page;

// The least length of a lent buffer that gets a text. Every text is shorter: a number has at most 20 digits.
pub const TEXT_ROOM: usize = 256;

// How many bytes of the input are judged.
pub const JUDGED: usize = 1024;

// The sizes of a table and the verdict on it. Without a default other than silent no table needs more than 4,223 nodes; one that does
// is refused by ROOM. The check refuses no table that compiles.
fn judged(table: &[u8]) -> Result<(Sizes, Verdict), Refusal>
    ensures { MatchResult result
        (λ p. (accept_compiled p.0 ≡ compile_of table.now 4223) × (verdict_told p.1 ≡ growth_of (table_nodes (table_of table.now)) p.0.columns))
        (λ r. numbers r ≡ (compile_of table.now 4223).refusal) }
{
    let mut nodes = [0u8; 4223];
    let sizes = compiler::compile(table, &mut nodes)?;
    let verdict = growth::check_growth(&nodes[..sizes.nodes], sizes.columns)?;
    Ok((sizes, verdict))
}

// The text of a table.
fn put_table(page: &mut Page<'_>, table: &[u8])
    ensures { Wrote page.old (text_of table.now) page.new }
{
    match judged(table) {
        Ok((sizes, verdict)) => {
            lines::put_counts(page, sizes);
            lines::put_growth(page, verdict);
        }
        Err(refusal) => page.refusal(refusal),
    }
}

// The same at the front of a buffer. Returns how many bytes that is.
fn put_text(text: &mut [u8], table: &[u8]) -> usize
    ensures { Printed text.old 0 (text_of table.now) text.new result }
{
    let mut page = Page::new(text);
    put_table(&mut page, table);
    page.written().len()
}

// Judges a table and writes what is to be printed. Returns how many bytes that is.
pub fn judge(input: &[u8], text: &mut [u8]) -> usize
    ensures length { result ≡ cond (ltb (length text.old) 256) 0 (length (text_of (take 1024 input.now))) }
    ensures written { text.new ≡ cond (ltb (length text.old) 256) text.old (text_of (take 1024 input.now) ++ drop (length (text_of (take 1024 input.now))) text.old) }
{
    if text.len() < TEXT_ROOM {
        return 0;
    }
    put_text(text, &input[..input.len().min(JUDGED)])
}
