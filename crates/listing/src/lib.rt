// The table that lists answers, written into a lent buffer: one row for every situation with an answer other than silent, in base-4
// order, each cell an answer, and no default.
//
// The answers at all situations of n columns come in planes, two blocks of 64 words: bit w % 64 of word w / 64 is the situation with
// number w; what stands beyond the situations does not count. It promises that the table's bytes then stand at the
// buffer's front and nothing else is written, and that a refused call writes nothing.
// It refuses a column count outside 1 to 6 (SITUATION, place: the count), then more than 64 rows (ROWS, place: rows needed), then a
// buffer too short (ROOM, place: bytes needed).
//
// Each function that puts rows goes on from a place and returns the next one: a row is written where the buffer has room for it, and
// counted in any case. So the walk over an empty buffer counts. (A page of `text` cuts off what it has no room for, and so cannot
// count.) Where nothing is left in a word, its end comes next.

#![tactic(auto)]

ghost use Rattle.std.specs.Prelude.{◌≡◌, ◌+◌, ◌≤◌, ◌<◌, length};
ghost use Rattle.lent.specs.Inside.{Wrote};
ghost use Rattle.situations.specs.Meaning.{weight, situation_at};
ghost use Rattle.base4.specs.Meaning.{situations_of};
ghost use Rattle.tables.specs.Meaning.{table_bytes};
ghost use Rattle.steps.specs.Meaning.{in_words};
ghost use Rattle.listing.specs.Meaning.{listed_rows, listed, wrote, reply_of, list_of, written_of};
ghost use Rattle.listing.specs.Inside.{limit, behind, ahead_of, lowest, answer_bytes, listed_from, placed};

use answers::Answer;
use planes::Planes;
use refusals::{Kind, Refusal};
use rows::{BESIDE_CELLS, MOST_COLUMNS};

// The tags of a table's fields.
const COLUMNS: u8 = 1;

const ROW: u8 = 2;

// The length of the columns field.
const COLUMNS_FIELD: usize = 4;

const MOST_ROWS: usize = 64;

// The situations of a word.
const WORD: usize = 64;

// The bits of a situation's word from its own on.
fn rest(words: &[u64; 64], w: usize) -> u64
    requires { w < 4096 }
    ensures { result ≡ behind words.now w }
{
    let word = words[w / WORD];
    word >> (w % WORD)
}

// How far it is to the next situation that may have an answer: the next one, or where nothing is left in the word its end.
fn ahead(low: u64, high: u64, w: usize) -> usize
    ensures { (result ≡ ahead_of low high w) × (1 ≤ result) × (result ≤ 64) }
{
    if 1 < low {
        return 1;
    }
    if 1 < high {
        return 1;
    }
    WORD - w % WORD
}

// What the situation with a number adds, its bits the lowest of these words: nothing if its answer is silent, else its row.
fn put_answer(table: &mut [u8], at: usize, n: usize, w: usize, low: u64, high: u64) -> usize
    requires { (w < weight n) × (n ≤ 6) × (at ≤ limit) }
    ensures { Wrote table.old at (answer_bytes (lowest low high) (situation_at n w)) table.new result }
{
    let answer = Answer::from((low % 2 + 2 * (high % 2)) as u8);
    if answer == Answer::Silent {
        return at;
    }
    let end = at + n + BESIDE_CELLS;
    if table.len() < end {
        return end;
    }
    let situation = base4::situation_at(n, w);
    let cells = situation.answers;
    let header = [ROW, 0, n as u8 + 1];
    let outcome = [u8::from(answer)];
    let first = text::put_bytes(table, at, &header);
    let last = text::put_bytes(table, first, &cells[..n]);
    text::put_bytes(table, last, &outcome);
    end
}

// The rows of all situations, in base-4 order.
fn put_rows(table: &mut [u8], at: usize, planes: &Planes, n: usize) -> usize
    requires { at + length (listed_from (in_words planes.now.bury planes.now.keep) n 0 (weight n)) ≤ limit }
    ensures { Wrote table.old at (listed_from (in_words planes.now.bury planes.now.keep) n 0 (weight n)) table.new
        result }
{
    let total = base4::weight(n);
    let mut next = at;
    let mut w = 0;
    // The number goes past what is silent in a word, so that no range gives it.
    while w < total {
        let low = rest(&planes.bury, w);
        let high = rest(&planes.keep, w);
        next = put_answer(table, next, n, w, low, high);
        w += ahead(low, high, w);
    }
    next
}

// How many rows there are: the walk over no room at all.
fn count_rows(planes: &Planes, n: usize) -> usize
    requires { n ≤ 6 }
    ensures { result ≡ length (listed_rows (in_words planes.now.bury planes.now.keep) (situations_of n)) }
{
    let mut nowhere = [0u8; 0];
    put_rows(&mut nowhere, 0, planes, n) / (n + BESIDE_CELLS)
}

// Is a table of so many rows and bytes given back, with so many bytes of room? Its length, if so.
#[tactic(auto, using(crate::proofs::Returns::reply_laws))]
fn reply(rows: usize, needed: usize, room: usize) -> Result<usize, Refusal>
    ensures { wrote result ≡ reply_of rows needed room }
{
    if MOST_ROWS < rows {
        return Err(Refusal::at(Kind::Rows, rows));
    }
    if room < needed {
        return Err(Refusal::at(Kind::Room, needed));
    }
    Ok(needed)
}

// The table's bytes, where there is room for them: the columns field, and behind it the rows.
fn put_table(table: &mut [u8], planes: &Planes, n: usize)
    requires { (n ≤ 6) × (length (table_bytes (listed (in_words planes.now.bury planes.now.keep) n)) ≤ length table.old) }
    ensures { table.new ≡ placed (table_bytes (listed (in_words planes.now.bury planes.now.keep) n)) table.old }
{
    let columns = [COLUMNS, 0, 1, n as u8];
    let first = text::put_bytes(table, 0, &columns);
    put_rows(table, first, planes, n);
}

// Writes the table that lists the answers in these planes. Returns how many bytes stand at the buffer's front.
pub fn list(planes: &Planes, columns: usize, table: &mut [u8]) -> Result<usize, Refusal>
    ensures reply { wrote result ≡ list_of (in_words planes.now.bury planes.now.keep) columns (length table.old) }
    ensures written { table.new ≡ written_of (listed (in_words planes.now.bury planes.now.keep) columns) (wrote result) table.old }
{
    if columns < 1 {
        return Err(Refusal::at(Kind::Situation, columns));
    }
    if MOST_COLUMNS < columns {
        return Err(Refusal::at(Kind::Situation, columns));
    }
    let rows = count_rows(planes, columns);
    let needed = COLUMNS_FIELD + rows * (columns + BESIDE_CELLS);
    let length = reply(rows, needed, table.len())?;
    put_table(table, planes, columns);
    Ok(length)
}
