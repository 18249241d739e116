// Which situations the rows of a table match.
//
// It promises of any bytes what its definitions say: whether one of the rows that a part holds matches a situation. Silent rows
// match like others. It refuses nothing: an answer above 3 counts as clash, a cell above 4 as any, and a situation that has fewer
// answers than a row has cells is not matched.

#![tactic(auto)]

ghost use Rattle.std.specs.Prelude.{◌≡◌, map, ◌≤◌, length};
ghost use Rattle.answers.specs.Meaning.{from_number};
ghost use Rattle.situations.specs.Meaning.{answers_of};
ghost use Rattle.rows.specs.Meaning.{cell_of, cell_matches, matches, rows_in};
ghost use Rattle.matching.specs.Meaning.{matched};

use answers::Answer;
use fields::HEADER;
use rows::{ANY, BESIDE_CELLS, Rows};

// Does an answer match a cell?
#[tactic(auto, using(crate::proofs::Matches::cell_laws))]
fn cell_matches(cell: u8, answer: u8) -> bool
    ensures { result ≡ cell_matches (cell_of cell) (from_number answer) }
{
    ANY <= cell || cell == u8::from(Answer::from(answer))
}

// Does a situation match a row's cells?
fn cells_match(cells: &[u8], situation: &[u8]) -> bool
    requires { length cells.now ≤ length situation.now }
    ensures { result ≡ matches (map cell_of cells.now) (answers_of situation.now) }
{
    cells
        .iter()
        .zip(situation)
        .all(|(cell, answer)| cell_matches(*cell, *answer))
}

// Does one of the rows that a part holds match a situation? Their cells are taken out of the part itself, since the parts of a part
// cost half as much again where 4,096 situations are tried.
pub fn matched(rows: Rows, situation: &[u8]) -> bool
    ensures { result ≡ matched (rows_in rows.entry.columns rows.entry.bytes.now) (answers_of situation.now) }
{
    let columns = rows.columns;
    let bytes = rows.bytes;
    if situation.len() < columns {
        return false;
    }
    for i in 0..rows.count() {
        let start = i * (columns + BESIDE_CELLS) + HEADER;
        let end = start + columns;
        if cells_match(&bytes[start..end], situation) {
            return true;
        }
    }
    false
}
