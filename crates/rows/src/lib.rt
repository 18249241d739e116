// The rows of a table, as the part of it that starts with the first row: how many it holds, the bytes of each, the cells and
// the outcome in a row's bytes, and which two rows disagree.
//
// It promises of any bytes what its definitions say; a row that is not there has no bytes.
// It refuses only by OVERLAP: two rows that one situation matches and whose outcomes differ (place: the later row, second: the
// earlier one). The headers and the ranges of values are looked at where tables are read.

#![tactic(auto)]

ghost use Rattle.std.specs.Prelude.{◌≡◌, ◌<◌, map};
ghost use Rattle.refusals.specs.Meaning.{checked};
ghost use Rattle.rows.specs.Meaning.{row_count, row_bytes, cell_bytes, outcome_of, row_of, cell_of};
ghost use Rattle.rows.specs.Meaning.{cells_share, overlap, disagree, first_overlap};

use answers::Answer;
use fields::HEADER;
use refusals::{Kind, Refusal};

// What a row has beside its cells: a header of three bytes, and the outcome.
pub const BESIDE_CELLS: usize = 4;

pub const MOST_COLUMNS: usize = 6;

// A cell from here on is any. Cells are bytes of the table: an enum of them would be read and thrown away at each comparison.
pub const ANY: u8 = 4;

// The part of a table that starts with its first row, and how many cells each row has.
#[derive(Clone, Copy)]
pub struct Rows<'a> {
    pub bytes: &'a [u8],
    pub columns: usize,
}

impl<'a> Rows<'a> {
    // How many rows the part holds.
    #[tactic(auto, unfolding(crate::specs::Meaning::row_count))]
    pub fn count(self) -> usize
        ensures { result ≡ row_count self.entry.columns self.entry.bytes.now }
    {
        if MOST_COLUMNS < self.columns {
            return 0;
        }
        self.bytes.len() / (self.columns + BESIDE_CELLS)
    }

    // The bytes of a row that is there, header included.
    fn inside(self, row: usize) -> &'a [u8]
        requires { row < row_count self.columns self.bytes.now }
        ensures { result.now ≡ row_bytes self.entry.columns self.entry.bytes.now row }
    {
        let bytes = self.bytes;
        let width = self.columns + BESIDE_CELLS;
        let start = row * width;
        let end = start + width;
        &bytes[start..end]
    }

    // The bytes of a row: an empty part where there is no such row.
    #[tactic(auto, unfolding(crate::specs::Meaning::row_bytes))]
    pub fn row(self, row: usize) -> &'a [u8]
        ensures { result.now ≡ row_bytes self.entry.columns self.entry.bytes.now row }
    {
        if row < self.count() {
            return self.inside(row);
        }
        &[]
    }

    // Refuses the first later row, with the first earlier one, that disagree. Silent rows count too.
    pub fn check_overlap(self) -> Result<(), Refusal>
        ensures { checked result ≡ first_overlap self.entry.columns self.entry.bytes.now }
    {
        let mut found = Ok(());
        'pairs: for later in 0..self.count() {
            let p = self.inside(later);
            for earlier in 0..later {
                if rows_disagree(p, self.inside(earlier)) {
                    found = Err(Refusal {
                        kind: Kind::Overlap,
                        place: later,
                        second: earlier,
                    });
                    break 'pairs;
                }
            }
        }
        found
    }
}

// The cells in a row's bytes.
pub fn cells(row: &[u8]) -> &[u8]
    ensures { result.now ≡ cell_bytes row.now }
{
    if row.len() < BESIDE_CELLS {
        return &row[..0];
    }
    let end = row.len() - 1;
    &row[HEADER..end]
}

// The outcome in a row's bytes.
pub fn outcome(row: &[u8]) -> Answer
    ensures { result ≡ outcome_of row.now }
{
    match row.last() {
        Some(number) => Answer::from(*number),
        None => Answer::Silent,
    }
}

// Can one answer match both cells?
#[tactic(auto, using(crate::proofs::Comparison::share_laws))]
fn cells_share(c: u8, d: u8) -> bool
    ensures { result ≡ cells_share (cell_of c) (cell_of d) }
{
    ANY <= c || ANY <= d || c == d
}

// Can one situation match both rows of cells?
fn cells_overlap(p: &[u8], q: &[u8]) -> bool
    ensures { result ≡ overlap (map cell_of p.now) (map cell_of q.now) }
{
    p.iter().zip(q).all(|(c, d)| cells_share(*c, *d))
}

// Can one situation match both rows, while their outcomes differ?
fn rows_disagree(p: &[u8], q: &[u8]) -> bool
    ensures { result ≡ disagree (row_of p.now) (row_of q.now) }
{
    outcome(p) != outcome(q) && cells_overlap(cells(p), cells(q))
}
