// The nodes of a table in a lent buffer.
//
// It promises that the nodes of a table stand at the buffer's front if it has room for all of them, that nothing is written if
// it has not, and that no other byte changes. How many they are is returned in any case. It refuses nothing: a part longer than
// 640 bytes, which is no table's, counts as one without rows.
//
// `Nodes` keeps the buffer and the place of the next node. What is put there is written where the buffer has room for it, and counted
// in any case: so the walk over an empty buffer counts. The rows that a default adds stand in no bytes: situation after situation is
// tried, and one that no row matches is written as it stands.

#![tactic(auto)]

ghost use Rattle.std.specs.Prelude.{◌≡◌, [], ◌∷◌, ◌+◌, ◌≤◌, ◌<◌, false, eqb, length};
ghost use Rattle.lent.specs.Meaning.{WroteWhole};
ghost use Rattle.lent.specs.Inside.{Wrote};
ghost use Rattle.situations.specs.Meaning.{weight, situation_at};
ghost use Rattle.rows.specs.Meaning.{cell_of, rows_in};
ghost use Rattle.formula.specs.Meaning.{row_nodes, rows_nodes, added_rows, all_rows};
ghost use Rattle.writing.specs.Meaning.{few_rows};
ghost use Rattle.writing.specs.Inside.{limit, beyond, Loud, Certain, behind, cell_nodes, row_with, row_step, rows_step, own_step};

use answers::Answer;
use rows::{ANY, Rows};

// Bytes of nodes, as in `selectors`.
const MEET: u8 = 6;

const JOIN: u8 = 7;

// The length of 64 rows of six columns.
const LONGEST: usize = 640;

// A lent buffer, and the place of the next node.
#[derive(Drop)]
struct Nodes<'a> {
    buffer: &'a mut [u8],
    next: usize,
}

impl Nodes<'_> {
    ghost use Rattle.writing.specs.Inside.{Put};

    fn put(&mut self, node: u8)
        requires { self.old.next ≤ beyond }
        ensures { Put self.old (node ∷ []) self.new }
    {
        if self.next < self.buffer.len() {
            self.buffer[self.next] = node;
        }
        self.next += 1;
    }

    // The operator behind a part, unless that is the first one.
    fn put_operator(&mut self, operator: u8, first: bool)
        requires { self.old.next ≤ beyond }
        ensures { Put self.old (behind operator first) self.new }
    {
        if !first {
            self.put(operator);
        }
    }

    // What a cell adds to a row that starts at a place: its selector, and a meet unless it is the first. In a row without wild cells
    // nobody looks for any. (That makes two loops over cells of one text: one loop with two callers costs every table a tenth more.)
    fn put_cell<const WILD: bool>(&mut self, start: usize, column: usize, cell: u8, outcome: Answer)
        requires { (column < 6) × (self.old.next ≤ limit) × (WILD ≡ false → cell < 4) }
        ensures { Put self.old (cell_nodes (eqb self.old.next start) column (cell_of cell) outcome) self.new }
    {
        if WILD && ANY <= cell {
            return;
        }
        let first = self.next == start;
        self.next = selectors::put_selector(
            self.buffer,
            self.next,
            column,
            cell,
            u8::from(outcome),
        );
        self.put_operator(MEET, first);
    }

    // A row: its selectors, or its outcome as a constant where every cell is any.
    fn put_row<const WILD: bool>(&mut self, cells: &[u8], outcome: Answer)
        requires { (length cells.now ≤ 6) × (WILD ≡ false → Certain cells.now) × Loud outcome
            × (self.old.next + length (row_nodes (row_with cells.now outcome)) ≤ limit) }
        ensures { Put self.old (row_nodes (row_with cells.now outcome)) self.new }
    {
        let start = self.next;
        for (column, cell) in cells.iter().enumerate() {
            self.put_cell::<WILD>(start, column, *cell, outcome);
        }
        if self.next == start {
            self.put(u8::from(outcome));
        }
    }

    // What a row adds to a table: nothing if its outcome is silent, else its nodes, and a join unless it is the first.
    #[tactic(auto, using(crate::proofs::Rows::next_row_laws))]
    fn put_next_row(&mut self, cells: &[u8], outcome: Answer)
        requires { (length cells.now ≤ 6) × (self.old.next + length (row_step (eqb self.old.next 0) (row_with cells.now outcome)) ≤ limit) }
        ensures { Put self.old (row_step (eqb self.old.next 0) (row_with cells.now outcome)) self.new }
    {
        if outcome == Answer::Silent {
            return;
        }
        let first = self.next == 0;
        self.put_row::<true>(cells, outcome);
        self.put_operator(JOIN, first);
    }

    // The rows that a part holds.
    fn put_written(&mut self, rows: Rows)
        requires { self.old.next + length (rows_step (eqb self.old.next 0) (rows_in rows.columns rows.bytes.now)) ≤ limit }
        ensures { Put self.old (rows_step (eqb self.old.next 0) (rows_in rows.entry.columns rows.entry.bytes.now)) self.new }
    {
        for i in 0..rows.count() {
            let row = rows.row(i);
            self.put_next_row(rows::cells(row), rows::outcome(row));
        }
    }

    // What the situation with a number adds: nothing if one of the rows matches it, else a row of its own, and a join unless it is
    // the first.
    fn put_own_row(&mut self, rows: Rows, w: usize, default: Answer)
        requires { (w < weight rows.columns) × Loud default
            × (self.old.next
            + length (own_step (eqb self.old.next 0) default (rows_in rows.columns rows.bytes.now) (situation_at rows.columns w)) ≤ limit) }
        ensures { Put self.old
            (own_step (eqb self.old.next 0) default (rows_in rows.entry.columns rows.entry.bytes.now) (situation_at rows.entry.columns w))
            self.new }
    {
        let situation = base4::situation_at(rows.columns, w);
        let answers = situation.answers;
        let cells = &answers[..rows.columns];
        if matching::matched(rows, cells) {
            return;
        }
        let first = self.next == 0;
        self.put_row::<false>(cells, default);
        self.put_operator(JOIN, first);
    }

    // The rows that a default adds: those of the situations that no row matches, in base-4 order; a default of silent adds none.
    fn put_added(&mut self, rows: Rows, default: Answer)
        requires { self.old.next
            + length (rows_step (eqb self.old.next 0) (added_rows default rows.columns (rows_in rows.columns rows.bytes.now))) ≤ limit }
        ensures { Put self.old
            (rows_step (eqb self.old.next 0) (added_rows default rows.entry.columns (rows_in rows.entry.columns rows.entry.bytes.now)))
            self.new }
    {
        if default == Answer::Silent {
            return;
        }
        for w in 0..base4::weight(rows.columns) {
            self.put_own_row(rows, w, default);
        }
    }

    // All rows, the written ones and behind them the added ones, or the constant 0 where none is left.
    fn put_rows(&mut self, rows: Rows, default: Answer)
        requires { (self.old.next ≡ 0) × (length rows.bytes.now ≤ 640) }
        ensures { Put self.old (rows_nodes (all_rows default rows.entry.columns (rows_in rows.entry.columns rows.entry.bytes.now)))
            self.new }
    {
        self.put_written(rows);
        self.put_added(rows, default);
        if self.next == 0 {
            self.put(0);
        }
    }
}

// The nodes of rows from the front of a buffer on, and how many they are.
fn put_nodes(buffer: &mut [u8], rows: Rows, default: Answer) -> usize
    requires { length rows.bytes.now ≤ 640 }
    ensures { Wrote buffer.old 0
        (rows_nodes (all_rows default rows.entry.columns (rows_in rows.entry.columns rows.entry.bytes.now)))
        buffer.new result }
{
    let mut nodes = Nodes { buffer, next: 0 };
    nodes.put_rows(rows, default);
    nodes.next
}

// How many nodes the rows need: the walk over no room at all.
fn count_rows(rows: Rows, default: Answer) -> usize
    requires { length rows.bytes.now ≤ 640 }
    ensures { result ≡ length (rows_nodes (all_rows default rows.entry.columns (rows_in rows.entry.columns rows.entry.bytes.now))) }
{
    let mut nowhere = [0u8; 0];
    put_nodes(&mut nowhere, rows, default)
}

// A part no longer than the rows of a table, or an empty one.
fn few_rows(rows: Rows<'_>) -> Rows<'_>
    ensures { (result.columns ≡ rows.entry.columns) × (result.bytes.now ≡ few_rows rows.entry.bytes.now) }
{
    let bytes = rows.bytes;
    if LONGEST < bytes.len() {
        return Rows {
            bytes: &bytes[..0],
            columns: rows.columns,
        };
    }
    rows
}

// The table of a part's rows and a default. Its nodes are counted before the first of them is written.
pub fn put_table(nodes: &mut [u8], rows: Rows, default: Answer) -> usize
    ensures { WroteWhole nodes.old 0
        (rows_nodes (all_rows default rows.entry.columns (rows_in rows.entry.columns (few_rows rows.entry.bytes.now))))
        nodes.new result }
{
    let few = few_rows(rows);
    let needed = count_rows(few, default);
    if nodes.len() < needed {
        return needed;
    }
    put_nodes(nodes, few, default)
}
