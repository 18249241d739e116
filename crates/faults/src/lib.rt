// What is wrong with one field of a table: with the first, and with a row.
//
// It promises of any bytes the fault that its definitions say, or none. Where the rows of a table start and how many there may be is
// not known here: the caller says at which offset a row stands and how many may still come. It refuses, in this order, at the first
// field: START for no bytes at all, SHORT for fewer than three, START for a tag other than 1, LEN, SHORT for a value past the end,
// VALUE; at a row: SHORT, TAG for a tag other than 2, ROWS where no row may come, LEN, SHORT, VALUE (place: that byte). An offset
// counts modulo 1,024 and a number of columns modulo 8, which is more than any table has.

#![tactic(auto)]

ghost use Rattle.std.specs.Prelude.{◌≡◌, ◌+◌, ◌%◌, ◌≤◌, length};
ghost use Rattle.refusals.specs.Meaning.{checked};
ghost use Rattle.faults.specs.Meaning.{columns_fault, row_fault, value_fault};
ghost use Rattle.faults.specs.Inside.{range_fault, length_fault};

use fields::HEADER;
use refusals::{Kind, Refusal};
use rows::MOST_COLUMNS;

const OFFSETS: usize = 1024;

const COLUMNS: usize = 8;

// Is a number of columns in range?
#[tactic(auto, using(crate::proofs::FirstField::range_laws))]
fn check_range(columns: usize) -> Result<(), Refusal>
    ensures { checked result ≡ range_fault columns }
{
    if !(1..=MOST_COLUMNS).contains(&columns) {
        return Err(Refusal::at(Kind::Value, HEADER));
    }
    Ok(())
}

// Is the first field one of columns?
#[tactic(auto, using(crate::proofs::FirstField::columns_laws))]
pub fn check_columns(table: &[u8]) -> Result<(), Refusal>
    ensures { checked result ≡ columns_fault table.now }
{
    if table.is_empty() {
        return Err(Refusal::at(Kind::Start, 0));
    }
    if fields::short_header(table) {
        return Err(Refusal::at(Kind::Short, 0));
    }
    if fields::tag(table) != 1 {
        return Err(Refusal::at(Kind::Start, 0));
    }
    if fields::size(table) != 1 {
        return Err(Refusal::at(Kind::Len, 0));
    }
    if fields::short_value(table, 1) {
        return Err(Refusal::at(Kind::Short, 0));
    }
    check_range(table[HEADER] as usize)
}

// Are n cells behind a row's header, and the outcome behind them, in range? The row stands at an offset of the table.
#[tactic(auto, using(crate::proofs::RowFaults::value_laws))]
fn check_values(row: &[u8], n: usize, at: usize) -> Result<(), Refusal>
    requires { (at ≤ 1023) × (n + 4 ≤ length row.now) }
    ensures { checked result ≡ value_fault n at row.now }
{
    let outcome = HEADER + n;
    if let Some(cell) = fields::first_above(&row[HEADER..outcome], 4) {
        return Err(Refusal::at(Kind::Value, at + HEADER + cell));
    }
    if row[outcome] > 3 {
        return Err(Refusal::at(Kind::Value, at + outcome));
    }
    Ok(())
}

// Are the length and the value of a row's field right?
#[tactic(auto, using(crate::proofs::RowFaults::length_laws))]
fn check_length(row: &[u8], n: usize, at: usize) -> Result<(), Refusal>
    requires { (n ≤ 7) × (at ≤ 1023) }
    ensures { checked result ≡ length_fault n at row.now }
{
    let size = n + 1;
    if fields::size(row) != size {
        return Err(Refusal::at(Kind::Len, at));
    }
    if fields::short_value(row, size) {
        return Err(Refusal::at(Kind::Short, at));
    }
    check_values(row, n, at)
}

// Does a part start with a row, where so many rows may still come? It stands at an offset of the table.
#[tactic(auto, using(crate::proofs::RowFaults::row_fault_laws))]
pub fn check_row(rows: &[u8], n: usize, at: usize, left: usize) -> Result<(), Refusal>
    ensures { checked result ≡ row_fault left (n % 8) (at % 1024) rows.now }
{
    let place = at % OFFSETS;
    if fields::short_header(rows) {
        return Err(Refusal::at(Kind::Short, place));
    }
    if fields::tag(rows) != 2 {
        return Err(Refusal::at(Kind::Tag, place));
    }
    if left == 0 {
        return Err(Refusal::at(Kind::Rows, place));
    }
    check_length(rows, n % COLUMNS, place)
}
