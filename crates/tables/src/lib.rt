// Reading tables: any bytes are read as a table or refused, before anything is asked about room for nodes.
//
// It promises that bytes are accepted exactly when they are the encoding of a table of 1 to 6 columns, with or without a default,
// and at most 64 rows in which no situation is matched by two rows with different outcomes.
// It refuses, at each field from the front: SHORT for fewer than three bytes left (START at 0 for no bytes at all), START for
// a first tag other than 1, TAG for a later one other than 2 (but for a default, tag 3, directly behind the columns), ROWS for a
// 65th row, LEN, SHORT for a value past the end, VALUE for a byte out of range (place: that byte). After all fields: OVERLAP
// (place: the later row, second: the earlier one).

#![tactic(auto)]

ghost use Rattle.std.specs.Prelude.{◌≡◌, ◌≤◌, drop};
ghost use Rattle.faults.specs.Meaning.{columns_of};
ghost use Rattle.defaults.specs.Meaning.{default_answer, default_in};
ghost use Rattle.tables.specs.Meaning.{behind_columns, rows_start, rows_part, rows_from, fields_of, read_of, table_read};

use answers::Answer;
use fields::HEADER;
use refusals::Refusal;
use rows::{BESIDE_CELLS, Rows};

const MOST_ROWS: usize = 64;

// The length of the columns field: a header and one byte.
const COLUMNS_FIELD: usize = 4;

// What was read: how many columns a table has, and how many rows.
#[derive(Clone, Copy)]
pub struct Read {
    pub columns: usize,
    pub rows: usize,
}

// The number of columns in the first field.
fn columns_of(table: &[u8]) -> usize
    ensures { result ≡ columns_of table.now }
{
    match table.get(HEADER) {
        Some(columns) => *columns as usize,
        None => 0,
    }
}

// The part of a table behind its columns field.
fn behind_columns(table: &[u8]) -> &[u8]
    ensures { result.now ≡ behind_columns table.now }
{
    table.get(COLUMNS_FIELD..).unwrap_or(&[])
}

// The answer where no row matches.
pub fn default_of(table: &[u8]) -> Answer
    ensures { result ≡ default_answer (default_in (behind_columns table.now)) }
{
    defaults::answer(behind_columns(table))
}

// Where the rows start: behind the default, or where there is none behind the columns.
fn rows_start(table: &[u8]) -> usize
    ensures { (result ≡ rows_start table.now) × (result ≤ 8) }
{
    COLUMNS_FIELD + defaults::size(behind_columns(table))
}

// The part of a table that holds its rows.
pub fn rows_of(table: &[u8]) -> &[u8]
    ensures { result.now ≡ rows_part table.now }
{
    table.get(rows_start(table)..).unwrap_or(&[])
}

// The rows of a table from an offset on, one after another. (A `while`, since a step is a row's length and counts one row less.)
fn read_rows(table: &[u8], n: usize, start: usize) -> Result<Read, Refusal>
    requires { (n ≤ 6) × (start ≤ 8) }
    ensures { table_read result ≡ rows_from 64 n start (drop start table.now) }
{
    let mut at = start;
    let mut left = MOST_ROWS;
    while at < table.len() {
        faults::check_row(&table[at..], n, at, left)?;
        at += n + BESIDE_CELLS;
        left -= 1;
    }
    Ok(Read {
        columns: n,
        rows: MOST_ROWS - left,
    })
}

// All fields.
fn read_fields(table: &[u8]) -> Result<Read, Refusal>
    ensures { table_read result ≡ fields_of table.now }
{
    faults::check_columns(table)?;
    defaults::check(behind_columns(table))?;
    read_rows(table, columns_of(table), rows_start(table))
}

// Reads a table: its fields, then the search for two rows that disagree.
pub fn read_table(table: &[u8]) -> Result<Read, Refusal>
    ensures { table_read result ≡ read_of table.now }
{
    let read = read_fields(table)?;
    let rows = Rows {
        bytes: rows_of(table),
        columns: columns_of(table),
    };
    rows.check_overlap()?;
    Ok(read)
}
