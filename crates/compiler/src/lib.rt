// Compiling a table to a flat array of one-byte nodes in a lent buffer.
//
// It promises that a table is accepted exactly when it is read and its nodes, counted by the published formula, fit the
// buffer; that the nodes then stand at the buffer's front and nothing else is written; and that a refused call writes nothing.
// It refuses as reading does, then by ROOM (place: nodes needed).

#![tactic(auto)]

ghost use Rattle.std.specs.Prelude.{◌≡◌, length};
ghost use Rattle.compiler.specs.Meaning.{compile_of, written_of, compiled};

use refusals::{Kind, Refusal};
use rows::Rows;

// What compiling gives: columns, rows read (not those that a default adds) and nodes written.
#[derive(Clone, Copy)]
pub struct Sizes {
    pub columns: usize,
    pub rows: usize,
    pub nodes: usize,
}

// Compiles a table. Nothing is written where the nodes do not fit.
pub fn compile(table: &[u8], nodes: &mut [u8]) -> Result<Sizes, Refusal>
    ensures reply { compiled result ≡ compile_of table.now (length nodes.old) }
    ensures written { nodes.new ≡ written_of table.now nodes.old }
{
    let read = tables::read_table(table)?;
    let rows = Rows {
        bytes: tables::rows_of(table),
        columns: read.columns,
    };
    let default = tables::default_of(table);
    let needed = writing::put_table(nodes, rows, default);
    if nodes.len() < needed {
        return Err(Refusal::at(Kind::Room, needed));
    }
    Ok(Sizes {
        columns: read.columns,
        rows: read.rows,
        nodes: needed,
    })
}
