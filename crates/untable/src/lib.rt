// A table back from a node array whose table was lost.
//
// It promises one row for every situation of so many columns at which the array answers other than silent, in base-4 order, each
// cell an answer, and no default; that its bytes then stand at the front of the lent buffer and nothing else is written; and that a
// refused call writes nothing.
// It refuses a column count outside 1 to 6 (SITUATION, place: the count), then as the evaluator does: NODE, COLUMN, UNDER, DEEP, END;
// then by ROWS where more than 64 rows are needed (place: how many), then by ROOM (place: bytes needed).
//
// The answers at all situations come from planes, and the table of them from listing.

#![tactic(auto)]

ghost use Rattle.std.specs.Prelude.{◌≡◌, length};
ghost use Rattle.listing.specs.Meaning.{wrote, written_of};
ghost use Rattle.untable.specs.Meaning.{table_back, untable_of};

use refusals::Refusal;

// Writes the table of an array's answers. Returns how many bytes stand at the buffer's front.
#[tactic(auto, using(crate::proofs::Listed::untable_laws))]
pub fn untable(nodes: &[u8], columns: usize, table: &mut [u8]) -> Result<usize, Refusal>
    ensures reply { wrote result ≡ untable_of nodes.now columns (length table.old) }
    ensures written { table.new ≡ written_of (table_back nodes.now columns) (wrote result) table.old }
{
    let planes = planes::fill(nodes, columns)?;
    listing::list(&planes, columns, table)
}
