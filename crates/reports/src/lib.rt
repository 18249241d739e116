// Reports: what `weekcount` prints: a voice's record, and why the batch was refused.
//
// Each function writes on a page (`text`) and promises that exactly this text then stands there and no other byte has changed; where
// the buffer ends first, the text is cut off there. It takes any name, any counts and any numbers of a refusal, and refuses nothing. A record is
// at most 1,200 bytes longer than its name.

#![tactic(auto)]

ghost use Rattle.text.specs.Meaning.{Wrote};
ghost use Rattle.reports.specs.Meaning.{name_line, total_lines, number_line, number_lines, record_text, batch_line};

use counts::Counts;
use refusals::Numbers;
use text::{LINE_FEED, Page, SPACE};

fn put_name(page: &mut Page<'_>, name: &[u8])
    ensures { Wrote page.old (name_line name.now) page.new }
{
    page.bytes(b"voice ");
    page.bytes(name);
    page.bytes(b"\n");
}

// The five totals.
fn put_totals(page: &mut Page<'_>, counts: Counts)
    ensures { Wrote page.old (total_lines counts) page.new }
{
    page.line(b"silent ", counts.silent as usize);
    page.line(b"bury ", counts.bury as usize);
    page.line(b"keep ", counts.keep as usize);
    page.line(b"clash ", counts.clash as usize);
    page.line(b"refused ", counts.refused as usize);
}

// How many were refused with a number, where any were.
fn put_number(page: &mut Page<'_>, number: usize, count: u64)
    ensures { Wrote page.old (number_line number count) page.new }
{
    if count == 0 {
        return;
    }
    page.bytes(b"refused ");
    page.number(number, SPACE);
    page.number(count as usize, LINE_FEED);
}

fn put_numbers(page: &mut Page<'_>, numbers: &[u64])
    ensures { Wrote page.old (number_lines 0 numbers.now) page.new }
{
    for (number, &count) in numbers.iter().enumerate() {
        put_number(page, number, count);
    }
}

// A voice's record.
pub fn put_record(page: &mut Page<'_>, name: &[u8], counts: Counts)
    ensures { Wrote page.old (record_text name.now counts) page.new }
{
    put_name(page, name);
    put_totals(page, counts);
    put_numbers(page, &counts.numbers);
}

// Why a batch was refused.
pub fn put_batch(page: &mut Page<'_>, refused: Numbers)
    ensures { Wrote page.old (batch_line refused) page.new }
{
    page.bytes(b"batch ");
    page.refused(refused);
}
