// Weeks: a voice's record over a batch of notices.
//
// `count_week` takes any bytes as a batch and any bytes as a voice, and gives the counts of the notices read, and why the batch was
// refused if it was. `count_onto` does the same onto the counts of what was counted before, so that a batch may be counted in parts.
// A refused voice is no refusal here: every notice then counts as refused.
//
// Refused: what `batches::check` refuses of a field, with the field's offset. The field that is refused is no notice and is not
// counted; the counts so far are handed back beside the refusal.

#![tactic(auto)]

ghost use Rattle.std.specs.Prelude.{◌≡◌};
ghost use Rattle.refusals.specs.Meaning.{checked};
ghost use Rattle.weeks.specs.Meaning.{told, counted, onto_of, week_of};

use batches::MOST_NOTICES;
use counts::Counts;
use fields::HEADER;
use refusals::Refusal;

// The counts so far, and why the batch was refused, if it was: both are wanted at once.
#[derive(Clone, Copy)]
pub struct Week {
    pub refused: Option<Refusal>,
    pub counts: Counts,
}

// Counts the notices of a batch, up to the field that is refused if one is.
fn count_each(counts: &mut Counts, batch: &[u8], voice: &[u8]) -> Result<(), Refusal>
    ensures { told (checked result) counts.new ≡ onto_of counts.old batch.now voice.now }
{
    let mut at = 0;
    let mut left = MOST_NOTICES;
    // The offset moves by the size that each field says, so that no range gives it.
    while at < batch.len() {
        let rest = &batch[at..];
        batches::check(rest, at, left)?;
        let start = at + HEADER;
        let end = start + fields::size(rest);
        *counts = counts::count_notice(*counts, &batch[start..end], voice);
        at = end;
        left -= 1;
    }
    Ok(())
}

// The notices of a batch counted, onto the counts of what came before.
pub fn count_onto(counts: Counts, batch: &[u8], voice: &[u8]) -> Week
    ensures { counted result ≡ onto_of counts batch.now voice.now }
{
    // The counts go up where they are handed back, so that they are not copied once more.
    let mut week = Week {
        refused: None,
        counts,
    };
    week.refused = count_each(&mut week.counts, batch, voice).err();
    week
}

// The notices of a batch counted.
pub fn count_week(batch: &[u8], voice: &[u8]) -> Week
    ensures { counted result ≡ week_of batch.now voice.now }
{
    count_onto(counts::none(), batch, voice)
}
