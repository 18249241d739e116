// The batch, read from its file one window at a time and counted for all voices at once.
use crate::files::{Source, Told};
use batches::MOST_NOTICES;
use counts::Counts;
use refusals::Refusal;
use std::io::IsTerminal;

// How many bytes of the batch are read at once.
const WINDOW: usize = 65536;

// Every so many notices a line of progress is written.
const STRIDE: usize = 100000;

// The notices of a part counted, for each voice.
fn count_voices(weeks: &mut [Counts], part: &[u8], voices: &[&[u8]]) {
    for (counts, voice) in weeks.iter_mut().zip(voices) {
        *counts = weeks::count_onto(*counts, part, voice).counts;
    }
}

// A line of progress for every so many notices, where somebody looks at standard error.
fn progress(rt: &HostRuntime, before: usize, after: usize) {
    let read = MOST_NOTICES.saturating_sub(after);
    if MOST_NOTICES.saturating_sub(before) / STRIDE == read / STRIDE {
        return;
    }
    if rt.stderr().is_terminal() {
        let _ = eprintln!(rt; "weekcount: {read} notices");
    }
}

// The batch in a file, counted for each voice. Returns why it was refused, if it was.
pub fn count_batch(
    rt: &HostRuntime,
    path: &[u8],
    voices: &[&[u8]],
    weeks: &mut [Counts],
) -> Result<Option<Refusal>, Told> {
    let mut batch = Source::open(rt, path)?;
    let mut window = [0u8; WINDOW];
    let mut at = 0usize;
    let mut left = MOST_NOTICES;
    let mut kept = 0;
    // Every window but the last has a notice, so that their number is bounded.
    loop {
        let count = batch.read(&mut window, kept)?;
        let ended = count < WINDOW;
        let walked = batches::walk(&window[..count], left, ended);
        count_voices(weeks, &window[..walked.length], voices);
        progress(rt, left, walked.left);
        if let Some(refusal) = walked.refused {
            return Ok(Some(Refusal {
                place: at.wrapping_add(refusal.place),
                ..refusal
            }));
        }
        if ended {
            return Ok(None);
        }
        kept = input::move_front(&mut window, walked.length, count);
        at = at.wrapping_add(walked.length);
        left = walked.left;
    }
}
