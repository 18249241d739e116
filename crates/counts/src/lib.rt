// Counts: a voice's record, how many notices gave each answer and how many were refused, by number.
//
// `count_notice` takes any counts, any bytes as a notice and any bytes as a voice, and gives the counts with this notice among
// them: under the answer that the voice's column receives, or, where the notice or the voice is refused, under the number of that
// refusal. Counts are a value: none is changed where it stands. A count that has reached the largest number stays there.
// It refuses nothing: a refused voice is counted, not told.

#![tactic(auto)]

ghost use Rattle.std.specs.Prelude.{◌≡◌, [], ◌∷◌};
ghost use Rattle.refusals.specs.Meaning.{kind_number};
ghost use Rattle.voices.specs.Meaning.{speak_of};
ghost use Rattle.counts.specs.Meaning.{counts_of, plus};
ghost use Rattle.counts.specs.Inside.{answered, tallied};

use answers::Answer;
use refusals::Kind;

// Above every refusal's number.
pub const NUMBERS: usize = 32;

// How many notices gave each answer; how many were refused; and how many of these with each number.
#[derive(Clone, Copy)]
pub struct Counts {
    pub silent: u64,
    pub bury: u64,
    pub keep: u64,
    pub clash: u64,
    pub refused: u64,
    pub numbers: [u64; NUMBERS],
}

// Of no notice.
pub fn none() -> Counts
    ensures { result ≡ counts_of [] }
{
    Counts {
        silent: 0,
        bury: 0,
        keep: 0,
        clash: 0,
        refused: 0,
        numbers: [0; NUMBERS],
    }
}

impl Counts {
    // With one answer more among them.
    fn answered(mut self, answer: Answer) -> Counts
        ensures { result ≡ answered self answer }
    {
        match answer {
            Answer::Silent => self.silent = self.silent.saturating_add(1),
            Answer::Bury => self.bury = self.bury.saturating_add(1),
            Answer::Keep => self.keep = self.keep.saturating_add(1),
            Answer::Clash => self.clash = self.clash.saturating_add(1),
        }
        self
    }

    // With one refusal more among them, which is counted under its number too.
    fn refused(mut self, kind: Kind) -> Counts
        ensures { result ≡ tallied self (kind_number kind) }
    {
        self.refused = self.refused.saturating_add(1);
        let count = &mut self.numbers[u8::from(kind) as usize];
        *count = count.saturating_add(1);
        self
    }
}

// The counts with one notice more among them.
pub fn count_notice(counts: Counts, notice: &[u8], voice: &[u8]) -> Counts
    ensures { result ≡ plus counts (counts_of (speak_of notice.now voice.now ∷ [])) }
{
    match voices::speak(notice, voice) {
        Ok(answer) => counts.answered(answer),
        Err(refusal) => counts.refused(refusal.kind),
    }
}
