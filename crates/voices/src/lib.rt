// Voices: the speakers' rules. A voice is one policy.
//
// `speak_set` takes any bytes as a notice and any bytes as a voice, and gives the set of answers that the voice may give to
// the facts of the notice, and the meet of the set; `speak` gives the meet alone, which is what the voice's column receives.
// They accept exactly the encodings of trees of at most 16 levels. The whole voice is read even where its answers are known
// sooner.
//
// Refused, in this order: what `notices::read_notice` refuses of the notice; what `policies::policy` refuses from the root
// on, where a 17th level is NEST; after the root, bytes left, TAIL.

#![tactic(auto)]

ghost use Rattle.std.specs.Prelude.{◌≡◌};
ghost use Rattle.answers.specs.Meaning.{answered};
ghost use Rattle.voices.specs.Meaning.{hear_of, speak_of, may_answer};

use answers::Answer;
use leaves::Hearing;
use refusals::{Kind, Refusal};

const LEVELS: usize = 16;

// What a voice may answer: the set of its possible answers, as a number (silent 1, bury 2, keep 4, clash 8), and its meet.
#[derive(Clone, Copy)]
pub struct Possible {
    pub set: u8,
    pub answer: Answer,
}

// What the voice may answer to the facts of the notice.
#[tactic(auto, using(crate::proofs::Spoken::voice_laws))]
pub fn speak_set(notice: &[u8], voice: &[u8]) -> Result<Possible, Refusal>
    ensures { may_answer result ≡ hear_of notice.now voice.now }
{
    notices::read_notice(notice)?;
    let (set, end) = policies::policy(&Hearing { voice, notice }, 0, LEVELS)?;
    if end < voice.len() {
        return Err(Refusal::at(Kind::Tail, end));
    }
    Ok(Possible {
        set: u8::from(set),
        answer: sets::meet(set),
    })
}

// What the voice's column receives.
pub fn speak(notice: &[u8], voice: &[u8]) -> Result<Answer, Refusal>
    ensures { answered result ≡ speak_of notice.now voice.now }
{
    let possible = speak_set(notice, voice)?;
    Ok(possible.answer)
}
