// Notices: the facts that a speaker tells, each a number with a value.
//
// `read_notice` takes any bytes and says how many facts they hold, or what is wrong. A notice that it accepts is the
// encoding of exactly one list of at most 32 facts whose numbers strictly rise. `look_up` finds the value of a fact in a
// notice, if the notice has it, and `compare` is what a voice can ask of the value.
//
// Refused, in this order at each field: fewer than three bytes left, SHORT; another tag than 16, TAG; a 33rd fact,
// FACTS; another length than 6, LEN; a value past the end, SHORT; a number that does not pass the last one, RISE.
// The place is the field's offset in the whole notice.

#![tactic(auto)]

ghost use Rattle.std.specs.Prelude.{◌≡◌, ◌+◌, ◌-◌, ◌≤◌, eqb, length};
ghost use Rattle.fields.specs.Meaning.{two};
ghost use Rattle.refusals.specs.Meaning.{checked};
ghost use Rattle.notices.specs.Meaning.{fault, facts_in, seen, compare, notice_of, facts_read};
ghost use Rattle.notices.specs.Inside.{sound, sounds, least_at};

use refusals::{Kind, Refusal};

const MOST_FACTS: usize = 32;

// The tag of a field that holds a fact.
const FACT: u8 = 16;

// A number and a value.
const SIZE: usize = 6;

// A header, a number and a value.
const FIELD: usize = 9;

#[derive(Clone, Copy, Debug, PartialEq, Eq, Hash)]
pub enum Comparison {
    Equal,
    AtLeast,
    Below,
}

// Is the field that `rest` starts with a fact? It stands at the offset `at`, `facts` were read before it, and its number must be
// at least `least`.
#[tactic(auto, using(crate::proofs::Faults::fault_laws))]
fn check(rest: &[u8], at: usize, facts: usize, least: u32) -> Result<(), Refusal>
    ensures { checked result ≡ fault (32 - facts) at least rest.now }
{
    if fields::short_header(rest) {
        return Err(Refusal::at(Kind::Short, at));
    }
    if fields::tag(rest) != FACT {
        return Err(Refusal::at(Kind::Tag, at));
    }
    if facts >= MOST_FACTS {
        return Err(Refusal::at(Kind::Facts, at));
    }
    if fields::size(rest) != SIZE {
        return Err(Refusal::at(Kind::Len, at));
    }
    if fields::short_value(rest, SIZE) {
        return Err(Refusal::at(Kind::Short, at));
    }
    let number = fields::two(rest[3], rest[4]);
    if number < least {
        return Err(Refusal::at(Kind::Rise, at));
    }
    Ok(())
}

// Whether there is nothing wrong with the field that `rest` starts with: `check` with no number and no place to tell, in
// fewer tests.
#[tactic(auto, using(crate::proofs::SoundFields::sound_laws))]
fn sound(rest: &[u8], facts: usize, least: u32) -> bool
    ensures { result ≡ sound (32 - facts) least rest.now }
{
    if rest.len() < FIELD {
        return false;
    }
    if fields::tag(rest) != FACT {
        return false;
    }
    if facts >= MOST_FACTS {
        return false;
    }
    if fields::size(rest) != SIZE {
        return false;
    }
    let number = fields::two(rest[3], rest[4]);
    least <= number
}

// How many facts there are, `facts` before the rest and those in it until a field is refused or the notice ends. The rest is
// read as a notice of its own, save that its first number must be at least `least`. The count is one number, which a call
// hands back in a register; a refusal takes memory at every fact.
#[tactic(auto, using(crate::proofs::Counts::count_laws))]
fn count_facts(rest: &[u8], facts: usize, least: u32) -> usize
    requires { facts ≤ 32 }
    ensures { result ≡ facts + sounds (32 - facts) least rest.now }
{
    if sound(rest, facts, least) {
        let last = fields::two(rest[3], rest[4]);
        return count_facts(&rest[FIELD..], facts + 1, last + 1);
    }
    facts
}

// The least number that the fact at an offset may have: more than the one before it.
#[tactic(auto, using(crate::proofs::Counts::least_laws))]
fn least_at(notice: &[u8], at: usize) -> u32
    requires { at ≤ length notice.now }
    ensures { result ≡ least_at notice.now at }
{
    if at < FIELD {
        return 0;
    }
    let last = fields::two(notice[at - 6], notice[at - 5]);
    last + 1
}

// How many facts the notice holds, or what is wrong with it.
#[tactic(auto, using(crate::proofs::Counts::notice_laws))]
pub fn read_notice(notice: &[u8]) -> Result<usize, Refusal>
    ensures { facts_read result ≡ notice_of notice.now }
{
    let facts = count_facts(notice, 0, 0);
    let at = facts * FIELD;
    if at < notice.len() {
        let least = least_at(notice, at);
        check(&notice[at..], at, facts, least)?;
    }
    Ok(facts)
}

// Whether a fact's number stands in two bytes, high byte first. They are compared as a machine loads them, low byte first, and
// the fact is turned instead, which a loop does once.
fn numbered(high: u8, low: u8, fact: u32) -> bool
    ensures { result ≡ eqb (two high low) fact }
{
    let Ok(number) = u16::try_from(fact) else {
        return false;
    };
    u16::from_le_bytes([high, low]) == number.swap_bytes()
}

// The value of a fact, if the notice has it: in the fields that stand whole, 32 at the most.
#[tactic(auto, using(crate::proofs::Lookups::look_laws))]
pub fn look_up(notice: &[u8], fact: u32) -> Option<u32>
    ensures { result ≡ seen (facts_in 32 notice.now) fact }
{
    let (whole, _) = notice.as_chunks::<FIELD>();
    for [_, _, _, high, low, a, b, c, d] in &whole[..whole.len().min(MOST_FACTS)] {
        if numbered(*high, *low, fact) {
            return Some(fields::four(*a, *b, *c, *d));
        }
    }
    None
}

// Whether a fact's value compares so with another.
pub fn compare(comparison: Comparison, x: u32, value: u32) -> bool
    ensures { result ≡ compare comparison x value }
{
    match comparison {
        Comparison::Equal => x == value,
        Comparison::AtLeast => x >= value,
        Comparison::Below => x < value,
    }
}
