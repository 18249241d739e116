// The steps from the 64 situations of a word, tried at once.
//
// A step sets one bit of the situation's number that was 0: 0 to 1 and 2 to 3 the lower bit of a digit, 0 to 2 and 1 to 3 the
// higher one. The six lowest bits are the lane in the word, the others the word. An answer is contained in another one where
// neither of its bits is lost, so that each block is looked at by itself.
ghost use Rattle.std.specs.Bool.{OnFalse};
ghost use Rattle.std.specs.Prelude.{◌≤◌, ◌<◌};
ghost use Rattle.seeking.specs.Inside.{Within, Tried, Kept, Sifted};

use planes::Planes;

const ALL: u64 = 0xffff_ffff_ffff_ffff;

// The lanes that have 0 in each of the six bits of their number.
static CLEAR: [u64; 6] = [
    0x5555_5555_5555_5555,
    0x3333_3333_3333_3333,
    0x0f0f_0f0f_0f0f_0f0f,
    0x00ff_00ff_00ff_00ff,
    0x0000_ffff_0000_ffff,
    0x0000_0000_ffff_ffff,
];

// The lanes that lose a 1 by the step that sets bit k of their number.
fn within(word: u64, k: usize) -> u64
    requires { k < 6 }
    ensures { Within word k result }
{
    let apart = 1usize << k;
    let after = word >> apart;
    word & (after ^ ALL) & CLEAR[k]
}

// The lanes that lose a 1 by the step that sets bit k of the situation's number. A word that has the bit is its own after.
fn losing(words: &[u64; 64], at: usize, k: usize) -> u64
    requires { (at < 64) × (k < 12) }
    ensures { Tried words.now at k result }
{
    let before = words[at];
    if k < 6 {
        return within(before, k);
    }
    let e = k - 6;
    let to = at | (1 << e);
    before & (words[to] ^ ALL)
}

// Does the step that sets bit k of a situation's number lose a part of an answer of this word?
fn loses(planes: &Planes, word: usize, k: usize) -> bool
    requires { (word < 64) × (k < 12) }
    ensures { OnFalse result (Kept planes.now.bury planes.now.keep word k) }
{
    losing(&planes.bury, word, k) | losing(&planes.keep, word, k) != 0
}

// Is there a step that fails from a situation of n columns in this word?
pub fn word_fails(planes: &Planes, n: usize, word: usize) -> bool
    requires { (n ≤ 6) × (word < 64) }
    ensures { Sifted planes.now.bury planes.now.keep n word result }
{
    (0..2 * n).any(|k| loses(planes, word, k))
}
