// Answers laid into a place of a stack of words (see lanes): a constant, or a column of the situations.
//
// It promises that the words of one place have the constant's answer in every lane, or the column's, turned as often as
// asked, and that every other word is as it was. It refuses nothing: where the stack has no such place, every word is as it
// was.
//
// The situations go in passes of sixteen words, 1,024 situations each; six columns take four. The column is a digit of the
// situation's number in base 4: the three lowest are the lane's, the next two the word's, the highest the pass's.

#![tactic(auto)]

ghost use Rattle.std.specs.Prelude.{ℕ, ◌*◌, ◌<◌};
ghost use Rattle.lanes.specs.Meaning.{Placed};
ghost use Rattle.pushes.specs.Meaning.{everywhere, column_of};
ghost use Rattle.pushes.specs.Inside.{Low, Digit, LaidBy};

use answers::Answer;

const ALL: u64 = 0xffff_ffff_ffff_ffff;

// The words of either bit.
const WORDS: usize = 16;

// The words of a place.
const PLACE: usize = 32;

// Answers at 64 situations are two words, bury and keep. The three lowest digits of the situations' numbers are the lane's, the
// same in all words: each digit, turned 0 to 3 times.
static LOW: [[(u64, u64); 4]; 3] = [
    [
        (0xaaaa_aaaa_aaaa_aaaa, 0xcccc_cccc_cccc_cccc),
        (0x5555_5555_5555_5555, 0x6666_6666_6666_6666),
        (0xaaaa_aaaa_aaaa_aaaa, 0x3333_3333_3333_3333),
        (0x5555_5555_5555_5555, 0x9999_9999_9999_9999),
    ],
    [
        (0xf0f0_f0f0_f0f0_f0f0, 0xff00_ff00_ff00_ff00),
        (0x0f0f_0f0f_0f0f_0f0f, 0x0ff0_0ff0_0ff0_0ff0),
        (0xf0f0_f0f0_f0f0_f0f0, 0x00ff_00ff_00ff_00ff),
        (0x0f0f_0f0f_0f0f_0f0f, 0xf00f_f00f_f00f_f00f),
    ],
    [
        (0xffff_0000_ffff_0000, 0xffff_ffff_0000_0000),
        (0x0000_ffff_0000_ffff, 0x0000_ffff_ffff_0000),
        (0xffff_0000_ffff_0000, 0x0000_0000_ffff_ffff),
        (0x0000_ffff_0000_ffff, 0xffff_0000_0000_ffff),
    ],
];

// One of the three lowest digits, turned.
fn low_digit(e: usize, turns: usize) -> (u64, u64)
    requires { e < 3 }
    ensures { Low e turns result }
{
    LOW[e][turns % 4]
}

// The lowest digit of a number, in all lanes.
fn digit(d: usize) -> (u64, u64)
    ensures { Digit d result }
{
    ((d % 2) as u64 * ALL, (d / 2 % 2) as u64 * ALL)
}

// The words of a place, one after another; where there is no such place, every word stays.
fn lay<F: Fn(usize) -> (u64, u64)>(stack: &mut [u64], height: usize, words: F)
    requires { (w : ℕ) → w < 16 → F.pre words w }
    ensures { LaidBy (F.post words) (height * 32) stack.old stack.new }
{
    if stack.len() / PLACE <= height {
        return;
    }
    let at = height * PLACE;
    for w in 0..WORDS {
        let place = at + w;
        let (bury, keep) = words(w);
        stack[place] = bury;
        stack[place + WORDS] = keep;
    }
}

// A constant.
pub fn constant(stack: &mut [u64], height: usize, a: Answer)
    ensures { Placed (everywhere a) (height * 32) 32 stack.old stack.new }
{
    let alike = digit(a as usize);
    lay(stack, height, |_| alike);
}

// A column, turned as often as turns stand behind it. The next two digits are the word's, the same in all its lanes; the
// highest one is the pass's.
pub fn column(stack: &mut [u64], height: usize, pass: usize, e: usize, turns: usize)
    ensures { Placed (column_of pass e turns) (height * 32) 32 stack.old stack.new }
{
    let p = pass % 4;
    let t = turns % 4;
    match e {
        0..=2 => {
            let alike = low_digit(e, turns);
            lay(stack, height, |_| alike);
        }
        3 => lay(stack, height, |w| digit(p * 16 + t + w)),
        4 => lay(stack, height, |w| digit(p * 4 + t + w / 4)),
        _ => {
            let alike = digit(p + t);
            lay(stack, height, |_| alike);
        }
    }
}
