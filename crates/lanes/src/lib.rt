// Answers at 64 situations to a word, and what the operators of a node array do to them.
//
// A stack is a slice of words that the caller lends. Each of its places has 32 words: sixteen that have the lower bit of the
// answers' numbers (bury), and sixteen that have the higher one (keep). Bit x of both words is a lane, one situation's.
//
// It promises that the words of one place have what the operator gives in every lane, and that every other word is as it
// was. It refuses nothing: where the stack has no such place, or no place above it for the second operand, every word is
// as it was.
//
// The loops have constant bounds, so that the back end lays them out in full and works on several words at a time.

#![tactic(auto)]

ghost use Rattle.std.specs.Prelude.{◌*◌};
ghost use Rattle.answers.specs.Meaning.{negate, turn, meet, join};
ghost use Rattle.lanes.specs.Meaning.{Placed, one, two};
ghost use Rattle.lanes.specs.Inside.{OneBy, TwoBy};

const ALL: u64 = 0xffff_ffff_ffff_ffff;

// The words of either bit.
const WORDS: usize = 16;

// The words of a place.
const PLACE: usize = 32;

// Both words of every lane at a place, by an operator on them.
fn one<F: Fn(u64, u64) -> (u64, u64)>(stack: &mut [u64], height: usize, operator: F)
    requires { F.IsAlwaysCallable operator }
    ensures { OneBy (F.post operator) (height * 32) stack.old stack.new }
{
    if stack.len() / PLACE <= height {
        return;
    }
    let at = height * PLACE;
    for w in 0..WORDS {
        let place = at + w;
        let above = place + WORDS;
        let (bury, keep) = operator(stack[place], stack[above]);
        stack[place] = bury;
        stack[above] = keep;
    }
}

// Every word of a place, by an operator on it and on that of the place above it.
fn two<F: Fn(u64, u64) -> u64>(stack: &mut [u64], height: usize, operator: F)
    requires { F.IsAlwaysCallable operator }
    ensures { TwoBy (F.post operator) (height * 32) stack.old stack.new }
{
    let places = stack.len() / PLACE;
    if places < 2 {
        return;
    }
    if places - 2 < height {
        return;
    }
    let at = height * PLACE;
    for w in 0..PLACE {
        let place = at + w;
        stack[place] = operator(stack[place], stack[place + PLACE]);
    }
}

// The bits change places.
pub fn negate(stack: &mut [u64], height: usize)
    ensures { Placed (one negate stack.old (height * 32)) (height * 32) 32 stack.old stack.new }
{
    one(stack, height, |b, k| (k, b));
}

// One more: the lower bit changes, and the higher one where there is a carry.
pub fn turn(stack: &mut [u64], height: usize)
    ensures { Placed (one turn stack.old (height * 32)) (height * 32) 32 stack.old stack.new }
{
    one(stack, height, |b, k| (b ^ ALL, k ^ b));
}

// The claims that both have.
pub fn meet(stack: &mut [u64], height: usize)
    ensures { Placed (two meet stack.old (height * 32)) (height * 32) 64 stack.old stack.new }
{
    two(stack, height, |p, q| p & q);
}

// The claims that either has.
pub fn join(stack: &mut [u64], height: usize)
    ensures { Placed (two join stack.old (height * 32)) (height * 32) 64 stack.old stack.new }
{
    two(stack, height, |p, q| p | q);
}
