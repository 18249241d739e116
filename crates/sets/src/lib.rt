// Sets of what may be: of answers that a policy may give, and of truths that a test may have. An operator on sets gives everything
// that it gives to some possible operands.
//
// A set is a number: of answers silent 1, bury 2, keep 4, clash 8, of truths false 1, true 2. Any number can be handed over as a set:
// higher bits are not looked at, and no operator sets one. It refuses nothing.

#![tactic(auto)]

ghost use Rattle.std.specs.Prelude.{◌≡◌, ◌<◌, List, [], ◌∷◌, ℕ, map, fold, false, true, bit_or};
ghost use Rattle.answers.specs.Meaning.{number, apply_one, apply_two};
ghost use Rattle.answers.specs.declared.Answer.TheVariants.{Silent, Bury, Keep, Clash};
ghost use Rattle.sets.specs.Meaning.{answer_set, answers_in, truth_number, set_of, has, members, pairs, meet_of, Computes, Computes2};

use answers::operators::{One, Two};
use answers::{Answer, operators};
use std::marker::{Model, PhantomData};

// What sets are made of: each has a number of its own, which is its bit.
pub trait Member: Copy + 'static {
    ghost number: { Self → ℕ };

    ghost all: { List Self };

    fn number(self) -> u8
        ensures value { result ≡ number self }
        ensures small { result < 8 };

    // All that there are, in order.
    fn all() -> &'static [Self]
        ensures { result.now ≡ all };
}

impl Member for Answer {
    ghost number = { number };

    ghost all = { Silent ∷ Bury ∷ Keep ∷ Clash ∷ [] };

    fn number(self) -> u8 {
        u8::from(self)
    }

    fn all() -> &'static [Answer] {
        &[Answer::Silent, Answer::Bury, Answer::Keep, Answer::Clash]
    }
}

impl Member for bool {
    ghost number = { truth_number };

    ghost all = { false ∷ true ∷ [] };

    fn number(self) -> u8 {
        self as u8
    }

    fn all() -> &'static [bool] {
        &[false, true]
    }
}

// A set of these, as a number: a bit for each member.
#[derive(Clone, Copy)]
pub struct Set<T> {
    bits: u8,
    of: PhantomData<T>,
}

impl<T> Model for Set<T> {
    ghost use Rattle.std.specs.Prelude.{ℕ};

    ghost Value = { ℕ };

    ghost view = { λ s. s.bits };

    ghost inverse = { λ n. record { bits = n; of = record {} } };
}

// Any number as a set: bits of no member are not looked at.
impl<T> From<u8> for Set<T> {
    ghost from_gives = { λ n set. set ≡ n };

    fn from(bits: u8) -> Set<T> {
        Set {
            bits,
            of: PhantomData,
        }
    }
}

// The number of a set.
impl<T> From<Set<T>> for u8 {
    ghost from_gives = { λ set n. n ≡ set };

    fn from(set: Set<T>) -> u8 {
        set.bits
    }
}

impl<T: Member> Set<T> {
    // The set with no member.
    pub fn empty() -> Set<T>
        ensures { result ≡ 0 }
    {
        Set::from(0)
    }

    // The set of one member.
    #[tactic(auto, using(crate::proofs::Images::only_laws), unfolding(crate::specs::Meaning::set_of))]
    pub fn only(member: T) -> Set<T>
        ensures { result ≡ set_of T.number (member ∷ []) }
    {
        Set::from(1 << member.number())
    }

    // Whether it is in the set.
    #[tactic(auto, unfolding(crate::specs::Meaning::has))]
    pub fn has(self, member: T) -> bool
        ensures { result ≡ has T.number member self }
    {
        (self.bits >> member.number()) % 2 == 1
    }

    // Both sets together.
    pub fn union(self, other: Set<T>) -> Set<T>
        ensures { result ≡ bit_or self other }
    {
        Set::from(self.bits | other.bits)
    }

    // What a function makes of a start and the members, one after another.
    pub fn fold<A, F: Fn(A, T) -> A>(self, start: A, f: F) -> A
        requires { F.IsAlwaysCallable f }
        ensures { (g : A → T → A) → Computes2 (F.post f) g → result ≡ fold g start (members T.number T.all self) }
    {
        let mut folded = start;
        for member in T::all() {
            if self.has(*member) {
                folded = f(folded, *member);
            }
        }
        folded
    }

    // What a function gives of each member.
    pub fn map<U: Member, F: Fn(T) -> U>(self, f: F) -> Set<U>
        requires { F.IsAlwaysCallable f }
        ensures { (g : T → U) → Computes (F.post f) g → result ≡ set_of U.number (map g (members T.number T.all self)) }
    {
        self.fold(
            Set::empty(),
            |image: Set<U>, member| image.union(Set::only(f(member))),
        )
    }

    // What a function gives of each pair of members.
    pub fn pairs<F: Fn(T, T) -> T>(self, second: Set<T>, f: F) -> Set<T>
        requires { F.IsAlwaysCallable f }
        ensures { (g : T → T → T) → Computes2 (F.post f) g → result ≡ set_of T.number (pairs g (members T.number T.all self) (members T.number T.all second)) }
    {
        self.fold(
            Set::empty(),
            |image: Set<T>, member| image.union(second.map(|other| f(member, other))),
        )
    }
}

// An operator of one operand.
pub fn apply_one(operator: One, set: Set<Answer>) -> Set<Answer>
    ensures { result ≡ answer_set (map (apply_one operator) (answers_in set)) }
{
    set.map(|p| operators::apply_one(operator, p))
}

// An operator of two operands, on every pair.
pub fn apply_two(operator: Two, first: Set<Answer>, second: Set<Answer>) -> Set<Answer>
    ensures { result ≡ answer_set (pairs (apply_two operator) (answers_in first) (answers_in second)) }
{
    first.pairs(second, |p, q| operators::apply_two(operator, p, q))
}

// The meet of the set: clash, in which every answer is contained, met with each member.
pub fn meet(set: Set<Answer>) -> Answer
    ensures { result ≡ meet_of (answers_in set) }
{
    set.fold(Answer::Clash, operators::meet)
}
