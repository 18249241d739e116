// Base 4: a situation read as a number, column 0 its highest digit. Whoever goes through situations goes in this order.
//
// Each function takes any numbers and refuses nothing. Six columns are the most: what lies beyond is said where it matters.

#![tactic(auto)]

ghost use Rattle.std.specs.Prelude.{◌≡◌, take, get_or};
ghost use Rattle.answers.specs.Meaning.{number};
ghost use Rattle.answers.specs.declared.Answer.TheVariants.{Silent};
ghost use Rattle.situations.specs.Meaning.{answers_of, weight, digit, index, situation_at, by_value};

use answers::Answer;
use situations::Situation;

// The weight of a digit, which is also how many situations of e columns there are; 0 above 6.
pub fn weight(e: usize) -> usize
    ensures { result ≡ weight e }
{
    if 6 < e {
        return 0;
    }
    let shift = 2 * e;
    1 << shift
}

// A digit of a number.
pub fn digit(w: usize, e: usize) -> usize
    ensures { result ≡ digit w e }
{
    if 31 < e {
        return 0;
    }
    let shift = 2 * e;
    (w >> shift) % 4
}

// The answer in a column of the situation of n columns with a number; 0 where it has no such column.
fn column(n: usize, w: usize, i: usize) -> u8
    ensures { result ≡ number (get_or (situation_at n w) i Silent) }
{
    if i < n {
        let e = n - 1 - i;
        return digit(w, e) as u8;
    }
    0
}

// The situation of n columns with a number. Of more than six columns there is room for the first six.
pub fn situation_at(n: usize, w: usize) -> Situation
    ensures { result ≡ by_value (situation_at n w) }
{
    let mut answers = [0u8; 6];
    for i in 0..6 {
        answers[i] = column(n, w, i);
    }
    Situation { length: n, answers }
}

// The number of a situation. Of more than six answers the first six count.
pub fn index(situation: &[u8]) -> usize
    ensures { result ≡ index (answers_of (take 6 situation.now)) }
{
    let mut w = 0;
    for i in 0..situation.len().min(6) {
        let answer = u8::from(Answer::from(situation[i]));
        w = w * 4 + answer as usize;
    }
    w
}
