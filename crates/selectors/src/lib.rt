// One selector as nodes in a lent buffer: what a cell other than any becomes in a row whose outcome is not silent.
//
// It promises that the nodes of the selector stand from a place on if the buffer has room for all of them, that nothing is
// written if it has not, and that no other byte changes. The place behind the selector is returned in any case, so over an
// empty buffer selectors are only counted. It refuses nothing: a place counts modulo 4,294,967,296 and a column modulo 8, which is
// more than any table has; a cell or an outcome above 3 counts as clash. (The buffer and the place stay two parameters, since the
// promise of `put_selector`, and that it determines both, names them so: `selectors_put_selector_determined`.)

#![tactic(auto)]

ghost use Rattle.std.specs.Prelude.{◌≡◌, ◌+◌, ◌-◌, ◌%◌, ◌≤◌, length};
ghost use Rattle.lent.specs.Meaning.{WroteWhole};
ghost use Rattle.lent.specs.Inside.{Wrote};
ghost use Rattle.answers.specs.Meaning.{from_number};
ghost use Rattle.formula.specs.Meaning.{turned, selector};
ghost use Rattle.selectors.specs.Inside.{second_turns, ending, selector_with, size_with};

use answers::Answer;

// Nodes are bytes here, as the document numbers them: an enum would only give them back, and what a byte means is said in `nodes`,
// which stands above.
const NEGATE: u8 = 4;

const TURN: u8 = 5;

const MEET: u8 = 6;

// The node of column 0.
const COLUMN: u8 = 16;

const COLUMNS: usize = 8;

const PLACES: usize = 4294967296;

// A column and so many turns, three at the most: stores one by one, since with a loop a table takes a quarter more instructions.
#[tactic(auto, unfolding(formula::specs::Meaning::turned))]
fn put_turned(nodes: &mut [u8], at: usize, column: usize, turns: usize) -> usize
    requires { (turns ≤ 3) × (at + 1 + turns ≤ length nodes.old) }
    ensures { Wrote nodes.old at (turned (column % 8) turns) nodes.new result }
{
    let end = at + 1 + turns;
    nodes[at] = COLUMN + (column % COLUMNS) as u8;
    if turns == 0 {
        return end;
    }
    nodes[at + 1] = TURN;
    if turns == 1 {
        return end;
    }
    nodes[at + 2] = TURN;
    if turns == 2 {
        return end;
    }
    nodes[at + 3] = TURN;
    end
}

// How many turns take a cell's answer to clash: 3 less its number. A cell is a byte, as it stands in a table.
fn turns_to_clash(cell: u8) -> usize
    ensures { result ≡ 3 - cell }
{
    u8::from(Answer::Clash).saturating_sub(cell) as usize
}

// How many turns the second column of a selector gets, where the first gets k.
fn second_turns(k: usize, outcome: Answer) -> usize
    requires { k ≤ 3 }
    ensures { result ≡ second_turns k outcome }
{
    match outcome {
        Answer::Clash => k,
        _ => (k + 3) % 4,
    }
}

// How many nodes stand behind its two columns.
fn ending_size(outcome: Answer) -> usize
    ensures { result ≡ length (ending outcome) }
{
    match outcome {
        Answer::Keep => 1,
        _ => 2,
    }
}

// How many nodes a selector has, by the published sizes.
fn selector_size(k: usize, outcome: Answer) -> usize
    requires { k ≤ 3 }
    ensures { result ≡ size_with k outcome }
{
    if outcome == Answer::Clash {
        return 4 + 2 * k;
    }
    2 + k + (k + 3) % 4 + ending_size(outcome)
}

// What a selector ends with, behind its two columns.
fn put_ending(nodes: &mut [u8], at: usize, outcome: Answer) -> usize
    requires { at + length (ending outcome) ≤ length nodes.old }
    ensures { Wrote nodes.old at (ending outcome) nodes.new result }
{
    match outcome {
        Answer::Clash => {
            nodes[at] = NEGATE;
            nodes[at + 1] = MEET;
            at + 2
        }
        Answer::Keep => {
            nodes[at] = MEET;
            at + 1
        }
        _ => {
            nodes[at] = MEET;
            nodes[at + 1] = NEGATE;
            at + 2
        }
    }
}

// A selector that there is room for: a column and its turns, twice, and the ending.
fn put_whole(nodes: &mut [u8], at: usize, column: usize, k: usize, outcome: Answer) -> usize
    requires { (k ≤ 3) × (at + length (selector_with (column % 8) k outcome) ≤ length nodes.old) }
    ensures { Wrote nodes.old at (selector_with (column % 8) k outcome) nodes.new result }
{
    let middle = put_turned(nodes, at, column, k);
    let last = put_turned(nodes, middle, column, second_turns(k, outcome));
    put_ending(nodes, last, outcome)
}

// The selector of a cell at a column, in a row with an outcome; a silent row has none. Cell and outcome are bytes, and buffer and place
// two parameters, since it promises this for all of them: narrower types would ask more.
pub fn put_selector(nodes: &mut [u8], at: usize, column: usize, cell: u8, outcome: u8) -> usize
    ensures { WroteWhole nodes.old (at % 4294967296) (selector (column % 8) (from_number cell) (from_number outcome))
        nodes.new result }
{
    let start = at % PLACES;
    let answer = Answer::from(outcome);
    if answer == Answer::Silent {
        return start;
    }
    let k = turns_to_clash(cell);
    let end = start + selector_size(k, answer);
    if nodes.len() < end {
        return end;
    }
    put_whole(nodes, start, column, k, answer)
}
