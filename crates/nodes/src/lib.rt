// Node arrays: what a byte stands for, what each node does to the stack's height, and where a run goes on behind it.
//
// It promises this for any byte, any height and any number of columns, to every machine alike, and defines what a whole
// array answers at a situation. It refuses nothing itself: `climb` says why a machine refuses a node. That is NODE for a
// byte that is no node, COLUMN for a column that the situation has not, UNDER for too few operands, and DEEP for a push
// onto a full stack; of a column's two, COLUMN comes first.

#![tactic(auto)]

ghost use Rattle.std.specs.Prelude.{◌≡◌, ◌+◌, drop};
ghost use Rattle.nodes.specs.Meaning.{node_of, full, climb_push, climb_down, climb, climbed, turns, past};

use answers::Answer;
use refusals::Kind;

// A node's byte, sorted.
#[derive(Clone, Copy)]
pub enum Node {
    Constant(Answer),
    Negate,
    Turn,
    Meet,
    Join,
    Column(usize),
    Foreign,
}

// What a machine allows: how many places its stack has, and whether it knows the join.
#[derive(Clone, Copy)]
pub struct Profile {
    pub places: usize,
    pub joins: bool,
}

// What a byte stands for. A compiled table's columns and meets are told first: one match on ranges was tried, and takes an eighth more
// instructions in an evaluation, since it jumps through a table.
impl From<u8> for Node {
    ghost from_gives = { λ b n. n ≡ node_of b };

    fn from(b: u8) -> Node {
        if 16 <= b {
            if b < 22 {
                return Node::Column(b as usize - 16);
            }
            return Node::Foreign;
        }
        if b == 6 {
            return Node::Meet;
        }
        if 6 < b {
            if b == 7 {
                return Node::Join;
            }
            return Node::Foreign;
        }
        if b == 4 {
            return Node::Negate;
        }
        if b < 4 {
            return Node::Constant(Answer::from(b));
        }
        Node::Turn
    }
}

// Sixteen places and all nodes.
pub fn full() -> Profile
    ensures { result ≡ full }
{
    Profile {
        places: 16,
        joins: true,
    }
}

// The height behind a push, which needs room for one answer.
fn push(height: usize, places: usize) -> Result<usize, Kind>
    ensures { climbed result ≡ climb_push places height }
{
    if height < places {
        Ok(height + 1)
    } else {
        Err(Kind::Deep)
    }
}

// The height behind an operator, which needs one operand more than it leaves fewer.
fn operate(fewer: usize, height: usize) -> Result<usize, Kind>
    ensures { climbed result ≡ climb_down fewer height }
{
    if fewer < height {
        Ok(height - fewer)
    } else {
        Err(Kind::Under)
    }
}

// What a node does to the stack's height.
#[tactic(auto, unfolding(crate::specs::Meaning::climb))]
pub fn climb(node: Node, height: usize, columns: usize, profile: Profile) -> Result<usize, Kind>
    ensures { climbed result ≡ climb profile columns node height }
{
    match node {
        Node::Turn => operate(0, height),
        Node::Column(k) => if k < columns {
            push(height, profile.places)
        } else {
            Err(Kind::Column)
        },
        Node::Meet => operate(1, height),
        Node::Join => if profile.joins {
            operate(1, height)
        } else {
            Err(Kind::Node)
        },
        Node::Negate => operate(0, height),
        Node::Constant(_) => push(height, profile.places),
        Node::Foreign => Err(Kind::Node),
    }
}

// The first place, from one on, where no turn (node 5) stands.
#[tactic(auto, using(crate::proofs::Passing::turn_laws))]
fn past_turns(nodes: &[u8], from: usize) -> usize
    ensures { result ≡ from + turns (drop from nodes.now) }
{
    for at in from..nodes.len() {
        if nodes[at] != 5 {
            return at;
        }
    }
    from.max(nodes.len())
}

// Where a run goes on after the node before `from`: in a compiled table turns follow columns, and are done at once.
pub fn past(node: Node, nodes: &[u8], from: usize) -> usize
    ensures { result ≡ past node nodes.now from }
{
    match node {
        Node::Column(_) => past_turns(nodes, from),
        _ => from,
    }
}
