// The evaluator: what an array of one-byte nodes answers at a situation.
//
// It promises for any bytes, not only for compiled tables, the answer or the refusal that the definition of a run gives.
// It refuses first the situation (SITUATION: a length outside 1 to 6, else the first answer above 3), then the nodes from
// left to right: a byte that is no node (NODE), a column that the situation has not (COLUMN), too few operands (UNDER), a
// push onto a full stack (DEEP), each at the node's index; last a stack that does not hold exactly one answer (END, at the
// array's length). The faults of nodes and the heights are those of `nodes::climb`.

#![tactic(auto)]

ghost use Rattle.std.specs.Prelude.{◌≡◌, [], ◌+◌, ◌*◌, ◌/◌, ◌%◌, ◌<◌, length, get_or};
ghost use Rattle.answers.specs.Meaning.{number, from_number, negate, answered};
ghost use Rattle.situations.specs.Meaning.{answers_of};
ghost use Rattle.nodes.specs.Meaning.{full, finish, run, evaluate_of};
ghost use Rattle.evaluator.specs.Inside.{view, acted, Small, Within};

use answers::{Answer, operators};
use nodes::Node;
use refusals::{Kind, Refusal};

// The stack is one number in base 4, its top the lowest digit: sixteen answers take 32 bits, and one put onto them two more.
fn top(stack: u32) -> Answer
    ensures { result ≡ from_number (stack % 4) }
{
    Answer::from((stack % 4) as u8)
}

// An answer put onto the stack.
fn put(stack: u32, a: Answer) -> u64
    ensures { result ≡ stack * 4 + number a }
{
    u64::from(stack) * 4 + u64::from(u8::from(a))
}

// A column's answer, turned so many times, put onto the stack. It is not made an answer in between, which would take
// more instructions.
fn put_column(stack: u32, situation: &[u8], k: usize, times: usize) -> u64
    requires { k < length situation.now }
    ensures { result ≡ stack * 4 + (get_or situation.now k 0 % 4 + times % 4) % 4 }
{
    let digit = u64::from(situation[k] % 4);
    let turns = (times % 4) as u64;
    let sum = digit + turns;
    let raised = u64::from(stack) * 4;
    raised + sum % 4
}

// The stack after a node that is not refused, and after so many turns behind it where it is a column. An operator's answer
// comes in place of its operands, which are on top.
#[tactic(auto, using(crate::proofs::Acting::column_within), unfolding(crate::specs::Inside::acted))]
fn act(stack: u32, node: Node, situation: &[u8], times: usize) -> u64
    requires { Within node (length situation.now) }
    ensures { result ≡ acted situation.now node times stack }
{
    match node {
        Node::Turn => put(stack / 4, operators::turn(top(stack))),
        Node::Column(k) => put_column(stack, situation, k, times),
        Node::Meet => put(stack / 16, operators::meet(top(stack / 4), top(stack))),
        Node::Join => put(stack / 16, operators::join(top(stack / 4), top(stack))),
        Node::Negate => put(stack / 4, operators::negate(top(stack))),
        Node::Constant(a) => put(stack, a),
        Node::Foreign => u64::from(stack),
    }
}

// What is left on the stack after the last node.
#[tactic(auto, using(crate::proofs::Evaluation::finish_laws))]
fn finish(stack: u32, height: usize, place: usize) -> Result<Answer, Refusal>
    ensures { answered result ≡ finish place (view height stack) }
{
    if height == 1 {
        Ok(top(stack))
    } else {
        Err(Refusal::at(Kind::End, place))
    }
}

// The nodes from left to right. The place goes on by more than one node where turns are done with their column.
#[tactic(auto, using(crate::proofs::Evaluation::run_laws))]
fn run(nodes: &[u8], situation: &[u8]) -> Result<Answer, Refusal>
    requires { Small situation.now }
    ensures { answered result ≡ run full (answers_of situation.now) 0 [] nodes.now }
{
    let columns = situation.len();
    let mut stack = 0;
    let mut height = 0;
    let mut i = 0;
    while i < nodes.len() {
        let node = Node::from(nodes[i]);
        let climbed = nodes::climb(node, height, columns, nodes::full());
        height = climbed.map_err(|kind| Refusal::at(kind, i))?;
        let from = i + 1;
        let next = nodes::past(node, nodes, from);
        stack = act(stack, node, situation, next - from) as u32;
        i = next;
    }
    finish(stack, height, i)
}

// What the nodes answer at the situation.
#[tactic(auto, using(crate::proofs::Evaluation::evaluate_laws))]
pub fn evaluate(nodes: &[u8], situation: &[u8]) -> Result<Answer, Refusal>
    ensures { answered result ≡ evaluate_of nodes.now situation.now }
{
    situations::check(situation)?;
    run(nodes, situation)
}
