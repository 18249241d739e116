// The answers of a node array at all situations of n columns at once, 64 to a word.
//
// It promises that the lane with a situation's number has what the evaluator answers there, and that every other lane is
// silent. It refuses as the evaluator does at a situation of n columns: SITUATION for n outside 1 to 6 (place: n), then NODE,
// COLUMN, UNDER, DEEP and END; none of them depends on the answers. The words of a refusal are all 0.
//
// Each node is run over sixteen words before the next one (see lanes and pushes); six columns take four passes over the
// nodes. More words to a pass would be a larger stack.

#![tactic(auto)]

ghost use Rattle.std.specs.Prelude.{◌*◌, ◌+◌, ◌≡◌, ◌≤◌, ◌<◌, length};
ghost use Rattle.refusals.specs.Meaning.{checked};
ghost use Rattle.planes.specs.Meaning.{planes_of, filled};
ghost use Rattle.planes.specs.Inside.{Acting, Acted, Ran, Within, Stored};

use nodes::Node;
use refusals::{Kind, Refusal};

// Bit w % 64 of word w / 64 is the situation with number w: bury has the lower bit of the answer's number, keep the higher.
#[derive(Clone, Copy)]
pub struct Planes {
    pub bury: [u64; 64],
    pub keep: [u64; 64],
}

// How many passes there are, how many words each computes, and which lanes of each word are situations.
#[derive(Clone, Copy)]
struct Extent {
    passes: usize,
    count: usize,
    lanes: u64,
}

// One pass: the situations of so many columns in sixteen words.
#[derive(Clone, Copy)]
struct Pass {
    columns: usize,
    number: usize,
    ghost most: { columns ≤ 6 },
    ghost inside: { number < 4 },
}

const ALL: u64 = 0xffff_ffff_ffff_ffff;

// The words of a pass.
const WORDS: usize = 16;

impl Pass {
    // A node that is not refused, and so many turns behind it where it is a column, at the place of the stack where its answer
    // will stand.
    fn act(self, node: Node, turns: usize, place: usize, stack: &mut [u64; 512])
        requires { Acting self.columns node }
        ensures { Acted self.columns (self.number * 16) node turns place stack.old stack.new }
    {
        match node {
            Node::Turn => lanes::turn(stack, place),
            Node::Column(k) => {
                let e = self.columns - 1 - k;
                pushes::column(stack, place, self.number, e, turns);
            }
            Node::Meet => lanes::meet(stack, place),
            Node::Join => lanes::join(stack, place),
            Node::Negate => lanes::negate(stack, place),
            Node::Constant(a) => pushes::constant(stack, place, a),
            Node::Foreign => {}
        }
    }

    // The nodes from left to right, on the caller's stack. The place goes on by more than one node where turns are done with
    // their column. The walk is the evaluator's too: with a closure for what differs it would ask its caller for one that may
    // be called, and what another crate can call asks nothing (docs/PROMISES.md, demand 1); a trait of machines would be
    // longer than the walk.
    #[tactic(auto, using(crate::proofs::NodeLoop::walk_laws))]
    fn run(self, nodes: &[u8], stack: &mut [u64; 512]) -> Result<(), Refusal>
        ensures { Ran nodes.now self.columns (self.number * 16) stack.new (checked result) }
    {
        let mut height = 0;
        let mut i = 0;
        while i < nodes.len() {
            let node = Node::from(nodes[i]);
            let climbed = nodes::climb(node, height, self.columns, nodes::full());
            height = climbed.map_err(|kind| Refusal::at(kind, i))?;
            let from = i + 1;
            let next = nodes::past(node, nodes, from);
            self.act(node, next - from, height - 1, stack);
            i = next;
        }
        if height == 1 {
            Ok(())
        } else {
            Err(Refusal::at(Kind::End, i))
        }
    }
}

fn extent_of(columns: usize) -> Extent
    requires { (1 ≤ columns) × (columns ≤ 6) }
    ensures { Within columns result }
{
    let situations = 1usize << (2 * columns);
    let words = situations.div_ceil(64);
    Extent {
        passes: words.div_ceil(WORDS),
        count: words.min(WORDS),
        lanes: if situations < 64 {
            (1 << situations) - 1
        } else {
            ALL
        },
    }
}

// Words of the stack, without the lanes that are no situations.
fn store(words: &[u64], lanes: u64, all: &mut [u64])
    requires { length words.now ≤ length all.old }
    ensures { Stored words.now lanes (length words.now) all.old all.new }
{
    for (w, word) in words.iter().enumerate() {
        all[w] = word & lanes;
    }
}

// The answers at all situations of so many columns. What stands on the stack before the first push is never read. It is not 0,
// since so many zeros would be the C library's to write, in more instructions.
pub fn fill(nodes: &[u8], columns: usize) -> Result<Planes, Refusal>
    ensures { filled result ≡ planes_of nodes.now columns }
{
    if columns < 1 || 6 < columns {
        return Err(Refusal::at(Kind::Situation, columns));
    }
    let extent = extent_of(columns);
    let mut bury = [0u64; 64];
    let mut keep = [0u64; 64];
    for number in 0..extent.passes {
        let pass = Pass { columns, number };
        let mut stack = [1u64; 512];
        pass.run(nodes, &mut stack)?;
        let first = number * WORDS;
        let last = first + extent.count;
        store(&stack[..extent.count], extent.lanes, &mut bury[first..last]);
        store(
            &stack[WORDS..WORDS + extent.count],
            extent.lanes,
            &mut keep[first..last],
        );
    }
    Ok(Planes { bury, keep })
}
