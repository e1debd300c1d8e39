//! When a plan is made anew without what isn't live. This is a matter of memory and time alone: the values of live nodes are
//! the same either way.
ghost use Rattle.std.specs.Prelude.{◌≡◌, length};
ghost use Rattle.plan_live.specs.Live.{Agrees};

use crate::anew::kept;
use crate::mark::mark_inputs;
use plan_core::Plan;
use std::alloc::Global;
use xr_arrays::{ArrayValue, Form, Node};
use xr_types::DType;

// Bytes of cells that have to be gained for each node of a plan before it is looked through, since a look goes over all its
// nodes. To read so many takes some ten times as long as to look at a node and to copy it.
const BYTES_A_NODE: u64 = 2_048;

// Bytes of a position, and of a node's number, where a node has lists of them.
const BYTES_A_POSITION: u64 = 8;

// What a variable of a file is reckoned at, however small it is: as long as it stands, so do the bytes of the whole file, of
// which it doesn't know how many there are.
const LEAST_OF_A_FILE: u64 = 32_768;

// Bytes of a cell.
fn width(kind: DType) -> u64 {
    match kind {
        DType::Bool | DType::Char | DType::Int8 | DType::UInt8 => 1,
        DType::Int16 | DType::UInt16 => 2,
        DType::Int32 | DType::UInt32 => 4,
        DType::Int64 | DType::UInt64 => 8,
    }
}

// The bytes of an array's cells. No array of a plan has more than such a number counts.
fn bytes_of(cells: &ArrayValue) -> u64 {
    let mut bytes = width(cells.kind());
    for n in cells.shape() {
        bytes = bytes.saturating_mul(*n);
    }
    bytes
}

// The cells of a source.
fn source(node: &Node) -> Option<&ArrayValue> {
    match node {
        Node::Source { cells } => Some(cells),
        Node::Take { .. } => None,
        Node::Reorder { .. } => None,
        Node::Widen { .. } => None,
        Node::Fold { .. } => None,
        Node::Concat { .. } => None,
        Node::Unary { .. } => None,
        Node::Binary { .. } => None,
        Node::Choose { .. } => None,
        Node::Scan { .. } => None,
        Node::Chunk { .. } => None,
    }
}

// The bytes that a source holds: those of its cells, or roughly those of its file.
fn source_bytes(cells: &ArrayValue) -> u64 {
    match cells.form() {
        Form::Typed(_) => bytes_of(cells),
        Form::Stored(_) => bytes_of(cells).max(LEAST_OF_A_FILE),
    }
}

// The bytes that a node holds.
fn held_bytes(node: &Node) -> u64 {
    match source(node) {
        Some(cells) => source_bytes(cells),
        None => 0,
    }
}

fn bytes_at(positions: usize) -> u64 {
    BYTES_A_POSITION.saturating_mul(positions as u64)
}

// The bytes that a copy of a node takes in new memory, beside those of each node.
fn copied_bytes(node: &Node) -> u64 {
    match node {
        Node::Source { cells } => match cells.form() {
            Form::Typed(_) => bytes_of(cells),
            Form::Stored(_) => 0,
        },
        Node::Take { from, .. } => bytes_at(from.as_slice().len()),
        Node::Reorder { .. } => 0,
        Node::Widen { .. } => 0,
        Node::Fold { .. } => 0,
        Node::Concat { inputs, .. } => bytes_at(inputs.as_slice().len()),
        Node::Unary { .. } => 0,
        Node::Binary { .. } => 0,
        Node::Choose { .. } => 0,
        Node::Scan { .. } => 0,
        Node::Chunk { .. } => 0,
    }
}

// Bytes for which it pays to go over so many nodes.
fn bytes_for(nodes: usize) -> u64 {
    BYTES_A_NODE.saturating_mul(nodes as u64)
}

/// What a plan has gained since it was last looked through.
#[derive(Clone, Copy)]
pub struct Gains {
    seen: usize,
    bytes: u64,
}

impl Gains {
    /// Those of an empty plan.
    pub fn new() -> Gains {
        Gains { seen: 0, bytes: 0 }
    }

    /// Counts the nodes that came since the last call, and says whether the plan has gained so many cells that it is time to
    /// look it through. Where it is, the count begins anew.
    pub fn is_time(&mut self, plan: &Plan) -> bool {
        let nodes = plan.nodes();
        for at in self.seen..nodes.len() {
            self.bytes = self.bytes.saturating_add(held_bytes(&nodes[at]));
        }
        self.seen = nodes.len();
        if self.bytes <= bytes_for(nodes.len()) {
            return false;
        }
        self.bytes = 0;
        true
    }
}

// Whether the cells of sources that aren't live take more than a new plan copies, and so much that it pays to make it.
fn pays(nodes: &[Node], live: &[bool]) -> bool
    requires { length live.now ≡ length nodes.now }
{
    let mut idle = 0u64;
    let mut copied = bytes_for(nodes.len());
    for at in 0..nodes.len() {
        if live[at] {
            copied = copied.saturating_add(copied_bytes(&nodes[at]));
        } else {
            idle = idle.saturating_add(held_bytes(&nodes[at]));
        }
    }
    copied <= idle
}

/// Makes the plan anew without the cells of what no live node needs, where that gives up more than it copies. `live` has a
/// mark for each node that has to stand, and gains one for each that these are computed from. Where memory runs out, the plan
/// stays as it is.
#[tactic(auto, using(crate::proofs::Keeping::agrees_itself, crate::proofs::Keeping::kept_agrees))]
pub fn forget(alloc: Global, plan: &mut Plan, live: &mut [bool])
    requires { length live.old ≡ length plan.old }
    ensures { Agrees live.old plan.old plan.new }
{
    mark_inputs(plan, live);
    if !pays(plan.nodes(), live) {
        return;
    }
    match kept(alloc, plan, live) {
        Ok(new) => *plan = new,
        Err(_) => {}
    }
}
