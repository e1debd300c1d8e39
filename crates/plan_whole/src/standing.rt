//! Arrays that stand there: the cells of sources, and what is kept of other nodes.
ghost use Rattle.std.specs.Prelude.{◌≡◌, ◌<◌, true, length, IfSome, option_map};
ghost use Rattle.xr_types.specs.declared.operation.OpKind.TheVariants.{Cast};
ghost use Rattle.xr_arrays.specs.Nodes.{value};
ghost use Rattle.plan_needs.specs.Trees.{standing, IsStrand, IsTree};

use plan_needs::source;
use xr_arrays::{ArrayValue, Node};
use xr_types::{DType, OpKind};

fn kept(done: &Option<ArrayValue>) -> Option<&ArrayValue>
    ensures { option_map (λ a. a.now) result ≡ done.now }
{
    match done {
        Some(a) => Some(a),
        None => None,
    }
}

/// The cells of a source, and what is kept of another node.
pub fn standing<'a>(
    nodes: &'a [Node],
    done: &'a [Option<ArrayValue>],
    at: usize,
) -> Option<&'a ArrayValue>
    requires there { at < length nodes.now }
    requires done { at < length done.now }
    ensures { option_map (λ a. a.now) result ≡ standing nodes.now done.now at }
{
    match source(&nodes[at]) {
        Some(cells) => Some(cells),
        None => kept(&done[at]),
    }
}

/// Whether an operation on cells of a kind leaves them as they are: a cast to their own kind.
pub fn leaves_cells(op: OpKind, kind: DType, own: DType) -> bool
    ensures op { result ≡ true → op ≡ Cast }
    ensures kind { result ≡ true → own ≡ kind }
{
    match op {
        OpKind::Cast => own == kind,
        _ => false,
    }
}

// What stands there and is a node's value: no node between changes a cell.
#[cycle(unchanged)]
fn unchanged<'a>(
    nodes: &'a [Node],
    done: &'a [Option<ArrayValue>],
    at: usize,
) -> Option<&'a ArrayValue>
    requires { IsStrand nodes.now done.now at }
    ensures { IfSome result (λ a. a.now ≡ value nodes.now at) }
{
    match standing(nodes, done, at) {
        Some(a) => Some(a),
        None => unchanged_input(nodes, done, at),
    }
}

/// What stands there and is the value of a node that is computed from strips: neither the node nor one between changes a cell.
#[cycle(unchanged)]
pub fn unchanged_input<'a>(
    nodes: &'a [Node],
    done: &'a [Option<ArrayValue>],
    at: usize,
) -> Option<&'a ArrayValue>
    requires { IsTree nodes.now done.now at }
    ensures { IfSome result (λ a. a.now ≡ value nodes.now at) }
{
    match &nodes[at] {
        // Its axes stay in their places, since it comes from strips.
        Node::Reorder { input, .. } => unchanged(nodes, done, *input as usize),
        Node::Unary { op, kind, input } => match unchanged(nodes, done, *input as usize) {
            Some(a) => if leaves_cells(*op, *kind, a.kind()) {
                Some(a)
            } else {
                None
            },
            None => None,
        },
        _ => None,
    }
}
