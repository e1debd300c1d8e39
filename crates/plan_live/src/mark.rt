//! Marks of the nodes that live nodes are computed from.
ghost use Rattle.std.specs.Prelude.{◌≡◌, ◌<◌, ◌+◌, ℕ, [], length, get_or, false, true, All};
ghost use Rattle.xr_arrays.specs.Nodes.{AllFit};
ghost use Rattle.plan_core.specs.Needs.{inputs_of};
ghost use Rattle.plan_live.specs.Live.{IsLive, IsClosed, AreFedFrom};

use plan_core::Plan;
use xr_arrays::Node;
use xr_types::NodeId;

fn mark(live: &mut [bool], id: NodeId)
    requires { id < length live.old }
    ensures marked { IsLive live.new id }
    ensures stay { (k : ℕ) → IsLive live.old k → IsLive live.new k }
    ensures others { (k : ℕ) → id < k → get_or live.new k false ≡ get_or live.old k false }
{
    live[id as usize] = true;
}

fn mark_each(live: &mut [bool], ids: &[NodeId])
    requires { All (λ m. m < length live.old) ids.now }
    ensures marked { All (IsLive live.new) ids.now }
    ensures stay { (k : ℕ) → IsLive live.old k → IsLive live.new k }
    ensures others { (k : ℕ) → All (λ m. m < k) ids.now → get_or live.new k false ≡ get_or live.old k false }
{
    for id in ids {
        mark(live, *id);
    }
}

fn mark_inputs_of(live: &mut [bool], node: &Node)
    requires { All (λ m. m < length live.old) (inputs_of node.now) }
    ensures marked { All (IsLive live.new) (inputs_of node.now) }
    ensures stay { (k : ℕ) → IsLive live.old k → IsLive live.new k }
    ensures others { (k : ℕ) → All (λ m. m < k) (inputs_of node.now) → get_or live.new k false ≡ get_or live.old k false }
{
    match node {
        Node::Source { .. } => mark_each(live, &[]),
        Node::Take { input, .. } => mark_each(live, &[*input]),
        Node::Reorder { input, .. } => mark_each(live, &[*input]),
        Node::Widen { input, .. } => mark_each(live, &[*input]),
        Node::Unary { input, .. } => mark_each(live, &[*input]),
        Node::Binary { a, b, .. } => mark_each(live, &[*a, *b]),
        Node::Choose { cond, a, b } => mark_each(live, &[*cond, *a, *b]),
        Node::Fold { input, .. } => mark_each(live, &[*input]),
        Node::Scan { input, .. } => mark_each(live, &[*input]),
        Node::Concat { inputs, .. } => mark_each(live, inputs.as_slice()),
        Node::Chunk { input, .. } => mark_each(live, &[*input]),
    }
}

// A live node has live inputs.
fn mark_at(nodes: &[Node], live: &mut [bool], at: usize)
    requires fit { AllFit [] nodes.now }
    requires inside { at < length nodes.now }
    requires long { length live.old ≡ length nodes.now }
    requires fed { AreFedFrom nodes.now live.old (at + 1) }
    ensures fed { AreFedFrom nodes.now live.new at }
    ensures stay { (k : ℕ) → IsLive live.old k → IsLive live.new k }
{
    if live[at] {
        mark_inputs_of(live, &nodes[at]);
    }
}

/// Marks what live nodes are computed from, and what that is computed from, to the first node.
pub fn mark_inputs(plan: &Plan, live: &mut [bool])
    requires { length live.old ≡ length plan.now }
    ensures closed { IsClosed plan.now live.new }
    ensures stay { (k : ℕ) → IsLive live.old k → IsLive live.new k }
{
    let nodes = plan.nodes();
    for at in (0..nodes.len()).rev() {
        mark_at(nodes, live, at);
    }
}
