//! Marks the nodes that a value has.
ghost use Rattle.std.specs.Prelude.{◌≡◌, ◌<◌, ℕ, List, length, All};
ghost use Rattle.xr_arrays.specs.declared.node.Node.{Node};
ghost use Rattle.plan_live.specs.Live.{IsLive};
ghost use Rattle.xr_values.specs.declared.variable.Variable.{Variable as Var};
ghost use Rattle.xr_values.specs.Meaning.{IsValueIn};
ghost use Rattle.values_live.specs.Marked.{IsVariableLive, IsValueLive};

use xr_types::NodeId;
use xr_values::{Value, Variable};

fn mark(live: &mut [bool], node: NodeId)
    ensures marked { node < length live.old → IsLive live.new node }
    ensures stay { (k : ℕ) → IsLive live.old k → IsLive live.new k }
{
    let node = node as usize;
    if node < live.len() {
        live[node] = true;
    }
}

fn mark_variables(live: &mut [bool], variables: &[Variable])
    ensures marked { All (λ (v : Var). v.node < length live.old) variables.now → All (IsVariableLive live.new) variables.now }
    ensures stay { (k : ℕ) → IsLive live.old k → IsLive live.new k }
{
    for variable in variables {
        mark(live, variable.node);
    }
}

/// Marks each node of a value of a plan that has as many nodes as there are marks.
pub fn mark_value(live: &mut [bool], value: &Value)
    ensures marked { (nodes : List Node) → length nodes ≡ length live.old → IsValueIn nodes value.now → IsValueLive live.new value.now }
    ensures stay { (k : ℕ) → IsLive live.old k → IsLive live.new k }
{
    match value {
        Value::Absent => {}
        Value::Missing => {}
        Value::Truth(_) => {}
        Value::Number(_) => {}
        Value::Text(_) => {}
        Value::List(items) => {
            for item in items {
                mark_value(live, item);
            }
        }
        Value::Table(entries) => {
            for entry in entries {
                mark_value(live, &entry.1);
            }
        }
        Value::Slice(_, _, _) => {}
        Value::Array(array) => mark(live, array.node),
        Value::Set(set) => mark_variables(live, set.vars.as_slice()),
        Value::Times(_, _) => {}
        Value::GroupedArray(array, _) => mark(live, array.node),
        Value::GroupedSet(set, _) => mark_variables(live, set.vars.as_slice()),
    }
}
