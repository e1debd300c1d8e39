//! Gives up what no name reaches.
ghost use Rattle.std.specs.Prelude.{◌≡◌, ℕ, List, length, IfSome};
ghost use Rattle.std.specs.BTreeMap.{get_by_text};
ghost use Rattle.values_live.specs.Marked.{IsLiveAmong, AreValuesIn, StandForTheSame};

use crate::mark::mark_value;
use plan_core::Plan;
use plan_live::forget;
use std::alloc::Global;
use std::collections::BTreeMap;
use xr_values::Value;

// Marks the nodes of all values.
fn mark_values(live: &mut [bool], values: &BTreeMap<String, Value>)
    ensures { (name : List ℕ) → IfSome (get_by_text values.now name) (IsLiveAmong (length live.old) live.new) }
{
    for (_, value) in values.iter() {
        mark_value(live, value);
    }
}

// The same, with a mark for each node of the plan.
fn forget_unmarked(
    alloc: Global,
    plan: &mut Plan,
    values: &BTreeMap<String, Value>,
    live: &mut [bool],
)
    requires long { length live.old ≡ length plan.old }
    requires inside { AreValuesIn plan.old values.now }
    ensures same { StandForTheSame plan.old plan.new values.now }
    ensures inside { AreValuesIn plan.new values.now }
{
    mark_values(live, values);
    forget(alloc, plan, live);
}

/// Makes the plan anew without the cells of what no name's value is computed from, where this pays. Where memory runs out, the
/// plan stays as it is.
pub fn forget_unnamed(alloc: Global, plan: &mut Plan, values: &BTreeMap<String, Value>)
    requires { AreValuesIn plan.old values.now }
    ensures same { StandForTheSame plan.old plan.new values.now }
    ensures inside { AreValuesIn plan.new values.now }
{
    match Vec::from_elem(alloc, false, plan.nodes().len()) {
        Ok(mut live) => forget_unmarked(alloc, plan, values, &mut live),
        Err(_) => {}
    }
}
