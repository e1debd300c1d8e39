//! `align(a, b, .., join="inner", fill_value=..)`: arrays and datasets brought over joined axes.
ghost use Rattle.std.specs.Prelude.{◌≡◌, ◌==◌, ◌&&◌, length, map, nat_le, option_map, IfOk, OnOk};
ghost use Rattle.xr_aligning.specs.Common.{AllByRecursion, AreArgsIn, Grows, IsValueIn, given, meaning};
ghost use Rattle.xr_relations.specs.Aligning as calls;
ghost use Rattle.xr_aligning.specs.Aligned.{AnswersValues, ArePlaced};
ghost use Rattle.xr_aligning.specs.Coming.{come, labelled_in, IsLabelledIn, IsReady};

use crate::arrays::array_by;
use crate::coming::{Coming, all_coming, change_of};
use crate::filling::check_fills;
use crate::labelled::{Labelled, all_labelled, joined_axes};
use crate::options::{are_options, check_given, fill_cell, how_given, option};
use crate::sets::set_after;
use crate::sizes::check_sizes;
use plan_core::Plan;
use std::alloc::Global;
use std::rc::Rc;
use xr_types::{CallFault, Fault, How, Items, NoMemory};
use xr_values::{Args, Value};

#[tactic(auto, using(crate::proofs::Given::is_change, xr_arguments::proofs::Variants::is_array, xr_arguments::proofs::Variants::is_set, xr_arguments::proofs::Inside::array_inside, xr_arguments::proofs::Inside::set_inside))]
fn value_after(
    alloc: Global,
    plan: &mut Plan,
    fill: Option<i128>,
    coming: &Coming<'_>,
) -> Result<Value, NoMemory>
    requires { IsReady plan.old coming.now }
    ensures means { IfOk result (λ v. meaning plan.new v ≡ come plan.old fill coming.now) }
    ensures inside { IfOk result (IsValueIn plan.new) }
    ensures grows { Grows plan.old plan.new }
{
    let change = change_of(coming, fill);
    match coming.on {
        Labelled::Array(array) => {
            let array = array_by(alloc, plan, &change, array)?;
            Ok(Value::Array(Rc::new(alloc, array)?))
        }
        Labelled::Set(set) => {
            let set = set_after(alloc, plan, &change, set)?;
            Ok(Value::Set(Rc::new(alloc, set)?))
        }
    }
}

#[tactic(auto, using(plan_core::proofs::Plans::grows_by_none, plan_core::proofs::Plans::grows_on))]
fn push_values(
    alloc: Global,
    plan: &mut Plan,
    out: &mut Items<Value>,
    fill: Option<i128>,
    coming: &[Coming<'_>],
) -> Result<(), NoMemory>
    requires { AllByRecursion (IsReady plan.old) coming.now }
    ensures placed { OnOk result (ArePlaced plan.old plan.new fill coming.now out.old out.new) }
    ensures grows { Grows plan.old plan.new }
{
    for one in coming {
        let value = value_after(alloc, plan, fill, one)?;
        out.push(value)?;
    }
    Ok(())
}

// The values over their joined axes, once they join, a fill fits where it is needed, and none is too large.
fn aligned_by(
    alloc: Global,
    plan: &mut Plan,
    how: How,
    fill: Option<&Value>,
    values: &[Labelled<'_>],
) -> Result<Items<Value>, CallFault>
    requires { AllByRecursion (IsLabelledIn plan.old) values.now }
    ensures answers { AnswersValues plan.new result (calls.aligned_by how (option_map (λ v. meaning plan.old v.now) fill.entry) (map (labelled_in plan.old) values.now)) }
    ensures grows { Grows plan.old plan.new }
{
    let joined = joined_axes(alloc, values, how, fill.is_some())?;
    let coming = all_coming(alloc, joined.as_slice(), values)?;
    let coming = coming.as_slice();
    check_fills(alloc, coming, fill)?;
    check_sizes(alloc, coming)?;
    let mut out = Items::new(alloc);
    push_values(alloc, plan, &mut out, fill_cell(fill), coming)?;
    Ok(out)
}

// As many names as values, two or more.
fn suits(names: usize, values: &[Value]) -> bool
    ensures { result ≡ (nat_le 2 names && (length values.now == names)) }
{
    names >= 2 && values.len() == names
}

/// The arrays and datasets that a call is given, brought over axes that are joined by their labels. Each has the labels of the
/// dimensions along which it has some, and `fill_value`, or a missing cell, where it hasn't got one; a dimension without labels stays
/// so. Their cells are those of nodes that are added.
///
/// # Errors
/// `BadArgument` unless there are as many names as values, two or more, and no keyword but `join` and `fill_value`; then `WrongKind`
/// for a value that is neither an array nor a dataset, and for a `join` that is no text; `BadArgument` for one that is none of
/// `exact`, `inner`, `outer`, `left` and `right`; `WrongKind` for a fill that is no number, truth value or `NA`. Then, of the
/// dimensions in the order in which they appear, the first that can't be joined; `WrongKind` or `DoesNotFit` for a fill that isn't
/// one for cells that need it, value by value; then `TooLarge`.
pub fn align(
    alloc: Global,
    plan: &mut Plan,
    names: usize,
    args: &Args,
) -> Result<Items<Value>, CallFault>
    requires { AreArgsIn plan.old args.now }
    ensures answers { AnswersValues plan.new result (calls.align_called names (given plan.old args.now)) }
    ensures grows { Grows plan.old plan.new }
{
    let plain = args.plain.as_slice();
    let keyed = args.keyed.as_slice();
    if !suits(names, plain) {
        return Err(CallFault::Refused(Fault::BadArgument));
    }
    if !are_options(keyed) {
        return Err(CallFault::Refused(Fault::BadArgument));
    }
    let values = all_labelled(alloc, plain)?;
    let how = how_given(option(keyed, "join"))?;
    let fill = option(keyed, "fill_value");
    check_given(fill)?;
    aligned_by(alloc, plan, how, fill, values.as_slice())
}
