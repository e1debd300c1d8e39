//! The arrays and datasets that `align` is given.
ghost use Rattle.std.specs.Prelude.{◌≡◌, ◌++◌, List, map, All, IfOk, OnOk};
ghost use Rattle.xr_aligning.specs.Common.{AllByRecursion, Answers, HasFew, IsValueIn, Node, all_of, meaning};
ghost use Rattle.xr_types.specs.declared.axis.Axis.{Axis as AnAxis};
ghost use Rattle.xr_operations.specs.Alignment as alignment;
ghost use Rattle.xr_relations.specs.Aligning as calls;
ghost use Rattle.xr_aligning.specs.Coming.{labelled_in, own_axes, IsLabelledIn, KeepsIn};
ghost use Rattle.xr_aligning.specs.Joined.{AreLoose};

use align_join::aligned;
use std::alloc::Global;
use xr_joining::have_few;
use xr_types::{Axis, CallFault, Fault, How, Items, NoMemory};
use xr_values::{DataArray, Dataset, Value};

/// An array or a dataset.
#[derive(Clone, Copy)]
pub enum Labelled<'a> {
    Array(&'a DataArray),
    Set(&'a Dataset),
}

#[tactic(auto, using(xr_arguments::proofs::Variants::is_array, xr_arguments::proofs::Variants::is_set, xr_arguments::proofs::Inside::held_array, xr_arguments::proofs::Inside::held_set, xr_values::proofs::Meaning::meaning_out), unfolding(xr_relations::specs::Aligning::check_labelled))]
fn labelled_of(value: &Value) -> Result<Labelled<'_>, CallFault>
    ensures told { (nodes : List Node) → Answers (λ l. tt) result (calls.check_labelled (meaning nodes value.now)) }
    ensures means { (nodes : List Node) → IfOk result (λ l. meaning nodes value.now ≡ labelled_in nodes l) }
    ensures inside { (nodes : List Node) → IfOk result (λ l. IsValueIn nodes value.now → IsLabelledIn nodes l) }
{
    match value {
        Value::Array(array) => Ok(Labelled::Array(array)),
        Value::Set(set) => Ok(Labelled::Set(set)),
        _ => Err(CallFault::Refused(Fault::WrongKind)),
    }
}

fn push_labelled<'a>(out: &mut Items<Labelled<'a>>, values: &'a [Value]) -> Result<(), CallFault>
    ensures told { (nodes : List Node) → Answers (λ u. u) result (all_of calls.check_labelled (map (meaning nodes) values.now)) }
    ensures means { (nodes : List Node) → OnOk result (map (labelled_in nodes) out.new ≡ map (labelled_in nodes) out.old ++ map (meaning nodes) values.now) }
    ensures inside { (nodes : List Node) → OnOk result (AllByRecursion (IsValueIn nodes) values.now → AllByRecursion (IsLabelledIn nodes) out.old → AllByRecursion (IsLabelledIn nodes) out.new) }
{
    for value in values {
        let one = labelled_of(value)?;
        out.push(one)?;
    }
    Ok(())
}

/// The arrays and datasets that values are.
///
/// # Errors
/// `WrongKind` for a value that is neither.
pub fn all_labelled(alloc: Global, values: &[Value]) -> Result<Items<Labelled<'_>>, CallFault>
    ensures told { (nodes : List Node) → Answers (λ ls. tt) result (all_of calls.check_labelled (map (meaning nodes) values.now)) }
    ensures means { (nodes : List Node) → IfOk result (λ ls. map (labelled_in nodes) ls ≡ map (meaning nodes) values.now) }
    ensures inside { (nodes : List Node) → IfOk result (λ ls. AllByRecursion (IsValueIn nodes) values.now → AllByRecursion (IsLabelledIn nodes) ls) }
{
    let mut out = Items::new(alloc);
    push_labelled(&mut out, values)?;
    Ok(out)
}

/// Its axes.
pub fn axes_of(on: Labelled<'_>) -> &[Axis]
    ensures { result.now ≡ own_axes on.entry }
{
    match on {
        Labelled::Array(array) => array.axes.as_slice(),
        Labelled::Set(set) => set.axes.as_slice(),
    }
}

// Labels past those that can be looked up want memory.
fn push_axes<'a>(out: &mut Items<&'a [Axis]>, values: &[Labelled<'a>]) -> Result<(), NoMemory>
    requires { All (λ v. All HasFew v.now) out.old }
    ensures axes { OnOk result (map (λ v. v.now) out.new ≡ map (λ v. v.now) out.old ++ map own_axes values.now) }
    ensures few { OnOk result (All (λ v. All HasFew v.now) out.new) }
{
    for value in values {
        let axes = axes_of(*value);
        if !have_few(axes) {
            return Err(NoMemory);
        }
        out.push(axes)?;
    }
    Ok(())
}

/// The axes of the values, those of one name joined.
pub fn joined_axes(
    alloc: Global,
    values: &[Labelled<'_>],
    how: How,
    filled: bool,
) -> Result<Items<Axis>, CallFault>
    ensures axes { (nodes : List Node) → Answers (λ (xs : List AnAxis). xs) result (alignment.aligned how filled (map calls.axes_of (map (labelled_in nodes) values.now))) }
    ensures loose { (nodes : List Node) → AllByRecursion (IsLabelledIn nodes) values.now → IfOk result AreLoose }
    ensures kept { (nodes : List Node) → AllByRecursion (IsLabelledIn nodes) values.now → IfOk result (λ xs. AllByRecursion (KeepsIn xs) (map own_axes values.now)) }
{
    let mut lists = Items::new(alloc);
    push_axes(&mut lists, values)?;
    aligned(alloc, lists.as_slice(), how, filled)
}
