//! What the arguments of a selection choose: positions of each dimension that is named.
ghost use Rattle.std.specs.Prelude.{◌≡◌, List, Some, map, IfOk};
ghost use Rattle.std.specs.List.{AllByRecursion};
ghost use Rattle.xr_types.specs.Results.{Answers};
ghost use Rattle.xr_arrays.specs.declared.node.Node.{Node};
ghost use Rattle.xr_defs.specs.WellFormed.{IsDimension};
ghost use Rattle.xr_operations.specs.Indexing as of;
ghost use Rattle.xr_values.specs.Meaning.{given, with_key};
ghost use Rattle.xr_indexing.specs.Choices.{choice_in};

use crate::axes::position_of;
use crate::choice::{Choice, choice_of};
use crate::selectors::{as_selector, check_dimension, check_selector};
use std::alloc::{AllocError, Global};
use std::slice::from_ref;
use xr_arrays::Sources;
use xr_changing::change_called;
use xr_operations::{Change, Selection};
use xr_types::{Axis, CallFault, DeepCopy, Fault, Items, TextBytes};
use xr_values::{Args, Value};

// The positions as the sources of new ones.
fn sources(alloc: Global, choice: &Choice) -> Result<Sources, AllocError>
    ensures { IfOk result (λ from. from ≡ map Some (of.positions_of (choice_in choice.now))) }
{
    let places = match choice {
        Choice::One(p) => from_ref(p),
        Choice::Several(ps) => ps.as_slice(),
    };
    let mut from = Items::new(alloc);
    for p in places {
        from.push(Some(*p))?;
    }
    Ok(from)
}

// Of a name that stands twice the first counts.
fn with_choice(
    alloc: Global,
    selection: Selection,
    name: &TextBytes,
    choice: &Choice,
) -> Result<Selection, AllocError>
    ensures { IfOk result (λ s. s ≡ of.with_choice selection name.now (choice_in choice.now)) }
{
    if change_called(selection.changes.as_slice(), name).is_some() {
        return Ok(selection);
    }
    let mut changes = selection.changes;
    let mut gone = selection.gone;
    changes.push(Change {
        name: name.deep_copy(alloc)?,
        labels: None,
        from: sources(alloc, choice)?,
    })?;
    if let Choice::One(_) = choice {
        gone.push(name.deep_copy(alloc)?)?;
    }
    Ok(Selection { changes, gone })
}

// What the dimension of a name is given.
#[tactic(auto, unfolding(xr_operations::specs::Indexing::choice_along))]
fn choice_along(
    alloc: Global,
    axes: &[Axis],
    argument: &(TextBytes, Value),
) -> Result<Choice, CallFault>
    requires { AllByRecursion IsDimension axes.now }
    ensures { (nodes : List Node) → Answers choice_in result (of.choice_along axes.now (with_key nodes argument.now)) }
{
    let size = match position_of(axes, &argument.0) {
        Some(k) => axes[k].size,
        None => 0,
    };
    let selector = as_selector(alloc, &argument.1)?;
    choice_of(alloc, size, &selector)
}

/// The positions that the arguments of `isel` choose.
///
/// # Errors
/// `BadArgument` for a plain argument; then, for each argument, `WrongKind` unless it is a position, a slice or a list of
/// positions, and `BadArgument` for a step of 0; then `NoDimension` for the first name that is no dimension; then
/// `OutOfRange` for a position that isn't there.
#[tactic(auto, unfolding(xr_operations::specs::Indexing::selection_given, xr_operations::specs::Indexing::selection_from, xr_types::specs::Results::unless, xr_values::specs::Meaning::given))]
pub fn selection_given(alloc: Global, axes: &[Axis], args: &Args) -> Result<Selection, CallFault>
    requires { AllByRecursion IsDimension axes.now }
    ensures { (nodes : List Node) → Answers (λ s. s) result (of.selection_given axes.now (given nodes args.now)) }
{
    if args.plain.len() != 0 {
        return Err(CallFault::Refused(Fault::BadArgument));
    }
    let keyed = args.keyed.as_slice();
    'kinds: for argument in keyed {
        check_selector(alloc, argument)?;
    }
    'names: for argument in keyed {
        check_dimension(alloc, axes, argument)?;
    }
    let mut selection = Selection {
        changes: Items::new(alloc),
        gone: Items::new(alloc),
    };
    'choices: for argument in keyed {
        let choice = choice_along(alloc, axes, argument)?;
        selection = with_choice(alloc, selection, &argument.0, &choice)?;
    }
    Ok(selection)
}
