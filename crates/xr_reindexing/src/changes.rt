//! The labels that each dimension is given, and the old positions that they show.
ghost use Rattle.std.specs.Prelude.{◌≡◌, ◌≤◌, List, length, map, filter, is_some, IfOk};
ghost use Rattle.std.specs.List.{list_all, AllByRecursion};
ghost use Rattle.xr_arrays.specs.declared.node.Node.{Node};
ghost use Rattle.xr_arrays.specs.Labels.{labels_of};
ghost use Rattle.xr_types.specs.Results.{Answers, all_of};
ghost use Rattle.xr_defs.specs.WellFormed.{IsDimension};
ghost use Rattle.xr_relations.specs.Reindexing as of;
ghost use Rattle.xr_values.specs.Meaning.{all_values, given, meaning, with_key};
ghost use Rattle.xr_selecting.specs.Searches.{search_in};
ghost use Rattle.xr_indexing.specs.Choices.{behind};
ghost use Rattle.xr_reindexing.specs.Asked.{names_dimension};

use crate::asked::{check_list, fill_given, is_option};
use label_index::Index;
use std::alloc::Global;
use xr_arrays::Sources;
use xr_indexing::{check_dimension, position_of};
use xr_operations::Change;
use xr_selecting::{Search, are_kin, as_labels, check_search, found};
use xr_types::{Axis, CallFault, DeepCopy, Fault, Items, Label, LabelList, NoMemory, TextBytes};
use xr_values::{Args, Value};

// The old position that a label shows, if there is one. Positions past 32 bits, which no axis has, want memory.
fn source(index: &Index<'_>, by: Search, label: &Label) -> Result<Option<u32>, NoMemory>
    ensures { IfOk result (λ o. o ≡ of.source (search_in by) index.now label.now) }
{
    match found(index, by, label) {
        Ok(place) if place <= u32::MAX as u64 => Ok(Some(place as u32)),
        Err(CallFault::Refused(_)) => Ok(None),
        _ => Err(NoMemory),
    }
}

fn sources(
    alloc: Global,
    index: &Index<'_>,
    by: Search,
    labels: &[Label],
) -> Result<Sources, NoMemory>
    ensures { IfOk result (λ from. from ≡ map (of.source (search_in by) index.now) labels.now) }
{
    let mut from = Items::new(alloc);
    for label in labels {
        from.push(source(index, by, label)?)?;
    }
    Ok(from)
}

#[tactic(auto, unfolding(xr_relations::specs::Reindexing::check_labels, xr_types::specs::Results::unless))]
fn check_labels(
    index: &Index<'_>,
    list: &LabelList,
    by: Search,
    labels: &[Label],
) -> Result<(), CallFault>
    requires { index.now ≡ list.now }
    ensures { Answers (λ u. u) result (of.check_labels (search_in by) list.now labels.now) }
{
    if !are_kin(list, labels) {
        return Err(CallFault::Refused(Fault::LabelKind));
    }
    match by.method {
        Some(near) => check_search(index, list, near, by.tolerance),
        None if !index.is_unique() => Err(CallFault::Refused(Fault::NotUnique)),
        None => Ok(()),
    }
}

fn all_some(from: &[Option<u32>]) -> bool
    ensures { result ≡ list_all is_some from.now }
{
    from.iter().all(|position| position.is_some())
}

// The change of a dimension with these labels to those of a list.
#[tactic(auto, unfolding(xr_relations::specs::Reindexing::change_on, xr_types::specs::Results::unless))]
fn change_on(
    alloc: Global,
    by: Search,
    filled: bool,
    name: &TextBytes,
    list: &LabelList,
    values: &[Value],
) -> Result<Change, CallFault>
    requires { length (labels_of list.now) ≤ 33554432 }
    ensures { (nodes : List Node) → Answers (λ c. c) result (of.change_on (search_in by) filled name.now list.now (all_values nodes values.now)) }
{
    let labels = as_labels(alloc, list, values)?;
    let index = Index::over(alloc, list)?;
    check_labels(&index, list, by, labels.as_slice())?;
    let from = sources(alloc, &index, by, labels.as_slice())?;
    if !filled && !all_some(from.as_slice()) {
        return Err(CallFault::Refused(Fault::WouldPromote));
    }
    let name = name.deep_copy(alloc)?;
    Ok(Change {
        name,
        labels: Some(labels),
        from,
    })
}

// The values of a list.
#[tactic(auto, using(xr_arguments::proofs::Variants::is_list, xr_values::proofs::Meaning::meaning_out, xr_values::proofs::Meaning::no_values))]
fn items(value: &Value) -> &[Value]
    ensures { (nodes : List Node) → all_values nodes result.now ≡ of.items (meaning nodes value.now) }
{
    match value {
        Value::List(values) => values.as_slice(),
        _ => &[],
    }
}

#[tactic(auto, unfolding(xr_relations::specs::Reindexing::change_along))]
fn change_along(
    alloc: Global,
    by: Search,
    filled: bool,
    axes: &[Axis],
    argument: &(TextBytes, Value),
) -> Result<Change, CallFault>
    requires { AllByRecursion IsDimension axes.now }
    ensures { (nodes : List Node) → Answers (λ c. c) result (of.change_along (search_in by) filled axes.now (with_key nodes argument.now)) }
{
    let name = &argument.0;
    match position_of(axes, name) {
        Some(k) => match &axes[k].labels {
            Some(labels) => change_on(alloc, by, filled, name, &labels.list, items(&argument.1)),
            None => Err(CallFault::Refused(Fault::LabelKind)),
        },
        None => Err(CallFault::Refused(Fault::LabelKind)),
    }
}

#[tactic(auto, using(xr_indexing::proofs::Loops::behind_both, xr_indexing::proofs::Loops::behind_nothing), unfolding(xr_relations::specs::Reindexing::changes))]
fn push_changes(
    alloc: Global,
    out: &mut Items<Change>,
    by: Search,
    filled: bool,
    axes: &[Axis],
    keyed: &[(TextBytes, Value)],
) -> Result<(), CallFault>
    requires { AllByRecursion IsDimension axes.now }
    ensures { (nodes : List Node) → Answers (λ u. out.new) result (behind out.old (of.changes (search_in by) filled axes.now (filter names_dimension (map (with_key nodes) keyed.now)))) }
{
    match keyed {
        [] => Ok(()),
        [argument, rest @ ..] => {
            if is_option(&argument.0) {
                return push_changes(alloc, out, by, filled, axes, rest);
            }
            let change = change_along(alloc, by, filled, axes, argument)?;
            out.push(change)?;
            push_changes(alloc, out, by, filled, axes, rest)
        }
    }
}

// ---- whole numbers of kind int64

fn is_held(label: &Label) -> bool
    ensures { result ≡ of.is_held label.now }
{
    match label {
        Label::Int(n) => i64::MIN as i128 <= *n && *n <= i64::MAX as i128,
        _ => true,
    }
}

fn are_held(labels: &[Label]) -> bool
    ensures { result ≡ list_all of.is_held labels.now }
{
    labels.iter().all(|label| is_held(label))
}

#[tactic(auto, unfolding(xr_relations::specs::Reindexing::check_held, xr_types::specs::Results::unless))]
fn check_held(change: &Change) -> Result<(), CallFault>
    ensures { Answers (λ u. u) result (of.check_held change.now) }
{
    match &change.labels {
        Some(labels) if !are_held(labels.as_slice()) => Err(CallFault::Refused(Fault::DoesNotFit)),
        _ => Ok(()),
    }
}

fn check_each_held(changes: &[Change]) -> Result<(), CallFault>
    ensures { Answers (λ u. u) result (all_of of.check_held changes.now) }
{
    match changes {
        [] => Ok(()),
        [change, rest @ ..] => {
            check_held(change)?;
            check_each_held(rest)
        }
    }
}

/// The changes that the arguments of `reindex` name.
///
/// # Errors
/// `WrongKind` for the first dimension that is given no list of labels; then `NoDimension`; then, dimension by dimension,
/// `BadArgument`, `LabelKind`, `NotUnique`, `NotMonotonic`, and `WouldPromote` where a label isn't there and no fill is given; then
/// `DoesNotFit` for a whole number past 64 bits.
#[tactic(auto, using(xr_indexing::proofs::Loops::behind_none), unfolding(xr_relations::specs::Reindexing::changes_given, xr_values::specs::Meaning::given))]
pub fn changes_given(
    alloc: Global,
    by: Search,
    axes: &[Axis],
    args: &Args,
) -> Result<Items<Change>, CallFault>
    requires { AllByRecursion IsDimension axes.now }
    ensures { (nodes : List Node) → Answers (λ cs. cs) result (of.changes_given (search_in by) axes.now (given nodes args.now)) }
{
    let keyed = args.keyed.as_slice();
    'lists: for argument in keyed {
        if !is_option(&argument.0) {
            check_list(argument)?;
        }
    }
    'names: for argument in keyed {
        if !is_option(&argument.0) {
            check_dimension(alloc, axes, argument)?;
        }
    }
    let filled = fill_given(args).is_some();
    let mut changes = Items::new(alloc);
    push_changes(alloc, &mut changes, by, filled, axes, keyed)?;
    check_each_held(changes.as_slice())?;
    Ok(changes)
}
