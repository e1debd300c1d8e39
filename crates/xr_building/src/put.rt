//! Entries that are put in their places, one after the other.
ghost use Rattle.std.specs.Prelude.{◌≡◌, true, false, ℕ, List, Ok, map, All, IfOk};
ghost use Rattle.std.specs.List.{list_all};
ghost use denote.Param.Send.{IsSync};
ghost use Rattle.xr_types.specs.declared.axis.LabelList.TheVariants as lists;
ghost use Rattle.xr_types.specs.declared.text.TextBytes.{TextBytes as Text};
ghost use Rattle.xr_types.specs.declared.fault.Fault.TheVariants.{DoesNotFit};
ghost use Rattle.xr_types.specs.Results.{unless, all_of, Answers};
ghost use Rattle.xr_files.specs.Classic.{is_name};
ghost use Rattle.xr_arrays.specs.declared.node.Node.{Node};
ghost use Rattle.xr_arrays.specs.Nodes.{value as value_of};
ghost use Rattle.xr_defs.specs.declared.value.Coord.{Coord as Other};
ghost use Rattle.xr_defs.specs.Building.{check_entry, check_numbers, frame_labelled, is_dimension, with_coordinate, with_entry, Frame};
ghost use Rattle.xr_defs.specs.Selecting.{axis_called};
ghost use Rattle.xr_defs.specs.Values.{present};
ghost use Rattle.xr_values.specs.declared.value.Value.{Value as Held};
ghost use Rattle.xr_values.specs.Meaning.{meaning, with_key, IsValueIn, IsEntryIn};
ghost use Rattle.xr_values.specs.Stands.{array_in, IsArrayIn};
ghost use Rattle.xr_values.specs.Variables.{names_of};
ghost use Rattle.xr_building.specs.declared.puts.Put.{Put as PutOf};
ghost use Rattle.xr_building.specs.Entries.{entry_in, entries_in, Follows, IsPlain};
ghost use Rattle.xr_building.specs.Placing.{array_put, array_told, IsAlone};
ghost use Rattle.xr_building.specs.Puts.{after, check_put, fits_whole, over, put_fits, put_on};

use crate::axes::is_dimension;
use crate::computed::node_cells;
use crate::given::is_named;
use crate::labels::{array_labels, labels_given, total};
use crate::placing::{check_array, check_taken, check_total};
use crate::puts::{NewLabels, Put};
use plan_core::Compute;
use std::alloc::{AllocError, Global};
use std::thread::Threads;
use xr_arrays::ArrayValue;
use xr_defs::{Content, Coord};
use xr_types::{Axis, CallFault, DeepCopy, Fault, Items, TextBytes};
use xr_values::{Cx, DataArray, Value, Variable};

// Labels other than an array's.
#[tactic(auto, unfolding(xr_defs::specs::Building::with_entry, xr_defs::specs::Building::with_labels))]
fn put_labels(
    alloc: Global,
    variables: &[Variable],
    axes: &[Axis],
    entry: &(TextBytes, Value),
) -> Result<Put, CallFault>
    requires { IsPlain entry.now.1 }
    ensures answers { (nodes : List Node) (f : Frame) → is_dimension f.axes entry.now.0 ≡ true → (axis_called f.axes entry.now.0).size ≡ (axis_called axes.now entry.now.0).size → Answers (put_on f) result (with_entry (names_of variables.now) f (with_key nodes entry.now)) }
    ensures fits { (nodes : List Node) → IfOk result (λ p. put_fits p ≡ fits_whole (meaning nodes entry.now.1)) }
{
    let labels = labels_given(alloc, &entry.1)?;
    check_total(axes, &entry.0, total(&labels) as u64)?;
    check_taken(variables, &entry.0)?;
    Ok(Put::Labels(entry.0.deep_copy(alloc)?, labels))
}

// A coordinate other than an array's.
#[tactic(auto, using(xr_arguments::proofs::Variants::is_number, xr_arguments::proofs::Variants::is_text, xr_arguments::proofs::Variants::is_array, xr_values::proofs::Meaning::meaning_out), unfolding(xr_defs::specs::Building::with_coordinate, xr_defs::specs::Building::coordinate_given))]
fn coord_given(alloc: Global, name: &TextBytes, value: &Value) -> Result<Put, CallFault>
    requires { IsPlain value.now }
    ensures answers { (nodes : List Node) (f : Frame) → Answers (put_on f) result (with_coordinate f name.now (meaning nodes value.now)) }
    ensures fits { (nodes : List Node) → IfOk result (λ p. put_fits p ≡ fits_whole (meaning nodes value.now)) }
{
    match value {
        Value::Number(n) => Ok(Put::Number(name.deep_copy(alloc)?, *n)),
        Value::Text(text) => Ok(Put::Coord(Coord {
            name: name.deep_copy(alloc)?,
            axes: Items::new(alloc),
            attrs: Items::new(alloc),
            content: Content::Text(text.deep_copy(alloc)?),
        })),
        _ => Err(CallFault::Refused(Fault::WrongKind)),
    }
}

// An entry other than an array.
#[tactic(auto, using(crate::proofs::After::after_dimension, crate::proofs::After::after_size), unfolding(xr_defs::specs::Building::with_entry))]
fn put_plain(
    alloc: Global,
    variables: &[Variable],
    axes: &[Axis],
    entry: &(TextBytes, Value),
) -> Result<Put, CallFault>
    requires { IsPlain entry.now.1 }
    ensures answers { (nodes : List Node) (coords : List Other) (puts : List PutOf) → Answers (put_on (after (over axes.now coords) puts)) result (with_entry (names_of variables.now) (after (over axes.now coords) puts) (with_key nodes entry.now)) }
    ensures fits { (nodes : List Node) → IfOk result (λ p. put_fits p ≡ fits_whole (meaning nodes entry.now.1)) }
{
    if is_dimension(axes, &entry.0) {
        return put_labels(alloc, variables, axes, entry);
    }
    let put = coord_given(alloc, &entry.0, &entry.1)?;
    check_taken(variables, &entry.0)?;
    Ok(put)
}

fn labels_put(
    alloc: Global,
    name: &TextBytes,
    array: &DataArray,
    cells: &ArrayValue,
) -> Result<Put, AllocError>
    requires { array.now.masked ≡ false }
    ensures put { (nodes : List Node) (f : Frame) → IsArrayIn nodes array.now → cells.now ≡ value_of nodes array.now.node → IfOk result (λ p. put_on f p ≡ frame_labelled f name.now (record { list = lists.Numbers array.now.kind (present (array_in nodes array.now).cells); attrs = array.now.attrs })) }
    ensures fits { IfOk result (λ p. put_fits p ≡ true) }
{
    let labels = array_labels(alloc, array, cells)?;
    Ok(Put::Labels(name.deep_copy(alloc)?, NewLabels::Labels(labels)))
}

#[tactic(auto, using(xr_values::proofs::Grown::array_value, crate::proofs::After::after_dimension))]
fn made_of(
    alloc: Global,
    axes: &[Axis],
    name: &TextBytes,
    array: &DataArray,
    cells: ArrayValue,
) -> Result<Put, AllocError>
    requires { is_dimension axes.now name.now ≡ true → IsAlone array.now }
    ensures put { (nodes : List Node) (coords : List Other) (puts : List PutOf) → IsArrayIn nodes array.now → cells ≡ value_of nodes array.now.node → IfOk result (λ p. put_on (after (over axes.now coords) puts) p ≡ array_put (after (over axes.now coords) puts) name.now (array_in nodes array.now)) }
    ensures fits { IfOk result (λ p. put_fits p ≡ true) }
{
    if is_dimension(axes, name) {
        labels_put(alloc, name, array, &cells)
    } else {
        Ok(Put::Coord(Coord {
            name: name.deep_copy(alloc)?,
            axes: array.axes.deep_copy(alloc)?,
            attrs: array.attrs.deep_copy(alloc)?,
            content: Content::Cells(cells, array.masked),
        }))
    }
}

// An array is checked, and then its cells are computed.
#[tactic(auto, unfolding(xr_types::specs::Results::unless))]
fn put_array<R: Threads + Sync, C: Compute>(
    rt: &R,
    alloc: Global,
    cx: &mut Cx<C>,
    variables: &[Variable],
    axes: &[Axis],
    puts: &[Put],
    name: &TextBytes,
    array: &DataArray,
) -> Result<Put, CallFault>
    requires sync { IsSync R.row }
    requires inside { IsArrayIn cx.old.plan array.now }
    requires alone { is_dimension axes.now name.now ≡ true → IsAlone array.now }
    ensures told { (coords : List Other) → Follows (put_on (after (over axes.now coords) puts.now)) result (array_told (C.declines cx.old.compute cx.old.plan) cx.old.plan (names_of variables.now) (after (over axes.now coords) puts.now) name.now array.now) }
    ensures fits { IfOk result (λ p. put_fits p ≡ true) }
    ensures plan { cx.new.plan ≡ cx.old.plan }
    ensures keeps { (nodes : List Node) (n : ℕ) → C.declines cx.new.compute nodes n ≡ C.declines cx.old.compute nodes n }
{
    check_array(axes, puts, variables, name, array)?;
    let cells = node_cells(rt, alloc, cx, array.node)?;
    let put = made_of(alloc, axes, name, array, cells)?;
    Ok(put)
}

fn put_entry<R: Threads + Sync, C: Compute>(
    rt: &R,
    alloc: Global,
    cx: &mut Cx<C>,
    variables: &[Variable],
    axes: &[Axis],
    puts: &[Put],
    entry: &(TextBytes, Value),
) -> Result<Put, CallFault>
    requires sync { IsSync R.row }
    requires inside { IsValueIn cx.old.plan entry.now.1 }
    requires checked { check_entry axes.now (with_key cx.old.plan entry.now) ≡ Ok tt }
    ensures told { (coords : List Other) → Follows (put_on (after (over axes.now coords) puts.now)) result (entry_in (C.declines cx.old.compute cx.old.plan) cx.old.plan (names_of variables.now) (after (over axes.now coords) puts.now) entry.now) }
    ensures fits { IfOk result (λ p. put_fits p ≡ fits_whole (meaning cx.old.plan entry.now.1)) }
    ensures plan { cx.new.plan ≡ cx.old.plan }
    ensures keeps { (nodes : List Node) (n : ℕ) → C.declines cx.new.compute nodes n ≡ C.declines cx.old.compute nodes n }
{
    match &entry.1 {
        Value::Array(array) => { put_array(rt, alloc, cx, variables, axes, puts, &entry.0, array) }
        _ => put_plain(alloc, variables, axes, entry),
    }
}

fn are_named(entries: &[(TextBytes, Value)]) -> bool
    ensures { result ≡ list_all (λ (kv : Text × Held). is_name kv.0) entries.now }
{
    entries.iter().all(|entry| is_named(&entry.0))
}

/// What the entries come to, each over what the entries before it leave. The cells of an array are computed in its turn, and where
/// its node is declined that is the answer.
///
/// # Errors
/// The first of: `SizeConflict` and `NotAligned` of an entry, `DuplicateName` for the name of a data variable, and a declined
/// node.
pub fn put_entries<R: Threads + Sync, C: Compute>(
    rt: &R,
    alloc: Global,
    cx: &mut Cx<C>,
    variables: &[Variable],
    axes: &[Axis],
    entries: &[(TextBytes, Value)],
) -> Result<Items<Put>, CallFault>
    requires sync { IsSync R.row }
    requires inside { All (IsEntryIn cx.old.plan) entries.now }
    requires checked { all_of (check_entry axes.now) (map (with_key cx.old.plan) entries.now) ≡ Ok tt }
    ensures told { (coords : List Other) → Follows (after (over axes.now coords)) result (entries_in (C.declines cx.old.compute cx.old.plan) cx.old.plan (names_of variables.now) (over axes.now coords) entries.now) }
    ensures named { IfOk result (λ ps. list_all (λ (kv : Text × Held). is_name kv.0) entries.now ≡ true) }
    ensures fits { IfOk result (λ ps. all_of check_numbers (map (with_key cx.old.plan) entries.now) ≡ all_of check_put ps) }
    ensures plan { cx.new.plan ≡ cx.old.plan }
    ensures keeps { (nodes : List Node) (n : ℕ) → C.declines cx.new.compute nodes n ≡ C.declines cx.old.compute nodes n }
{
    if !are_named(entries) {
        // No script has an entry without a name.
        return Err(CallFault::NoMemory);
    }
    let mut puts = Items::new(alloc);
    for entry in entries {
        let put = put_entry(rt, alloc, cx, variables, axes, puts.as_slice(), entry)?;
        puts.push(put)?;
    }
    Ok(puts)
}
