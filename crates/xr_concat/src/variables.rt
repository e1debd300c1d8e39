//! The data variables of several datasets, put together name by name.
ghost use Rattle.std.specs.Prelude.{◌≡◌, ◌≤◌, ◌++◌, false, true, List, get_or, length, map, IfOk, OnOk};
ghost use Rattle.xr_types.specs.Results.{Answers};
ghost use Rattle.xr_types.specs.Names.{among};
ghost use Rattle.xr_arrays.specs.declared.node.Node.{Node as ANode};
ghost use Rattle.plan_core.specs.Plans.{Grows};
ghost use Rattle.xr_combination.specs.Concat as calls;
ghost use Rattle.xr_combination.specs.Pieces as pieces;
ghost use Rattle.xr_combination.specs.Pieces.{each_of};
ghost use Rattle.xr_combining.specs.Placing.{IsNodeFor};
ghost use Rattle.xr_merging.specs.Each.{behind};
ghost use Rattle.xr_merging.specs.Members as members;
ghost use Rattle.xr_merging.specs.Names.{names_in};
ghost use Rattle.xr_values.specs.Carrying.{the_attrs};
ghost use Rattle.xr_values.specs.Stands.{dataset_in};
ghost use Rattle.xr_values.specs.declared.variable.Variable.{Variable as Var};
ghost use Rattle.xr_joint.specs.Joint.{joint_in, AreReady, IsReady};
ghost use Rattle.xr_stacking.specs.Members.{AreCellsOf};
ghost use Rattle.xr_concat.specs.Made.{IsJoint};
ghost use Rattle.xr_concat.specs.Named.{AreHeldIn};

use crate::constants::first_has;
use plan_core::Plan;
use std::alloc::{AllocError, Global};
use xr_chaining::is_new;
use xr_joint::{JointVariable, Origin};
use xr_merging::{joined_attrs, variables_called, with_attrs};
use xr_stacking::{
    Part, end_to_end, has_name, in_kind, kind_of_all, parts_called, place_in, sizes_called,
    with_first,
};
use xr_types::{
    Attr, Axis, CallFault, DType, DeepCopy, Items, Name, NoMemory, NodeId, TextBytes, copy_all,
};
use xr_values::{DataArray, Dataset, Variable};

// ---- the mask and the attributes

fn is_some_masked(vars: &[&Variable]) -> bool
    ensures { (nodes : List ANode) → result ≡ pieces.is_some_masked (map (members.piece_in nodes) (map (λ v. v.now) vars.now)) }
{
    match vars {
        [] => false,
        [var, rest @ ..] => var.masked || is_some_masked(rest),
    }
}

fn push_attrs(
    alloc: Global,
    out: &mut Items<DataArray>,
    vars: &[&Variable],
) -> Result<(), AllocError>
    ensures { (nodes : List ANode) → OnOk result (the_attrs out.new ≡ the_attrs out.old ++ map (λ (p : pieces.Piece). p.attrs) (map (members.piece_in nodes) (map (λ v. v.now) vars.now))) }
{
    for var in vars {
        out.push(with_attrs(alloc, &var.attrs)?)?;
    }
    Ok(())
}

fn all_attrs(alloc: Global, vars: &[&Variable]) -> Result<Items<Attr>, NoMemory>
    ensures { (nodes : List ANode) → IfOk result (λ attrs. attrs ≡ pieces.all_attrs (map (members.piece_in nodes) (map (λ v. v.now) vars.now))) }
{
    let mut lists = Items::new(alloc);
    push_attrs(alloc, &mut lists, vars)?;
    let attrs = joined_attrs(alloc, lists.as_slice())?;
    Ok(attrs)
}

// A variable of these cells.
fn variable_with(
    alloc: Global,
    name: &Name,
    dims: &[Name],
    kind: DType,
    vars: &[&Variable],
    node: NodeId,
) -> Result<JointVariable, NoMemory>
    ensures { (nodes : List ANode) → IfOk result (IsJoint name.now dims.now kind (map (members.piece_in nodes) (map (λ v. v.now) vars.now)) node) }
{
    let attrs = all_attrs(alloc, vars)?;
    Ok(JointVariable {
        name: name.deep_copy(alloc)?,
        dims: copy_all(alloc, dims)?,
        kind,
        masked: is_some_masked(vars),
        attrs,
        cells: Origin::Node(node),
    })
}

// ---- one name

// Along a new dimension, which is the first one.
fn stacked(
    alloc: Global,
    plan: &mut Plan,
    axes: &[Axis],
    dim: &Name,
    name: &Name,
    kind: DType,
    vars: &[&Variable],
    parts: &[Part],
) -> Result<JointVariable, NoMemory>
    requires { AreCellsOf plan.old (map (λ v. v.now) vars.now) parts.now }
    ensures is { IfOk result (λ v. joint_in plan.new v ≡ pieces.piece_variable name.now (calls.piece_concatenated true dim.now kind (map (members.piece_in plan.old) (map (λ v. v.now) vars.now)))) }
    ensures ready { IfOk result (IsReady plan.new axes.now) }
    ensures grows { Grows plan.old plan.new }
{
    match vars {
        [] => Err(NoMemory),
        [first, ..] => {
            let own = first.dims.as_slice();
            let dims = with_first(alloc, dim, own)?;
            let dims = dims.as_slice();
            let sizes = sizes_called(alloc, axes, dims)?;
            let node = end_to_end(alloc, plan, kind, own, true, 0, sizes.as_slice(), parts)?;
            variable_with(alloc, name, dims, kind, vars, node)
        }
    }
}

// End to end along one that all have.
fn lengthened(
    alloc: Global,
    plan: &mut Plan,
    axes: &[Axis],
    dim: &Name,
    name: &Name,
    kind: DType,
    vars: &[&Variable],
    parts: &[Part],
) -> Result<JointVariable, NoMemory>
    requires cells { AreCellsOf plan.old (map (λ v. v.now) vars.now) parts.now }
    requires along { among (pieces.first_piece (map (members.piece_in plan.old) (map (λ v. v.now) vars.now))).dims dim.now ≡ true }
    ensures is { IfOk result (λ v. joint_in plan.new v ≡ pieces.piece_variable name.now (calls.piece_concatenated false dim.now kind (map (members.piece_in plan.old) (map (λ v. v.now) vars.now)))) }
    ensures ready { IfOk result (IsReady plan.new axes.now) }
    ensures grows { Grows plan.old plan.new }
{
    match vars {
        [] => Err(NoMemory),
        [first, ..] => {
            let dims = first.dims.as_slice();
            let axis = place_in(dims, dim);
            let sizes = sizes_called(alloc, axes, dims)?;
            let node = end_to_end(
                alloc,
                plan,
                kind,
                dims,
                false,
                axis,
                sizes.as_slice(),
                parts,
            )?;
            variable_with(alloc, name, dims, kind, vars, node)
        }
    }
}

fn first_part(parts: &[Part]) -> Result<&Part, NoMemory>
    ensures some { IfOk result (λ p. 1 ≤ length parts.now) }
    ensures first { IfOk result (λ p. p.now ≡ get_or parts.now 0 p.now) }
{
    match parts {
        [] => Err(NoMemory),
        [part, ..] => Ok(part),
    }
}

// The first of those that haven't got it, which are the same.
fn kept(
    alloc: Global,
    plan: &mut Plan,
    axes: &[Axis],
    dim: &Name,
    name: &Name,
    kind: DType,
    vars: &[&Variable],
    parts: &[Part],
) -> Result<JointVariable, NoMemory>
    requires cells { AreCellsOf plan.old (map (λ v. v.now) vars.now) parts.now }
    requires constant { among (pieces.first_piece (map (members.piece_in plan.old) (map (λ v. v.now) vars.now))).dims dim.now ≡ false }
    ensures is { IfOk result (λ v. joint_in plan.new v ≡ pieces.piece_variable name.now (calls.piece_concatenated false dim.now kind (map (members.piece_in plan.old) (map (λ v. v.now) vars.now)))) }
    ensures ready { IfOk result (IsReady plan.new axes.now) }
    ensures grows { Grows plan.old plan.new }
{
    match vars {
        [] => Err(NoMemory),
        [first, ..] => {
            let dims = first.dims.as_slice();
            let sizes = sizes_called(alloc, axes, dims)?;
            let part = first_part(parts)?;
            let node = in_kind(alloc, plan, kind, dims, sizes.as_slice(), part)?;
            variable_with(alloc, name, dims, kind, vars, node)
        }
    }
}

fn put_together(
    alloc: Global,
    plan: &mut Plan,
    axes: &[Axis],
    dim: &Name,
    new: bool,
    name: &Name,
    kind: DType,
    vars: &[&Variable],
    parts: &[Part],
) -> Result<JointVariable, NoMemory>
    requires { AreCellsOf plan.old (map (λ v. v.now) vars.now) parts.now }
    ensures is { IfOk result (λ v. joint_in plan.new v ≡ pieces.piece_variable name.now (calls.piece_concatenated new dim.now kind (map (members.piece_in plan.old) (map (λ v. v.now) vars.now)))) }
    ensures ready { IfOk result (IsReady plan.new axes.now) }
    ensures grows { Grows plan.old plan.new }
{
    if new {
        stacked(alloc, plan, axes, dim, name, kind, vars, parts)
    } else if first_has(dim, vars) {
        lengthened(alloc, plan, axes, dim, name, kind, vars, parts)
    } else {
        kept(alloc, plan, axes, dim, name, kind, vars, parts)
    }
}

// ---- name by name

#[tactic(auto, using(crate::proofs::Members::cells_called, crate::proofs::Members::kind_fails, crate::proofs::Members::joined))]
fn variable_concatenated(
    alloc: Global,
    plan: &mut Plan,
    axes: &[Axis],
    dim: &Name,
    sets: &[Dataset],
    name: &Name,
) -> Result<JointVariable, CallFault>
    requires { AreHeldIn plan.old sets.now }
    ensures answers { Answers (joint_in plan.new) result (calls.variable_concatenated dim.now (map (dataset_in plan.old) sets.now) name.now) }
    ensures ready { IfOk result (IsReady plan.new axes.now) }
    ensures grows { Grows plan.old plan.new }
{
    let vars = variables_called(alloc, sets, name)?;
    let vars = vars.as_slice();
    let kind = kind_of_all(alloc, vars)?;
    let parts = parts_called(alloc, sets, name)?;
    let new = is_new(dim, sets);
    let var = put_together(
        alloc,
        plan,
        axes,
        dim,
        new,
        name,
        kind,
        vars,
        parts.as_slice(),
    )?;
    Ok(var)
}

#[tactic(auto, using(plan_core::proofs::Plans::grows_by_none, plan_core::proofs::Plans::grows_on))]
fn push_concatenated(
    alloc: Global,
    plan: &mut Plan,
    out: &mut Items<JointVariable>,
    axes: &[Axis],
    dim: &Name,
    sets: &[Dataset],
    vars: &[Variable],
) -> Result<(), CallFault>
    requires held { AreHeldIn plan.old sets.now }
    requires ready { AreReady plan.old axes.now out.old }
    ensures answers { Answers (λ u. map (joint_in plan.new) out.new) result (behind (map (joint_in plan.old) out.old) (each_of (calls.variable_concatenated dim.now (map (dataset_in plan.old) sets.now)) (names_in plan.old vars.now))) }
    ensures ready { OnOk result (AreReady plan.new axes.now out.new) }
    ensures grows { Grows plan.old plan.new }
{
    match vars {
        [] => Ok(()),
        [var, rest @ ..] => {
            let one = variable_concatenated(alloc, plan, axes, dim, sets, &var.name)?;
            out.push(one)?;
            push_concatenated(alloc, plan, out, axes, dim, sets, rest)
        }
    }
}

/// The data variables of datasets over joined axes, put together name by name along a dimension, over the axes of the result. Their
/// cells are those of nodes that are added. Sizes that aren't those of the axes, which none of them have, want memory.
///
/// # Errors
/// `WrongKind` and `WouldPromote` for the kinds of the first name of which they don't become one.
#[tactic(auto, using(plan_core::proofs::Plans::grows_by_none, xr_merging::proofs::Each::from_none, xr_merging::proofs::Each::behind_none))]
pub(crate) fn variables_concatenated(
    alloc: Global,
    plan: &mut Plan,
    axes: &[Axis],
    dim: &Name,
    sets: &[Dataset],
) -> Result<Items<JointVariable>, CallFault>
    requires { AreHeldIn plan.old sets.now }
    ensures answers { Answers (map (joint_in plan.new)) result (each_of (calls.variable_concatenated dim.now (map (dataset_in plan.old) sets.now)) (calls.set_names (pieces.first_set (map (dataset_in plan.old) sets.now)))) }
    ensures ready { IfOk result (AreReady plan.new axes.now) }
    ensures grows { Grows plan.old plan.new }
{
    let mut out = Items::new(alloc);
    match sets {
        [] => Ok(out),
        [first, ..] => {
            push_concatenated(
                alloc,
                plan,
                &mut out,
                axes,
                dim,
                sets,
                first.vars.as_slice(),
            )?;
            Ok(out)
        }
    }
}
