//! A dataset that is written where no node is computed. No script can show it, since a run computes every node.
ghost use Rattle.std.specs.Prelude.{◌≡◌, ◌≤◌, ◌∷◌, [], length, true, MatchOption, All, IfOk, ⊤, refl};
ghost use Rattle.xr_arrays.specs.Arrays.{IsCell};
ghost use Rattle.xr_defs.specs.Limits.{most_cells};
ghost use Rattle.xr_arrays.specs.Nodes.{IsNode};
ghost use Rattle.xr_arrays.specs.declared.node.Node.TheVariants.{Source};
ghost use Rattle.xr_files.specs.Files.{is_version};
ghost use Rattle.xr_values.specs.Stands.{IsDatasetIn};
ghost use Rattle.xr_defs.specs.WellFormed.{AreSeen, IsIndex};

use plan_core::{Compute, Plan};
use std::alloc::Global;
use std::test::*;
use std::thread::Threads;
use xr_arrays::{ArrayValue, Cells, Node};
use xr_defs::WriteOptions;
use xr_encode::encode_set;
use xr_types::{Attr, Axis, CallFault, ComputeFault, DType, Items, Labels, Name, NoMemory, NodeId};
use xr_values::{Cx, Dataset, Variable, Variables};

// Declines each node.
#[derive(Clone, Copy)]
struct Declining;

impl Compute for Declining {
    ghost declines = { λ s nodes n. true };

    ghost early = { λ s nodes more n lt. refl };

    fn cells<R: Threads + Sync>(
        &mut self,
        _rt: &R,
        _alloc: Global,
        _plan: &Plan,
        node: NodeId,
    ) -> Result<ArrayValue, ComputeFault> {
        Err(ComputeFault::Declined(node))
    }
}

// The plan of these cells alone.
fn plan_of(alloc: Global, cells: ArrayValue) -> Result<Plan, NoMemory>
    requires { IsNode [] (Source cells) }
    ensures { IfOk result (λ plan. plan ≡ Source cells ∷ []) }
{
    let mut plan = Plan::new(alloc);
    plan.push(Node::Source { cells })?;
    Ok(plan)
}

fn axis(alloc: Global, name: &str, size: u64, labels: Option<Labels>) -> Result<Axis, NoMemory>
    ensures { IfOk result (λ x. x ≡ record { name = name.now; size = size; labels = labels }) }
{
    Ok(Axis {
        name: Name::from_str(alloc, name)?,
        size,
        labels,
    })
}

// A variable over one dimension, whose cells are the first node's.
fn variable(
    alloc: Global,
    name: &str,
    dim: &str,
    kind: DType,
    masked: bool,
    attrs: Items<Attr>,
) -> Result<Variable, NoMemory>
    ensures { IfOk result (λ v. v ≡ record { name = name.now; dims = dim.now ∷ []; kind = kind; masked = masked; attrs = attrs; node = 0 }) }
{
    let mut dims = Items::new(alloc);
    dims.push(Name::from_str(alloc, dim)?)?;
    Ok(Variable {
        name: Name::from_str(alloc, name)?,
        dims,
        kind,
        masked,
        attrs,
        node: 0,
    })
}

// A dataset of the variable `v` over the axis `x`, and the plan that holds its cells.
#[tactic(auto, using(crate::proofs::TestSets::is_source, crate::proofs::TestSets::alone_in))]
fn alone(
    alloc: Global,
    size: u64,
    labels: Option<Labels>,
    cells: ArrayValue,
    masked: bool,
) -> Result<(Plan, Dataset), NoMemory>
    requires few { size ≤ most_cells }
    requires index { MatchOption labels ⊤ (IsIndex size) }
    requires shape { cells.shape ≡ size ∷ [] }
    requires whole { length cells.cells ≡ size }
    requires range { All (IsCell cells.kind) cells.cells }
    requires seen { AreSeen masked cells.cells }
    ensures { IfOk result (λ p. IsDatasetIn p.0 p.1) }
{
    let kind = cells.kind();
    let plan = plan_of(alloc, cells)?;
    let mut axes = Items::new(alloc);
    axes.push(axis(alloc, "x", size, labels)?)?;
    let mut vars = Variables::new(alloc);
    vars.put(
        alloc,
        variable(alloc, "v", "x", kind, masked, Items::new(alloc))?,
    )?;
    let set = Dataset {
        axes,
        coords: Items::new(alloc),
        vars,
        attrs: Items::new(alloc),
        skipped: Items::new(alloc),
    };
    Ok((plan, set))
}

#[tactic(auto, using(crate::proofs::TestSets::ints_are, crate::proofs::TestSets::ints_seen))]
fn three(alloc: Global) -> Result<(Plan, Dataset), NoMemory>
    ensures { IfOk result (λ p. IsDatasetIn p.0 p.1) }
{
    let shape = Items::from_slice(alloc, &[3])?;
    let cells = Cells::Int32(Items::from_slice(alloc, &[1, 2, 3])?);
    alone(alloc, 3, None, ArrayValue::of(shape, cells, None), false)
}

fn options(fill: Option<i128>, unlimited: Option<Name>) -> WriteOptions
    ensures { is_version result.version ≡ true }
{
    WriteOptions {
        version: 1,
        fill,
        unlimited,
    }
}

#[test]
fn a_node_may_be_declined(rt: HostRuntime) -> Result<(), Fail> {
    let alloc = rt.alloc();
    let Ok((plan, set)) = three(alloc) else {
        return Err("no dataset".into());
    };
    let mut cx = Cx {
        plan,
        compute: Declining,
    };
    match encode_set(&rt, alloc, &mut cx, &set, &options(None, None)) {
        Err(CallFault::Declined(0)) => Ok(()),
        _ => Err("the first node".into()),
    }
}
