//! Datasets that a call makes, and how they come into a plan.
ghost use Rattle.std.specs.Prelude.{◌≡◌, [], IfOk};
ghost use Rattle.xr_arrays.specs.Added.{AddsAtMost};
ghost use Rattle.plan_core.specs.Plans.{Grows};
ghost use Rattle.xr_formulas.specs.Chains.{chain_cells, ChainFits};
ghost use Rattle.xr_values.specs.Stands.{dataset_in};
ghost use Rattle.xr_values.specs.Variables.{with_variables};
ghost use Rattle.xr_reducing.specs.Sets.{set_made_in, vars_cells, AreFit, AreVarsOf, IsSetMade, IsSetOf, IsVarOf};

use plan_core::Plan;
use std::alloc::{AllocError, Global};
use xr_defs::Coord;
use xr_formulas::{Chain, push_chain};
use xr_types::{Attr, Axis, DType, DeepCopy, Items, Name, NoMemory};
use xr_values::{Dataset, Variable, Variables};

/// A data variable with a chain in place of its cells.
#[derive(Drop)]
pub struct VarMade {
    pub name: Name,
    pub dims: Items<Name>,
    pub kind: DType,
    /// Whether missing cells may stand in the variable.
    pub masked: bool,
    pub attrs: Items<Attr>,
    pub cells: Chain,
}

/// A dataset with chains in place of its variables' cells.
#[derive(Drop)]
pub struct SetMade {
    pub axes: Items<Axis>,
    pub coords: Items<Coord>,
    pub vars: Items<VarMade>,
    pub attrs: Items<Attr>,
    pub skipped: Items<Name>,
}

fn realize_var(alloc: Global, plan: &mut Plan, made: &VarMade) -> Result<Variable, NoMemory>
    requires { ChainFits plan.old made.now.cells }
    ensures var { IfOk result (IsVarOf plan.old plan.new made.now) }
    ensures grows { Grows plan.old plan.new }
    ensures cells { IfOk result (λ v. AddsAtMost plan.old plan.new (chain_cells plan.old made.now.cells)) }
{
    let node = push_chain(alloc, plan, &made.cells)?;
    Ok(Variable {
        name: made.name.deep_copy(alloc)?,
        dims: made.dims.deep_copy(alloc)?,
        kind: made.kind,
        masked: made.masked,
        attrs: made.attrs.deep_copy(alloc)?,
        node,
    })
}

/// The variables of the plan that a call makes, in their order.
pub(crate) fn realize_vars(
    alloc: Global,
    plan: &mut Plan,
    made: &[VarMade],
) -> Result<Items<Variable>, NoMemory>
    requires { AreFit plan.old made.now }
    ensures vars { IfOk result (AreVarsOf plan.old plan.new made.now) }
    ensures grows { Grows plan.old plan.new }
    ensures cells { IfOk result (λ vs. AddsAtMost plan.old plan.new (vars_cells plan.old made.now)) }
{
    let mut out = Items::new(alloc);
    for m in made {
        out.push(realize_var(alloc, plan, m)?)?;
    }
    Ok(out)
}

/// Variables by their names.
pub fn by_name(alloc: Global, vars: &[Variable]) -> Result<Variables, AllocError>
    ensures { IfOk result (λ vs. vs ≡ with_variables [] vars.now) }
{
    let mut out = Variables::new(alloc);
    for var in vars {
        out.put(alloc, var.deep_copy(alloc)?)?;
    }
    Ok(out)
}

/// The dataset of the plan that a call makes. Its variables' cells are those of nodes that are added.
pub fn realize_set(alloc: Global, plan: &mut Plan, made: SetMade) -> Result<Dataset, NoMemory>
    requires { IsSetMade plan.old made }
    ensures made { IfOk result (IsSetOf plan.new (set_made_in plan.old made)) }
    ensures grows { Grows plan.old plan.new }
    ensures cells { IfOk result (λ s. AddsAtMost plan.old plan.new (vars_cells plan.old made.vars)) }
{
    let vars = realize_vars(alloc, plan, made.vars.as_slice())?;
    let vars = by_name(alloc, vars.as_slice())?;
    Ok(Dataset {
        axes: made.axes,
        coords: made.coords,
        vars,
        attrs: made.attrs,
        skipped: made.skipped,
    })
}
