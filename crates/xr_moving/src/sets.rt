//! Data variables and datasets that a call makes, before their cells stand in a plan.
ghost use Rattle.std.specs.Prelude.{IfOk};
ghost use Rattle.xr_arrays.specs.Added.{AddsAtMost};
ghost use Rattle.plan_core.specs.Plans.{Grows};
ghost use Rattle.xr_values.specs.Stands.{dataset_in};
ghost use Rattle.xr_formulas.specs.Mades.{formula_cells, FormulaFits};
ghost use Rattle.xr_moving.specs.Sets.{set_made_in, vars_cells, AddsForAnySet, AreFit, AreVarsOf, IsSetMade, IsSetOf, IsVarOf};

use plan_core::Plan;
use std::alloc::Global;
use xr_defs::Coord;
use xr_formulas::{Formula, push_formula};
use xr_reducing::by_name;
use xr_types::{Attr, Axis, DType, DeepCopy, Items, Name, NoMemory};
use xr_values::{Dataset, Variable};

/// A data variable with a formula in place of its cells.
#[derive(Drop)]
pub struct VarMade {
    pub name: Name,
    pub dims: Items<Name>,
    pub kind: DType,
    /// Whether missing cells may stand in the variable.
    pub masked: bool,
    pub attrs: Items<Attr>,
    pub cells: Formula,
}

/// A dataset with such variables.
#[derive(Drop)]
pub struct SetMade {
    pub axes: Items<Axis>,
    pub coords: Items<Coord>,
    pub vars: Items<VarMade>,
    pub attrs: Items<Attr>,
    pub skipped: Items<Name>,
}

fn realize_var(alloc: Global, plan: &mut Plan, made: &VarMade) -> Result<Variable, NoMemory>
    requires { FormulaFits plan.old made.now.cells }
    ensures var { IfOk result (IsVarOf plan.old plan.new made.now) }
    ensures grows { Grows plan.old plan.new }
    ensures cells { IfOk result (λ v. AddsAtMost plan.old plan.new (formula_cells plan.old made.now.cells)) }
{
    let node = push_formula(alloc, plan, &made.cells)?;
    Ok(Variable {
        name: made.name.deep_copy(alloc)?,
        dims: made.dims.deep_copy(alloc)?,
        kind: made.kind,
        masked: made.masked,
        attrs: made.attrs.deep_copy(alloc)?,
        node,
    })
}

// The variables of the plan that a call makes, in their order.
fn realize_vars(
    alloc: Global,
    plan: &mut Plan,
    made: &[VarMade],
) -> Result<Items<Variable>, NoMemory>
    requires { AreFit plan.old made.now }
    ensures vars { IfOk result (AreVarsOf plan.old plan.new made.now) }
    ensures grows { Grows plan.old plan.new }
    ensures cells { IfOk result (λ vs. AddsAtMost plan.old plan.new (vars_cells plan.old made.now)) }
{
    let mut out = Items::new(alloc);
    for m in made {
        out.push(realize_var(alloc, plan, m)?)?;
    }
    Ok(out)
}

/// The dataset of the plan that a call makes. Its variables' cells are those of nodes that are added.
pub fn realize_set(alloc: Global, plan: &mut Plan, made: SetMade) -> Result<Dataset, NoMemory>
    requires { IsSetMade plan.old made }
    ensures made { IfOk result (IsSetOf plan.new (set_made_in plan.old made)) }
    ensures grows { Grows plan.old plan.new }
    ensures room { IfOk result (λ s. AddsForAnySet plan.old plan.new (dataset_in plan.new s)) }
{
    let vars = realize_vars(alloc, plan, made.vars.as_slice())?;
    let vars = by_name(alloc, vars.as_slice())?;
    Ok(Dataset {
        axes: made.axes,
        coords: made.coords,
        vars,
        attrs: made.attrs,
        skipped: made.skipped,
    })
}
