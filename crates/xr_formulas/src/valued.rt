//! From what a call makes to a value of the plan.
ghost use Rattle.std.specs.Prelude.{IfOk};
ghost use Rattle.xr_defs.specs.Meanings.{Array};
ghost use Rattle.plan_core.specs.Plans.{Grows};
ghost use Rattle.xr_values.specs.Meaning.{meaning};
ghost use Rattle.xr_formulas.specs.Called.{AddsBeside, StandsFor};
ghost use Rattle.xr_formulas.specs.Mades.{made_in, IsMade};

use crate::made::{Made, realize};
use plan_core::Plan;
use std::alloc::Global;
use std::rc::Rc;
use xr_types::NoMemory;
use xr_values::Value;

/// What a call makes, as a value of the plan. Its cells are those of nodes that are added, no more than the value leaves room for
/// beside any operands.
#[tactic(auto, using(crate::proofs::Rooms::array_room))]
pub fn called(alloc: Global, plan: &mut Plan, made: Made) -> Result<Value, NoMemory>
    requires { IsMade plan.old made }
    ensures means { IfOk result (StandsFor plan.new (Array (made_in plan.old made))) }
    ensures grows { Grows plan.old plan.new }
    ensures room { IfOk result (λ v. AddsBeside plan.old plan.new (meaning plan.new v)) }
{
    let array = realize(alloc, plan, made)?;
    Ok(Value::Array(Rc::new(alloc, array)?))
}
