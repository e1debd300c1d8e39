//! What calls make, as values.
ghost use Rattle.std.specs.Prelude.{Result, IfOk};
ghost use Rattle.xr_types.specs.declared.fault.Fault.{Fault};
ghost use Rattle.xr_defs.specs.Values as arrays;
ghost use Rattle.plan_core.specs.Plans.{Grows};
ghost use Rattle.xr_values.specs.Meaning.{meaning};
ghost use Rattle.xr_formulas.specs.Called.{AddsBeside};
ghost use Rattle.xr_formulas.specs.Mades.{AnswersMade, IsMade};
ghost use Rattle.dataset_core.specs.Answers.{AnswersValue, array_told};

use plan_core::Plan;
use std::alloc::Global;
use xr_formulas::{Made, called};
use xr_types::CallFault;
use xr_values::Value;

/// What a call makes, put into the plan, or its fault.
#[tactic(auto, using(plan_core::proofs::Plans::grows_by_none, crate::proofs::Making::fault_told, crate::proofs::Making::value_told))]
pub(crate) fn made_value(
    alloc: Global,
    plan: &mut Plan,
    made: Result<Made, CallFault>,
) -> Result<Value, CallFault>
    requires { IfOk made (IsMade plan.old) }
    ensures answers { (means : Result arrays.DataArray Fault) → AnswersMade plan.old made means → AnswersValue plan.new result (array_told means) }
    ensures grows { Grows plan.old plan.new }
    ensures room { IfOk result (λ v. AddsBeside plan.old plan.new (meaning plan.new v)) }
{
    match made {
        Ok(made) => Ok(called(alloc, plan, made)?),
        Err(fault) => Err(fault),
    }
}
