//! Arrays and datasets as values.
ghost use Rattle.std.specs.Prelude.{◌≡◌, List, IfOk};
ghost use Rattle.xr_arrays.specs.declared.node.Node.{Node};
ghost use Rattle.xr_defs.specs.Meanings.{Array, Set};
ghost use Rattle.xr_values.specs.Meaning.{meaning, IsValueIn};
ghost use Rattle.xr_values.specs.Stands.{array_in, dataset_in, IsArrayIn, IsDatasetIn};

use std::alloc::{AllocError, Global};
use std::rc::Rc;
use xr_values::{DataArray, Dataset, Value};

#[tactic(auto, using(xr_arguments::proofs::Variants::is_array, xr_arguments::proofs::Inside::array_inside))]
pub(crate) fn array_value(alloc: Global, array: DataArray) -> Result<Value, AllocError>
    ensures means { IfOk result (λ v. (nodes : List Node) → meaning nodes v ≡ Array (array_in nodes array)) }
    ensures inside { IfOk result (λ v. (nodes : List Node) → IsArrayIn nodes array → IsValueIn nodes v) }
{
    Ok(Value::Array(Rc::new(alloc, array)?))
}

#[tactic(auto, using(xr_arguments::proofs::Variants::is_set, xr_arguments::proofs::Inside::set_inside))]
pub(crate) fn set_value(alloc: Global, set: Dataset) -> Result<Value, AllocError>
    ensures means { IfOk result (λ v. (nodes : List Node) → meaning nodes v ≡ Set (dataset_in nodes set)) }
    ensures inside { IfOk result (λ v. (nodes : List Node) → IsDatasetIn nodes set → IsValueIn nodes v) }
{
    Ok(Value::Set(Rc::new(alloc, set)?))
}
