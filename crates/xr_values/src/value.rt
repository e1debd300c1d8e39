//! Values of the script language.
ghost use Rattle.std.specs.Prelude.{◌≡◌, IfOk};

use crate::data_array::DataArray;
use crate::dataset::Dataset;
use std::alloc::{AllocError, Global};
use std::rc::Rc;
use xr_defs::{Grouping, Part};
use xr_types::{DeepCopy, Shared, TextBytes, TimeCoding};

/// A value of the script language. Arrays and datasets are shared by those that hold them.
#[derive(Drop)]
pub enum Value {
    /// `None`.
    Absent,
    /// `NA`, a missing cell.
    Missing,
    Truth(bool),
    Number(i128),
    Text(TextBytes),
    List(Vec<Value>),
    Table(Vec<(TextBytes, Value)>),
    /// Start, stop and step of a slice. A step that isn't given is none.
    Slice(Part, Part, Option<i128>),
    Array(Rc<DataArray>),
    Set(Rc<Dataset>),
    /// Times in seconds from 1970-01-01T00:00:00, and how they stand in a file.
    Times(TimeCoding, Shared<i64>),
    /// An array with its positions in groups.
    GroupedArray(Rc<DataArray>, Grouping),
    /// A dataset with its positions in groups.
    GroupedSet(Rc<Dataset>, Grouping),
}

// An end of a slice again.
fn copy_part(alloc: Global, part: &Part) -> Result<Part, AllocError>
    ensures { IfOk result (λ p. p ≡ part.now) }
{
    Ok(match part {
        Part::Open => Part::Open,
        Part::At(n) => Part::At(*n),
        Part::Label(text) => Part::Label(text.deep_copy(alloc)?),
    })
}

impl Value {
    ghost use Rattle.std.specs.Prelude.{List};
    ghost use Rattle.xr_arrays.specs.declared.node.Node.{Node};
    ghost use Rattle.xr_values.specs.Meaning.{meaning, IsValueIn};
    ghost use Rattle.xr_values.specs.Trees.{tree};

    #[tactic(auto, using(crate::proofs::Trees::tree_out))]
    fn again(&self, alloc: Global) -> Result<Value, AllocError>
        ensures { IfOk result (λ v. tree v ≡ tree self.now) }
    {
        match self {
            Value::Absent => Ok(Value::Absent),
            Value::Missing => Ok(Value::Missing),
            Value::Truth(b) => Ok(Value::Truth(*b)),
            Value::Number(n) => Ok(Value::Number(*n)),
            Value::Text(text) => Ok(Value::Text(text.deep_copy(alloc)?)),
            Value::List(items) => {
                let mut copies = Vec::new(alloc);
                for item in items {
                    copies.push(item.again(alloc)?)?;
                }
                Ok(Value::List(copies))
            }
            Value::Table(entries) => {
                let mut copies = Vec::new(alloc);
                for entry in entries {
                    copies.push((entry.0.deep_copy(alloc)?, entry.1.again(alloc)?))?;
                }
                Ok(Value::Table(copies))
            }
            Value::Slice(start, stop, step) => Ok(Value::Slice(
                copy_part(alloc, start)?,
                copy_part(alloc, stop)?,
                *step,
            )),
            Value::Array(array) => Ok(Value::Array(array.clone()?)),
            Value::Set(set) => Ok(Value::Set(set.clone()?)),
            Value::Times(coding, times) => Ok(Value::Times(
                coding.deep_copy(alloc)?,
                times.deep_copy(alloc)?,
            )),
            Value::GroupedArray(array, by) => Ok(Value::GroupedArray(
                array.clone()?,
                by.deep_copy(alloc)?,
            )),
            Value::GroupedSet(set, by) => Ok(Value::GroupedSet(set.clone()?, by.deep_copy(alloc)?)),
        }
    }

    /// An equal value in new memory. Arrays and datasets are shared with it.
    #[tactic(auto, using(crate::proofs::Meaning::copied_inside))]
    pub fn copy(&self, alloc: Global) -> Result<Value, AllocError>
        ensures means { IfOk result (λ v. (nodes : List Node) → meaning nodes v ≡ meaning nodes self.now) }
        ensures inside { IfOk result (λ v. (nodes : List Node) → IsValueIn nodes self.now → IsValueIn nodes v) }
    {
        self.again(alloc)
    }
}
