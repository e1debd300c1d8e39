//! The attributes that the datasets among several values have in common.
ghost use Rattle.std.specs.Prelude.{◌≡◌, ◌++◌, List, map, option_map, IfOk, OnOk};
ghost use Rattle.xr_arrays.specs.declared.node.Node.{Node};
ghost use Rattle.xr_defs.specs.Carrying.{joined_attrs};
ghost use Rattle.xr_values.specs.Carrying.{the_attrs};
ghost use Rattle.xr_values.specs.Meaning.{meaning};
ghost use Rattle.xr_merging.specs.Members.{listed};
ghost use Rattle.xr_merge.specs.Attributes.{attrs_of, sets_attrs};

use std::alloc::{AllocError, Global};
use xr_merging::{joined_attrs, with_attrs};
use xr_types::{Attr, Items, NoMemory};
use xr_values::{DataArray, Value};

// Those of a dataset.
#[tactic(auto, using(crate::proofs::Attrs::set_attrs, xr_values::proofs::Meaning::meaning_out))]
fn attrs_in(value: &Value) -> Option<&Items<Attr>>
    ensures { (nodes : List Node) → listed (option_map (λ a. a.now) result) ≡ attrs_of (meaning nodes value.now) }
{
    match value {
        Value::Set(set) => Some(&set.attrs),
        _ => None,
    }
}

fn add_attrs(alloc: Global, out: &mut Items<DataArray>, value: &Value) -> Result<(), AllocError>
    ensures { (nodes : List Node) → OnOk result (the_attrs out.new ≡ the_attrs out.old ++ attrs_of (meaning nodes value.now)) }
{
    match attrs_in(value) {
        None => Ok(()),
        Some(attrs) => {
            out.push(with_attrs(alloc, attrs)?)?;
            Ok(())
        }
    }
}

fn push_attrs(alloc: Global, out: &mut Items<DataArray>, values: &[Value]) -> Result<(), AllocError>
    ensures { (nodes : List Node) → OnOk result (the_attrs out.new ≡ the_attrs out.old ++ sets_attrs (map (meaning nodes) values.now)) }
{
    for value in values {
        add_attrs(alloc, out, value)?;
    }
    Ok(())
}

/// The attributes that the datasets among these values have in common.
pub(crate) fn common_attrs(alloc: Global, values: &[Value]) -> Result<Items<Attr>, NoMemory>
    ensures { (nodes : List Node) → IfOk result (λ attrs. attrs ≡ joined_attrs (sets_attrs (map (meaning nodes) values.now))) }
{
    let mut lists = Items::new(alloc);
    push_attrs(alloc, &mut lists, values)?;
    let attrs = joined_attrs(alloc, lists.as_slice())?;
    Ok(attrs)
}
