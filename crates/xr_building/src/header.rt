//! What an array is besides its cells and its axes.
ghost use Rattle.std.specs.Prelude.{◌≡◌, ◌≢◌, List, true, option_map, IfOk, MatchOption, ⊤};
ghost use Rattle.xr_types.specs.declared.kind.DType.TheVariants as kinds;
ghost use Rattle.xr_arrays.specs.declared.node.Node.{Node};
ghost use Rattle.xr_files.specs.Classic.{is_name};
ghost use Rattle.xr_types.specs.Results.{Answers};
ghost use Rattle.xr_values.specs.Meaning.{meaning};
ghost use Rattle.xr_defs.specs.Meanings as of;
ghost use Rattle.xr_building.specs.Gathered.{gathered};
ghost use Rattle.xr_building.specs.Written.{header_of};

use crate::cells::{kind_for, suits};
use crate::elements::Elements;
use crate::given::{kind_given, name_given};
use std::alloc::Global;
use xr_types::{CallFault, DType, Fault, Name};
use xr_values::Value;

/// An array without its axes, its coordinates and its cells.
#[derive(Drop)]
pub struct Header {
    pub name: Option<Name>,
    pub kind: DType,
    /// Whether missing cells may stand in the array.
    pub masked: bool,
}

/// The name that is given, and the kind that is given or that of the elements.
///
/// # Errors
/// Those of the name and of the kind; then `WrongKind` for elements of another kind.
#[tactic(auto, unfolding(crate::specs::Written::header_of, xr_types::specs::Results::unless))]
pub fn header_of(
    alloc: Global,
    elements: &Elements,
    name: Option<&Value>,
    dtype: Option<&Value>,
) -> Result<Header, CallFault>
    ensures answers { (nodes : List Node) (vs : List of.Value) → elements.now ≡ gathered vs → Answers (λ h. h) result (header_of vs (option_map (λ v. meaning nodes v.now) name.entry) (option_map (λ v. meaning nodes v.now) dtype.entry)) }
    ensures name { IfOk result (λ h. MatchOption h.name ⊤ (λ n. is_name n ≡ true)) }
    ensures number { IfOk result (λ h. h.kind ≢ kinds.Char) }
    ensures masked { IfOk result (λ h. h.masked ≡ elements.now.missing) }
{
    let name = name_given(alloc, name)?;
    let kind = kind_for(elements, kind_given(dtype)?);
    if suits(kind, elements) {
        Ok(Header {
            name,
            kind,
            masked: elements.missing,
        })
    } else {
        Err(CallFault::Refused(Fault::WrongKind))
    }
}
