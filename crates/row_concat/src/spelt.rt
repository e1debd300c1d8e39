//! The values of arrays that are alike in their files.
ghost use Rattle.std.specs.Prelude.{◌≡◌, true, map, All, IfOk, IfSome};
ghost use Rattle.xr_arrays.specs.Pieces.{together};
ghost use Rattle.row_concat.specs.Spelt.{AreValues, Spells, AllSpell};

use arrangement::points;
use std::alloc::{AllocError, Global};
use xr_arrays::{ArrayValue, Form, Pieces, StoredParts};
use xr_types::NcType;

/// The values of an array as its file has them, and how many they are.
#[derive(Clone, Copy)]
pub struct Values<'a> {
    pub pieces: &'a Pieces,
    pub count: usize,
}

// Whether an array stands in a type and with fill numbers.
fn alike(parts: &StoredParts<'_>, kind: NcType, fills: &[i128]) -> bool
    ensures kind { result ≡ true → parts.now.kind ≡ kind }
    ensures fills { result ≡ true → parts.now.fills.now ≡ fills.now }
{
    parts.kind == kind && parts.fills == fills
}

// The values of an array, where it stands as a file has it, in this type and with these fill numbers.
fn values_of<'a>(array: &'a ArrayValue, kind: NcType, fills: &[i128]) -> Option<Values<'a>>
    ensures spells { IfSome result (λ v. Spells kind fills.now (together kind v.pieces.now) array.now) }
    ensures counted { IfSome result (AreValues kind) }
{
    match array.form() {
        Form::Stored(stored) => {
            let parts = stored.parts();
            if !alike(&parts, kind, fills) {
                return None;
            }
            Some(Values {
                pieces: parts.pieces,
                count: points(array.shape()) as usize,
            })
        }
        Form::Typed(_) => None,
    }
}

/// The values of each array, where all stand as files have them, in this type and with these fill numbers.
pub fn all_values<'a>(
    alloc: Global,
    arrays: &[&'a ArrayValue],
    kind: NcType,
    fills: &[i128],
) -> Result<Option<Vec<Values<'a>>>, AllocError>
    ensures spell { IfOk result (λ found. IfSome found (λ all. AllSpell kind fills.now (map (λ v. together kind v.pieces.now) all.items) (map (λ a. a.now) arrays.now))) }
    ensures counted { IfOk result (λ found. IfSome found (λ all. All (AreValues kind) all.items)) }
{
    let mut all = Vec::with_capacity(alloc, arrays.len())?;
    for array in arrays {
        let Some(values) = values_of(array, kind, fills) else {
            return Ok(None);
        };
        all.push(values)?;
    }
    Ok(Some(all))
}
