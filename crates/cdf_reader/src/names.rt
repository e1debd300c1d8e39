//! Names that may not stand twice in a list.
ghost use Rattle.std.specs.Prelude.{◌≡◌, ◌++◌, ◌∷◌, [], ℕ, List, not, IfOk, OnOk};
ghost use Rattle.xr_files.specs.Format.{Format};
ghost use Rattle.xr_types.specs.Names.{among};
ghost use Rattle.xr_files.specs.Classic.{new_name};
ghost use Rattle.cdf_reader.specs.Answers.{Gives};
ghost use Rattle.cdf_reader.specs.Names.{Knows};

use crate::fault::WalkFault;
use crate::fields::name_at;
use std::alloc::Global;
use std::collections::BTreeMap;
use xr_files::Stop;
use xr_types::{CdfKind, NoMemory};

/// The names that stand earlier in a list, sorted, so that a long list is walked in nearly linear time.
pub(crate) type Known<'a> = BTreeMap<&'a str, ()>;

/// No names.
pub(crate) fn none_known<'a>(alloc: Global) -> Known<'a>
    ensures { Knows result [] }
{
    BTreeMap::new(alloc)
}

/// Adds a name, and tells whether it wasn't there.
fn add<'a>(known: &mut Known<'a>, text: &'a str) -> Result<bool, NoMemory>
    ensures fresh { IfOk result (λ fresh. (names : List (List ℕ)) → Knows known.old names → fresh ≡ not (among names text.now)) }
    ensures known { OnOk result ((names : List (List ℕ)) → Knows known.old names → Knows known.new (names ++ text.now ∷ [])) }
{
    let before = known.insert(text, ())?;
    Ok(before.is_none())
}

/// A name that doesn't stand earlier in its list.
#[tactic(auto, unfolding(xr_files::specs::Classic::new_name))]
pub(crate) fn new_name_at<'a>(
    version: u8,
    known: &mut Known<'a>,
    bytes: &'a [u8],
) -> Result<(&'a str, &'a [u8]), WalkFault>
    ensures read { (names : List (List ℕ)) → Knows known.old names → Gives (λ x. (x.0.now, x.1.now)) result ((new_name version names).reads bytes.now) }
    ensures known { IfOk result (λ x. (names : List (List ℕ)) → Knows known.old names → Knows known.new (names ++ x.0.now ∷ [])) }
{
    let (text, rest) = name_at(version, bytes)?;
    if !add(known, text)? {
        return Err(WalkFault::At(Stop {
            kind: CdfKind::Repeated,
            left: bytes.len(),
        }));
    }
    Ok((text, rest))
}
