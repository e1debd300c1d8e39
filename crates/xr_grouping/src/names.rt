//! The calls that group and the methods of grouped values, by their names.
ghost use Rattle.std.specs.Prelude.{◌≡◌};
ghost use Rattle.xr_groups.specs.Calls as calls;
ghost use Rattle.xr_groups.specs.Methods as methods;

use xr_groups::Maker;
use xr_reducing::reduction_named;
use xr_types::FoldKind;

/// The call of this name that groups the positions of arrays and datasets.
#[tactic(auto, unfolding(xr_groups::specs::Calls::maker_named))]
pub fn maker_named(name: &str) -> Option<Maker>
    ensures { result ≡ calls.maker_named name.now }
{
    if name == "groupby" {
        return Some(Maker::GroupBy);
    }
    if name == "resample" {
        return Some(Maker::Resample);
    }
    if name == "rolling" {
        return Some(Maker::Rolling);
    }
    if name == "coarsen" {
        return Some(Maker::Coarsen);
    }
    None
}

/// The fold that the method of this name of grouped values does. Which of them a grouped value has depends on how it is grouped.
#[tactic(auto, unfolding(xr_groups::specs::Methods::method_named))]
pub fn method_named(name: &str) -> Option<FoldKind>
    ensures { result ≡ methods.method_named name.now }
{
    if name == "first" {
        return Some(FoldKind::First);
    }
    if name == "last" {
        return Some(FoldKind::Last);
    }
    reduction_named(name)
}
