//! Lists of one kind of label, and the kind to which their whole numbers are promoted.
ghost use Rattle.std.specs.Prelude.{◌≡◌, map, MatchOption, Ok, Err};
ghost use Rattle.std.specs.List.{list_all};
ghost use Rattle.xr_types.specs.declared.fault.Fault.TheVariants.{WouldPromote};
ghost use Rattle.xr_types.specs.Results.{Answers};
ghost use Rattle.xr_times.specs.Times.{same_calendar};
ghost use Rattle.xr_operations.specs.Alignment.{are_kin, common_kind, number_kind};

use xr_types::{Calendar, CallFault, DType, Fault, LabelList, promote};

/// Whether times of these calendars are labels of one kind.
pub(crate) fn same_calendar(a: Calendar, b: Calendar) -> bool
    ensures { result ≡ same_calendar a b }
{
    match (a, b) {
        (Calendar::Civil, Calendar::Civil) => true,
        (Calendar::NoLeap, Calendar::NoLeap) => true,
        (Calendar::Days360, Calendar::Days360) => true,
        _ => false,
    }
}

fn are_kin(a: &LabelList, b: &LabelList) -> bool
    ensures { result ≡ are_kin a.now b.now }
{
    match (a, b) {
        (LabelList::Numbers(_, _), LabelList::Numbers(_, _)) => true,
        (LabelList::Times(a, _), LabelList::Times(b, _)) => {
            same_calendar(a.units.calendar, b.units.calendar)
        }
        (LabelList::Texts(_), LabelList::Texts(_)) => true,
        _ => false,
    }
}

/// Whether labels of all lists are of one kind.
pub fn all_kin(first: &LabelList, others: &[&LabelList]) -> bool
    ensures { result ≡ list_all (are_kin first.now) (map (λ l. l.now) others.now) }
{
    for list in others {
        if !are_kin(first, list) {
            return false;
        }
    }
    true
}

/// The kind of whole numbers.
pub fn number_kind(list: &LabelList) -> DType
    ensures { result ≡ number_kind list.now }
{
    match list {
        LabelList::Numbers(kind, _) => *kind,
        LabelList::Times(_, _) | LabelList::Texts(_) => DType::Int64,
    }
}

/// The kind to which one and those of all lists are promoted.
#[tactic(auto, unfolding(xr_operations::specs::Alignment::common_kind))]
pub fn common_kind(kind: DType, lists: &[&LabelList]) -> Result<DType, CallFault>
    ensures { Answers (λ t. t) result (common_kind kind (map (λ l. l.now) lists.now)) }
{
    let mut kind = kind;
    for list in lists {
        if let LabelList::Numbers(other, _) = list {
            match promote(kind, *other) {
                Some(promoted) => kind = promoted,
                None => return Err(CallFault::Refused(Fault::WouldPromote)),
            }
        }
    }
    Ok(kind)
}
