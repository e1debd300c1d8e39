//! Whether an array's axis has the size and the labels of the one that it stands for.
ghost use Rattle.std.specs.Prelude.{◌≡◌, ◌<◌, ◌&&◌, ◌==◌, length, pos, map, get_or, None};
ghost use Rattle.xr_types.specs.declared.axis.Label.TheVariants as label;
ghost use Rattle.xr_arrays.specs.Labels.{same};
ghost use Rattle.xr_types.specs.Results.{Answers};
ghost use Rattle.xr_defs.specs.Building as of;
ghost use Rattle.xr_types.specs.declared.axis.LabelList.TheVariants as lists;
ghost use Rattle.xr_types.specs.declared.kind.DType.TheVariants as kinds;
ghost use Rattle.xr_building.specs.Placing.{are_aligned, checked_axis};
ghost use Rattle.xr_building.specs.Puts.{labels_of as labels_put, labels_or, last_labels};

use crate::puts::{NewLabels, Put, last_labels};
use align_join::equal_labels;
use xr_types::{Axis, CallFault, Fault, Integers, LabelList, Labels, TextBytes};

fn are_none(a: usize, b: usize) -> bool
    ensures { result ≡ ((a == 0) && (b == 0)) }
{
    a == 0 && b == 0
}

fn same_as_wide(a: &Integers, b: &[i128], at: usize) -> bool
    requires { at < length b.now }
    ensures { result ≡ same (label.Int (get_or a.now at (pos 0))) (label.Int (get_or b.now at (pos 0))) }
{
    a.get(at).cmp(&b[at]).is_eq()
}

#[tactic(auto, using(align_join::proofs::Same::lengths_by, align_join::proofs::Same::each_by, align_join::proofs::Same::one_by))]
fn same_wide(a: &Integers, b: &[i128]) -> bool
    ensures { result ≡ of.same_labels (map label.Int a.now) (map label.Int b.now) }
{
    if a.len() != b.len() {
        return false;
    }
    for at in 0..b.len() {
        if !same_as_wide(a, b, at) {
            return false;
        }
    }
    true
}

// Numbers that 64 bits needn't hold.
#[tactic(auto, using(align_join::proofs::Same::time_int, align_join::proofs::Same::text_int))]
fn is_as_numbers(given: &LabelList, numbers: &[i128]) -> bool
    ensures { result ≡ of.equal_labels given.now (lists.Numbers kinds.Int64 numbers.now) }
{
    match given {
        LabelList::Numbers(_, given) => same_wide(given, numbers),
        LabelList::Times(_, given) => are_none(given.as_slice().len(), numbers.len()),
        LabelList::Texts(given) => are_none(given.as_slice().len(), numbers.len()),
    }
}

fn is_as_put(given: &LabelList, put: &NewLabels) -> bool
    ensures { result ≡ of.equal_labels given.now (labels_put put.now).list }
{
    match put {
        NewLabels::Numbers(numbers) => is_as_numbers(given, numbers.as_slice()),
        NewLabels::Labels(labels) => equal_labels(given, &labels.list),
    }
}

// An axis without labels is aligned with any.
fn are_aligned(given: &Option<Labels>, puts: &[Put], name: &TextBytes, own: &Option<Labels>) -> bool
    ensures { result ≡ are_aligned given.now (labels_or (last_labels name.now None puts.now) own.now) }
{
    match given {
        None => true,
        Some(given) => match last_labels(puts, name) {
            Some(put) => is_as_put(&given.list, put),
            None => match own {
                Some(own) => equal_labels(&given.list, &own.list),
                None => false,
            },
        },
    }
}

/// Refuses an axis that can't stand for one of this size, which has the labels that are put last on the axis of the name, or its own.
///
/// # Errors
/// `SizeConflict` for another size, then `NotAligned` for other labels.
#[tactic(auto, unfolding(xr_types::specs::Results::unless))]
pub fn check_aligned(
    given: &Axis,
    size: u64,
    puts: &[Put],
    own: &Option<Labels>,
) -> Result<(), CallFault>
    ensures { Answers (λ u. u) result (checked_axis given.now size (labels_or (last_labels given.now.name None puts.now) own.now)) }
{
    if given.size != size {
        return Err(CallFault::Refused(Fault::SizeConflict));
    }
    if are_aligned(&given.labels, puts, &given.name, own) {
        Ok(())
    } else {
        Err(CallFault::Refused(Fault::NotAligned))
    }
}
