//! Labels that are compared.
ghost use Rattle.std.specs.Prelude.{◌≡◌, Some};
ghost use Rattle.std.specs.Cmp.{partial_equiv_from_equiv, partial_order_from_total};
ghost use Rattle.std.proofs.Common.{refl};
ghost use Rattle.std.proofs.lemmas.Cmp.{eq_by_cmp_equiv};
ghost use Rattle.std.specs.Ordering.{as_partial_cmp};
ghost use Rattle.xr_arrays.specs.Labels.{order, same};
ghost use Rattle.xr_arrays.proofs.LabelLaws.{order_total};

use std::cmp::Ordering;
use std::marker::Model;
use xr_types::Label;

/// A label, in the order of labels.
#[derive(Drop)]
pub struct Key {
    label: Label,
}

impl Model for Key {
    ghost use Rattle.xr_types.specs.declared.axis.Label.{Label as ALabel};

    ghost Value = { ALabel };

    ghost view = { λ k. k.label };
}

impl Key {
    pub fn of(label: Label) -> Key
        ensures { result ≡ label }
    {
        Key { label }
    }

    pub fn label(&self) -> &Label
        ensures { result.now ≡ self.now }
    {
        &self.label
    }
}

/// How two labels stand to each other: numbers by value, times by seconds, texts by bytes.
fn compare(a: &Label, b: &Label) -> Ordering
    ensures { result ≡ order a.now b.now }
{
    match (a, b) {
        (Label::Int(a), Label::Int(b)) => a.cmp(b),
        (Label::Time(a), Label::Time(b)) => a.cmp(b),
        (Label::Text(a), Label::Text(b)) => a.as_bytes().cmp(b.as_bytes()),
        (Label::Int(_), Label::Time(_) | Label::Text(_)) => Ordering::Less,
        (Label::Time(_), Label::Text(_)) => Ordering::Less,
        (Label::Time(_), Label::Int(_)) => Ordering::Greater,
        (Label::Text(_), Label::Int(_) | Label::Time(_)) => Ordering::Greater,
    }
}

impl PartialEq for Key {
    ghost eq = { same };

    ghost laws = { partial_equiv_from_equiv (eq_by_cmp_equiv order_total) };

    fn eq(&self, other: &Key) -> bool {
        compare(&self.label, &other.label).is_eq()
    }
}

impl Eq for Key {
    ghost laws = { eq_by_cmp_equiv order_total };
}

impl PartialOrd for Key {
    ghost partial_cmp = { as_partial_cmp order };

    ghost laws = { partial_order_from_total order_total };

    fn partial_cmp(&self, other: &Key) -> Option<Ordering> {
        Some(self.cmp(other))
    }
}

impl Ord for Key {
    ghost cmp = { order };

    ghost total = { order_total };

    ghost matches_partial_cmp = { λ a b. refl };

    ghost matches_eq = { λ a b. refl };

    fn cmp(&self, other: &Key) -> Ordering {
        compare(&self.label, &other.label)
    }
}
