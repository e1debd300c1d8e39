//! The index of an axis.
ghost use Rattle.std.specs.Prelude.{◌≡◌, ◌<◌, ◌≤◌, ◌^◌, length, IfOk, MatchOption, MatchResult, Ok, Err, Some, not};
ghost use Rattle.std.specs.List.{range_with_len};
ghost use Rattle.std.specs.Option.{option_copied};
ghost use Rattle.xr_arrays.specs.Labels.{labels_of, repeats, direction_of, find_of, find_near_of, slice_of, IsLabelled, list_of};
ghost use Rattle.label_index.specs.Places.{IsPlaced};

use crate::place::Places;
use crate::{between, guess, hash, label, near, place, search};
use std::alloc::Global;
use std::marker::Model;
use xr_arrays::{Direction, Span};
use xr_types::{Axis, Fault, Label, LabelList, Near, NoMemory};

/// An axis's labels, ready for look-ups. It holds the axis and, where the labels neither ascend nor descend, six
/// bytes a label: a hash table of numbers of which none stands twice, else the positions in the order of their labels.
#[derive(Drop)]
pub struct Index<'a> {
    list: &'a LabelList,
    places: Places,
    is_unique: bool,
    // the mean step of labels that ascend and of which none stands twice, or 0
    step: u64,
}

impl<'a> Model for Index<'a> {
    ghost use Rattle.std.specs.Prelude.{◌≡◌, ◌<◌, false, not};
    ghost use Rattle.xr_types.specs.declared.axis.LabelList.{LabelList};
    ghost use Rattle.xr_arrays.specs.Labels.{labels_of, repeats};
    ghost use Rattle.label_index.specs.Places.{IsPlaced};

    ghost Value = { LabelList };

    ghost view = { λ i. i.list.now };

    ghost invariant = { λ i. IsPlaced i.list.now i.places × (i.is_unique ≡ not (repeats (labels_of i.list.now))) × (0 < i.step → repeats (labels_of i.list.now) ≡ false) };
}

impl<'a> Index<'a> {
    /// The index of a list of labels. It is made in few passes where they ascend or descend or are
    /// numbers of which none stands twice, and by a sort else.
    pub fn over(alloc: Global, list: &'a LabelList) -> Result<Index<'a>, NoMemory>
        requires most { length (labels_of list.now) ≤ 33554432 }
        ensures { IfOk result (λ i. i ≡ list.now) }
    {
        let places = place::place_all(alloc, list)?;
        let is_unique = place::is_distinct(list, &places);
        let step = if is_unique {
            guess::step_of(list, &places)
        } else {
            0
        };
        Ok(Index {
            list,
            places,
            is_unique,
            step,
        })
    }

    /// The index of an axis with labels.
    pub fn of(alloc: Global, axis: &'a Axis) -> Result<Index<'a>, NoMemory>
        requires labelled { IsLabelled axis.now }
        requires most { axis.now.size ≤ 33554432 }
        ensures { IfOk result (λ i. list_of axis.now ≡ Some i) }
    {
        let list = match &axis.labels {
            Some(labels) => &labels.list,
            None => return Err(NoMemory),
        };
        Index::over(alloc, list)
    }

    /// The one position that holds a label. A label of another kind is refused first, then one that stands
    /// twice, then one that doesn't stand.
    pub fn find(&self, label: &Label) -> Result<u64, Fault>
        ensures { result ≡ find_of self.now label.now }
    {
        if !label::is_kin(self.list, label) {
            return Err(Fault::LabelKind);
        }
        if let Some(at) = guess::find(self.list, self.step, label) {
            return Ok(at);
        }
        match &self.places {
            Places::Ranked(ranks) => search::find(self.list, ranks, label),
            Places::Hashed(slots) => hash::find(self.list, slots.as_slice(), label),
        }
    }

    /// The position of the greatest label not above one, the least not below it, or the nearest, of two as near
    /// the larger. First is refused a label of another kind, and a text with `Nearest` or a tolerance; then an
    /// axis on which a label stands twice; then a direction that the method doesn't take; then where there is
    /// none, or it is farther than the tolerance, in seconds for times.
    pub fn find_near(
        &self,
        label: &Label,
        near: Near,
        tolerance: Option<u128>,
    ) -> Result<u64, Fault>
        ensures { result ≡ find_near_of self.now label.now near tolerance }
    {
        if !near::can_be_near(self.list, label, near, tolerance) {
            return Err(Fault::LabelKind);
        }
        if !self.is_unique {
            return Err(Fault::NotUnique);
        }
        let Places::Ranked(ranks) = &self.places else {
            return Err(Fault::NotMonotonic);
        };
        if !near::suits(near, ranks) {
            return Err(Fault::NotMonotonic);
        }
        near::find(self.list, ranks, label, near, tolerance)
    }

    /// The positions whose labels lie between two ends, both included; a missing end bounds nothing. On a
    /// descending axis the first end is the greater one. An end of another kind is refused first, then an end
    /// where the labels have no direction.
    pub fn slice(&self, from: Option<&Label>, to: Option<&Label>) -> Result<Span, Fault>
        ensures positions { MatchResult result (λ s. slice_of self.now (option_copied from.entry) (option_copied to.entry) ≡ Ok (range_with_len s.first s.length)) (λ f. slice_of self.now (option_copied from.entry) (option_copied to.entry) ≡ Err f) }
        ensures empty { IfOk result (λ s. s.length ≡ 0 → s.first ≡ 0) }
    {
        if !between::is_kin_end(self.list, from) || !between::is_kin_end(self.list, to) {
            return Err(Fault::LabelKind);
        }
        match &self.places {
            Places::Ranked(ranks) => between::slice(self.list, ranks, from, to),
            Places::Hashed(_) => between::whole(self.list, from, to),
        }
    }

    /// Whether no label stands twice.
    pub fn is_unique(&self) -> bool
        ensures { result ≡ not (repeats (labels_of self.now)) }
    {
        self.is_unique
    }

    /// The order of the labels.
    pub fn direction(&self) -> Direction
        ensures { result ≡ direction_of (labels_of self.now) }
    {
        place::direction(self.list, &self.places)
    }
}
