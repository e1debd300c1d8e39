//! Axes and their labels: whole numbers, times and texts.
ghost use Rattle.std.specs.Prelude.{◌≡◌};

use crate::attr::Attr;
use crate::integers::Integers;
use crate::items::{DeepCopy, Items};
use crate::kind::DType;
use crate::shared::Shared;
use crate::text::{Name, TextBytes};
use std::alloc::{AllocError, Global};

/// A label of an axis. A time is in seconds from 1970-01-01T00:00:00.
#[derive(Drop)]
pub enum Label {
    Int(i128),
    Time(i64),
    Text(TextBytes),
}

/// The unit in which a file counts times (CF Conventions, "Time Coordinate").
#[derive(Clone, Copy, PartialEq, Eq)]
pub enum TimeUnit {
    Days,
    Hours,
    Minutes,
    Seconds,
}

/// The calendar of times (CF Conventions, "Calendar"): that of civil dates, years of 365 days, or months of 30 days.
#[derive(Clone, Copy, PartialEq, Eq)]
pub enum Calendar {
    Civil,
    NoLeap,
    Days360,
}

/// What a CF `units` text says with its calendar: the unit, the reference time in seconds from
/// 1970-01-01T00:00:00 of its calendar, the calendar, and whether labels before 1582-10-15 are decoded.
#[derive(Clone, Copy, PartialEq, Eq)]
pub struct Units {
    pub unit: TimeUnit,
    pub reference: i64,
    pub calendar: Calendar,
    pub early: bool,
}

/// How times stand in a file: the units, and the texts of the attributes `units` and `calendar`.
#[derive(Drop)]
pub struct TimeCoding {
    pub units: Units,
    pub units_text: TextBytes,
    pub calendar_text: Option<TextBytes>,
}

/// Labels of one kind, in the order of their positions. A copy shares them.
#[derive(Drop)]
pub enum LabelList {
    /// Whole numbers of an integer kind.
    Numbers(DType, Integers),
    /// Times in seconds.
    Times(TimeCoding, Shared<i64>),
    Texts(Shared<TextBytes>),
}

/// The index of an axis: its labels, and the attributes of the variable that holds them.
#[derive(Drop)]
pub struct Labels {
    pub list: LabelList,
    pub attrs: Items<Attr>,
}

/// A named dimension with its size. Without labels it is bare.
#[derive(Drop)]
pub struct Axis {
    pub name: Name,
    pub size: u64,
    pub labels: Option<Labels>,
}

impl DeepCopy for TimeCoding {
    fn deep_copy(&self, alloc: Global) -> Result<TimeCoding, AllocError> {
        Ok(TimeCoding {
            units: self.units,
            units_text: self.units_text.deep_copy(alloc)?,
            calendar_text: self.calendar_text.deep_copy(alloc)?,
        })
    }
}

impl DeepCopy for LabelList {
    fn deep_copy(&self, alloc: Global) -> Result<LabelList, AllocError> {
        match self {
            LabelList::Numbers(kind, list) => {
                Ok(LabelList::Numbers(*kind, list.deep_copy(alloc)?))
            }
            LabelList::Times(coding, list) => Ok(LabelList::Times(
                coding.deep_copy(alloc)?,
                list.deep_copy(alloc)?,
            )),
            LabelList::Texts(list) => Ok(LabelList::Texts(list.deep_copy(alloc)?)),
        }
    }
}

impl DeepCopy for Labels {
    fn deep_copy(&self, alloc: Global) -> Result<Labels, AllocError> {
        Ok(Labels {
            list: self.list.deep_copy(alloc)?,
            attrs: self.attrs.deep_copy(alloc)?,
        })
    }
}

impl DeepCopy for Axis {
    fn deep_copy(&self, alloc: Global) -> Result<Axis, AllocError> {
        Ok(Axis {
            name: self.name.deep_copy(alloc)?,
            size: self.size,
            labels: self.labels.deep_copy(alloc)?,
        })
    }
}
