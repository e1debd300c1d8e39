//! Labels found on an axis: by themselves, near them, and between two ends.
ghost use Rattle.std.specs.Prelude.{◌≡◌, ◌≤◌, IfOk, length};
ghost use Rattle.xr_arrays.specs.Labels.{IsLabelled};

use label_index::Index;
use std::alloc::{AllocError, Global};
use std::process::Abort;
use std::test::Fail;
use xr_arrays::{Direction, Span};
use xr_types::{
    Axis, Calendar, DType, Fault, Integers, Items, Label, LabelList, Labels, Near, Shared,
    TextBytes, TimeCoding, TimeUnit, Units,
};

/// An axis `x` with these numbers.
fn axis_of(alloc: Global, kind: DType, numbers: Integers) -> Result<Axis, AllocError>
    requires { length numbers ≤ 1000 }
    ensures labelled { IfOk result IsLabelled }
    ensures size { IfOk result (λ a. a.size ≤ 1000) }
{
    let size = numbers.len() as u64;
    let labels = Labels {
        list: LabelList::Numbers(kind, numbers),
        attrs: Items::new(alloc),
    };
    Ok(Axis {
        name: TextBytes::from_str(alloc, "x")?,
        size,
        labels: Some(labels),
    })
}

/// An axis `x` with these numbers of the kind `int64`.
fn number_axis(alloc: Global, numbers: &[i64]) -> Result<Axis, AllocError>
    requires { length numbers.now ≤ 1000 }
    ensures labelled { IfOk result IsLabelled }
    ensures size { IfOk result (λ a. a.size ≤ 1000) }
{
    let numbers = Integers::signed(alloc, Items::from_slice(alloc, numbers)?)?;
    axis_of(alloc, DType::Int64, numbers)
}

/// An axis `x` with these numbers of the kind `uint64`.
fn natural_axis(alloc: Global, numbers: &[u64]) -> Result<Axis, AllocError>
    requires { length numbers.now ≤ 1000 }
    ensures labelled { IfOk result IsLabelled }
    ensures size { IfOk result (λ a. a.size ≤ 1000) }
{
    let numbers = Integers::unsigned(alloc, Items::from_slice(alloc, numbers)?)?;
    axis_of(alloc, DType::UInt64, numbers)
}

/// An axis `time` with these times, as days since 2000-01-01.
fn time_axis(alloc: Global, times: &[i64]) -> Result<Axis, AllocError>
    requires { length times.now ≤ 10 }
    ensures labelled { IfOk result IsLabelled }
    ensures size { IfOk result (λ a. a.size ≤ 10) }
{
    let coding = TimeCoding {
        units: Units {
            unit: TimeUnit::Days,
            reference: 946_684_800,
            calendar: Calendar::Civil,
            early: false,
        },
        units_text: TextBytes::from_str(alloc, "days since 2000-01-01")?,
        calendar_text: None,
    };
    let list = Shared::of(alloc, Items::from_slice(alloc, times)?)?;
    let labels = Labels {
        list: LabelList::Times(coding, list),
        attrs: Items::new(alloc),
    };
    Ok(Axis {
        name: TextBytes::from_str(alloc, "time")?,
        size: times.len() as u64,
        labels: Some(labels),
    })
}

/// A position, or the number of a fault.
fn said(answer: Result<u64, Fault>) -> Result<u64, u32> {
    match answer {
        Ok(at) => Ok(at),
        Err(fault) => Err(fault.number()),
    }
}

/// A first position and a length, or the number of a fault.
fn run(answer: Result<Span, Fault>) -> Result<(u64, u64), u32> {
    match answer {
        Ok(span) => Ok((span.first, span.length)),
        Err(fault) => Err(fault.number()),
    }
}

/// A label that takes no memory.
#[derive(Clone, Copy)]
enum At {
    Int(i128),
    Time(i64),
}

fn label(at: At) -> Label {
    match at {
        At::Int(number) => Label::Int(number),
        At::Time(time) => Label::Time(time),
    }
}

fn end(at: Option<At>) -> Option<Label> {
    match at {
        Some(at) => Some(label(at)),
        None => None,
    }
}

fn find(index: &Index<'_>, at: At) -> Result<u64, u32> {
    said(index.find(&label(at)))
}

fn find_near(index: &Index<'_>, at: At, near: Near, tolerance: Option<u128>) -> Result<u64, u32> {
    said(index.find_near(&label(at), near, tolerance))
}

fn slice(index: &Index<'_>, from: Option<At>, to: Option<At>) -> Result<(u64, u64), u32> {
    let (from, to) = (end(from), end(to));
    run(index.slice(from.as_ref(), to.as_ref()))
}

/// Where a text stands, or the number of a fault, 0 where there is no memory for it.
fn find_text(alloc: Global, index: &Index<'_>, text: &str) -> Result<u64, u32> {
    match TextBytes::from_str(alloc, text) {
        Ok(text) => said(index.find(&Label::Text(text))),
        Err(_) => Err(0),
    }
}

/// A question to an index, with its answer last.
#[derive(Clone, Copy)]
enum Ask<'a> {
    /// The order of the labels, and whether none stands twice.
    Order(Direction, bool),
    Find(At, Result<u64, u32>),
    /// Each of these numbers stands at its place here.
    Each(&'a [i64]),
    Text(&'a str, Result<u64, u32>),
    Near(At, Near, Option<u128>, Result<u64, u32>),
    Slice(Option<At>, Option<At>, Result<(u64, u64), u32>),
}

fn find_each(rt: &impl Abort, index: &Index<'_>, numbers: &[i64]) {
    for at in 0..numbers.len() {
        let number = At::Int(i128::from(numbers[at]));
        assert_eq!(rt; find(index, number), Ok(at as u64), "at {at}");
    }
}

fn answers(rt: &impl Abort, alloc: Global, index: &Index<'_>, question: Ask<'_>) {
    match question {
        Ask::Order(direction, is_unique) => {
            assert!(rt; index.direction() == direction && index.is_unique() == is_unique)
        }
        Ask::Find(at, wanted) => assert_eq!(rt; find(index, at), wanted),
        Ask::Each(numbers) => find_each(rt, index, numbers),
        Ask::Text(text, wanted) => assert_eq!(rt; find_text(alloc, index, text), wanted),
        Ask::Near(at, near, tolerance, wanted) => {
            assert_eq!(rt; find_near(index, at, near, tolerance), wanted)
        }
        Ask::Slice(from, to, wanted) => assert_eq!(rt; slice(index, from, to), wanted),
    }
}

/// The index of an axis answers each question so.
fn try_axis(rt: &impl Abort, alloc: Global, axis: &Axis, questions: &[Ask<'_>]) -> Result<(), Fail>
    requires labelled { IsLabelled axis.now }
    requires few { axis.now.size ≤ 1000 }
{
    let index = Index::of(alloc, axis).ok().ok_or("memory")?;
    for question in questions {
        answers(rt, alloc, &index, *question);
    }
    Ok(())
}

fn try_numbers(
    rt: &impl Abort,
    alloc: Global,
    numbers: &[i64],
    questions: &[Ask<'_>],
) -> Result<(), Fail> {
    if numbers.len() > 1000 {
        return Err("too many numbers".into());
    }
    let axis = number_axis(alloc, numbers)?;
    try_axis(rt, alloc, &axis, questions)
}

#[test]
fn descending(rt: HostRuntime) -> Result<(), Fail> {
    let questions = [
        Ask::Order(Direction::Descending, true),
        Ask::Slice(Some(At::Int(4)), Some(At::Int(1)), Ok((1, 3))),
        Ask::Near(At::Int(3), Near::Nearest, None, Ok(1)),
        Ask::Near(At::Int(3), Near::Pad, None, Err(9)),
    ];
    let numbers = [5, 4, 2, 1];
    try_numbers(&rt, rt.alloc(), &numbers, &questions)
}

#[test]
fn unordered(rt: HostRuntime) -> Result<(), Fail> {
    let questions = [
        Ask::Order(Direction::Neither, false),
        Ask::Slice(Some(At::Int(4)), Some(At::Int(1)), Err(9)),
        Ask::Find(At::Int(2), Ok(2)),
        Ask::Find(At::Int(3), Err(8)),
    ];
    let numbers = [1, 3, 2, 3];
    try_numbers(&rt, rt.alloc(), &numbers, &questions)
}

#[test]
fn unordered_without_repeats(rt: HostRuntime) -> Result<(), Fail> {
    let questions = [
        Ask::Order(Direction::Neither, true),
        Ask::Slice(Some(At::Int(1)), None, Err(9)),
        Ask::Slice(None, Some(At::Int(2)), Err(9)),
        Ask::Slice(None, None, Ok((0, 3))),
        Ask::Find(At::Int(2), Ok(2)),
        Ask::Find(At::Int(4), Err(6)),
    ];
    let numbers = [1, 3, 2];
    try_numbers(&rt, rt.alloc(), &numbers, &questions)
}

#[test]
fn scattered(rt: HostRuntime) -> Result<(), Fail> {
    let numbers = [7, -7, i64::MIN, 0, i64::MAX, 1 << 32];
    let questions = [
        Ask::Order(Direction::Neither, true),
        Ask::Each(&numbers),
        Ask::Find(At::Int(8), Err(6)),
        Ask::Find(At::Int((1 << 64) + 7), Err(6)),
        Ask::Find(At::Time(7), Err(10)),
        Ask::Near(At::Int(7), Near::Nearest, None, Err(9)),
    ];
    try_numbers(&rt, rt.alloc(), &numbers, &questions)
}

// Multiples of 389 modulo 1009, a prime, so none stands twice.
#[test]
fn many_scattered(rt: HostRuntime) -> Result<(), Fail> {
    let mut many = Vec::new(rt.alloc());
    for at in 0..1000_u32 {
        many.push(i64::from(at * 389 % 1009))?;
    }
    let numbers = many.as_slice();
    let questions = [
        Ask::Order(Direction::Neither, true),
        Ask::Each(numbers),
        Ask::Find(At::Int(1009), Err(6)),
    ];
    try_numbers(&rt, rt.alloc(), numbers, &questions)
}

#[test]
fn ascending(rt: HostRuntime) -> Result<(), Fail> {
    let questions = [
        Ask::Order(Direction::Ascending, true),
        Ask::Near(At::Int(15), Near::Nearest, None, Ok(1)),
        Ask::Near(At::Int(15), Near::Nearest, Some(4), Err(6)),
        Ask::Near(At::Int(25), Near::Pad, None, Ok(1)),
        Ask::Near(At::Int(25), Near::Backfill, None, Err(6)),
        Ask::Find(At::Int(15), Err(6)),
        Ask::Text("15", Err(10)),
    ];
    let numbers = [10, 20];
    try_numbers(&rt, rt.alloc(), &numbers, &questions)
}

fn try_naturals(
    rt: &impl Abort,
    alloc: Global,
    numbers: &[u64],
    questions: &[Ask<'_>],
) -> Result<(), Fail> {
    if numbers.len() > 1000 {
        return Err("too many numbers".into());
    }
    let axis = natural_axis(alloc, numbers)?;
    try_axis(rt, alloc, &axis, questions)
}

#[test]
fn past_signed_numbers(rt: HostRuntime) -> Result<(), Fail> {
    let last = At::Int((1 << 64) - 1);
    let questions = [
        Ask::Order(Direction::Ascending, true),
        Ask::Find(last, Ok(2)),
        Ask::Find(At::Int(-1), Err(6)),
        Ask::Find(At::Int(1 << 63), Ok(1)),
        Ask::Slice(Some(At::Int(8)), Some(last), Ok((1, 2))),
        Ask::Near(At::Int(1 << 64), Near::Nearest, Some(1), Ok(2)),
    ];
    let numbers = [7, 1 << 63, u64::MAX];
    try_naturals(&rt, rt.alloc(), &numbers, &questions)
}

#[test]
fn scattered_past_signed_numbers(rt: HostRuntime) -> Result<(), Fail> {
    let questions = [
        Ask::Order(Direction::Neither, true),
        Ask::Find(At::Int((1 << 64) - 1), Ok(0)),
        Ask::Find(At::Int(7), Ok(1)),
        Ask::Find(At::Int(1 << 63), Ok(2)),
        Ask::Find(At::Int(-1), Err(6)),
    ];
    let numbers = [u64::MAX, 7, 1 << 63];
    try_naturals(&rt, rt.alloc(), &numbers, &questions)
}

#[test]
fn repeated_past_signed_numbers(rt: HostRuntime) -> Result<(), Fail> {
    let questions = [
        Ask::Order(Direction::Neither, false),
        Ask::Find(At::Int((1 << 64) - 1), Err(8)),
        Ask::Find(At::Int(1 << 63), Ok(2)),
        Ask::Find(At::Int(7), Ok(1)),
    ];
    let numbers = [u64::MAX, 7, 1 << 63, u64::MAX];
    try_naturals(&rt, rt.alloc(), &numbers, &questions)
}

#[test]
fn evenly_spaced(rt: HostRuntime) -> Result<(), Fail> {
    let questions = [
        Ask::Order(Direction::Ascending, true),
        Ask::Find(At::Int(-6), Ok(0)),
        Ask::Find(At::Int(3), Ok(3)),
        Ask::Find(At::Int(4), Err(6)),
        Ask::Find(At::Int(-9), Err(6)),
    ];
    let numbers = [-6, -3, 0, 3, 6];
    try_numbers(&rt, rt.alloc(), &numbers, &questions)
}

// The days 0, 10, 31 and 366 since 2000-01-01, and the first second of 2000-01 and the last of 2000-02, by Python's
// datetime and calendar: (datetime(2000, 2, calendar.monthrange(2000, 2)[1], 23, 59, 59) - datetime(1970, 1, 1)).total_seconds()
#[test]
fn dates(rt: HostRuntime) -> Result<(), Fail> {
    let (from, to) = (At::Time(946_684_800), At::Time(951_868_799));
    let near = At::Time(947_030_400);
    let questions = [
        Ask::Order(Direction::Ascending, true),
        Ask::Slice(Some(from), Some(to), Ok((0, 3))),
        Ask::Find(At::Time(947_548_800), Ok(1)),
        Ask::Find(At::Int(3), Err(10)),
        Ask::Near(near, Near::Nearest, Some(345_600), Ok(0)),
        Ask::Near(near, Near::Nearest, Some(345_599), Err(6)),
    ];
    let times = [946_684_800, 947_548_800, 949_363_200, 978_307_200];
    let axis = time_axis(rt.alloc(), &times)?;
    try_axis(&rt, rt.alloc(), &axis, &questions)
}
