//! Texts of CF time units.
ghost use Rattle.std.specs.Prelude.{◌≡◌, ◌≤◌, ◌<◌, ◌^◌, ◌*◌, ◌+◌, ◌==◌, true, All, IsTrue, IfSome, Some, length, ℕ, List};
ghost use Rattle.std.specs.Char.{is_ascii_digit, digit_value};
ghost use Rattle.std.specs.List.{prefix_len, take_while, list_all};
ghost use Rattle.std.specs.Option.{option_copied};
ghost use Rattle.std.specs.Str.{bytes_eq};
ghost use Rattle.std.specs.Str.Parse.{digits_value};
ghost use Rattle.xr_times.specs.Times.{IsDate};
ghost use Rattle.cf_time.specs.Parts.{Says};
ghost use Rattle.xr_times.specs.Units.{is_blank, is_dark, behind_blanks, behind_byte, number, part, dated, date, is_whole, clock, second, seconds, time_of_day, behind_mark, marked_time, day_second, reference, unit_named, unit, behind_since, behind_word, calendar_named, units, units_of};

use crate::calendar::{is_date, time_at};
use crate::units::units_with;
use xr_types::{Calendar, TimeUnit, Units};

fn is_blank(c: u8) -> bool
    ensures { result ≡ is_blank c }
{
    c == b' ' || c == b'\t'
}

/// How many blanks stand at the front.
fn blank_run(text: &[u8]) -> usize
    ensures value { result ≡ prefix_len is_blank text.now }
    ensures bound { result ≤ length text.now }
{
    text.iter().take_while(|c| is_blank(**c)).count()
}

/// How many bytes other than blanks stand at the front.
fn dark_run(text: &[u8]) -> usize
    ensures value { result ≡ prefix_len is_dark text.now }
    ensures bound { result ≤ length text.now }
{
    text.iter().take_while(|c| !is_blank(**c)).count()
}

/// How many digits stand at the front.
fn digit_run(text: &[u8]) -> usize
    ensures value { result ≡ prefix_len is_ascii_digit text.now }
    ensures bound { result ≤ length text.now }
{
    text.iter().take_while(|c| c.is_ascii_digit()).count()
}

/// The text behind one or more blanks.
fn behind_blanks(text: &[u8]) -> Option<&[u8]>
    ensures { Says (λ t. t.now) result (behind_blanks text.now) }
{
    let blanks = blank_run(text);
    if blanks == 0 {
        return None;
    }
    Some(text.split_at(blanks).1)
}

/// The text behind one byte.
fn behind_byte(text: &[u8], byte: u8) -> Option<&[u8]>
    ensures { Says (λ t. t.now) result (behind_byte byte text.now) }
{
    match text {
        [first, rest @ ..] => { if *first == byte { Some(rest) } else { None } }
        [] => None,
    }
}

/// What a digit counts.
fn digit_value(digit: u8) -> u16
    requires { is_ascii_digit digit ≡ true }
    ensures value { result ≡ digit_value digit }
    ensures bound { result ≤ 9 }
{
    u16::from(digit - b'0')
}

/// The number that at most four digits write.
fn value_of(digits: &[u8]) -> u16
    requires digits { All (λ c. IsTrue (is_ascii_digit c)) digits.now }
    requires few { length digits.now ≤ 4 }
    ensures { result ≡ digits_value 10 digits.now }
{
    let mut value = 0;
    for c in digits {
        value = value * 10 + digit_value(*c);
    }
    value
}

/// The number whose digits, from `least` to `most`, stand at the front, and the text behind them.
fn number(text: &[u8], least: usize, most: usize) -> Option<(u16, &[u8])>
    requires { most ≤ 4 }
    ensures { Says (λ x. (x.0, x.1.now)) result (number least most text.now) }
{
    let run = digit_run(text);
    if run < least || run > most {
        return None;
    }
    let (digits, rest) = text.split_at(run);
    Some((value_of(digits), rest))
}

/// A byte and a number of one or two digits behind it.
#[tactic(auto, unfolding(xr_times::specs::Units::part))]
fn part(text: &[u8], byte: u8) -> Option<(u16, &[u8])>
    ensures { Says (λ x. (x.0, x.1.now)) result (part byte text.now) }
{
    let rest = behind_byte(text, byte)?;
    number(rest, 1, 2)
}

/// A date that the calendar has.
#[derive(Clone, Copy)]
struct Day {
    year: u16,
    month: u8,
    day: u8,
}

/// Year, month and day, if the calendar has them.
fn dated(calendar: Calendar, year: u16, month: u16, day: u16) -> Option<Day>
    ensures value { (t : List ℕ) → Says (λ x. ((x.year, x.month, x.day), t)) result (dated calendar year month day t) }
    ensures date { IfSome result (λ x. IsDate calendar x.year x.month x.day) }
{
    if !is_date(calendar, year, month, day) {
        return None;
    }
    Some(Day {
        year,
        month: month as u8,
        day: day as u8,
    })
}

/// The date at the front.
#[tactic(auto, unfolding(xr_times::specs::Units::date))]
fn date(text: &[u8], calendar: Calendar) -> Option<(Day, &[u8])>
    ensures value { Says (λ x. ((x.0.year, x.0.month, x.0.day), x.1.now)) result (date calendar text.now) }
    ensures date { IfSome result (λ x. IsDate calendar x.0.year x.0.month x.0.day) }
{
    let (year, rest) = number(text, 4, 4)?;
    let (month, rest) = part(rest, b'-')?;
    let (day, rest) = part(rest, b'-')?;
    let day = dated(calendar, year, month, day)?;
    Some((day, rest))
}

fn are_zeros(text: &[u8]) -> bool
    ensures { result ≡ list_all (λ z. z == 48) text.now }
{
    text.iter().all(|c| *c == b'0')
}

/// Whether nothing follows the seconds but a point and zeros.
fn is_whole(text: &[u8]) -> bool
    ensures { result ≡ is_whole text.now }
{
    match text {
        [point, zeros @ ..] => { *point == b'.' && !zeros.is_empty() && are_zeros(zeros) }
        [] => true,
    }
}

/// The second of the day.
fn clock(hour: u16, minute: u16, second: u16) -> Option<u32>
    ensures value { result ≡ clock hour minute second }
    ensures bound { IfSome result (λ s. s < 86400) }
{
    if hour >= 24 || minute >= 60 || second >= 60 {
        return None;
    }
    Some(u32::from(hour) * 3_600 + u32::from(minute) * 60 + u32::from(second))
}

/// The second of the day, with the seconds behind the minutes.
#[tactic(auto, unfolding(xr_times::specs::Units::second))]
fn second(hour: u16, minute: u16, text: &[u8]) -> Option<u32>
    ensures value { result ≡ second hour minute text.now }
    ensures bound { IfSome result (λ s. s < 86400) }
{
    let (second, rest) = part(text, b':')?;
    if !is_whole(rest) {
        return None;
    }
    clock(hour, minute, second)
}

/// The second of the day, with or without seconds behind the minutes.
fn seconds(hour: u16, minute: u16, text: &[u8]) -> Option<u32>
    ensures value { result ≡ seconds hour minute text.now }
    ensures bound { IfSome result (λ s. s < 86400) }
{
    match text {
        [] => clock(hour, minute, 0),
        [_, ..] => second(hour, minute, text),
    }
}

/// The second of the day that a text names.
#[tactic(auto, unfolding(xr_times::specs::Units::time_of_day))]
fn time_of_day(text: &[u8]) -> Option<u32>
    ensures value { result ≡ time_of_day text.now }
    ensures bound { IfSome result (λ s. s < 86400) }
{
    let (hour, rest) = number(text, 1, 2)?;
    let (minute, rest) = part(rest, b':')?;
    seconds(hour, minute, rest)
}

/// The text behind a `T`, or behind one or more blanks.
fn behind_mark(text: &[u8]) -> Option<&[u8]>
    ensures { Says (λ t. t.now) result (behind_mark text.now) }
{
    match text {
        [] => None,
        [first, rest @ ..] => {
            if *first == b'T' {
                Some(rest)
            } else {
                behind_blanks(text)
            }
        }
    }
}

#[tactic(auto, unfolding(xr_times::specs::Units::marked_time))]
fn marked_time(text: &[u8]) -> Option<u32>
    ensures value { result ≡ marked_time text.now }
    ensures bound { IfSome result (λ s. s < 86400) }
{
    let rest = behind_mark(text)?;
    time_of_day(rest)
}

/// The second of the day behind a date: the first where nothing follows.
fn day_second(text: &[u8]) -> Option<u32>
    ensures value { result ≡ day_second text.now }
    ensures bound { IfSome result (λ s. s < 86400) }
{
    match text {
        [] => Some(0),
        [_, ..] => marked_time(text),
    }
}

/// The time that a date, with or without a time of day, stands for.
#[tactic(auto, unfolding(xr_times::specs::Units::reference))]
fn reference(text: &[u8], calendar: Calendar) -> Option<i64>
    ensures value { result ≡ reference calendar text.now }
{
    let (day, rest) = date(text, calendar)?;
    let second = day_second(rest)?;
    Some(time_at(calendar, day.year, day.month, day.day, second))
}

fn is_word(word: &[u8], name: &str) -> bool
    ensures { result ≡ bytes_eq word.now name.now }
{
    word == name.as_bytes()
}

/// The unit that a word names.
fn unit_named(word: &[u8]) -> Option<TimeUnit>
    ensures { result ≡ unit_named word.now }
{
    if is_word(word, "day") || is_word(word, "days") {
        Some(TimeUnit::Days)
    } else if is_word(word, "hour") || is_word(word, "hours") {
        Some(TimeUnit::Hours)
    } else if is_word(word, "minute") || is_word(word, "minutes") {
        Some(TimeUnit::Minutes)
    } else if is_word(word, "second") || is_word(word, "seconds") {
        Some(TimeUnit::Seconds)
    } else {
        None
    }
}

/// The unit at the front, and the text behind its word.
#[tactic(auto, unfolding(xr_times::specs::Units::unit))]
fn unit(text: &[u8]) -> Option<(TimeUnit, &[u8])>
    ensures { Says (λ x. (x.0, x.1.now)) result (unit text.now) }
{
    let (word, rest) = text.split_at(dark_run(text));
    let unit = unit_named(word)?;
    Some((unit, rest))
}

/// The text behind the word `since`.
fn behind_since(text: &[u8]) -> Option<&[u8]>
    ensures { Says (λ t. t.now) result (behind_since text.now) }
{
    let (word, rest) = text.split_at(dark_run(text));
    if !is_word(word, "since") {
        return None;
    }
    Some(rest)
}

/// The text behind `since` and the blanks round it.
#[tactic(auto, unfolding(xr_times::specs::Units::behind_word))]
fn behind_word(text: &[u8]) -> Option<&[u8]>
    ensures { Says (λ t. t.now) result (behind_word text.now) }
{
    let rest = behind_blanks(text)?;
    let rest = behind_since(rest)?;
    behind_blanks(rest)
}

/// The calendar of a name, and whether times before 1582-10-15 are read in it: `standard` or `gregorian`, where they
/// aren't, `proleptic_gregorian`, `noleap` or `365_day`, and `360_day`. None at any other name
/// (CF Conventions, "Calendar").
pub fn calendar_named(name: &[u8]) -> Option<(Calendar, bool)>
    ensures { result ≡ calendar_named (Some name.now) }
{
    if is_word(name, "standard") || is_word(name, "gregorian") {
        Some((Calendar::Civil, false))
    } else if is_word(name, "proleptic_gregorian") {
        Some((Calendar::Civil, true))
    } else if is_word(name, "noleap") || is_word(name, "365_day") {
        Some((Calendar::NoLeap, true))
    } else if is_word(name, "360_day") {
        Some((Calendar::Days360, true))
    } else {
        None
    }
}

/// The calendar of a text, or `standard` where there is none.
fn calendar_of(name: Option<&[u8]>) -> Option<(Calendar, bool)>
    ensures { result ≡ calendar_named (option_copied name.entry) }
{
    match name {
        None => Some((Calendar::Civil, false)),
        Some(name) => calendar_named(name),
    }
}

/// The units that the text of an attribute `units` stands for, with that of `calendar` where there is one: a
/// unit from days to seconds, `since`, and a reference date of that calendar with or without a time of day. None
/// where the text has another form, where the calendar is none that is read or has no such date, and where the
/// reference is before 1582-10-15 in `standard` (CF Conventions, "Time Coordinate").
#[tactic(auto, unfolding(xr_times::specs::Units::units_of))]
pub fn read_units(text: &[u8], calendar: Option<&[u8]>) -> Option<Units>
    ensures { result ≡ units_of text.now (option_copied calendar.entry) }
{
    let (unit, rest) = unit(text)?;
    let rest = behind_word(rest)?;
    let (calendar, early) = calendar_of(calendar)?;
    let reference = reference(rest, calendar)?;
    units_with(unit, reference, calendar, early)
}
