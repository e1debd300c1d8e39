//! Dates and times in the calendars `noleap` and `360_day`.
ghost use Rattle.std.specs.Prelude.{◌≢◌, All};
ghost use Rattle.xr_types.specs.declared.axis.Calendar.TheVariants.{Civil};
ghost use Rattle.xr_times.specs.Times.{IsTime};
ghost use Rattle.xr_times.specs.Bins.{IsFreq};

use cf_calendar::{CalDate, date_again, date_of, day_of, number_again};
use cf_time::{
    bins, calendar_named, count, decode, field, fields, read_date, read_units, text, written_unit,
};
use std::alloc::Global;
use std::process::Abort;
use xr_times::{Field, Freq};
use xr_types::{Calendar, TimeUnit, Units};

fn dates(rt: &impl Abort, calendar: Calendar, number: i64, year: u16, month: u8, day: u8)
    requires { calendar ≢ Civil }
{
    let date = CalDate { year, month, day };
    assert!(rt; date_of(calendar, number) == Some(date), "{number}");
    let found = day_of(calendar, i64::from(year), i64::from(month), i64::from(day));
    assert_eq!(rt; found, Some(number));
}

fn none(rt: &impl Abort, calendar: Calendar, year: i64, month: i64, day: i64)
    requires { calendar ≢ Civil }
{
    assert_eq!(rt; day_of(calendar, year, month, day), None);
}

// Python, with the months' lengths in `lengths`:
// days = [(y, m, d) for y in range(1, 10000) for m in range(1, 13) for d in range(1, lengths[m - 1] + 1)]
// days.index((2000, 3, 1)) - days.index((1970, 1, 1))

#[test]
fn without_leap_days(rt: HostRuntime) {
    let calendar = Calendar::NoLeap;
    dates(&rt, calendar, 0, 1970, 1, 1);
    dates(&rt, calendar, -1, 1969, 12, 31);
    dates(&rt, calendar, 11_008, 2000, 2, 28);
    dates(&rt, calendar, 11_009, 2000, 3, 1);
    dates(&rt, calendar, -718_685, 1, 1, 1);
    dates(&rt, calendar, 2_930_949, 9999, 12, 31);
    none(&rt, calendar, 2000, 2, 29);
    none(&rt, calendar, 0, 1, 1);
    none(&rt, calendar, 10_000, 1, 1);
    none(&rt, calendar, 1970, 13, 1);
    none(&rt, calendar, i64::MIN, i64::MAX, i64::MIN);
    assert!(&rt; date_of(calendar, -718_686).is_none() && date_of(calendar, 2_930_950).is_none());
    assert!(&rt; date_of(calendar, i64::MIN).is_none() && date_of(calendar, i64::MAX).is_none());
    assert!(&rt; number_again(calendar, 11_009) && date_again(calendar, 2000, 2, 29));
}

#[test]
fn months_of_30_days(rt: HostRuntime) {
    let calendar = Calendar::Days360;
    dates(&rt, calendar, 0, 1970, 1, 1);
    dates(&rt, calendar, -1, 1969, 12, 30);
    dates(&rt, calendar, 10_859, 2000, 2, 30);
    dates(&rt, calendar, 10_860, 2000, 3, 1);
    dates(&rt, calendar, -708_840, 1, 1, 1);
    dates(&rt, calendar, 2_890_799, 9999, 12, 30);
    none(&rt, calendar, 2000, 1, 31);
    none(&rt, calendar, 2000, 1, 0);
    assert!(&rt; date_of(calendar, -708_841).is_none() && date_of(calendar, 2_890_800).is_none());
    assert!(&rt; number_again(calendar, 10_860) && date_again(calendar, 2000, 2, 30));
}

// Times by the same lists: days.index(date) - days.index((1970, 1, 1)) days of 86400 seconds, and the day's seconds.

fn shown(rt: &impl Abort, calendar: Calendar, time: i64, iso: &str, day_of_year: i64)
    requires { IsTime calendar time }
{
    assert!(rt; text(time, calendar).as_slice() == iso.as_bytes(), "{iso}");
    assert!(rt;
        field(time, Field::DayOfYear, calendar) == day_of_year,
        "{iso}"
    );
}

#[test]
fn texts_of_times(rt: HostRuntime) {
    let noleap = Calendar::NoLeap;
    shown(&rt, noleap, -62_094_384_000, "0001-01-01T00:00:00", 1);
    shown(&rt, noleap, -12_212_035_200, "1582-10-05T00:00:00", 278);
    shown(&rt, noleap, 951_177_599, "2000-02-28T23:59:59", 59);
    shown(&rt, noleap, 951_177_600, "2000-03-01T00:00:00", 60);
    shown(&rt, noleap, 977_615_999, "2000-12-31T23:59:59", 365);
    shown(&rt, noleap, 253_234_079_999, "9999-12-31T23:59:59", 365);
    let days360 = Calendar::Days360;
    shown(&rt, days360, -61_243_776_000, "0001-01-01T00:00:00", 1);
    shown(&rt, days360, -12_043_900_800, "1582-10-14T00:00:00", 284);
    shown(&rt, days360, 938_262_615, "2000-02-30T12:30:15", 60);
    shown(&rt, days360, 938_304_000, "2000-03-01T00:00:00", 61);
    shown(&rt, days360, 964_223_999, "2000-12-30T23:59:59", 360);
    shown(&rt, days360, 249_765_119_999, "9999-12-30T23:59:59", 360);
}

fn read(rt: &impl Abort, calendar: Calendar, date: &str, first: i64, last: i64) {
    match read_date(date.as_bytes(), calendar) {
        Some(period) => assert!(rt; period.first == first && period.last == last, "{date}"),
        None => assert!(rt; first > last, "{date}"),
    }
}

#[test]
fn date_texts(rt: HostRuntime) {
    let noleap = Calendar::NoLeap;
    read(&rt, noleap, "2000", 946_080_000, 977_615_999);
    read(&rt, noleap, "2000-02", 948_758_400, 951_177_599);
    read(&rt, noleap, "2000-03-01", 951_177_600, 951_263_999);
    read(
        &rt,
        noleap,
        "2004-02-28 12:30:15",
        1_077_280_215,
        1_077_280_215,
    );
    read(&rt, noleap, "2000-02-29", 1, 0);
    read(&rt, noleap, "2000-02-29T00:00:00", 1, 0);
    let days360 = Calendar::Days360;
    read(&rt, days360, "2000", 933_120_000, 964_223_999);
    read(&rt, days360, "2000-02", 935_712_000, 938_303_999);
    read(&rt, days360, "2000-02-30", 938_217_600, 938_303_999);
    read(
        &rt,
        days360,
        "2000-02-30T12:30:15",
        938_262_615,
        938_262_615,
    );
    read(&rt, days360, "2000-01-31", 1, 0);
    read(&rt, days360, "2000-12-31T00:00:00", 1, 0);
}

fn fields_are(
    rt: &impl Abort,
    alloc: Global,
    calendar: Calendar,
    labels: &[i64],
    field: Field,
    wanted: &[i64],
)
    requires { All (IsTime calendar) labels.now }
{
    match fields(alloc, labels, field, calendar) {
        Ok(values) => assert!(rt; values.as_slice() == wanted),
        Err(_) => assert!(rt; false),
    }
}

#[test]
fn fields_of_times(rt: HostRuntime) {
    let labels = [951_177_599, 951_177_600, 977_615_999];
    let noleap = Calendar::NoLeap;
    fields_are(&rt, rt.alloc(), noleap, &labels, Field::Month, &[2, 3, 12]);
    fields_are(&rt, rt.alloc(), noleap, &labels, Field::Day, &[28, 1, 31]);
    fields_are(&rt, rt.alloc(), noleap, &labels, Field::Hour, &[23, 0, 23]);
    let labels = [938_217_600, 938_304_000, 964_223_999];
    let days360 = Calendar::Days360;
    fields_are(&rt, rt.alloc(), days360, &labels, Field::Month, &[2, 3, 12]);
    fields_are(&rt, rt.alloc(), days360, &labels, Field::Day, &[30, 1, 30]);
    fields_are(
        &rt,
        rt.alloc(),
        days360,
        &labels,
        Field::DayOfYear,
        &[60, 61, 360],
    );
}

fn binned(
    rt: &impl Abort,
    alloc: Global,
    calendar: Calendar,
    labels: &[i64],
    freq: Freq,
    starts: &[i64],
    bin: &[u32],
)
    requires times { All (IsTime calendar) labels.now }
    requires freq { IsFreq freq }
{
    match bins(alloc, labels, freq, calendar) {
        Ok(list) => {
            assert!(rt; list.starts.as_slice() == starts);
            assert!(rt; list.bin.as_slice() == bin);
        }
        Err(_) => assert!(rt; false),
    }
}

// Months of 31 and 28 days; months of 30; years of 365 and of 360; and from 2000-02-28 to 2000-03-01 one day.
#[test]
fn bins_of_times(rt: HostRuntime) {
    let noleap = Calendar::NoLeap;
    let labels = [947_289_600, 951_177_599, 951_177_600];
    let months = [946_080_000, 948_758_400, 951_177_600];
    binned(
        &rt,
        rt.alloc(),
        noleap,
        &labels,
        Freq::Months,
        &months,
        &[0, 1, 2],
    );
    let days = [951_091_200, 951_177_600];
    binned(
        &rt,
        rt.alloc(),
        noleap,
        &[951_177_599, 951_177_600],
        Freq::Seconds(86_400),
        &days,
        &[0, 1],
    );
    let years = [946_080_000, 977_616_000];
    binned(
        &rt,
        rt.alloc(),
        noleap,
        &[977_615_999, 977_616_000],
        Freq::Years,
        &years,
        &[0, 1],
    );
    let days360 = Calendar::Days360;
    let labels = [935_711_999, 935_712_000, 938_303_999, 943_401_600];
    let months = [933_120_000, 935_712_000, 938_304_000, 940_896_000];
    binned(
        &rt,
        rt.alloc(),
        days360,
        &labels,
        Freq::Months,
        &months,
        &[0, 1, 1, 3],
    );
    let years = [933_120_000, 964_224_000];
    binned(
        &rt,
        rt.alloc(),
        days360,
        &[964_223_999, 964_224_000],
        Freq::Years,
        &years,
        &[0, 1],
    );
}

fn days_from(calendar: Calendar, reference: i64) -> Units {
    Units {
        unit: TimeUnit::Days,
        reference,
        calendar,
        early: true,
    }
}

fn decodes(rt: &impl Abort, units: &Units, count: i128, time: Option<i64>) {
    assert_eq!(rt; decode(units, count), time);
}

// From 2000-02-28 in `noleap`, and from 2000-02-30 in `360_day`; the last days are 9999-12-31 and 9999-12-30.
#[test]
fn counts_of_days(rt: HostRuntime) {
    let noleap = days_from(Calendar::NoLeap, 951_091_200);
    decodes(&rt, &noleap, 1, Some(951_177_600));
    decodes(&rt, &noleap, -729_693, Some(-62_094_384_000));
    decodes(&rt, &noleap, -729_694, None);
    decodes(&rt, &noleap, 2_919_941, Some(253_233_993_600));
    decodes(&rt, &noleap, 2_919_942, None);
    assert_eq!(&rt; count(&noleap, 951_177_600), Some(1));
    assert!(&rt; written_unit(&noleap, &[951_177_600]) == TimeUnit::Days);
    let days360 = days_from(Calendar::Days360, 938_217_600);
    decodes(&rt, &days360, 1, Some(938_304_000));
    decodes(&rt, &days360, 2_879_940, Some(249_765_033_600));
    decodes(&rt, &days360, 2_879_941, None);
}

fn refers(rt: &impl Abort, text: &str, name: &str, calendar: Calendar, reference: i64) {
    match read_units(text.as_bytes(), Some(name.as_bytes())) {
        Some(units) => {
            assert!(rt;
                units.calendar == calendar && units.reference == reference && units.early,
                "{text}"
            )
        }
        None => assert!(rt; false, "{text}"),
    }
}

fn refused(rt: &impl Abort, text: &str, name: &str) {
    assert!(rt;
        read_units(text.as_bytes(), Some(name.as_bytes())).is_none(),
        "{text}"
    );
}

#[test]
fn units_of_times(rt: HostRuntime) {
    refers(
        &rt,
        "days since 2000-02-28",
        "noleap",
        Calendar::NoLeap,
        951_091_200,
    );
    refers(
        &rt,
        "hours since 0001-01-01",
        "365_day",
        Calendar::NoLeap,
        -62_094_384_000,
    );
    refers(
        &rt,
        "days since 2000-02-30",
        "360_day",
        Calendar::Days360,
        938_217_600,
    );
    refused(&rt, "days since 2000-02-29", "noleap");
    refused(&rt, "days since 2000-01-31", "360_day");
    refused(&rt, "days since 2000-01-01", "366_day");
    assert!(&rt; calendar_named(b"360_day") == Some((Calendar::Days360, true)));
    assert!(&rt; calendar_named(b"gregorian") == Some((Calendar::Civil, false)));
    assert!(&rt; calendar_named(b"julian") == None);
}
