ghost use Rattle.std.specs.Prelude.{All};
ghost use Rattle.xr_types.specs.declared.axis.Calendar.TheVariants.{Civil};
ghost use Rattle.xr_times.specs.Times.{IsTime};
ghost use Rattle.xr_times.specs.Bins.{IsFreq};

use cf_time::{bins, count, decode, field, fields, read_date, read_units, text, written_unit};
use std::alloc::Global;
use std::process::Abort;
use xr_times::{Field, Freq};
use xr_types::{Calendar, CallFault, TimeUnit, Units};

// The times and what they show are those of Python:
// for y in (1, 1582, 1600, 1900, 2000, 2100, 9999):
//     for t in (datetime(y, 1, 1), datetime(y, 12, 31, 23, 59, 59)):
//         s = t - datetime(1970, 1, 1)
//         print(s.days * 86400 + s.seconds, t.isoformat(), t.timetuple().tm_yday, t.weekday())

fn shown(rt: &impl Abort, time: i64, iso: &str, day_of_year: i64, weekday: i64)
    requires { IsTime Civil time }
{
    assert!(rt;
        text(time, Calendar::Civil).as_slice() == iso.as_bytes(),
        "{iso}"
    );
    assert!(rt;
        field(time, Field::DayOfYear, Calendar::Civil) == day_of_year,
        "{iso}"
    );
    assert!(rt;
        field(time, Field::DayOfWeek, Calendar::Civil) == weekday,
        "{iso}"
    );
}

#[test]
fn ends_of_years(rt: HostRuntime) {
    shown(&rt, -62_135_596_800, "0001-01-01T00:00:00", 1, 0);
    shown(&rt, -62_104_060_801, "0001-12-31T23:59:59", 365, 0);
    shown(&rt, -12_244_089_600, "1582-01-01T00:00:00", 1, 4);
    shown(&rt, -12_212_553_601, "1582-12-31T23:59:59", 365, 4);
    shown(&rt, -11_676_096_000, "1600-01-01T00:00:00", 1, 5);
    shown(&rt, -11_644_473_601, "1600-12-31T23:59:59", 366, 6);
    shown(&rt, -2_208_988_800, "1900-01-01T00:00:00", 1, 0);
    shown(&rt, -2_177_452_801, "1900-12-31T23:59:59", 365, 0);
    shown(&rt, 946_684_800, "2000-01-01T00:00:00", 1, 5);
    shown(&rt, 978_307_199, "2000-12-31T23:59:59", 366, 6);
    shown(&rt, 4_102_444_800, "2100-01-01T00:00:00", 1, 4);
    shown(&rt, 4_133_980_799, "2100-12-31T23:59:59", 365, 4);
    shown(&rt, 253_370_764_800, "9999-01-01T00:00:00", 1, 4);
    shown(&rt, 253_402_300_799, "9999-12-31T23:59:59", 365, 4);
}

// Periods by Python's calendar and datetime: (datetime(y, 2, 1) - datetime(1970, 1, 1)).total_seconds(), and the
// same of datetime(y, 2, calendar.monthrange(y, 2)[1], 23, 59, 59).
fn read(rt: &impl Abort, date: &str, first: i64, last: i64) {
    match read_date(date.as_bytes(), Calendar::Civil) {
        Some(period) => assert!(rt; period.first == first && period.last == last, "{date}"),
        None => assert!(rt; first > last, "{date}"),
    }
}

#[test]
fn dates(rt: HostRuntime) {
    read(&rt, "0001", -62_135_596_800, -62_104_060_801);
    read(&rt, "1582", -12_244_089_600, -12_212_553_601);
    read(&rt, "1600-02", -11_673_417_600, -11_670_912_001);
    read(&rt, "2000", 946_684_800, 978_307_199);
    read(&rt, "2100-02", 4_105_123_200, 4_107_542_399);
    read(&rt, "9999", 253_370_764_800, 253_402_300_799);
    read(&rt, "1900-02", -2_206_310_400, -2_203_891_201);
    read(&rt, "2000-01", 946_684_800, 949_363_199);
    read(&rt, "2000-02", 949_363_200, 951_868_799);
    read(&rt, "2000-01-11", 947_548_800, 947_635_199);
    read(&rt, "2000-01-11T00:00:00", 947_548_800, 947_548_800);
    read(&rt, "2000-02-29 12:30:15", 951_827_415, 951_827_415);
    read(&rt, "1900-02-29", 1, 0);
    read(&rt, "0000", 1, 0);
    read(&rt, "2000-1-11", 1, 0);
    read(&rt, "2000-01-11T24:00:00", 1, 0);
}

fn from(unit: TimeUnit, reference: i64) -> Units {
    Units {
        unit,
        reference,
        calendar: Calendar::Civil,
        early: false,
    }
}

fn decodes(rt: &impl Abort, units: &Units, count: i128, time: Option<i64>) {
    assert_eq!(rt; decode(units, count), time);
}

#[test]
fn counts(rt: HostRuntime) {
    let days = from(TimeUnit::Days, -2_208_988_800);
    decodes(&rt, &days, 36_524, Some(946_684_800));
    // (date(1582, 10, 15) - date(1900, 1, 1)).days, the first day of the Gregorian calendar.
    decodes(&rt, &days, -115_860, Some(-12_219_292_800));
    decodes(&rt, &days, -115_861, None);
    decodes(&rt, &days, i128::MAX, None);
}

/// What a text of units says, as the time of its reference.
fn refers(rt: &impl Abort, text: &str, calendar: &str, unit: TimeUnit, reference: i64) {
    match read_units(text.as_bytes(), Some(calendar.as_bytes())) {
        Some(units) => {
            assert!(rt;
                units.unit == unit && units.reference == reference,
                "{text}"
            )
        }
        None => assert!(rt; false, "{text}"),
    }
}

fn refused(rt: &impl Abort, text: &str, calendar: &str) {
    assert!(rt;
        read_units(text.as_bytes(), Some(calendar.as_bytes())).is_none(),
        "{text}"
    );
}

// The references are those of cftime 1.6.2, which refuses the other texts too:
// t = cftime.num2date(0, units, calendar)
// s = datetime(t.year, t.month, t.day, t.hour, t.minute, t.second) - datetime(1970, 1, 1)
// print(s.days * 86400 + s.seconds)
fn references() -> [(&'static str, &'static str, TimeUnit, i64); 10] {
    [
        (
            "days since 2000-01-01",
            "standard",
            TimeUnit::Days,
            946_684_800,
        ),
        (
            "day since 2000-1-1",
            "gregorian",
            TimeUnit::Days,
            946_684_800,
        ),
        (
            "hours since 2000-01-01 06:30",
            "standard",
            TimeUnit::Hours,
            946_708_200,
        ),
        (
            "minutes\tsince  2000-01-01T06:30:15",
            "standard",
            TimeUnit::Minutes,
            946_708_215,
        ),
        (
            "seconds since 2000-01-01 6:30:15.00",
            "standard",
            TimeUnit::Seconds,
            946_708_215,
        ),
        (
            "hours since 1900-01-01 00:00:00.0",
            "standard",
            TimeUnit::Hours,
            -2_208_988_800,
        ),
        (
            "second since 9999-12-31",
            "standard",
            TimeUnit::Seconds,
            253_402_214_400,
        ),
        (
            "days since 1582-10-15",
            "standard",
            TimeUnit::Days,
            -12_219_292_800,
        ),
        (
            "days since 1582-10-14",
            "proleptic_gregorian",
            TimeUnit::Days,
            -12_219_379_200,
        ),
        (
            "days since 0001-01-01",
            "proleptic_gregorian",
            TimeUnit::Days,
            -62_135_596_800,
        ),
    ]
}

fn texts_of_no_units() -> [(&'static str, &'static str); 14] {
    [
        ("days since 1582-10-14", "standard"),
        ("days since 2000-02-30", "standard"),
        ("days since 1900-02-29", "proleptic_gregorian"),
        ("days since 0000-01-01", "proleptic_gregorian"),
        ("days since 2000-13-01", "standard"),
        ("days after 2000-01-01", "standard"),
        ("weeks since 2000-01-01", "standard"),
        ("since 2000-01-01", "standard"),
        ("days since", "standard"),
        ("hours since 2000-01-01 24:00", "standard"),
        ("hours since 2000-01-01 12:60", "standard"),
        ("dayssince 2000-01-01", "standard"),
        ("days since yesterday", "standard"),
        ("", "standard"),
    ]
}

#[test]
fn units(rt: HostRuntime) {
    for (text, calendar, unit, reference) in references() {
        refers(&rt, text, calendar, unit, reference);
    }
    for (text, calendar) in texts_of_no_units() {
        refused(&rt, text, calendar);
    }
}

// These cftime takes and this crate doesn't: blanks in front, a fraction of a second, a time zone, the calendar
// `julian`, and `standard` before 1582-10-15.
#[test]
fn units_of_no_use(rt: HostRuntime) {
    refused(&rt, " days since 2000-01-01", "standard");
    refused(&rt, "seconds since 2000-01-01 6:30:15.5", "standard");
    refused(&rt, "seconds since 2000-01-01 6:30:15.", "standard");
    refused(&rt, "days since 2000-01-01 00:00:00 +1:00", "standard");
    refused(&rt, "days since 2000-01-01", "julian");
    refused(&rt, "days since 0001-01-01", "standard");
    assert!(rt; read_units(b"days since 2000-01-01", None).is_some());
}

fn binned(rt: &impl Abort, alloc: Global, labels: &[i64], freq: Freq, starts: &[i64], bin: &[u32])
    requires times { All (IsTime Civil) labels.now }
    requires freq { IsFreq freq }
{
    match bins(alloc, labels, freq, Calendar::Civil) {
        Ok(list) => {
            assert!(rt; list.starts.as_slice() == starts);
            assert!(rt; list.bin.as_slice() == bin);
        }
        Err(_) => assert!(rt; false),
    }
}

// Starts and places are those of pandas 1.5.3:
// g = pd.Series(0, index=pd.DatetimeIndex(np.array(labels, dtype="M8[s]"))).resample(freq).grouper
// print([int(x.timestamp()) for x in g.binlabels], np.repeat(np.arange(len(g.bins)), np.diff(np.r_[0, g.bins])))
#[test]
fn bins_of_widths(rt: HostRuntime) {
    let labels = [946_731_600, 946_735_200, 946_774_800];
    let starts = [946_728_000, 946_749_600, 946_771_200];
    binned(
        &rt,
        rt.alloc(),
        &labels,
        Freq::Seconds(21_600),
        &starts,
        &[0, 0, 2],
    );
    let starts = [946_710_000, 946_735_200, 946_760_400];
    binned(
        &rt,
        rt.alloc(),
        &labels,
        Freq::Seconds(25_200),
        &starts,
        &[0, 1, 2],
    );
}

#[test]
fn bins_of_the_calendar(rt: HostRuntime) {
    let labels = [946_684_800, 947_548_800, 949_363_200, 978_307_200];
    let months = [
        946_684_800,
        949_363_200,
        951_868_800,
        954_547_200,
        957_139_200,
        959_817_600,
        962_409_600,
        965_088_000,
        967_766_400,
        970_358_400,
        973_036_800,
        975_628_800,
        978_307_200,
    ];
    binned(
        &rt,
        rt.alloc(),
        &labels,
        Freq::Months,
        &months,
        &[0, 0, 1, 12],
    );
    let years = [946_684_800, 978_307_200];
    binned(&rt, rt.alloc(), &labels, Freq::Years, &years, &[0, 0, 0, 1]);
}

/// The number of the fault of a call that was refused, or 0.
fn number_of(fault: CallFault) -> u32 {
    match fault {
        CallFault::Refused(fault) => fault.number(),
        CallFault::Declined(_) => 0,
        CallFault::NoMemory => 0,
    }
}

fn unbinned(rt: &impl Abort, alloc: Global, labels: &[i64], freq: Freq, number: u32)
    requires times { All (IsTime Civil) labels.now }
    requires freq { IsFreq freq }
{
    match bins(alloc, labels, freq, Calendar::Civil) {
        Ok(_) => assert!(rt; false),
        Err(fault) => assert!(rt; number_of(fault) == number),
    }
}

// Labels that descend; and 2^25 seconds from the first label to the last, one second more than the bins allow.
#[test]
fn no_bins(rt: HostRuntime) {
    let falling = [947_548_800, 946_684_800];
    unbinned(&rt, rt.alloc(), &falling, Freq::Months, 9);
    let far = [946_684_800, 980_239_232];
    unbinned(&rt, rt.alloc(), &far, Freq::Seconds(1), 22);
    unbinned(
        &rt,
        rt.alloc(),
        &[980_239_232, 946_684_800],
        Freq::Seconds(1),
        9,
    );
}

fn counts_as(rt: &impl Abort, units: &Units, time: i64, wanted: Option<i128>) {
    assert_eq!(rt; count(units, time), wanted);
}

fn is_written_in(rt: &impl Abort, units: &Units, times: &[i64], unit: TimeUnit) {
    assert!(rt; written_unit(units, times) == unit);
}

// Counts as Python has them: (datetime(2000, 1, 1, 18) - datetime(2000, 1, 2)) // timedelta(hours=1)
#[test]
fn counts_to_write(rt: HostRuntime) {
    let days = from(TimeUnit::Days, 946_771_200);
    let hours = from(TimeUnit::Hours, 946_771_200);
    counts_as(&rt, &days, 946_684_800, Some(-1));
    counts_as(&rt, &days, 946_749_600, None);
    counts_as(&rt, &hours, 946_749_600, Some(-6));
    is_written_in(&rt, &days, &[946_684_800, 946_771_200], TimeUnit::Days);
    is_written_in(&rt, &days, &[946_684_800, 946_749_600], TimeUnit::Hours);
    is_written_in(&rt, &hours, &[946_684_800, 946_771_200], TimeUnit::Hours);
    is_written_in(&rt, &days, &[946_749_660], TimeUnit::Minutes);
    is_written_in(&rt, &days, &[946_749_661], TimeUnit::Seconds);
}

fn leap_days() -> [i64; 2]
    ensures { All (IsTime Civil) result }
{
    [951_805_815, 951_868_800]
}

fn fields_are(rt: &impl Abort, alloc: Global, field: Field, wanted: [i64; 2]) {
    match fields(alloc, &leap_days(), field, Calendar::Civil) {
        Ok(values) => assert!(rt; values.as_slice() == wanted.as_slice()),
        Err(_) => assert!(rt; false),
    }
}

// 2000-02-29T06:30:15 and the day after at midnight, by Python's datetime.
#[test]
fn fields_of_many(rt: HostRuntime) {
    fields_are(&rt, rt.alloc(), Field::Month, [2, 3]);
    fields_are(&rt, rt.alloc(), Field::DayOfYear, [60, 61]);
    fields_are(&rt, rt.alloc(), Field::Hour, [6, 0]);
}
