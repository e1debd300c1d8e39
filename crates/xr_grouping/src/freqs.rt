//! `resample(d="freq")`: the width of its bins.
ghost use Rattle.std.specs.Prelude.{◌≡◌, ◌≤◌, ◌<◌, ◌+◌, ◌*◌, ◌-◌, ◌^◌, List, length, take, drop, IfSome};
ghost use Rattle.xr_arrays.specs.declared.node.Node.{Node};
ghost use Rattle.xr_times.specs.Times.{is_digit};
ghost use Rattle.xr_defs.specs.declared.grouping.Grouping.TheVariants.{Bins};
ghost use Rattle.xr_types.specs.Results.{Answers};
ghost use Rattle.xr_groups.specs.Calls as calls;
ghost use Rattle.xr_values.specs.Meaning.{given, with_key};
ghost use Rattle.xr_grouping.specs.Widths.{width_of};
ghost use Rattle.std.specs.Prelude.{map};

use std::alloc::Global;
use xr_arguments::as_text;
use xr_times::Freq;
use xr_types::{CallFault, DeepCopy, Fault, Name, TextBytes};
use xr_values::{Args, Value};

#[tactic(auto, unfolding(xr_groups::specs::Calls::unit_called))]
fn unit_called(text: &[u8]) -> Option<u64>
    ensures unit { result ≡ calls.unit_called text.now }
    ensures small { IfSome result (λ n. n ≤ 86400) }
{
    if text == b"D".as_slice() {
        return Some(86_400);
    }
    if text == b"h".as_slice() {
        return Some(3_600);
    }
    if text == b"min".as_slice() {
        return Some(60);
    }
    if text == b"s".as_slice() {
        return Some(1);
    }
    None
}

// The one dimension that is named.
#[tactic(auto, unfolding(xr_groups::specs::Calls::sole_keyword))]
fn sole_keyword(keyed: &[(TextBytes, Value)]) -> Result<&(TextBytes, Value), CallFault>
    ensures { (nodes : List Node) → Answers (λ kv. with_key nodes kv.now) result (calls.sole_keyword (map (with_key nodes) keyed.now)) }
{
    match keyed {
        [argument] => Ok(argument),
        _ => Err(CallFault::Refused(Fault::BadArgument)),
    }
}

fn is_digit(byte: u8) -> bool
    ensures { result ≡ is_digit byte }
{
    byte >= b'0' && byte <= b'9'
}

// How many digits stand in front.
#[tactic(auto, using(crate::proofs::Widths::taken_more))]
fn digit_count(text: &[u8]) -> usize
    ensures digits { take result text.now ≡ calls.digits text.now }
    ensures behind { drop result text.now ≡ calls.behind_digits text.now }
    ensures inside { result ≤ length text.now }
{
    match text {
        [] => 0,
        [byte, rest @ ..] => {
            if is_digit(*byte) {
                digit_count(rest) + 1
            } else {
                0
            }
        }
    }
}

fn with_digit(number: u64, byte: u8) -> u64
    requires { number < 2 ^ 40 }
    ensures { result ≡ 10 * number + (byte - 48) }
{
    10 * number + u64::from(byte.saturating_sub(48))
}

// The number of a few digits.
#[tactic(auto, using(crate::proofs::Widths::number_next, crate::proofs::Widths::number_fits))]
fn number_of(digits: &[u8]) -> u64
    requires { length digits.now ≤ 7 }
    ensures { result ≡ calls.number_of digits.now }
{
    let mut number: u64 = 0;
    for byte in digits {
        number = with_digit(number, *byte);
    }
    number
}

fn is_plain(digits: &[u8]) -> bool
    ensures { result ≡ calls.is_plain digits.now }
{
    match digits {
        [] => true,
        [byte, ..] => *byte != 48,
    }
}

fn count_of(digits: &[u8]) -> u64
    requires { length digits.now ≤ 7 }
    ensures { result ≡ calls.count_of digits.now }
{
    if digits.len() == 0 {
        1
    } else {
        number_of(digits)
    }
}

// A width, unless the digits are none of a number from 1 to 1,000,000.
#[tactic(auto, using(crate::proofs::Widths::width_is), unfolding(xr_types::specs::Results::unless))]
fn width_of(digits: &[u8], unit: u64) -> Result<Freq, CallFault>
    requires { unit ≤ 86400 }
    ensures { Answers (λ f. f) result (width_of digits.now unit) }
{
    if digits.len() > 7 || !is_plain(digits) {
        return Err(CallFault::Refused(Fault::BadArgument));
    }
    let count = count_of(digits);
    if count > 1_000_000 {
        return Err(CallFault::Refused(Fault::BadArgument));
    }
    Ok(Freq::Seconds(count * unit))
}

#[tactic(auto, unfolding(xr_groups::specs::Calls::width_called))]
fn width_called(text: &[u8]) -> Result<Freq, CallFault>
    ensures { Answers (λ f. f) result (calls.width_called text.now) }
{
    let count = digit_count(text);
    match unit_called(&text[count..]) {
        None => Err(CallFault::Refused(Fault::BadArgument)),
        Some(unit) => width_of(&text[..count], unit),
    }
}

#[tactic(auto, unfolding(xr_groups::specs::Calls::freq_called))]
fn freq_called(text: &[u8]) -> Result<Freq, CallFault>
    ensures { Answers (λ f. f) result (calls.freq_called text.now) }
{
    if text == b"MS".as_slice() {
        return Ok(Freq::Months);
    }
    if text == b"YS".as_slice() {
        return Ok(Freq::Years);
    }
    width_called(text)
}

/// What the arguments of `resample` ask for.
#[tactic(auto, unfolding(xr_groups::specs::Calls::resample_given, xr_types::specs::Results::unless, xr_values::specs::Meaning::given))]
pub fn resample_given(alloc: Global, args: &Args) -> Result<(Name, Freq), CallFault>
    ensures { (nodes : List Node) → Answers (λ g. Bins g.0 g.1) result (calls.resample_given (given nodes args.now)) }
{
    if args.plain.len() != 0 {
        return Err(CallFault::Refused(Fault::BadArgument));
    }
    let argument = sole_keyword(args.keyed.as_slice())?;
    let freq = freq_called(as_text(&argument.1)?.as_bytes())?;
    let dimension = argument.0.deep_copy(alloc)?;
    Ok((dimension, freq))
}
