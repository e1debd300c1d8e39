//! Whole numbers.
ghost use Rattle.std.specs.Prelude.{◌≡◌, ◌<◌, ◌+◌, ◌*◌, All, IsTrue};
ghost use Rattle.std.specs.Char.{is_ascii_digit};
ghost use Rattle.std.specs.List.{take_while};
ghost use Rattle.std.specs.Str.Parse.{digits_value};
ghost use Rattle.xr_syntax.specs.Tokens.{fitting, number_front};

use crate::run::digit_run;
use xr_syntax::{Front, Token};
/// The greatest number, 2^127 - 1, without its last digit, and that digit.
const GREATEST_TENS: u128 = 17_014_118_346_046_923_173_168_730_371_588_410_572;

const GREATEST_UNIT: u8 = 7;

/// A number with one more digit behind, where it is below 2^127.
fn with_digit(value: u128, digit: u8) -> Option<u128>
    requires { digit < 10 }
    ensures { result ≡ fitting (value * 10 + digit) }
{
    if value < GREATEST_TENS || (value == GREATEST_TENS && digit <= GREATEST_UNIT) {
        Some(value * 10 + u128::from(digit))
    } else {
        None
    }
}

/// The number that digits write, where it is below 2^127.
fn value_of(digits: &[u8]) -> Option<u128>
    requires { All (λ c. IsTrue (is_ascii_digit c)) digits.now }
    ensures { result ≡ fitting (digits_value 10 digits.now) }
{
    let mut value = 0u128;
    for c in digits {
        match with_digit(value, *c - b'0') {
            Some(more) => value = more,
            None => return None,
        }
    }
    Some(value)
}

/// The number whose digits stand at the front of a text.
pub fn number_front(bytes: &[u8]) -> Front
    ensures { result ≡ number_front (take_while is_ascii_digit bytes.now) }
{
    let digits = bytes.split_at(digit_run(bytes)).0;
    match value_of(digits) {
        Some(value) => Front::Piece(Token::Number(value as i128), digits.len()),
        None => Front::Bad,
    }
}
