//! Quotients of whole numbers, rounded down, what they leave, and negations. A processor divides 32 bits several times faster than 64, and more than 64 not by itself, so each division has the least width that holds its numbers.
ghost use Rattle.std.specs.Prelude.{◌≡◌, ◌≢◌, ◌≤ℤ◌, ◌-ℤ◌, ◌*ℤ◌, neg_ℤ, pos, negsuc, true};
ghost use Rattle.xr_arrays.specs.Elements.{floor_quotient, unless_zero};

/// The greatest whole number that isn't above x / y.
pub(crate) fn floor(x: i128, y: i128) -> i128
    requires from { (negsuc 9223372036854775807 ≤ℤ x) × (x ≤ℤ pos 18446744073709551615) }
    requires divisor { (negsuc 9223372036854775807 ≤ℤ y) × (y ≤ℤ pos 18446744073709551615) }
    requires some { y ≢ pos 0 }
    ensures { result ≡ floor_quotient x y }
{
    if y > 0 {
        x.div_euclid(y)
    } else {
        (-x).div_euclid(-y)
    }
}

// Whether a number has 32 bits with a sign.
fn is_int(n: i128) -> bool
    ensures { result ≡ true → (negsuc 2147483647 ≤ℤ n) × (n ≤ℤ pos 2147483647) }
{
    n >= -2_147_483_648 && n <= 2_147_483_647
}

// Whether a number has 32 bits without a sign.
fn is_uint(n: i128) -> bool
    ensures { result ≡ true → (pos 0 ≤ℤ n) × (n ≤ℤ pos 4294967295) }
{
    n >= 0 && n <= 4_294_967_295
}

fn to_int(n: i128) -> i32
    requires { (negsuc 2147483647 ≤ℤ n) × (n ≤ℤ pos 2147483647) }
    ensures { result ≡ n }
{
    n as i32
}

fn to_long(n: i128) -> i64
    requires { (negsuc 9223372036854775807 ≤ℤ n) × (n ≤ℤ pos 9223372036854775807) }
    ensures { result ≡ n }
{
    n as i64
}

fn to_uint(n: i128) -> u32
    requires { (pos 0 ≤ℤ n) × (n ≤ℤ pos 4294967295) }
    ensures { pos result ≡ n }
{
    n as u32
}

fn to_ulong(n: i128) -> u64
    requires { (pos 0 ≤ℤ n) × (n ≤ℤ pos 18446744073709551615) }
    ensures { pos result ≡ n }
{
    n as u64
}

// The greatest whole number that isn't above x / y, by a division of 32 bits. It rounds towards 0, which is up where what is left and y have different signs. The product tells that without a branch, which data of both signs would send either way.
fn floor_int(x: i32, y: i32) -> i64
    requires some { y ≢ pos 0 }
    requires fits { y ≢ negsuc 0 }
    ensures { result ≡ floor_quotient x y }
{
    let quotient = i64::from(x / y);
    let left = i64::from(x % y);
    if left * i64::from(y) < 0 {
        quotient - 1
    } else {
        quotient
    }
}

// The same by a division of 64 bits.
fn floor_long(x: i64, y: i64) -> i128
    requires some { y ≢ pos 0 }
    requires fits { y ≢ negsuc 0 }
    ensures { result ≡ floor_quotient x y }
{
    let quotient = i128::from(x / y);
    let left = i128::from(x % y);
    if left * i128::from(y) < 0 {
        quotient - 1
    } else {
        quotient
    }
}

// The greatest whole number that isn't above x / y, by a division of 32 bits.
fn floor_by_int(x: i128, y: i128) -> i128
    requires from { (negsuc 2147483647 ≤ℤ x) × (x ≤ℤ pos 2147483647) }
    requires divisor { (negsuc 2147483647 ≤ℤ y) × (y ≤ℤ pos 2147483647) }
    requires some { y ≢ pos 0 }
    requires fits { y ≢ negsuc 0 }
    ensures { result ≡ floor_quotient x y }
{
    let dividend = to_int(x);
    let divisor = to_int(y);
    let quotient = floor_int(dividend, divisor);
    i128::from(quotient)
}

// The greatest whole number that isn't above x / y, by a division of 64 bits.
fn floor_by_long(x: i128, y: i128) -> i128
    requires from { (negsuc 9223372036854775807 ≤ℤ x) × (x ≤ℤ pos 9223372036854775807) }
    requires divisor { (negsuc 9223372036854775807 ≤ℤ y) × (y ≤ℤ pos 9223372036854775807) }
    requires some { y ≢ pos 0 }
    requires fits { y ≢ negsuc 0 }
    ensures { result ≡ floor_quotient x y }
{
    let dividend = to_long(x);
    let divisor = to_long(y);
    floor_long(dividend, divisor)
}

// The greatest whole number that isn't above x / y, by a division of 32 bits without a sign.
fn floor_by_uint(x: i128, y: i128) -> i128
    requires from { (pos 0 ≤ℤ x) × (x ≤ℤ pos 4294967295) }
    requires divisor { (pos 0 ≤ℤ y) × (y ≤ℤ pos 4294967295) }
    requires some { y ≢ pos 0 }
    ensures { result ≡ floor_quotient x y }
{
    let dividend = to_uint(x);
    let divisor = to_uint(y);
    let quotient = dividend / divisor;
    i128::from(quotient)
}

// The greatest whole number that isn't above x / y, by a division of 64 bits without a sign.
fn floor_by_ulong(x: i128, y: i128) -> i128
    requires from { (pos 0 ≤ℤ x) × (x ≤ℤ pos 18446744073709551615) }
    requires divisor { (pos 0 ≤ℤ y) × (y ≤ℤ pos 18446744073709551615) }
    requires some { y ≢ pos 0 }
    ensures { result ≡ floor_quotient x y }
{
    let dividend = to_ulong(x);
    let divisor = to_ulong(y);
    let quotient = dividend / divisor;
    i128::from(quotient)
}

/// The greatest whole number that isn't above x / y for numbers of a kind with a sign, and 0 for a y of 0.
pub(crate) fn floor_signed(x: i128, y: i128) -> i128
    requires from { (negsuc 9223372036854775807 ≤ℤ x) × (x ≤ℤ pos 9223372036854775807) }
    requires divisor { (negsuc 9223372036854775807 ≤ℤ y) × (y ≤ℤ pos 9223372036854775807) }
    ensures { result ≡ unless_zero y (floor_quotient x y) }
{
    if y == 0 {
        0
    } else if y == -1 {
        -x
    } else if is_int(x) && is_int(y) {
        floor_by_int(x, y)
    } else {
        floor_by_long(x, y)
    }
}

/// The greatest whole number that isn't above x / y for numbers of a kind without a sign, and 0 for a y of 0.
pub(crate) fn floor_unsigned(x: i128, y: i128) -> i128
    requires from { (pos 0 ≤ℤ x) × (x ≤ℤ pos 18446744073709551615) }
    requires divisor { (pos 0 ≤ℤ y) × (y ≤ℤ pos 18446744073709551615) }
    ensures { result ≡ unless_zero y (floor_quotient x y) }
{
    if y == 0 {
        0
    } else if is_uint(x) && is_uint(y) {
        floor_by_uint(x, y)
    } else {
        floor_by_ulong(x, y)
    }
}

/// What is left of x by whole multiples of y, with the sign of y.
#[tactic(auto, using(crate::proofs::Bounds::floor_rest))]
pub(crate) fn rest(x: i128, y: i128) -> i128
    requires from { (negsuc 9223372036854775807 ≤ℤ x) × (x ≤ℤ pos 18446744073709551615) }
    requires divisor { (negsuc 9223372036854775807 ≤ℤ y) × (y ≤ℤ pos 18446744073709551615) }
    requires some { y ≢ pos 0 }
    ensures { result ≡ x -ℤ y *ℤ floor_quotient x y }
{
    if y > 0 {
        x.rem_euclid(y)
    } else {
        -(-x).rem_euclid(-y)
    }
}

// What is left of x by whole multiples of y, with the sign of y, by a division of 32 bits. What it leaves has the sign of x.
fn rest_int(x: i32, y: i32) -> i64
    requires some { y ≢ pos 0 }
    requires fits { y ≢ negsuc 0 }
    ensures { result ≡ x -ℤ y *ℤ floor_quotient x y }
{
    let left = i64::from(x % y);
    let divisor = i64::from(y);
    if left * divisor < 0 {
        left + divisor
    } else {
        left
    }
}

// The same by a division of 64 bits.
fn rest_long(x: i64, y: i64) -> i128
    requires some { y ≢ pos 0 }
    requires fits { y ≢ negsuc 0 }
    ensures { result ≡ x -ℤ y *ℤ floor_quotient x y }
{
    let left = i128::from(x % y);
    let divisor = i128::from(y);
    if left * divisor < 0 {
        left + divisor
    } else {
        left
    }
}

// What is left of x by whole multiples of y, by a division of 32 bits.
fn rest_by_int(x: i128, y: i128) -> i128
    requires from { (negsuc 2147483647 ≤ℤ x) × (x ≤ℤ pos 2147483647) }
    requires divisor { (negsuc 2147483647 ≤ℤ y) × (y ≤ℤ pos 2147483647) }
    requires some { y ≢ pos 0 }
    requires fits { y ≢ negsuc 0 }
    ensures { result ≡ x -ℤ y *ℤ floor_quotient x y }
{
    let dividend = to_int(x);
    let divisor = to_int(y);
    let left = rest_int(dividend, divisor);
    i128::from(left)
}

// What is left of x by whole multiples of y, by a division of 64 bits.
fn rest_by_long(x: i128, y: i128) -> i128
    requires from { (negsuc 9223372036854775807 ≤ℤ x) × (x ≤ℤ pos 9223372036854775807) }
    requires divisor { (negsuc 9223372036854775807 ≤ℤ y) × (y ≤ℤ pos 9223372036854775807) }
    requires some { y ≢ pos 0 }
    requires fits { y ≢ negsuc 0 }
    ensures { result ≡ x -ℤ y *ℤ floor_quotient x y }
{
    let dividend = to_long(x);
    let divisor = to_long(y);
    rest_long(dividend, divisor)
}

// What is left of x by whole multiples of y, by a division of 32 bits without a sign.
fn rest_by_uint(x: i128, y: i128) -> i128
    requires from { (pos 0 ≤ℤ x) × (x ≤ℤ pos 4294967295) }
    requires divisor { (pos 0 ≤ℤ y) × (y ≤ℤ pos 4294967295) }
    requires some { y ≢ pos 0 }
    ensures { result ≡ x -ℤ y *ℤ floor_quotient x y }
{
    let dividend = to_uint(x);
    let divisor = to_uint(y);
    let left = dividend % divisor;
    i128::from(left)
}

// What is left of x by whole multiples of y, by a division of 64 bits without a sign.
fn rest_by_ulong(x: i128, y: i128) -> i128
    requires from { (pos 0 ≤ℤ x) × (x ≤ℤ pos 18446744073709551615) }
    requires divisor { (pos 0 ≤ℤ y) × (y ≤ℤ pos 18446744073709551615) }
    requires some { y ≢ pos 0 }
    ensures { result ≡ x -ℤ y *ℤ floor_quotient x y }
{
    let dividend = to_ulong(x);
    let divisor = to_ulong(y);
    let left = dividend % divisor;
    i128::from(left)
}

/// What is left of x by whole multiples of y for numbers of a kind with a sign, with the sign of y, and 0 for a y of 0.
pub(crate) fn rest_signed(x: i128, y: i128) -> i128
    requires from { (negsuc 9223372036854775807 ≤ℤ x) × (x ≤ℤ pos 9223372036854775807) }
    requires divisor { (negsuc 9223372036854775807 ≤ℤ y) × (y ≤ℤ pos 9223372036854775807) }
    ensures { result ≡ unless_zero y (x -ℤ y *ℤ floor_quotient x y) }
{
    if y == 0 || y == -1 {
        0
    } else if is_int(x) && is_int(y) {
        rest_by_int(x, y)
    } else {
        rest_by_long(x, y)
    }
}

/// What is left of x by whole multiples of y for numbers of a kind without a sign, and 0 for a y of 0.
pub(crate) fn rest_unsigned(x: i128, y: i128) -> i128
    requires from { (pos 0 ≤ℤ x) × (x ≤ℤ pos 18446744073709551615) }
    requires divisor { (pos 0 ≤ℤ y) × (y ≤ℤ pos 18446744073709551615) }
    ensures { result ≡ unless_zero y (x -ℤ y *ℤ floor_quotient x y) }
{
    if y == 0 {
        0
    } else if is_uint(x) && is_uint(y) {
        rest_by_uint(x, y)
    } else {
        rest_by_ulong(x, y)
    }
}

/// The negated number.
pub(crate) fn opposite(n: i128) -> i128
    requires { (negsuc 9223372036854775807 ≤ℤ n) × (n ≤ℤ pos 18446744073709551615) }
    ensures { result ≡ neg_ℤ n }
{
    -n
}

/// The number whose bits are all turned.
pub(crate) fn turned(n: i128) -> i128
    requires { (negsuc 9223372036854775807 ≤ℤ n) × (n ≤ℤ pos 18446744073709551615) }
    ensures { result ≡ negsuc 0 -ℤ n }
{
    -1 - n
}
