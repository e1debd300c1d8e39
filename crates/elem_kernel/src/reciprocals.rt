//! Quotients by one divisor, by a product in place of a division. A processor multiplies many times faster than it divides, and several numbers at once.
ghost use Rattle.std.specs.Prelude.{◌≡◌, ◌≢◌, ◌<◌, ◌≤◌, ◌*◌, ◌+◌, ◌/◌, ◌^◌, ◌≤ℤ◌, ℕ, pos, negsuc, true};
ghost use Rattle.elem_kernel.specs.Reciprocals.{IsReciprocal, size, sunk};

// The high half of a product.
#[tactic(auto, using(crate::proofs::ByProducts::high))]
fn high_16(x: u16, times: u16) -> u16
    ensures { result ≡ x * times / 65536 }
{
    ((u32::from(x) * u32::from(times)) >> 16) as u16
}

#[tactic(auto, using(crate::proofs::ByProducts::high))]
fn high_32(x: u32, times: u32) -> u32
    ensures { result ≡ x * times / 4294967296 }
{
    ((u64::from(x) * u64::from(times)) >> 32) as u32
}

#[tactic(auto, using(crate::proofs::ByProducts::high))]
fn high_64(x: u64, times: u64) -> u64
    ensures { result ≡ x * times / 18446744073709551616 }
{
    ((u128::from(x) * u128::from(times)) >> 64) as u64
}

/// The quotient of a number by the divisor of a reciprocal.
#[tactic(auto, using(crate::proofs::ByProducts::quotients))]
pub(crate) fn over_16(x: u16, times: u16, shift: u32) -> u16
    requires shift { shift < 16 }
    ensures { (d : ℕ) → IsReciprocal 65536 d times shift → result ≡ x / d }
{
    let high = high_16(x, times);
    (((x - high) >> 1) + high) >> shift
}

#[tactic(auto, using(crate::proofs::ByProducts::quotients))]
pub(crate) fn over_32(x: u32, times: u32, shift: u32) -> u32
    requires shift { shift < 32 }
    ensures { (d : ℕ) → IsReciprocal 4294967296 d times shift → result ≡ x / d }
{
    let high = high_32(x, times);
    (((x - high) >> 1) + high) >> shift
}

#[tactic(auto, using(crate::proofs::ByProducts::quotients))]
pub(crate) fn over_64(x: u64, times: u64, shift: u32) -> u64
    requires shift { shift < 64 }
    ensures { (d : ℕ) → IsReciprocal 18446744073709551616 d times shift → result ≡ x / d }
{
    let high = high_64(x, times);
    (((x - high) >> 1) + high) >> shift
}

// A number without its sign, less one where its quotient is below 0.
#[tactic(auto, using(crate::proofs::ByProducts::sizes))]
pub(crate) fn size_16(n: i128, sinks: bool) -> u16
    requires range { (negsuc 32767 ≤ℤ n) × (n ≤ℤ pos 32767) }
    requires some { sinks ≡ true → n ≢ pos 0 }
    ensures { result ≡ size n sinks }
{
    (n as i16).unsigned_abs() - u16::from(sinks)
}

#[tactic(auto, using(crate::proofs::ByProducts::sizes))]
pub(crate) fn size_32(n: i128, sinks: bool) -> u32
    requires range { (negsuc 2147483647 ≤ℤ n) × (n ≤ℤ pos 2147483647) }
    requires some { sinks ≡ true → n ≢ pos 0 }
    ensures { result ≡ size n sinks }
{
    (n as i32).unsigned_abs() - u32::from(sinks)
}

#[tactic(auto, using(crate::proofs::ByProducts::sizes))]
pub(crate) fn size_64(n: i128, sinks: bool) -> u64
    requires range { (negsuc 9223372036854775807 ≤ℤ n) × (n ≤ℤ pos 9223372036854775807) }
    requires some { sinks ≡ true → n ≢ pos 0 }
    ensures { result ≡ size n sinks }
{
    (n as i64).unsigned_abs() - u64::from(sinks)
}

// The quotient whose size it is. All bits turn at once, without a branch, which data of both signs would send either way.
pub(crate) fn turned(q: u64, sinks: bool) -> i128
    ensures { result ≡ sunk sinks q }
{
    i128::from(q) ^ -i128::from(sinks)
}

// How many bits a number below the divisor may have.
#[tactic(auto, using(crate::proofs::ByProducts::lengths))]
fn length_of(d: u64) -> u32
    requires { 2 ≤ d }
    ensures bits { (1 ≤ result) × (result ≤ 64) }
    ensures above { d ≤ 2 ^ result }
    ensures near { 2 ^ result < d + d }
{
    64 - (d - 1).leading_zeros()
}

// What a divisor lacks to the next power of two.
fn lack_of(d: u64, length: u32) -> u128
    requires { (length ≤ 64) × (d ≤ 2 ^ length) }
    ensures { result + d ≡ 2 ^ length }
{
    (1_u128 << length) - u128::from(d)
}

#[tactic(auto, using(crate::proofs::ByProducts::factors))]
fn factor_of(whole: u128, d: u64, lack: u128) -> u64
    requires divisor { (2 ≤ d) × (d < whole) × (lack < d) }
    requires whole { whole ≤ 18446744073709551616 }
    ensures is { result ≡ lack * whole / d + 1 }
    ensures fits { result < whole }
{
    (lack * whole / u128::from(d) + 1) as u64
}

/// The factor and the shift of a divisor's reciprocal, over numbers below `whole`.
#[tactic(auto, using(crate::proofs::ByProducts::reciprocals))]
pub(crate) fn reciprocal(whole: u128, d: u64) -> (u64, u32)
    requires divisor { (2 ≤ d) × (d < whole) }
    requires whole { whole ≤ 18446744073709551616 }
    ensures is { IsReciprocal whole d result.0 result.1 }
    ensures times { result.0 < whole }
    ensures shift { 2 ^ result.1 < whole }
{
    let length = length_of(d);
    let lack = lack_of(d, length);
    let times = factor_of(whole, d, lack);
    (times, length - 1)
}
