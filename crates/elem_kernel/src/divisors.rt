//! A cell's divisor, with what makes its quotients by products.
ghost use Rattle.std.specs.Prelude.{◌≡◌, ◌≢◌, ◌<◌, ◌^◌, ◌/◌, ◌≤ℤ◌, ◌-ℤ◌, ℕ, pos, true, unsigned_abs, Some, IfSome};
ghost use Rattle.std.specs.Int.{int_wrap, w128};
ghost use Rattle.xr_types.specs.Kinds.{low, high};
ghost use Rattle.xr_types.specs.declared.operation.OpKind.TheVariants.{FloorDivide, Remainder};
ghost use Rattle.xr_arrays.specs.Elements.{elem, floor_quotient};
ghost use Rattle.elem_kernel.specs.Reciprocals.{IsReciprocal, whole, sinks, size};

use crate::number::wrapped_product;
use crate::reciprocals::{
    over_16, over_32, over_64, reciprocal, size_16, size_32, size_64, turned,
};
use xr_types::Elem;

// What the numbers of a kind are below, also without their sign. The compiler knows it of each type.
#[tactic(auto, using(crate::proofs::Wholes::wholes))]
fn whole_of<T: Elem>() -> u128
    ensures { result ≡ whole T.kind }
{
    let most = T::greatest().widen();
    if most < 65_536 {
        65_536
    } else if most < 4_294_967_296 {
        4_294_967_296
    } else {
        18_446_744_073_709_551_616
    }
}

// Whether the quotient of n by y is below 0.
#[tactic(auto, using(crate::proofs::Wholes::sinking))]
fn is_below_zero(n: i128, y: i128) -> bool
    ensures { result ≡ sinks n y }
{
    if y < 0 { n > 0 } else { n < 0 }
}

#[tactic(auto, using(crate::proofs::Wholes::ranges))]
fn short_size<T: Elem>(n: i128, sinks: bool) -> u16
    requires whole { whole T.kind ≡ 65536 }
    requires range { (low T.kind ≤ℤ n) × (n ≤ℤ high T.kind) }
    requires some { sinks ≡ true → n ≢ pos 0 }
    ensures { result ≡ size n sinks }
{
    if T::least().widen() < 0 {
        size_16(n, sinks)
    } else {
        n as u16 - u16::from(sinks)
    }
}

#[tactic(auto, using(crate::proofs::Wholes::ranges))]
fn int_size<T: Elem>(n: i128, sinks: bool) -> u32
    requires whole { whole T.kind ≡ 4294967296 }
    requires range { (low T.kind ≤ℤ n) × (n ≤ℤ high T.kind) }
    requires some { sinks ≡ true → n ≢ pos 0 }
    ensures { result ≡ size n sinks }
{
    if T::least().widen() < 0 {
        size_32(n, sinks)
    } else {
        n as u32 - u32::from(sinks)
    }
}

#[tactic(auto, using(crate::proofs::Wholes::ranges))]
fn long_size<T: Elem>(n: i128, sinks: bool) -> u64
    requires whole { whole T.kind ≡ 18446744073709551616 }
    requires range { (low T.kind ≤ℤ n) × (n ≤ℤ high T.kind) }
    requires some { sinks ≡ true → n ≢ pos 0 }
    ensures { result ≡ size n sinks }
{
    if T::least().widen() < 0 {
        size_64(n, sinks)
    } else {
        n as u64 - u64::from(sinks)
    }
}

// The quotient of the size of a kind's number.
#[tactic(auto, using(crate::proofs::Wholes::shifts))]
fn over<T: Elem>(n: i128, sinks: bool, times: u64, shift: u32) -> u64
    requires range { (low T.kind ≤ℤ n) × (n ≤ℤ high T.kind) }
    requires some { sinks ≡ true → n ≢ pos 0 }
    requires fits { (times < whole T.kind) × (2 ^ shift < whole T.kind) }
    ensures { (d : ℕ) → IsReciprocal (whole T.kind) d times shift → result ≡ size n sinks / d }
{
    let whole = whole_of::<T>();
    if whole == 65_536 {
        u64::from(over_16(short_size::<T>(n, sinks), times as u16, shift))
    } else if whole == 4_294_967_296 {
        u64::from(over_32(int_size::<T>(n, sinks), times as u32, shift))
    } else {
        over_64(long_size::<T>(n, sinks), times, shift)
    }
}

/// A divisor other than -1, 0 and 1, with its reciprocal.
#[derive(Drop)]
pub struct Divisor<T: Elem> {
    /// The divisor.
    pub by: T,
    times: u64,
    shift: u32,
    ghost is: { IsReciprocal (whole T.kind) (unsigned_abs (T.number by)) times shift },
    ghost fits: { (times < whole T.kind) × (2 ^ shift < whole T.kind) },
}

// A kind's number without its sign.
#[tactic(auto, using(crate::proofs::Wholes::absolutes))]
fn absolute<T: Elem>(n: i128) -> u64
    requires range { (low T.kind ≤ℤ n) × (n ≤ℤ high T.kind) }
    ensures { (result ≡ unsigned_abs n) × (result < whole T.kind) }
{
    n.unsigned_abs() as u64
}

// The difference, wrapped at 128 bits.
#[tactic(auto, using(std::proofs::lemmas::Int::wraps))]
fn wrapped_difference(x: i128, y: i128) -> i128
    ensures { result ≡ int_wrap w128 (x -ℤ y) }
{
    x.wrapping_sub(y)
}

impl<T: Elem> Divisor<T> {
    /// A divisor with its reciprocal, where it is none of -1, 0 and 1.
    #[tactic(auto, using(crate::proofs::Wholes::absolutes))]
    pub fn of(by: T) -> Option<Divisor<T>>
        ensures { IfSome result (λ d. d.by ≡ by) }
    {
        let d = absolute::<T>(by.widen());
        if d < 2 {
            return None;
        }
        let (times, shift) = reciprocal(whole_of::<T>(), d);
        Some(Divisor { by, times, shift })
    }

    // The quotient of a cell's number, rounded down.
    #[tactic(auto, using(crate::proofs::Wholes::floors))]
    fn floor(&self, x: T) -> i128
        ensures value { result ≡ floor_quotient (T.number x) (T.number self.now.by) }
        ensures some { T.number self.now.by ≢ pos 0 }
    {
        let n = x.widen();
        let sinks = is_below_zero(n, self.by.widen());
        turned(over::<T>(n, sinks, self.times, self.shift), sinks)
    }

    /// The quotient of a cell rounded down, as the kind leaves it.
    pub fn quotient(&self, x: T) -> T
        ensures { Some (T.number result) ≡ elem FloorDivide T.kind (Some (T.number x)) (Some (T.number self.now.by)) }
    {
        let floor = self.floor(x);
        T::wrap_from(floor)
    }

    /// What is left of a cell by whole multiples of the divisor.
    pub fn remainder(&self, x: T) -> T
        ensures { Some (T.number result) ≡ elem Remainder T.kind (Some (T.number x)) (Some (T.number self.now.by)) }
    {
        let floor = self.floor(x);
        let number = x.widen();
        let divisor = self.by.widen();
        let multiple = wrapped_product(divisor, floor);
        let left = wrapped_difference(number, multiple);
        T::wrap_from(left)
    }
}
