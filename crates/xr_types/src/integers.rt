//! Whole numbers of a kind, which contracts see as numbers.
ghost use Rattle.std.specs.Prelude.{◌≡◌, ◌==◌, pos, length, map, get_or, IfOk};
ghost use Rattle.xr_types.specs.Integers.{Shows};

use crate::items::{DeepCopy, Items};
use crate::shared::Shared;
use std::alloc::{AllocError, Global};
use std::marker::Model;

/// Numbers with or without a sign.
#[derive(Drop)]
pub enum Held {
    Signed(Shared<i64>),
    Unsigned(Shared<u64>),
}

/// The numbers as they are kept.
#[derive(Clone, Copy)]
pub enum IntegersForm<'a> {
    Signed(&'a [i64]),
    Unsigned(&'a [u64]),
}

/// Whole numbers, each of which an `int64` or each of which a `uint64` holds. A copy shares them.
#[derive(Drop)]
pub struct Integers {
    held: Held,
}

impl Model for Integers {
    ghost use Rattle.std.specs.Prelude.{List, ℤ};
    ghost use Rattle.xr_types.specs.Integers.{held_numbers};

    ghost Value = { List ℤ };

    ghost view = { λ s. held_numbers s.held };
}

impl Integers {
    /// Numbers that an `int64` holds.
    pub fn signed(alloc: Global, numbers: Items<i64>) -> Result<Integers, AllocError>
        ensures { IfOk result (λ s. s ≡ numbers) }
    {
        let numbers = Shared::of(alloc, numbers)?;
        Ok(Integers {
            held: Held::Signed(numbers),
        })
    }

    /// Numbers that a `uint64` holds.
    pub fn unsigned(alloc: Global, numbers: Items<u64>) -> Result<Integers, AllocError>
        ensures { IfOk result (λ s. s ≡ map pos numbers) }
    {
        let numbers = Shared::of(alloc, numbers)?;
        Ok(Integers {
            held: Held::Unsigned(numbers),
        })
    }

    /// The numbers as they are kept.
    pub fn form(&self) -> IntegersForm<'_>
        ensures { Shows result self.now }
    {
        match &self.held {
            Held::Signed(numbers) => IntegersForm::Signed(numbers.as_slice()),
            Held::Unsigned(numbers) => IntegersForm::Unsigned(numbers.as_slice()),
        }
    }

    /// How many numbers there are.
    pub fn len(&self) -> usize
        ensures { result ≡ length self.now }
    {
        match &self.held {
            Held::Signed(numbers) => numbers.as_slice().len(),
            Held::Unsigned(numbers) => numbers.as_slice().len(),
        }
    }

    pub fn is_empty(&self) -> bool
        ensures { result ≡ (length self.now == 0) }
    {
        self.len() == 0
    }

    /// The number at a position, or 0 past the end.
    pub fn get(&self, at: usize) -> i128
        ensures { result ≡ get_or self.now at (pos 0) }
    {
        match &self.held {
            Held::Signed(numbers) => signed_at(numbers.as_slice(), at),
            Held::Unsigned(numbers) => unsigned_at(numbers.as_slice(), at),
        }
    }
}

fn signed_at(numbers: &[i64], at: usize) -> i128
    ensures { result ≡ get_or numbers.now at (pos 0) }
{
    match numbers.get(at) {
        Some(number) => i128::from(*number),
        None => 0,
    }
}

#[tactic(auto, using(crate::proofs::Numbers::unsigned_at))]
fn unsigned_at(numbers: &[u64], at: usize) -> i128
    ensures { result ≡ get_or (map pos numbers.now) at (pos 0) }
{
    match numbers.get(at) {
        Some(number) => i128::from(*number),
        None => 0,
    }
}

impl DeepCopy for Integers {
    fn deep_copy(&self, alloc: Global) -> Result<Integers, AllocError> {
        let held = match &self.held {
            Held::Signed(numbers) => Held::Signed(numbers.deep_copy(alloc)?),
            Held::Unsigned(numbers) => Held::Unsigned(numbers.deep_copy(alloc)?),
        };
        Ok(Integers { held })
    }
}
