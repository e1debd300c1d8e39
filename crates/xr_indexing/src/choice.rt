//! The positions of an axis that a call chooses: one, or several.
ghost use Rattle.std.specs.Prelude.{◌<◌, ◌^◌};
ghost use Rattle.xr_types.specs.Results.{Answers};
ghost use Rattle.xr_defs.specs.Selecting as of;
ghost use Rattle.xr_indexing.specs.Choices.{choice_in, selector_in};

use crate::slices::slice_positions;
use std::alloc::Global;
use xr_types::{CallFault, Fault, Items};

/// The numbers of a slice of positions.
#[derive(Clone, Copy)]
pub struct Positions {
    pub start: Option<i128>,
    pub stop: Option<i128>,
    pub step: Option<i128>,
}

/// What a call says of an axis.
#[derive(Drop)]
pub enum Selector {
    /// A position, which takes the axis away. A negative one counts from the end.
    At(i128),
    Span(Positions),
    Each(Items<i128>),
}

/// Positions on an axis.
#[derive(Drop)]
pub enum Choice {
    /// One takes the axis away.
    One(u32),
    /// Several leave it, with its labels there.
    Several(Items<u32>),
}

// A negative position counts from the end.
#[tactic(auto, unfolding(xr_defs::specs::Selecting::position_in))]
fn position_in(size: u64, n: i128) -> Result<u32, CallFault>
    requires { size < 2 ^ 32 }
    ensures { Answers (λ p. p) result (of.position_in size n) }
{
    let far = n.unsigned_abs();
    let count = u128::from(size);
    if n < 0 {
        if far <= count {
            Ok((count - far) as u32)
        } else {
            Err(CallFault::Refused(Fault::OutOfRange))
        }
    } else if far < count {
        Ok(far as u32)
    } else {
        Err(CallFault::Refused(Fault::OutOfRange))
    }
}

#[tactic(auto, using(crate::proofs::Loops::behind_both), unfolding(xr_defs::specs::Selecting::positions_in))]
fn positions_in(alloc: Global, size: u64, list: &[i128]) -> Result<Items<u32>, CallFault>
    requires { size < 2 ^ 32 }
    ensures { Answers (λ ps. ps) result (of.positions_in size list.now) }
{
    let mut out = Items::new(alloc);
    for n in list {
        out.push(position_in(size, *n)?)?;
    }
    Ok(out)
}

/// The positions that a selector chooses on an axis of this size.
///
/// # Errors
/// `OutOfRange` for a position that isn't there.
#[tactic(auto, unfolding(xr_defs::specs::Selecting::choice_of))]
pub fn choice_of(alloc: Global, size: u64, selector: &Selector) -> Result<Choice, CallFault>
    requires { size < 2 ^ 32 }
    ensures { Answers choice_in result (of.choice_of size (selector_in selector.now)) }
{
    match selector {
        Selector::At(n) => Ok(Choice::One(position_in(size, *n)?)),
        Selector::Span(span) => {
            let ps = slice_positions(alloc, size, span.start, span.stop, span.step)?;
            Ok(Choice::Several(Items::of(ps)))
        }
        Selector::Each(list) => Ok(Choice::Several(positions_in(alloc, size, list.as_slice())?)),
    }
}
