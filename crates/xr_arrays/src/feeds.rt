//! The positions of an axis that each position of a result uses.
ghost use Rattle.std.specs.Prelude.{◌≡◌, ◌<◌, ◌+◌, ◌*◌, ◌^◌, [], ◌∷◌, length, map, get_or, IfOk};
ghost use Rattle.std.specs.List.{range_with_len};
ghost use Rattle.xr_arrays.specs.FeedPositions.{window, block, runs, cut, AreEnds, listed};

use std::alloc::{AllocError, Global};
use std::marker::Model;
use xr_types::{DeepCopy, Items};

/// How the positions are kept.
#[derive(Drop)]
pub enum FeedForm {
    Windows {
        size: u64,
        before: u64,
        after: u64,
    },
    Blocks {
        count: u64,
        width: u64,
    },
    Runs {
        ends: Items<u64>,
    },
    Lists {
        positions: Items<u32>,
        ends: Items<u64>,
    },
}

/// For each position of a result, positions of the axis that it comes from.
#[derive(Drop)]
pub struct Feeds {
    form: FeedForm,
}

impl Model for Feeds {
    ghost use Rattle.std.specs.Prelude.{List, ℕ};
    ghost use Rattle.xr_arrays.specs.FeedPositions.{fed, IsKept};

    ghost Value = { List (List ℕ) };

    ghost view = { λ f. fed f.form };

    ghost invariant = { λ f. IsKept f.form };
}

/// The positions that one position of a result uses: those from the first up to the end, or a list.
#[derive(Clone, Copy)]
pub enum Positions<'a> {
    Range { from: u64, to: u64 },
    List(&'a [u32]),
}

impl Feeds {
    /// On an axis of this size, each position uses itself, so many before it and so many after it, as far as they are there.
    pub fn windows(size: u64, before: u64, after: u64) -> Feeds
        ensures { result ≡ map (window size before after) (range_with_len 0 size) }
    {
        Feeds {
            form: FeedForm::Windows {
                size,
                before,
                after,
            },
        }
    }

    /// Blocks of one width, one after the other from the first position on.
    pub fn blocks(count: u64, width: u64) -> Feeds
        requires { count * width < 2 ^ 64 }
        ensures { result ≡ map (block width) (range_with_len 0 count) }
    {
        Feeds {
            form: FeedForm::Blocks { count, width },
        }
    }

    /// Runs of positions, one after the other from the first position on, each up to its end.
    pub fn runs(ends: Items<u64>) -> Feeds
        ensures { result ≡ runs 0 ends }
    {
        Feeds {
            form: FeedForm::Runs { ends },
        }
    }

    /// Lists of positions, which stand one after the other, each up to its end.
    pub fn lists(positions: Items<u32>, ends: Items<u64>) -> Feeds
        requires { AreEnds (length positions) 0 ends }
        ensures { result ≡ cut positions 0 ends }
    {
        Feeds {
            form: FeedForm::Lists { positions, ends },
        }
    }

    /// How many positions the result has.
    #[tactic(auto, using(crate::proofs::FeedPositions::windows_length, crate::proofs::FeedPositions::blocks_length, crate::proofs::FeedPositions::runs_length, crate::proofs::FeedPositions::cut_length))]
    pub fn len(&self) -> u64
        ensures { result ≡ length self.now }
    {
        match &self.form {
            FeedForm::Windows { size, .. } => *size,
            FeedForm::Blocks { count, .. } => *count,
            FeedForm::Runs { ends } => ends.as_slice().len() as u64,
            FeedForm::Lists { ends, .. } => ends.as_slice().len() as u64,
        }
    }

    /// The positions that a position of the result uses.
    #[tactic(auto, using(crate::proofs::FeedPositions::windows_length, crate::proofs::FeedPositions::blocks_length, crate::proofs::FeedPositions::runs_length, crate::proofs::FeedPositions::cut_length, crate::proofs::FeedPositions::window_at, crate::proofs::FeedPositions::block_at, crate::proofs::FeedPositions::block_ends))]
    pub fn positions(&self, at: u64) -> Positions<'_>
        requires { at < length self.now }
        ensures { listed result ≡ get_or self.now at [] }
    {
        match &self.form {
            FeedForm::Windows {
                size,
                before,
                after,
            } => window(*size, *before, *after, at),
            FeedForm::Blocks { width, .. } => block(*width, at),
            FeedForm::Runs { ends } => run(ends.as_slice(), at),
            FeedForm::Lists { positions, ends } => {
                list(positions.as_slice(), ends.as_slice(), at)
            }
        }
    }
}

fn window(size: u64, before: u64, after: u64, at: u64) -> Positions<'static>
    requires { at < size }
    ensures { listed result ≡ window size before after at }
{
    let from = at.saturating_sub(before);
    let to = if after < size - at {
        at + after + 1
    } else {
        size
    };
    Positions::Range { from, to }
}

fn block(width: u64, at: u64) -> Positions<'static>
    requires { at * width + width < 2 ^ 64 }
    ensures { listed result ≡ block width at }
{
    Positions::Range {
        from: at * width,
        to: at * width + width,
    }
}

fn start(ends: &[u64], at: u64) -> u64
    requires { at < length ends.now }
    ensures { result ≡ get_or (0 ∷ ends.now) at 0 }
{
    if at == 0 { 0 } else { ends[at as usize - 1] }
}

#[tactic(auto, using(crate::proofs::FeedPositions::run_at))]
fn run(ends: &[u64], at: u64) -> Positions<'static>
    requires { at < length ends.now }
    ensures { listed result ≡ get_or (runs 0 ends.now) at [] }
{
    Positions::Range {
        from: start(ends, at),
        to: ends[at as usize],
    }
}

#[tactic(auto, using(crate::proofs::FeedPositions::cut_at, crate::proofs::FeedPositions::ends_at))]
fn list<'a>(positions: &'a [u32], ends: &[u64], at: u64) -> Positions<'a>
    requires at { at < length ends.now }
    requires ends { AreEnds (length positions.now) 0 ends.now }
    ensures { listed result ≡ get_or (cut positions.now 0 ends.now) at [] }
{
    let from = start(ends, at) as usize;
    let to = ends[at as usize] as usize;
    Positions::List(&positions[from..to])
}

impl DeepCopy for Feeds {
    fn deep_copy(&self, alloc: Global) -> Result<Feeds, AllocError> {
        let form = match &self.form {
            FeedForm::Windows {
                size,
                before,
                after,
            } => FeedForm::Windows {
                size: *size,
                before: *before,
                after: *after,
            },
            FeedForm::Blocks { count, width } => FeedForm::Blocks {
                count: *count,
                width: *width,
            },
            FeedForm::Runs { ends } => FeedForm::Runs {
                ends: Items::from_slice(alloc, ends.as_slice())?,
            },
            FeedForm::Lists { positions, ends } => FeedForm::Lists {
                positions: Items::from_slice(alloc, positions.as_slice())?,
                ends: Items::from_slice(alloc, ends.as_slice())?,
            },
        };
        Ok(Feeds { form })
    }
}
