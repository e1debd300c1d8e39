//! The sizes of up to sixteen axes, or a point's positions along them.
ghost use Rattle.std.specs.Prelude.{◌≡◌, ◌==◌, ◌<◌, ◌≤◌, ◌+◌, [], ◌∷◌, ◌++◌, length, slice_set, take};

use crate::limits::MOST_DIMENSIONS;
use std::marker::Model;

/// Up to sixteen numbers, the first axis first. It takes no memory.
#[derive(Drop)]
pub struct Shape {
    sizes: [u64; MOST_DIMENSIONS],
    rank: usize,
}

impl Model for Shape {
    ghost use Rattle.std.specs.Prelude.{List, ℕ, take, ◌≤◌};

    ghost Value = { List ℕ };

    ghost view = { λ s. take s.rank s.sizes };

    ghost invariant = { λ s. s.rank ≤ 16 };
}

impl Shape {
    /// No axes.
    pub fn new() -> Self
        ensures { result ≡ [] }
    {
        Shape {
            sizes: [0; MOST_DIMENSIONS],
            rank: 0,
        }
    }

    /// The numbers of a slice.
    pub fn from_slice(sizes: &[u64]) -> Self
        requires { length sizes.now ≤ 16 }
        ensures { result ≡ sizes.now }
    {
        let mut shape = Shape::new();
        for size in sizes {
            shape.push(*size);
        }
        shape
    }

    pub fn as_slice(&self) -> &[u64]
        ensures value { result.now ≡ self.now }
        ensures most { length result.now ≤ 16 }
    {
        &self.sizes[..self.rank]
    }

    pub fn len(&self) -> usize
        ensures value { result ≡ length self.now }
        ensures most { result ≤ 16 }
    {
        self.rank
    }

    pub fn is_empty(&self) -> bool
        ensures { result ≡ (length self.now == 0) }
    {
        self.rank == 0
    }

    /// Adds an axis behind the others.
    pub fn push(&mut self, size: u64)
        requires { length self.old < 16 }
        ensures { self.new ≡ self.old ++ size ∷ [] }
    {
        self.sizes[self.rank] = size;
        self.rank += 1;
    }

    /// Changes the number of one axis.
    pub fn set(&mut self, axis: usize, size: u64)
        requires { axis < length self.old }
        ensures { self.new ≡ slice_set self.old axis size }
    {
        let rank = self.rank;
        let sizes = &mut self.sizes[..rank];
        sizes[axis] = size;
    }
}
