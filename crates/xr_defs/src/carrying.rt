//! What a result has of its operands beside cells and axes.
use crate::value::Coord;
use xr_types::{Attr, Items, Name};

/// By what kind of operation a result comes from its operands.
#[derive(Clone, Copy, PartialEq, Eq)]
pub enum Carry {
    /// One array, by a call that keeps all its attributes.
    Keep,
    /// One array, by any other call: the attributes that name fill numbers are dropped.
    Method,
    /// A binary operation, or the function `where`: the attributes are joined, without those that name fill numbers.
    Binary,
    /// The method `where`, whose receiver is the first operand.
    Where,
    /// A combination: the attributes are joined.
    First,
}

/// A result's name, attributes and coordinates that are no index.
#[derive(Drop)]
pub struct Parts {
    pub name: Option<Name>,
    pub attrs: Items<Attr>,
    pub coords: Items<Coord>,
}
