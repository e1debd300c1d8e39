//! What a scan of a script's text gives.
use crate::token::{Placed, Token};
use xr_types::Items;

/// Where the tokens of a text end: with the text, or where no token can be formed; each with its line,
/// counted from 1.
#[derive(Clone, Copy, PartialEq, Eq)]
pub enum ScanEnd {
    Whole(u32),
    Bad(u32),
}

/// The tokens of a text in order, up to the first place where none can be formed.
#[derive(Drop)]
pub struct Scan {
    pub tokens: Items<Placed>,
    pub end: ScanEnd,
}

/// What stands at the front of a text.
#[derive(Drop)]
pub enum Front {
    /// Nothing: the text ends.
    End,
    /// No token can be formed.
    Bad,
    /// So many bytes that are blanks or a comment.
    Blank(usize),
    LineFeed,
    /// A token, and how many bytes it takes.
    Piece(Token, usize),
}
