//! The tokens of a script.
use xr_types::{Name, TextBytes};

/// A token. A name is none of the reserved words.
#[derive(Drop)]
pub enum Token {
    Name(Name),
    /// A whole number from 0 to 2^127 - 1.
    Number(i128),
    /// A text, its escapes resolved.
    Text(TextBytes),
    Word(Reserved),
    Mark(Mark),
    /// A line feed outside brackets.
    LineEnd,
}

/// The reserved words.
#[derive(Clone, Copy, PartialEq, Eq)]
pub enum Reserved {
    Print,
    True,
    False,
    None,
    Na,
}

/// Marks and operators, by how they are written.
#[derive(Clone, Copy, PartialEq, Eq)]
pub enum Mark {
    OpenRound,
    CloseRound,
    OpenSquare,
    CloseSquare,
    OpenBrace,
    CloseBrace,
    Comma,
    Colon,
    Dot,
    Assign,
    EqualEqual,
    NotEqual,
    Less,
    LessEqual,
    Greater,
    GreaterEqual,
    Bar,
    Caret,
    Ampersand,
    Plus,
    Minus,
    Star,
    SlashSlash,
    Percent,
    Slash,
    Tilde,
}

/// A token with the line on which it begins, counted from 1.
#[derive(Drop)]
pub struct Placed {
    pub token: Token,
    pub line: u32,
}
