//! What the grammar tells apart of tokens.
ghost use Rattle.std.specs.Prelude.{◌≡◌, IfOk};
ghost use Rattle.xr_syntax.specs.Grammar.{terminal_of};
ghost use Rattle.xr_syntax.specs.declared.token.Token.TheVariants as token;
ghost use Rattle.xr_script.specs.Terminals.{terminal};

use std::alloc::{AllocError, Global};
use xr_syntax::{Constant, Mark, Reserved, Token};
use xr_types::{DeepCopy, Name, OpKind, TextBytes};

/// The operators that bind equally tightly, by the rule of the grammar that has them.
#[derive(Clone, Copy, PartialEq, Eq)]
pub enum Level {
    Product,
    Sum,
    BitAnd,
    BitXor,
    BitOr,
}

/// A terminal of the grammar.
#[derive(Drop)]
pub enum Terminal {
    Name(Name),
    Number(i128),
    Text(TextBytes),
    Literal(Constant),
    Print,
    Oper(Level, OpKind),
    Compare(OpKind),
    Minus,
    Tilde,
    Dot,
    Open,
    Close,
    Left,
    Right,
    LeftBrace,
    RightBrace,
    Comma,
    Colon,
    Is,
    End,
}

fn of_word(word: Reserved) -> Terminal
    ensures { terminal result ≡ terminal_of (token.Word word) }
{
    match word {
        Reserved::Print => Terminal::Print,
        Reserved::True => Terminal::Literal(Constant::True),
        Reserved::False => Terminal::Literal(Constant::False),
        Reserved::None => Terminal::Literal(Constant::None),
        Reserved::Na => Terminal::Literal(Constant::Na),
    }
}

fn of_mark(mark: Mark) -> Terminal
    ensures { terminal result ≡ terminal_of (token.Mark mark) }
{
    match mark {
        Mark::OpenRound => Terminal::Open,
        Mark::CloseRound => Terminal::Close,
        Mark::OpenSquare => Terminal::Left,
        Mark::CloseSquare => Terminal::Right,
        Mark::OpenBrace => Terminal::LeftBrace,
        Mark::CloseBrace => Terminal::RightBrace,
        Mark::Comma => Terminal::Comma,
        Mark::Colon => Terminal::Colon,
        Mark::Dot => Terminal::Dot,
        Mark::Assign => Terminal::Is,
        Mark::EqualEqual => Terminal::Compare(OpKind::Equal),
        Mark::NotEqual => Terminal::Compare(OpKind::NotEqual),
        Mark::Less => Terminal::Compare(OpKind::Less),
        Mark::LessEqual => Terminal::Compare(OpKind::LessEqual),
        Mark::Greater => Terminal::Compare(OpKind::Greater),
        Mark::GreaterEqual => Terminal::Compare(OpKind::GreaterEqual),
        Mark::Bar => Terminal::Oper(Level::BitOr, OpKind::Or),
        Mark::Caret => Terminal::Oper(Level::BitXor, OpKind::Xor),
        Mark::Ampersand => Terminal::Oper(Level::BitAnd, OpKind::And),
        Mark::Plus => Terminal::Oper(Level::Sum, OpKind::Add),
        Mark::Minus => Terminal::Minus,
        Mark::Star => Terminal::Oper(Level::Product, OpKind::Multiply),
        Mark::SlashSlash => Terminal::Oper(Level::Product, OpKind::FloorDivide),
        Mark::Percent => Terminal::Oper(Level::Product, OpKind::Remainder),
        Mark::Slash => Terminal::Oper(Level::Product, OpKind::Divide),
        Mark::Tilde => Terminal::Tilde,
    }
}

/// The terminal that a token is, with its name or text copied.
pub fn of_token(alloc: Global, token: &Token) -> Result<Terminal, AllocError>
    ensures { IfOk result (λ t. terminal t ≡ terminal_of token.now) }
{
    match token {
        Token::Name(name) => Ok(Terminal::Name(name.deep_copy(alloc)?)),
        Token::Number(n) => Ok(Terminal::Number(*n)),
        Token::Text(text) => Ok(Terminal::Text(text.deep_copy(alloc)?)),
        Token::Word(word) => Ok(of_word(*word)),
        Token::Mark(mark) => Ok(of_mark(*mark)),
        Token::LineEnd => Ok(Terminal::End),
    }
}
