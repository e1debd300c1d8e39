//! Marks and operators.
ghost use Rattle.std.specs.Prelude.{◌≡◌, ◌<◌, ◌^◌, []};
ghost use Rattle.xr_syntax.specs.Tokens.{long_mark, short_mark, mark_front, deeper};

use xr_syntax::{Front, Mark, Token};
/// The mark that two characters make.
fn long_mark(c: u8, d: u8) -> Option<Mark>
    ensures { result ≡ long_mark c d }
{
    match (c, d) {
        (b'=', b'=') => Some(Mark::EqualEqual),
        (b'!', b'=') => Some(Mark::NotEqual),
        (b'<', b'=') => Some(Mark::LessEqual),
        (b'>', b'=') => Some(Mark::GreaterEqual),
        (b'/', b'/') => Some(Mark::SlashSlash),
        _ => None,
    }
}

/// The mark that one character makes.
fn short_mark(c: u8) -> Option<Mark>
    ensures { result ≡ short_mark c }
{
    match c {
        b'(' => Some(Mark::OpenRound),
        b')' => Some(Mark::CloseRound),
        b'[' => Some(Mark::OpenSquare),
        b']' => Some(Mark::CloseSquare),
        b'{' => Some(Mark::OpenBrace),
        b'}' => Some(Mark::CloseBrace),
        b',' => Some(Mark::Comma),
        b':' => Some(Mark::Colon),
        b'.' => Some(Mark::Dot),
        b'=' => Some(Mark::Assign),
        b'<' => Some(Mark::Less),
        b'>' => Some(Mark::Greater),
        b'|' => Some(Mark::Bar),
        b'^' => Some(Mark::Caret),
        b'&' => Some(Mark::Ampersand),
        b'+' => Some(Mark::Plus),
        b'-' => Some(Mark::Minus),
        b'*' => Some(Mark::Star),
        b'%' => Some(Mark::Percent),
        b'/' => Some(Mark::Slash),
        b'~' => Some(Mark::Tilde),
        _ => None,
    }
}

/// The mark that begins with a byte, and what stands behind the byte.
pub fn mark_front(c: u8, behind: &[u8]) -> Front
    ensures { result ≡ mark_front c behind.now }
{
    match behind {
        [] => short_front(c),
        [d, ..] => match long_mark(c, *d) {
            Some(mark) => Front::Piece(Token::Mark(mark), 2),
            None => short_front(c),
        },
    }
}

fn short_front(c: u8) -> Front
    ensures { result ≡ mark_front c [] }
{
    match short_mark(c) {
        Some(mark) => Front::Piece(Token::Mark(mark), 1),
        None => Front::Bad,
    }
}

/// How many brackets are open behind a token.
pub fn deeper(token: &Token, depth: usize) -> usize
    requires { depth < 2 ^ 32 }
    ensures { result ≡ deeper token.now depth }
{
    match token {
        Token::Mark(Mark::OpenRound | Mark::OpenSquare | Mark::OpenBrace) => depth + 1,
        Token::Mark(Mark::CloseRound | Mark::CloseSquare | Mark::CloseBrace) => {
            depth.saturating_sub(1)
        }
        _ => depth,
    }
}
