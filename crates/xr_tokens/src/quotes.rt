//! Texts in quotes.
ghost use Rattle.std.specs.Prelude.{◌≡◌, ◌<◌, ◌≤◌, ◌+◌, IfOk, IfSome, IsTrue, length, Some, None, if◌then◌else◌, string_bytes};
ghost use Rattle.std.specs.List.{prefix_len};
ghost use Rattle.xr_syntax.specs.Tokens.{is_quote, escape_of, quoted, text_front};
ghost use Rattle.xr_tokens.specs.Pieces.{is_plain, escape_at, begins};

use crate::run::is_control;
use std::alloc::{AllocError, Global};
use xr_syntax::{Front, Token};
use xr_types::{MOST_SCRIPT_BYTES, TextBytes};

/// What a byte behind a backslash stands for.
fn escape_of(c: u8) -> Option<char>
    ensures value { result ≡ escape_of c }
    ensures ascii { IfSome result (λ e. e < 128) }
{
    match c {
        b'\\' => Some('\\'),
        b'"' => Some('"'),
        b'\'' => Some('\''),
        b'n' => Some('\n'),
        b't' => Some('\t'),
        _ => None,
    }
}

/// What the escape at the front stands for.
fn escape_at(bytes: &[u8]) -> Option<char>
    ensures value { result ≡ escape_at bytes.now }
    ensures ascii { IfSome result (λ e. e < 128) }
{
    match bytes {
        [b'\\', d, ..] => escape_of(*d),
        _ => None,
    }
}

fn begins(quote: u8, bytes: &[u8]) -> bool
    ensures { result ≡ begins quote bytes.now }
{
    match bytes {
        [c, ..] => *c == quote,
        [] => false,
    }
}

/// How many bytes at the front stand for themselves in a text that this quote closes.
fn plain_run(quote: u8, bytes: &[u8]) -> usize
    ensures { result ≡ prefix_len (is_plain quote) bytes.now }
{
    bytes
        .iter()
        .take_while(|c| **c != quote && (**c != b'\\' && !is_control(**c)))
        .count()
}

/// The text up to the quote that closes it, and how many bytes it takes with that quote.
fn quoted(alloc: Global, quote: u8, rest: &str) -> Result<Option<(TextBytes, usize)>, AllocError>
    requires quote { IsTrue (is_quote quote) }
    requires size { length rest.now ≤ MOST_SCRIPT_BYTES }
    ensures { IfOk result (λ text. text ≡ quoted quote rest.now) }
{
    let mut text = String::new(alloc);
    let mut left = rest;
    'pieces: loop {
        let (plain, behind) = left.split_at(plain_run(quote, left.as_bytes()));
        text.push_str(plain)?;
        match escape_at(behind.as_bytes()) {
            Some(c) => {
                text.push(c)?;
                left = behind.split_at(2).1;
            }
            None => {
                let len = rest.len() - behind.len();
                return Ok(closed(text, len, begins(quote, behind.as_bytes())));
            }
        }
    }
}

/// A text that takes this many bytes, where a quote closes it.
fn closed(text: String, len: usize, is_closed: bool) -> Option<(TextBytes, usize)>
    requires { len ≤ MOST_SCRIPT_BYTES }
    ensures { result ≡ (if is_closed then Some (string_bytes text, len + 1) else None) }
{
    if is_closed {
        Some((TextBytes::of(text), len + 1))
    } else {
        None
    }
}

/// The text in quotes at the front, by what stands behind its opening quote.
pub fn text_front(alloc: Global, quote: u8, rest: &str) -> Result<Front, AllocError>
    requires quote { IsTrue (is_quote quote) }
    requires size { length rest.now ≤ MOST_SCRIPT_BYTES }
    ensures { IfOk result (λ front. front ≡ text_front (quoted quote rest.now)) }
{
    match quoted(alloc, quote, rest)? {
        Some((text, len)) => Ok(Front::Piece(Token::Text(text), 1 + len)),
        None => Ok(Front::Bad),
    }
}
