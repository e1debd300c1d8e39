//! Names and reserved words.
ghost use Rattle.std.specs.Prelude.{◌≡◌, IfOk};
ghost use Rattle.xr_syntax.specs.Tokens.{reserved_of, named, name_front};

use crate::run::name_run;
use std::alloc::{AllocError, Global};
use xr_syntax::{Front, Reserved, Token};
use xr_types::TextBytes;

fn reserved(text: &str) -> Option<Reserved>
    ensures { result ≡ reserved_of text.now }
{
    if text == "print" {
        Some(Reserved::Print)
    } else if text == "True" {
        Some(Reserved::True)
    } else if text == "False" {
        Some(Reserved::False)
    } else if text == "None" {
        Some(Reserved::None)
    } else if text == "NA" {
        Some(Reserved::Na)
    } else {
        None
    }
}

fn named(alloc: Global, text: &str) -> Result<Token, AllocError>
    ensures { IfOk result (λ token. token ≡ named text.now (reserved_of text.now)) }
{
    match reserved(text) {
        Some(word) => Ok(Token::Word(word)),
        None => Ok(Token::Name(TextBytes::from_str(alloc, text)?)),
    }
}

/// The name or reserved word at the front of a text.
pub fn name_front(alloc: Global, text: &str) -> Result<Front, AllocError>
    ensures { IfOk result (λ front. front ≡ name_front text.now) }
{
    let len = name_run(text.as_bytes());
    let token = named(alloc, text.split_at(len).0)?;
    Ok(Front::Piece(token, len))
}
