//! What stands at the front of a text.
ghost use Rattle.std.specs.Prelude.{◌≡◌, ◌≤◌, ◌∷◌, IfOk, length};
ghost use Rattle.xr_syntax.specs.Tokens.{front_of, token_front};

use crate::mark::mark_front;
use crate::name::name_front;
use crate::number::number_front;
use crate::quotes::text_front;
use crate::run::{begins_name, blank_run, comment_run, is_blank, is_quote};
use std::alloc::{AllocError, Global};
use xr_syntax::{Front, Token};
use xr_types::MOST_SCRIPT_BYTES;

/// What stands at the front of a text.
#[tactic(auto, unfolding(xr_syntax::specs::Tokens::front_of))]
pub fn front(alloc: Global, text: &str) -> Result<Front, AllocError>
    requires { length text.now ≤ MOST_SCRIPT_BYTES }
    ensures { IfOk result (λ front. front ≡ front_of text.now) }
{
    let bytes = text.as_bytes();
    match bytes {
        [] => Ok(Front::End),
        [c, behind @ ..] => {
            let c = *c;
            if is_blank(c) {
                Ok(Front::Blank(blank_run(bytes)))
            } else if c == b'#' {
                Ok(Front::Blank(comment_run(bytes)))
            } else if c == b'\n' {
                Ok(Front::LineFeed)
            } else {
                token_front(alloc, text, c, behind)
            }
        }
    }
}

/// The token at the front of a text, by the text's first byte and what stands behind it.
fn token_front(alloc: Global, text: &str, c: u8, behind: &[u8]) -> Result<Front, AllocError>
    requires parts { text.now ≡ c ∷ behind.now }
    requires size { length text.now ≤ MOST_SCRIPT_BYTES }
    ensures { IfOk result (λ front. front ≡ token_front c behind.now) }
{
    if begins_name(c) {
        name_front(alloc, text)
    } else if c == b'0' {
        Ok(Front::Piece(Token::Number(0), 1))
    } else if c.is_ascii_digit() {
        Ok(number_front(text.as_bytes()))
    } else if is_quote(c) {
        text_front(alloc, c, text.split_at(1).1)
    } else {
        Ok(mark_front(c, behind))
    }
}
