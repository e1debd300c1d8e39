//! The tokens of a text.
ghost use Rattle.std.specs.Prelude.{◌≡◌, ◌≤◌, ◌++◌, IfOk, OnOk, length};
ghost use Rattle.xr_syntax.specs.Tokens.{tokens_of};
ghost use Rattle.xr_tokens.specs.Lines.{line_end};

use crate::fronts::front;
use crate::mark::deeper;
use std::alloc::{AllocError, Global};
use xr_syntax::{Front, Placed, Scan, ScanEnd, Token};
use xr_types::{Items, MOST_SCRIPT_BYTES};

/// The tokens of a text with their lines, up to its end or to the first place where none can be formed.
pub fn scan(alloc: Global, text: &str) -> Result<Scan, AllocError>
    requires { length text.now ≤ MOST_SCRIPT_BYTES }
    ensures { IfOk result (λ scan. scan ≡ tokens_of text.now) }
{
    let mut tokens = Items::new(alloc);
    let mut rest = text;
    let mut depth = 0usize;
    let mut line = 1u32;
    'scan: loop {
        match front(alloc, rest)? {
            Front::End => {
                return Ok(Scan {
                    tokens,
                    end: ScanEnd::Whole(line),
                });
            }
            Front::Bad => {
                return Ok(Scan {
                    tokens,
                    end: ScanEnd::Bad(line),
                });
            }
            Front::Blank(len) => rest = rest.split_at(len).1,
            Front::LineFeed => {
                end_line(&mut tokens, depth, line)?;
                line += 1;
                rest = rest.split_at(1).1;
            }
            Front::Piece(token, len) => {
                depth = deeper(&token, depth);
                tokens.push(Placed { token, line })?;
                rest = rest.split_at(len).1;
            }
        }
    }
}

/// A line feed outside brackets ends a statement.
fn end_line(tokens: &mut Items<Placed>, depth: usize, line: u32) -> Result<(), AllocError>
    ensures { OnOk result (tokens.new ≡ tokens.old ++ line_end depth line) }
{
    if depth == 0 {
        tokens.push(Placed {
            token: Token::LineEnd,
            line,
        })?;
    }
    Ok(())
}
