//! Bytes as the text of a script.
ghost use Rattle.std.specs.Prelude.{◌≡◌, ◌≤◌, ◌==◌, length, take, Some, None, MatchResult, OnOk, count_by};
ghost use Rattle.xr_syntax.specs.Tokens.{text_fault, line_behind};

use std::str;
use xr_types::{MOST_SCRIPT_BYTES, ScriptFault, ScriptKind};

/// The bytes as a text, where they are not too many and are UTF-8.
pub fn text_of(bytes: &[u8]) -> Result<&str, ScriptFault>
    ensures cases { MatchResult result (λ text. (text.now ≡ bytes.now) × (text_fault bytes.now ≡ None)) (λ fault. text_fault bytes.now ≡ Some fault) }
    ensures size { OnOk result (length bytes.now ≤ MOST_SCRIPT_BYTES) }
{
    if bytes.len() > MOST_SCRIPT_BYTES {
        return Err(ScriptFault {
            kind: ScriptKind::TooMany,
            line: 0,
        });
    }
    match str::from_utf8(bytes) {
        Ok(text) => Ok(text),
        Err(fault) => Err(ScriptFault {
            kind: ScriptKind::NotUtf8,
            line: line_of(bytes, fault.valid_up_to()),
        }),
    }
}

/// The line of the byte behind this many.
fn line_of(bytes: &[u8], behind: usize) -> u32
    requires size { length bytes.now ≤ MOST_SCRIPT_BYTES }
    requires within { behind ≤ length bytes.now }
    ensures { result ≡ line_behind behind bytes.now }
{
    let feeds = bytes
        .split_at(behind)
        .0
        .iter()
        .filter(|c| **c == b'\n')
        .count();
    feeds as u32 + 1
}
