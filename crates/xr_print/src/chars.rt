//! The text of an attribute: characters of UTF-8 as a text in quotes, and other bytes as escapes.
ghost use Rattle.std.specs.Prelude.{◌≡◌, ◌++◌, ◌<◌, length, drop, OnOk, IfOk};
ghost use Rattle.std.specs.Str.{is_utf8};
ghost use Rattle.xr_defs.specs.Printing.{is_front, front_len, chars_from, chars_text};
ghost use Rattle.xr_print.specs.Pieces.{first_text};

use crate::names::{push_escape, push_quoted_byte};
use std::alloc::AllocError;

fn is_utf8(bytes: &[u8]) -> bool
    ensures { result ≡ is_utf8 bytes.now }
{
    match std::str::from_utf8(bytes) {
        Ok(_) => true,
        Err(_) => false,
    }
}

// Whether so many bytes at the front are UTF-8 by themselves.
fn is_front(n: usize, bytes: &[u8]) -> bool
    ensures { result ≡ is_front n bytes.now }
{
    if n > bytes.len() {
        return false;
    }
    let (front, _) = bytes.split_at(n);
    is_utf8(front)
}

// How many bytes at the front are one character, and 0 where none are.
fn front_len(bytes: &[u8]) -> usize
    ensures { result ≡ front_len bytes.now }
{
    if is_front(1, bytes) {
        1
    } else if is_front(2, bytes) {
        2
    } else if is_front(3, bytes) {
        3
    } else if is_front(4, bytes) {
        4
    } else {
        0
    }
}

// Appends the first byte of a character of so many bytes, or one with no character at it.
fn push_first(out: &mut Vec<u8>, b: u8, len: usize) -> Result<(), AllocError>
    ensures { OnOk result (out.new.items ≡ out.old.items ++ first_text b len) }
{
    match len {
        0 => push_escape(out, b),
        1 => push_quoted_byte(out, b),
        _ => Ok(out.push(b)?),
    }
}

// Appends the first of some bytes, of which so many belong to a character that is begun, and answers how many then do.
fn push_one(out: &mut Vec<u8>, bytes: &[u8], left: usize) -> Result<usize, AllocError>
    requires { 0 < length bytes.now }
    ensures { IfOk result (λ n. out.new.items ++ chars_from n (drop 1 bytes.now) ≡ out.old.items ++ chars_from left bytes.now) }
{
    let first = bytes[0];
    if left > 0 {
        out.push(first)?;
        return Ok(left - 1);
    }
    let len = front_len(bytes);
    push_first(out, first, len)?;
    Ok(len.saturating_sub(1))
}

fn push_from(out: &mut Vec<u8>, bytes: &[u8]) -> Result<(), AllocError>
    ensures { OnOk result (out.new.items ≡ out.old.items ++ chars_from 0 bytes.now) }
{
    let mut left: usize = 0;
    for i in 0..bytes.len() {
        let (_, rest) = bytes.split_at(i);
        left = push_one(out, rest, left)?;
    }
    Ok(())
}

/// Appends the text of bytes, in quotes.
pub(crate) fn push_chars(out: &mut Vec<u8>, bytes: &[u8]) -> Result<(), AllocError>
    ensures { OnOk result (out.new.items ≡ out.old.items ++ chars_text bytes.now) }
{
    out.push(b'"')?;
    push_from(out, bytes)?;
    Ok(out.push(b'"')?)
}
