//! Bytes as hexadecimal digits.
use anyhow::{Result, bail};
use std::alloc::{AllocError, Global};

const DIGITS: [u8; 16] = *b"0123456789abcdef";

fn number_of(digit: u8) -> Option<u8> {
    match digit {
        b'0'..=b'9' => Some(digit - b'0'),
        b'a'..=b'f' => Some(digit - b'a' + 10),
        _ => None,
    }
}

/// The bytes that digits stand for. Two digits that aren't hexadecimal, or a last one that is alone, are an error.
pub fn bytes_of(alloc: Global, digits: &str) -> Result<Vec<u8>> {
    let mut bytes = Vec::new(alloc);
    for pair in digits.as_bytes().chunks(2) {
        match pair {
            [high, low] => match (number_of(*high), number_of(*low)) {
                (Some(high), Some(low)) => bytes.push((high << 4) | low)?,
                _ => bail!("no hexadecimal digits"),
            },
            _ => bail!("a digit alone"),
        }
    }
    Ok(bytes)
}

/// Appends the digits of bytes.
pub fn push_digits(out: &mut Vec<u8>, bytes: &[u8]) -> Result<(), AllocError> {
    for byte in bytes {
        out.push(DIGITS[(*byte >> 4) as usize])?;
        out.push(DIGITS[(*byte & 15) as usize])?;
    }
    Ok(())
}
