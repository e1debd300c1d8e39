//! Names and texts, their control characters escaped.
ghost use Rattle.std.specs.Prelude.{◌≡◌, ◌++◌, ◌<◌, flat_map, OnOk};
ghost use Rattle.xr_defs.specs.Text.{is_control, hex_digit, escape, printed_byte, printed_name, quoted_byte, quoted};

use std::alloc::AllocError;

fn is_control(b: u8) -> bool
    ensures { result ≡ is_control b }
{
    b < 32 || b == 127
}

fn hex_digit(n: u8) -> u8
    requires { n < 16 }
    ensures { result ≡ hex_digit n }
{
    if n < 10 { b'0' + n } else { b'a' - 10 + n }
}

/// Appends `\x` and a byte's two digits.
pub(crate) fn push_escape(out: &mut Vec<u8>, b: u8) -> Result<(), AllocError>
    ensures { OnOk result (out.new.items ≡ out.old.items ++ escape b) }
{
    out.extend_from_slice(&[b'\\', b'x', hex_digit(b / 16), hex_digit(b % 16)])
}

fn push_byte(out: &mut Vec<u8>, b: u8) -> Result<(), AllocError>
    ensures { OnOk result (out.new.items ≡ out.old.items ++ printed_byte b) }
{
    if is_control(b) {
        push_escape(out, b)
    } else {
        Ok(out.push(b)?)
    }
}

/// Appends a name.
pub(crate) fn push_name(out: &mut Vec<u8>, name: &[u8]) -> Result<(), AllocError>
    ensures { OnOk result (out.new.items ≡ out.old.items ++ printed_name name.now) }
{
    for b in name {
        push_byte(out, *b)?;
    }
    Ok(())
}

/// Appends a byte of a text that stands in quotes.
pub(crate) fn push_quoted_byte(out: &mut Vec<u8>, b: u8) -> Result<(), AllocError>
    ensures { OnOk result (out.new.items ≡ out.old.items ++ quoted_byte b) }
{
    if b == b'"' || b == b'\\' {
        out.extend_from_slice(&[b'\\', b])
    } else {
        push_byte(out, b)
    }
}

fn push_quoted_bytes(out: &mut Vec<u8>, text: &[u8]) -> Result<(), AllocError>
    ensures { OnOk result (out.new.items ≡ out.old.items ++ flat_map quoted_byte text.now) }
{
    for b in text {
        push_quoted_byte(out, *b)?;
    }
    Ok(())
}

/// Appends a text in quotes.
pub(crate) fn push_quoted(out: &mut Vec<u8>, text: &[u8]) -> Result<(), AllocError>
    ensures { OnOk result (out.new.items ≡ out.old.items ++ quoted text.now) }
{
    out.push(b'"')?;
    push_quoted_bytes(out, text)?;
    Ok(out.push(b'"')?)
}
