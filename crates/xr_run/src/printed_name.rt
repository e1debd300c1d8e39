//! Prints names, their control characters escaped.
ghost use Rattle.std.specs.Prelude.{◌≡◌, ◌<◌, ◌++◌, OnOk};
ghost use Rattle.xr_defs.specs.Text.{is_control, hex_digit, printed_byte, printed_name};

use std::alloc::AllocError;

fn is_control(b: u8) -> bool
    ensures { result ≡ is_control b }
{
    b < 32 || b == 127
}

fn hex_digit(n: u8) -> u8
    requires { n < 16 }
    ensures { result ≡ hex_digit n }
{
    if n < 10 { b'0' + n } else { b'a' - 10 + n }
}

fn push_byte(out: &mut Vec<u8>, b: u8) -> Result<(), AllocError>
    ensures { OnOk result (out.new.items ≡ out.old.items ++ printed_byte b) }
{
    if is_control(b) {
        out.extend_from_slice(&[b'\\', b'x', hex_digit(b / 16), hex_digit(b % 16)])
    } else {
        Ok(out.push(b)?)
    }
}

/// Appends a name.
pub(crate) fn push_name(out: &mut Vec<u8>, name: &[u8]) -> Result<(), AllocError>
    ensures { OnOk result (out.new.items ≡ out.old.items ++ printed_name name.now) }
{
    for b in name {
        push_byte(out, *b)?;
    }
    Ok(())
}
