//! Runs of bytes of one kind at the front of a text.
ghost use Rattle.std.specs.Prelude.{◌≡◌, length};
ghost use Rattle.std.specs.List.{prefix_len};
ghost use Rattle.std.specs.Char.{is_ascii_digit};
ghost use Rattle.xr_syntax.specs.Tokens.{is_blank, in_comment, in_name, begins_name, is_control, is_quote};

pub fn is_blank(c: u8) -> bool
    ensures { result ≡ is_blank c }
{
    c == b' ' || (c == b'\t' || c == b'\r')
}

pub fn begins_name(c: u8) -> bool
    ensures { result ≡ begins_name c }
{
    c.is_ascii_alphabetic() || c == b'_'
}

pub fn in_name(c: u8) -> bool
    ensures { result ≡ in_name c }
{
    c.is_ascii_alphanumeric() || c == b'_'
}

pub fn is_control(c: u8) -> bool
    ensures { result ≡ is_control c }
{
    c < 32 || c == 127
}

pub fn is_quote(c: u8) -> bool
    ensures { result ≡ is_quote c }
{
    c == b'"' || c == b'\''
}

/// How many blanks stand at the front.
pub fn blank_run(bytes: &[u8]) -> usize
    ensures { result ≡ prefix_len is_blank bytes.now }
{
    bytes.iter().take_while(|c| is_blank(**c)).count()
}

/// How many bytes stand before the line feed, or the text's end.
pub fn comment_run(bytes: &[u8]) -> usize
    ensures { result ≡ prefix_len in_comment bytes.now }
{
    bytes.iter().take_while(|c| **c != b'\n').count()
}

/// How many bytes of a name stand at the front.
pub fn name_run(bytes: &[u8]) -> usize
    ensures { result ≡ prefix_len in_name bytes.now }
{
    bytes.iter().take_while(|c| in_name(**c)).count()
}

/// How many digits stand at the front.
pub fn digit_run(bytes: &[u8]) -> usize
    ensures { result ≡ prefix_len is_ascii_digit bytes.now }
{
    bytes.iter().take_while(|c| c.is_ascii_digit()).count()
}
