//! Texts and their tokens.
use std::alloc::{AllocError, Global};
use std::test::Fail;
use xr_syntax::{Mark, Reserved, ScanEnd, Token};
use xr_tokens::{scan, text_of};
use xr_types::ScriptKind;

/// Texts, and their tokens with lines, written by hand from the rules.
const TEXTS: [(&str, &str); 16] = [
    ("x == 3", "1 x;1 ==;1 3;end 1"),
    ("a=b#c\n\r\td", "1 a;1 =;1 b;1 LINE;2 d;end 2"),
    (
        "f(a,\n#b\n[1]) .c",
        "1 f;1 (;1 a;1 ,;3 [;3 1;3 ];3 );3 .;3 c;end 3",
    ),
    ("{\n}\n)\n(", "1 {;2 };2 LINE;3 );3 LINE;4 (;end 4"),
    ("007 1a _9", "1 0;1 0;1 7;1 1;1 a;1 _9;end 1"),
    (
        "170141183460469231731687303715884105727",
        "1 170141183460469231731687303715884105727;end 1",
    ),
    (
        "a\n170141183460469231731687303715884105728",
        "1 a;1 LINE;bad 2",
    ),
    (
        "print True False None NA Print",
        "1 PRINT;1 TRUE;1 FALSE;1 NONE;1 MISSING;1 Print;end 1",
    ),
    ("\"a'\\\"\\\\\\n\" 'é'", "1 'a'\"\\\n';1 'é';end 1"),
    ("'a", "bad 1"),
    ("'a\n'", "bad 1"),
    ("(\n'\\r'", "1 (;bad 2"),
    ("a !b", "1 a;bad 1"),
    (
        "!= <= >= // < > / : *",
        "1 !=;1 <=;1 >=;1 //;1 <;1 >;1 /;1 :;1 *;end 1",
    ),
    ("===+-|^&%~", "1 ==;1 =;1 +;1 -;1 |;1 ^;1 &;1 %;1 ~;end 1"),
    ("\n\n", "1 LINE;2 LINE;end 3"),
];

fn mark_text(mark: Mark) -> &'static str {
    match mark {
        Mark::OpenRound => "(",
        Mark::CloseRound => ")",
        Mark::OpenSquare => "[",
        Mark::CloseSquare => "]",
        Mark::OpenBrace => "{",
        Mark::CloseBrace => "}",
        Mark::Comma => ",",
        Mark::Colon => ":",
        Mark::Dot => ".",
        Mark::Assign => "=",
        Mark::EqualEqual => "==",
        Mark::NotEqual => "!=",
        Mark::Less => "<",
        Mark::LessEqual => "<=",
        Mark::Greater => ">",
        Mark::GreaterEqual => ">=",
        Mark::Bar => "|",
        Mark::Caret => "^",
        Mark::Ampersand => "&",
        Mark::Plus => "+",
        Mark::Minus => "-",
        Mark::Star => "*",
        Mark::SlashSlash => "//",
        Mark::Percent => "%",
        Mark::Slash => "/",
        Mark::Tilde => "~",
    }
}

fn word_text(word: Reserved) -> &'static str {
    match word {
        Reserved::Print => "PRINT",
        Reserved::True => "TRUE",
        Reserved::False => "FALSE",
        Reserved::None => "NONE",
        Reserved::Na => "MISSING",
    }
}

fn token_text(alloc: Global, token: &Token) -> Result<String, Fail> {
    Ok(match token {
        Token::Name(name) => String::from_str(alloc, name.as_str())?,
        Token::Number(number) => format!(in alloc; "{number}")?,
        Token::Text(text) => {
            let text = text.as_str();
            format!(in alloc; "'{text}'")?
        }
        Token::Word(word) => String::from_str(alloc, word_text(*word))?,
        Token::Mark(mark) => String::from_str(alloc, mark_text(*mark))?,
        Token::LineEnd => String::from_str(alloc, "LINE")?,
    })
}

fn scan_text(alloc: Global, text: &str) -> Result<String, Fail> {
    let Ok(text) = text_of(text.as_bytes()) else {
        return Ok(String::from_str(alloc, "no text")?);
    };
    let scan = scan(alloc, text)?;
    let mut shown = String::new(alloc);
    for placed in scan.tokens.as_slice() {
        let token = token_text(alloc, &placed.token)?;
        let line = placed.line;
        shown.push_str(format!(in alloc; "{line} {token};")?.as_str())?;
    }
    let end = match scan.end {
        ScanEnd::Whole(line) => format!(in alloc; "end {line}")?,
        ScanEnd::Bad(line) => format!(in alloc; "bad {line}")?,
    };
    shown.push_str(end.as_str())?;
    Ok(shown)
}

/// The table, from a function with no contract, so that no proof reads it.
fn texts() -> &'static [(&'static str, &'static str)] {
    &TEXTS
}

#[test]
fn texts_have_these_tokens(rt: HostRuntime) -> Result<(), Fail> {
    for (text, tokens) in texts() {
        let shown = scan_text(rt.alloc(), text)?;
        assert_eq!(rt; shown.as_str(), *tokens);
    }
    Ok(())
}

fn fault_of(bytes: &[u8]) -> Option<(ScriptKind, u32)> {
    match text_of(bytes) {
        Ok(_) => None,
        Err(fault) => Some((fault.kind, fault.line)),
    }
}

fn blanks(alloc: Global, count: usize) -> Result<Vec<u8>, AllocError> {
    let mut bytes = Vec::new(alloc);
    bytes.resize(count, b' ')?;
    Ok(bytes)
}

#[test]
fn bytes_that_are_no_text(rt: HostRuntime) -> Result<(), Fail> {
    let found = fault_of(b"a\n\n\xc3\n\xa9");
    assert!(rt; found == Some((ScriptKind::NotUtf8, 3)));
    let longest = blanks(rt.alloc(), 1_048_576)?;
    assert!(rt; fault_of(longest.as_slice()).is_none());
    let long = blanks(rt.alloc(), 1_048_577)?;
    assert!(rt; fault_of(long.as_slice()) == Some((ScriptKind::TooMany, 0)));
    Ok(())
}
