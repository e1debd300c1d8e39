//! The limits of a script, counted along its tokens.
ghost use Rattle.std.specs.Prelude.{◌≡◌, ◌+◌, ◌-◌, ◌&&◌, not, nat_lt, false, None, if◌then◌else◌};
ghost use Rattle.xr_types.specs.declared.limits.TheConstants.{MOST_STATEMENT_ELEMENTS as most_elements};
ghost use Rattle.xr_syntax.specs.Scripts.{no_tally, ends_operand as is_operand_end, is_callee as calls, opens as opens_one, closes as closes_one, counts as counts_it, begins as begins_one, is_end as ends_line, one_if, tallied, passes};
ghost use Rattle.xr_script.specs.Terminals.{terminal};

use crate::terminal::Terminal;
use xr_syntax::Tally;
use xr_types::{MOST_OPEN_BRACKETS, MOST_STATEMENT_ELEMENTS, MOST_STATEMENTS, ScriptKind};

/// Nothing is counted.
pub fn nothing_counted() -> Tally
    ensures { result ≡ no_tally }
{
    Tally {
        statements: 0,
        elements: 0,
        brackets: 0,
        in_statement: false,
        behind_operand: false,
        behind_callee: false,
    }
}

fn ends_operand(t: &Terminal) -> bool
    ensures { result ≡ is_operand_end (terminal t.now) }
{
    match t {
        Terminal::Name(_) => true,
        Terminal::Number(_) => true,
        Terminal::Text(_) => true,
        Terminal::Literal(_) => true,
        Terminal::Close => true,
        Terminal::Right => true,
        Terminal::RightBrace => true,
        _ => false,
    }
}

fn is_callee(t: &Terminal) -> bool
    ensures { result ≡ calls (terminal t.now) }
{
    match t {
        Terminal::Name(_) => true,
        Terminal::Print => true,
        _ => false,
    }
}

fn opens(t: &Terminal) -> bool
    ensures { result ≡ opens_one (terminal t.now) }
{
    match t {
        Terminal::Open => true,
        Terminal::Left => true,
        Terminal::LeftBrace => true,
        _ => false,
    }
}

fn closes(t: &Terminal) -> bool
    ensures { result ≡ closes_one (terminal t.now) }
{
    match t {
        Terminal::Close => true,
        Terminal::Right => true,
        Terminal::RightBrace => true,
        _ => false,
    }
}

fn is_end(t: &Terminal) -> bool
    ensures { result ≡ ends_line (terminal t.now) }
{
    match t {
        Terminal::End => true,
        _ => false,
    }
}

/// Whether a token is a counted element, where the next one is a number or not.
fn counts(tally: &Tally, t: &Terminal, number_next: bool) -> bool
    ensures { result ≡ counts_it tally.now (terminal t.now) number_next }
{
    match t {
        Terminal::Oper(_, _) => true,
        Terminal::Compare(_) => true,
        Terminal::Tilde => true,
        Terminal::Minus => tally.behind_operand || !number_next,
        Terminal::Open => tally.behind_callee,
        Terminal::Left => tally.behind_operand,
        _ => false,
    }
}

/// Whether a token begins a statement.
fn begins(tally: &Tally, t: &Terminal) -> bool
    ensures { result ≡ begins_one tally.now (terminal t.now) }
{
    !(tally.in_statement || is_end(t))
}

/// The limit that a token passes.
pub fn limit_passed(tally: &Tally, t: &Terminal, number_next: bool) -> Option<ScriptKind>
    ensures { result ≡ passes tally.now (terminal t.now) number_next }
{
    if opens(t) && !(tally.brackets < MOST_OPEN_BRACKETS) {
        return Some(ScriptKind::TooDeep);
    }
    if counts(tally, t, number_next) && !(tally.elements < MOST_STATEMENT_ELEMENTS) {
        return Some(ScriptKind::TooMany);
    }
    if begins(tally, t) && !(tally.statements < MOST_STATEMENTS) {
        return Some(ScriptKind::TooMany);
    }
    None
}

/// A count with one more where something is counted, which its limit allows.
fn more(count: usize, is_counted: bool, most: usize) -> usize
    requires { (is_counted && not (nat_lt count most)) ≡ false }
    ensures { result ≡ count + one_if is_counted }
{
    if is_counted { count + 1 } else { count }
}

/// One less where a bracket is closed, of which one is open in a script.
fn less(count: usize, is_closed: bool) -> usize
    ensures { result ≡ count - one_if is_closed }
{
    if is_closed {
        count.saturating_sub(1)
    } else {
        count
    }
}

/// The counted elements behind a token.
fn elements_behind(tally: &Tally, t: &Terminal, number_next: bool) -> usize
    requires { (counts_it tally.now (terminal t.now) number_next && not (nat_lt tally.now.elements most_elements)) ≡ false }
    ensures { result ≡ (if ends_line (terminal t.now) then 0 else tally.now.elements + one_if (counts_it tally.now (terminal t.now) number_next)) }
{
    let counts = counts(tally, t, number_next);
    if is_end(t) {
        0
    } else {
        more(tally.elements, counts, MOST_STATEMENT_ELEMENTS)
    }
}

/// The counts behind a token that passes no limit.
pub fn counted(tally: &Tally, t: &Terminal, number_next: bool) -> Tally
    requires { passes tally.now (terminal t.now) number_next ≡ None }
    ensures { result ≡ tallied tally.now (terminal t.now) number_next }
{
    let elements = elements_behind(tally, t, number_next);
    let opened = more(tally.brackets, opens(t), MOST_OPEN_BRACKETS);
    let begun = more(tally.statements, begins(tally, t), MOST_STATEMENTS);
    Tally {
        statements: begun,
        elements,
        brackets: less(opened, closes(t)),
        in_statement: !is_end(t),
        behind_operand: ends_operand(t),
        behind_callee: is_callee(t),
    }
}
