//! Scripts from their tokens.
ghost use Rattle.std.specs.Prelude.{◌≡◌, IfOk, Err, Some, None, Option, [], ◌∷◌, ◌++◌};
ghost use Rattle.xr_syntax.specs.Syntax.{line_of};
ghost use Rattle.xr_types.specs.declared.status.ScriptFault.{ScriptFault as Fault};
ghost use Rattle.xr_syntax.specs.Scripts.{IsParsed, FirstFault, terminals, passes, tallied};
ghost use Rattle.xr_syntax.specs.Grammar.{End as line_end, terminal_of, starts_number};
ghost use Rattle.xr_grammar.specs.Machine.{settled, move as move_of, step as step_of, Between, Spot, Next as m_next};
ghost use Rattle.xr_types.specs.declared.status.ScriptKind.{ScriptKind as Kind};
ghost use Rattle.xr_syntax.specs.declared.scan.ScanEnd.TheVariants.{Whole as whole_at};
ghost use Rattle.xr_script.specs.declared.fault.ParseFault.TheVariants.{Script as of_script};
ghost use Rattle.xr_syntax.specs.declared.tally.Tally.{Tally as Counts};
ghost use Rattle.xr_script.specs.Terminals.{terminal};
ghost use Rattle.xr_script.specs.States.{state_of, Follows};
ghost use Rattle.xr_grammar.specs.Reading.{faulty};
ghost use Rattle.xr_script.specs.Progress.{lines_of, spot_of, moved, Moves, Walks, Ends};

use crate::fault::ParseFault;
use crate::operand::begin;
use crate::progress::{Point, Progress, Walk};
use crate::state::{Next, State, Stop};
use crate::step::step;
use crate::tally::{counted, limit_passed, nothing_counted};
use crate::terminal::{Terminal, of_token};
use std::alloc::{AllocError, Global};
use xr_syntax::{Placed, Scan, ScanEnd, Script, Statement, Tally, Token};
use xr_types::{ScriptFault, ScriptKind};

/// The statements with one more.
#[tactic(auto, using(crate::proofs::Runs::lines_more))]
fn with_statement(
    mut statements: Vec<Statement>,
    statement: Statement,
) -> Result<Vec<Statement>, AllocError>
    ensures { IfOk result (λ v. lines_of v.items ≡ lines_of statements.items ++ line_of statement ∷ []) }
{
    statements.push(statement)?;
    Ok(statements)
}

/// Puts a statement that has ended to the others.
fn settle(statements: Vec<Statement>, next: Result<Next, Stop>) -> Result<Progress, Stop>
    ensures { (o : Option m_next) → Follows next o → Moves result (settled (lines_of statements.items) o) }
{
    match next {
        Ok(Next::Go(state)) => Ok(Progress {
            statements,
            point: Point::Within(state),
        }),
        Ok(Next::Done(statement)) => Ok(Progress {
            statements: with_statement(statements, statement)?,
            point: Point::Between,
        }),
        Err(stop) => Err(stop),
    }
}

/// The first token of a statement, or the end of an empty line.
fn between(alloc: Global, statements: Vec<Statement>, token: Terminal) -> Result<Progress, Stop>
    ensures { Moves result (move_of (lines_of statements.items) Between (terminal token)) }
{
    match token {
        Terminal::End => Ok(Progress {
            statements,
            point: Point::Between,
        }),
        token => settle(statements, begin(alloc, token)),
    }
}

/// One token of a statement that has begun.
fn within(
    alloc: Global,
    statements: Vec<Statement>,
    state: State,
    token: Terminal,
) -> Result<Progress, Stop>
    ensures { Moves result (settled (lines_of statements.items) (step_of (state_of state) (terminal token))) }
{
    settle(statements, step(alloc, state, token))
}

/// One token.
fn advance(alloc: Global, progress: Progress, token: Terminal) -> Result<Progress, Stop>
    ensures { Moves result (moved progress (terminal token)) }
{
    let Progress { statements, point } = progress;
    match point {
        Point::Between => between(alloc, statements, token),
        Point::Within(state) => within(alloc, statements, state, token),
    }
}

fn fault(kind: ScriptKind, line: u32) -> ParseFault
    ensures { result ≡ of_script (faulty kind line) }
{
    ParseFault::Script(ScriptFault { kind, line })
}

/// The fault where a token is not taken.
fn stopped(stop: Stop, line: u32) -> ParseFault
    ensures walk { (o : Option Spot) (x : Option Kind) (y : Counts) → Moves (Err stop) o → Walks (Err result) o x y line }
    ensures end { (o : Option Spot) → Moves (Err stop) o → Ends (Err result) (whole_at line) o }
{
    match stop {
        Stop::Syntax => fault(ScriptKind::BadSyntax, line),
        Stop::Memory => ParseFault::NoMemory,
    }
}

/// A token that passes a limit: its grammar comes first.
fn over_limit(
    alloc: Global,
    progress: Progress,
    token: Terminal,
    kind: ScriptKind,
    line: u32,
) -> Result<Walk, ParseFault>
    ensures { (y : Counts) → Walks result (moved progress (terminal token)) (Some kind) y line }
{
    match advance(alloc, progress, token) {
        Ok(progress) => {
            drop(progress);
            Err(fault(kind, line))
        }
        Err(reason) => Err(stopped(reason, line)),
    }
}

/// A token that passes no limit, with the counts behind it.
fn walk_on(
    alloc: Global,
    progress: Progress,
    token: Terminal,
    tally: Tally,
    line: u32,
) -> Result<Walk, ParseFault>
    ensures { Walks result (moved progress (terminal token)) None tally line }
{
    match advance(alloc, progress, token) {
        Ok(progress) => Ok(Walk { progress, tally }),
        Err(stop) => Err(stopped(stop, line)),
    }
}

/// One token on a line.
fn take(
    alloc: Global,
    walk: Walk,
    token: Terminal,
    number_next: bool,
    line: u32,
) -> Result<Walk, ParseFault>
    ensures { Walks result (moved walk.progress (terminal token)) (passes walk.tally (terminal token) number_next) (tallied walk.tally (terminal token) number_next) line }
{
    let Walk { progress, tally } = walk;
    match limit_passed(&tally, &token, number_next) {
        Some(kind) => over_limit(alloc, progress, token, kind, line),
        None => {
            let tally = counted(&tally, &token, number_next);
            walk_on(alloc, progress, token, tally, line)
        }
    }
}

/// One token.
fn one(alloc: Global, walk: Walk, placed: &Placed, number_next: bool) -> Result<Walk, ParseFault>
    ensures { Walks result (moved walk.progress (terminal_of placed.now.token)) (passes walk.tally (terminal_of placed.now.token) number_next) (tallied walk.tally (terminal_of placed.now.token) number_next) placed.now.line }
{
    match of_token(alloc, &placed.token) {
        Ok(token) => take(alloc, walk, token, number_next, placed.line),
        Err(_) => {
            drop(walk);
            Err(ParseFault::NoMemory)
        }
    }
}

/// Whether tokens begin with a number.
fn begins_with_number(tokens: &[Placed]) -> bool
    ensures { result ≡ starts_number (terminals tokens.now) }
{
    match tokens.first() {
        Some(placed) => matches!(placed.token, Token::Number(_)),
        None => false,
    }
}

/// The script, where no statement has begun that isn't ended.
fn script_of(progress: Progress, line: u32) -> Result<Script, ParseFault>
    ensures { Ends result (whole_at line) (Some (spot_of progress)) }
{
    let Progress { statements, point } = progress;
    match point {
        Point::Between => Ok(Script { statements }),
        Point::Within(state) => {
            drop(state);
            Err(fault(ScriptKind::BadSyntax, line))
        }
    }
}

/// The end of the tokens, which ends a line.
fn finish(alloc: Global, progress: Progress, end: ScanEnd) -> Result<Script, ParseFault>
    ensures { Ends result end (moved progress line_end) }
{
    match end {
        ScanEnd::Bad(line) => {
            drop(progress);
            Err(fault(ScriptKind::BadToken, line))
        }
        ScanEnd::Whole(line) => match advance(alloc, progress, Terminal::End) {
            Ok(progress) => script_of(progress, line),
            Err(stop) => Err(stopped(stop, line)),
        },
    }
}

/// The script of a text's tokens, or its first fault: at the first token with which no script goes on, or else that
/// passes a limit, then where no token can be formed, or at the end of the text.
pub fn parse_tokens(alloc: Global, scan: &Scan) -> Result<Script, ParseFault>
    ensures script { IfOk result (λ s. IsParsed scan.now (lines_of s.statements.items)) }
    ensures fault { (f : Fault) → result ≡ Err (of_script f) → FirstFault scan.now f }
{
    let tokens = scan.tokens.as_slice();
    let mut walk = Walk {
        progress: Progress {
            statements: Vec::new(alloc),
            point: Point::Between,
        },
        tally: nothing_counted(),
    };
    for i in 0..tokens.len() {
        let number_next = begins_with_number(tokens.split_at(i + 1).1);
        match one(alloc, walk, &tokens[i], number_next) {
            Ok(next) => walk = next,
            Err(fault) => return Err(fault),
        }
    }
    finish(alloc, walk.progress, scan.end)
}
