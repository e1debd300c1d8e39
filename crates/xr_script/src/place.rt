//! Inside an expression.
ghost use Rattle.std.specs.Prelude.{◌≡◌, cond, None, Some};
ghost use Rattle.xr_syntax.specs.Syntax.{tree_of, all_trees, all_entries, all_arguments, plain_only as only_plain, Variable, NoArg};
ghost use Rattle.xr_grammar.specs.Machine.{step_at as step_at_of, Dotted, Asked, Indexed, Indexing, AtItem, AtEntry, AtKey, AtArg, AtName, At, asks, go};
ghost use Rattle.xr_grammar.specs.Machine.{operand as operand_of, after_operand as after_operand_of, fresh as no_wait, Inside as m_inside, InPlain};
ghost use Rattle.xr_syntax.specs.Grammar.{Of, Is, Open, Name as a_name, Text as a_text};
ghost use Rattle.xr_script.specs.Terminals.{terminal};
ghost use Rattle.xr_script.specs.States.{head_of, pend_of, seat_around, pend_for, around_for, place_of, pend_at, around_at, next_of, Follows};

use crate::after::{after, after_name_inside};
use crate::around::{enter, no_room, refused};
use crate::call::end_call;
use crate::operand::operand_inside;
use crate::state::{Bracket, Head, Next, Place, Seat, State, Stop};
use crate::terminal::Terminal;
use crate::wait::nothing;
use std::alloc::Global;
use xr_syntax::Expr;
use xr_tree::{Arguments, TableEntries, boxed, index, list, table};
use xr_types::{Name, TextBytes};

fn dotted(e: Expr, seat: Seat, token: Terminal) -> Result<Next, Stop>
    ensures { Follows result (step_at_of (Dotted (tree_of e)) (pend_of seat) (seat_around seat) (terminal token)) }
{
    match token {
        Terminal::Name(name) => Ok(Next::Go(State::At(Place::Asked(e, name), seat))),
        _ => {
            drop(e);
            refused(seat)
        }
    }
}

/// The head of a call of a method; `to_netcdf` is one that may end a statement.
fn asked_head(e: Box<Expr>, name: Name, seat: &Seat) -> Head
    ensures head { head_of result ≡ Of (tree_of e.value) name }
    ensures pend { pend_for result seat.now ≡ asks name (pend_of seat.now) }
    ensures around { around_for result seat.now ≡ seat_around seat.now }
{
    match seat {
        Seat::In(_, _) => Head::Of(e, name),
        Seat::Alone => {
            if name.as_str() == "to_netcdf" {
                Head::Write(e)
            } else {
                Head::Of(e, name)
            }
        }
    }
}

/// The `(` behind the name of a method.
fn asked_call(alloc: Global, e: Box<Expr>, name: Name, seat: Seat) -> Next
    ensures { go (At (AtArg (Of (tree_of e.value) name) NoArg) (asks name (pend_of seat)) (seat_around seat)) ≡ Some (next_of result) }
{
    let head = asked_head(e, name, &seat);
    Next::Go(State::At(Place::AtArg(head, Arguments::new(alloc)), seat))
}

fn asked(alloc: Global, e: Expr, name: Name, seat: Seat, token: Terminal) -> Result<Next, Stop>
    ensures { Follows result (step_at_of (Asked (tree_of e) name) (pend_of seat) (seat_around seat) (terminal token)) }
{
    match token {
        Terminal::Open => {
            let e = boxed(alloc, e)?;
            Ok(asked_call(alloc, e, name, seat))
        }
        _ => {
            drop(e);
            refused(seat)
        }
    }
}

fn indexed(e: Expr, seat: Seat, token: Terminal) -> Result<Next, Stop>
    ensures { Follows result (step_at_of (Indexed (tree_of e)) (pend_of seat) (seat_around seat) (terminal token)) }
{
    match token {
        Terminal::Text(text) => Ok(Next::Go(State::At(Place::Indexing(e, text), seat))),
        _ => {
            drop(e);
            refused(seat)
        }
    }
}

#[tactic(auto, using(crate::proofs::Steps::indexes_seat))]
fn indexing(
    alloc: Global,
    e: Expr,
    text: TextBytes,
    seat: Seat,
    token: Terminal,
) -> Result<Next, Stop>
    ensures { Follows result (step_at_of (Indexing (tree_of e) text) (pend_of seat) (seat_around seat) (terminal token)) }
{
    match token {
        Terminal::Right => match index(alloc, e, text) {
            Ok(e) => Ok(Next::Go(State::At(Place::Have(e), seat))),
            Err(_) => no_room(seat),
        },
        _ => {
            drop(e);
            refused(seat)
        }
    }
}

fn at_item(alloc: Global, items: Vec<Expr>, seat: Seat, token: Terminal) -> Result<Next, Stop>
    ensures { Follows result (step_at_of (AtItem (all_trees items.items)) (pend_of seat) (seat_around seat) (terminal token)) }
{
    match token {
        Terminal::Right => Ok(Next::Go(State::At(Place::Have(list(items)), seat))),
        token => operand_inside(alloc, seat, Bracket::Items(items), token),
    }
}

/// The key of an entry, which the table has not.
fn entry_key(entries: TableEntries, key: TextBytes, seat: Seat) -> Result<Next, Stop>
    ensures { Follows result (step_at_of (AtEntry (all_entries entries.list.items)) (pend_of seat) (seat_around seat) (a_text key)) }
{
    if entries.has_key(&key) {
        drop(entries);
        refused(seat)
    } else {
        Ok(Next::Go(State::At(Place::AtKey(entries, key), seat)))
    }
}

fn at_entry(entries: TableEntries, seat: Seat, token: Terminal) -> Result<Next, Stop>
    ensures { Follows result (step_at_of (AtEntry (all_entries entries.list.items)) (pend_of seat) (seat_around seat) (terminal token)) }
{
    match token {
        Terminal::RightBrace => Ok(Next::Go(State::At(
            Place::Have(table(entries.into_vec())),
            seat,
        ))),
        Terminal::Text(key) => entry_key(entries, key, seat),
        _ => {
            drop(entries);
            refused(seat)
        }
    }
}

fn at_key(
    alloc: Global,
    entries: TableEntries,
    key: TextBytes,
    seat: Seat,
    token: Terminal,
) -> Result<Next, Stop>
    ensures { Follows result (step_at_of (AtKey (all_entries entries.list.items) key) (pend_of seat) (seat_around seat) (terminal token)) }
{
    match token {
        Terminal::Colon => {
            let around = enter(alloc, seat, Bracket::Entry(entries, key))?;
            Ok(Next::Go(State::Need(nothing(), around)))
        }
        _ => {
            drop(entries);
            refused(seat)
        }
    }
}

/// An argument that begins with a name, which may be a keyword.
fn arg_name(head: Head, args: Arguments, name: Name, seat: Seat) -> Result<Next, Stop>
    ensures { Follows result (step_at_of (AtArg (head_of head) (all_arguments args.list.items)) (pend_for head seat) (around_for head seat) (a_name name)) }
{
    if args.plain_only() || !args.has_name(&name) {
        Ok(Next::Go(State::At(Place::AtName(head, args, name), seat)))
    } else {
        drop(head);
        drop(args);
        refused(seat)
    }
}

/// A plain argument, of which none stands behind a keyword.
fn arg_operand(
    alloc: Global,
    head: Head,
    args: Arguments,
    seat: Seat,
    token: Terminal,
) -> Result<Next, Stop>
    ensures { Follows result (cond (only_plain (all_arguments args.list.items)) (operand_of no_wait (m_inside (InPlain (head_of head) (all_arguments args.list.items)) (pend_for head seat) (around_for head seat)) (terminal token)) None) }
{
    if args.plain_only() {
        operand_inside(alloc, seat, Bracket::Plain(head, args), token)
    } else {
        drop(head);
        drop(args);
        refused(seat)
    }
}

fn at_arg(
    alloc: Global,
    head: Head,
    args: Arguments,
    seat: Seat,
    token: Terminal,
) -> Result<Next, Stop>
    ensures { Follows result (step_at_of (AtArg (head_of head) (all_arguments args.list.items)) (pend_for head seat) (around_for head seat) (terminal token)) }
{
    match token {
        Terminal::Close => end_call(alloc, head, args, seat),
        Terminal::Name(name) => arg_name(head, args, name, seat),
        token => arg_operand(alloc, head, args, seat, token),
    }
}

/// The `=` behind a keyword, which stands once.
fn name_value(
    alloc: Global,
    head: Head,
    args: Arguments,
    name: Name,
    seat: Seat,
) -> Result<Next, Stop>
    ensures { Follows result (step_at_of (AtName (head_of head) (all_arguments args.list.items) name) (pend_for head seat) (around_for head seat) Is) }
{
    if args.has_name(&name) {
        drop(head);
        drop(args);
        refused(seat)
    } else {
        let around = enter(alloc, seat, Bracket::Named(head, args, name))?;
        Ok(Next::Go(State::Need(nothing(), around)))
    }
}

/// The `(` behind a function's name.
fn name_call(
    alloc: Global,
    head: Head,
    args: Arguments,
    name: Name,
    seat: Seat,
) -> Result<Next, Stop>
    ensures { Follows result (step_at_of (AtName (head_of head) (all_arguments args.list.items) name) (pend_for head seat) (around_for head seat) Open) }
{
    if args.plain_only() {
        let around = enter(alloc, seat, Bracket::Plain(head, args))?;
        let call = Place::AtArg(Head::Func(name), Arguments::new(alloc));
        Ok(Next::Go(State::At(call, Seat::In(nothing(), around))))
    } else {
        drop(head);
        drop(args);
        refused(seat)
    }
}

/// Behind a name that is an operand.
fn name_operand(
    alloc: Global,
    head: Head,
    args: Arguments,
    name: Name,
    seat: Seat,
    token: Terminal,
) -> Result<Next, Stop>
    ensures { Follows result (cond (only_plain (all_arguments args.list.items)) (after_operand_of no_wait (m_inside (InPlain (head_of head) (all_arguments args.list.items)) (pend_for head seat) (around_for head seat)) (Variable name) (terminal token)) None) }
{
    if args.plain_only() {
        after_name_inside(alloc, seat, Bracket::Plain(head, args), name, token)
    } else {
        drop(head);
        drop(args);
        refused(seat)
    }
}

fn at_name(
    alloc: Global,
    head: Head,
    args: Arguments,
    name: Name,
    seat: Seat,
    token: Terminal,
) -> Result<Next, Stop>
    ensures { Follows result (step_at_of (AtName (head_of head) (all_arguments args.list.items) name) (pend_for head seat) (around_for head seat) (terminal token)) }
{
    match token {
        Terminal::Is => name_value(alloc, head, args, name, seat),
        Terminal::Open => name_call(alloc, head, args, name, seat),
        token => name_operand(alloc, head, args, name, seat, token),
    }
}

/// One token inside an expression.
pub fn step_at(alloc: Global, place: Place, seat: Seat, token: Terminal) -> Result<Next, Stop>
    ensures { Follows result (step_at_of (place_of place) (pend_at place seat) (around_at place seat) (terminal token)) }
{
    match place {
        Place::Have(e) => after(alloc, seat, e, token),
        Place::Dotted(e) => dotted(e, seat, token),
        Place::Asked(e, name) => asked(alloc, e, name, seat, token),
        Place::Indexed(e) => indexed(e, seat, token),
        Place::Indexing(e, text) => indexing(alloc, e, text, seat, token),
        Place::AtItem(items) => at_item(alloc, items, seat, token),
        Place::AtEntry(entries) => at_entry(entries, seat, token),
        Place::AtKey(entries, key) => at_key(alloc, entries, key, seat, token),
        Place::AtArg(head, args) => at_arg(alloc, head, args, seat, token),
        Place::AtName(head, args, name) => at_name(alloc, head, args, name, seat, token),
    }
}
