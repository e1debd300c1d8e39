//! Where an expression ends.
ghost use Rattle.std.specs.Prelude.{◌≡◌};
ghost use Rattle.xr_syntax.specs.Syntax.{tree_of, all_trees, all_entries, all_arguments};
ghost use Rattle.xr_syntax.specs.Grammar.{Comma, Right, RightBrace};
ghost use Rattle.xr_grammar.specs.Machine.{close as close_of, end_arg as end_arg_of, Inside, On, Assigning, Placing, Printing, InRound, InItems, InEntry, InPlain, InKeyed};
ghost use Rattle.xr_script.specs.Terminals.{terminal};
ghost use Rattle.xr_script.specs.States.{around_of, base_of, inside, head_of, pend_of, seat_around, pend_for, around_for, Follows};

use crate::around::{no_room, refused};
use crate::call::end_call;
use crate::state::{Around, Base, Bracket, Frame, Head, Next, Place, Seat, State, Stop};
use crate::terminal::Terminal;
use std::alloc::Global;
use xr_syntax::{Expr, Statement};
use xr_tree::{Arguments, TableEntries, list, push_item, table};
use xr_types::{Name, TextBytes};

/// A list with one item more, behind which another may come.
fn item_more(items: Vec<Expr>, seat: Seat, e: Expr) -> Result<Next, Stop>
    ensures { Follows result (close_of (Inside (InItems (all_trees items.items)) (pend_of seat) (seat_around seat)) (tree_of e) Comma) }
{
    match push_item(items, e) {
        Ok(items) => Ok(Next::Go(State::At(Place::AtItem(items), seat))),
        Err(_) => no_room(seat),
    }
}

/// A list with its last item.
fn item_last(items: Vec<Expr>, seat: Seat, e: Expr) -> Result<Next, Stop>
    ensures { Follows result (close_of (Inside (InItems (all_trees items.items)) (pend_of seat) (seat_around seat)) (tree_of e) Right) }
{
    match push_item(items, e) {
        Ok(items) => Ok(Next::Go(State::At(Place::Have(list(items)), seat))),
        Err(_) => no_room(seat),
    }
}

/// Behind an item of a list.
fn close_item(items: Vec<Expr>, seat: Seat, e: Expr, token: Terminal) -> Result<Next, Stop>
    ensures { Follows result (close_of (Inside (InItems (all_trees items.items)) (pend_of seat) (seat_around seat)) (tree_of e) (terminal token)) }
{
    match token {
        Terminal::Comma => item_more(items, seat, e),
        Terminal::Right => item_last(items, seat, e),
        _ => {
            drop(items);
            drop(e);
            refused(seat)
        }
    }
}

/// A table with one entry more, behind which another may come.
fn entry_more(
    alloc: Global,
    entries: TableEntries,
    key: TextBytes,
    seat: Seat,
    e: Expr,
) -> Result<Next, Stop>
    ensures { Follows result (close_of (Inside (InEntry (all_entries entries.list.items) key) (pend_of seat) (seat_around seat)) (tree_of e) Comma) }
{
    match entries.push(alloc, key, e) {
        Ok(entries) => Ok(Next::Go(State::At(Place::AtEntry(entries), seat))),
        Err(_) => no_room(seat),
    }
}

/// A table with its last entry.
fn entry_last(
    alloc: Global,
    entries: TableEntries,
    key: TextBytes,
    seat: Seat,
    e: Expr,
) -> Result<Next, Stop>
    ensures { Follows result (close_of (Inside (InEntry (all_entries entries.list.items) key) (pend_of seat) (seat_around seat)) (tree_of e) RightBrace) }
{
    match entries.push(alloc, key, e) {
        Ok(entries) => Ok(Next::Go(State::At(Place::Have(table(entries.into_vec())), seat))),
        Err(_) => no_room(seat),
    }
}

/// Behind the value of a key in a table.
fn close_entry(
    alloc: Global,
    entries: TableEntries,
    key: TextBytes,
    seat: Seat,
    e: Expr,
    token: Terminal,
) -> Result<Next, Stop>
    ensures { Follows result (close_of (Inside (InEntry (all_entries entries.list.items) key) (pend_of seat) (seat_around seat)) (tree_of e) (terminal token)) }
{
    match token {
        Terminal::Comma => entry_more(alloc, entries, key, seat, e),
        Terminal::RightBrace => entry_last(alloc, entries, key, seat, e),
        _ => {
            drop(entries);
            drop(e);
            refused(seat)
        }
    }
}

/// Behind the arguments so far.
fn end_arg(
    alloc: Global,
    head: Head,
    args: Arguments,
    seat: Seat,
    token: Terminal,
) -> Result<Next, Stop>
    ensures { Follows result (end_arg_of (head_of head) (all_arguments args.list.items) (pend_for head seat) (around_for head seat) (terminal token)) }
{
    match token {
        Terminal::Comma => Ok(Next::Go(State::At(Place::AtArg(head, args), seat))),
        Terminal::Close => end_call(alloc, head, args, seat),
        _ => {
            drop(head);
            drop(args);
            refused(seat)
        }
    }
}

/// Behind a plain argument.
fn close_plain(
    alloc: Global,
    head: Head,
    args: Arguments,
    seat: Seat,
    e: Expr,
    token: Terminal,
) -> Result<Next, Stop>
    ensures { Follows result (close_of (Inside (InPlain (head_of head) (all_arguments args.list.items)) (pend_for head seat) (around_for head seat)) (tree_of e) (terminal token)) }
{
    match args.push_plain(e) {
        Ok(args) => end_arg(alloc, head, args, seat, token),
        Err(_) => {
            drop(head);
            no_room(seat)
        }
    }
}

/// Behind the value of a keyword.
fn close_named(
    alloc: Global,
    head: Head,
    args: Arguments,
    name: Name,
    seat: Seat,
    e: Expr,
    token: Terminal,
) -> Result<Next, Stop>
    ensures { Follows result (close_of (Inside (InKeyed (head_of head) (all_arguments args.list.items) name) (pend_for head seat) (around_for head seat)) (tree_of e) (terminal token)) }
{
    match args.push_named(alloc, name, e) {
        Ok(args) => end_arg(alloc, head, args, seat, token),
        Err(_) => {
            drop(head);
            no_room(seat)
        }
    }
}

/// Behind what stands in round brackets.
fn close_round(seat: Seat, e: Expr, token: Terminal) -> Result<Next, Stop>
    ensures { Follows result (close_of (Inside InRound (pend_of seat) (seat_around seat)) (tree_of e) (terminal token)) }
{
    match token {
        Terminal::Close => Ok(Next::Go(State::At(Place::Have(e), seat))),
        _ => {
            drop(e);
            refused(seat)
        }
    }
}

/// Where an expression in a bracket may end.
fn close_bracket(
    alloc: Global,
    bracket: Bracket,
    seat: Seat,
    e: Expr,
    token: Terminal,
) -> Result<Next, Stop>
    ensures { Follows result (close_of (inside bracket seat) (tree_of e) (terminal token)) }
{
    match bracket {
        Bracket::Round => close_round(seat, e, token),
        Bracket::Items(items) => close_item(items, seat, e, token),
        Bracket::Entry(entries, key) => close_entry(alloc, entries, key, seat, e, token),
        Bracket::Plain(head, args) => close_plain(alloc, head, args, seat, e, token),
        Bracket::Named(head, args, name) => close_named(alloc, head, args, name, seat, e, token),
    }
}

/// Behind the value of an assignment.
fn close_assigned(name: Name, e: Expr, token: Terminal) -> Result<Next, Stop>
    ensures { Follows result (close_of (On (Assigning name)) (tree_of e) (terminal token)) }
{
    match token {
        Terminal::End => Ok(Next::Done(Statement::Assign(name, e))),
        _ => {
            drop(e);
            Err(Stop::Syntax)
        }
    }
}

/// Behind the value of a variable of a dataset.
fn close_placed(name: Name, key: TextBytes, e: Expr, token: Terminal) -> Result<Next, Stop>
    ensures { Follows result (close_of (On (Placing name key)) (tree_of e) (terminal token)) }
{
    match token {
        Terminal::End => Ok(Next::Done(Statement::Set(name, key, e))),
        _ => {
            drop(e);
            Err(Stop::Syntax)
        }
    }
}

/// Behind what is printed.
fn close_printed(e: Expr, token: Terminal) -> Result<Next, Stop>
    ensures { Follows result (close_of Printing (tree_of e) (terminal token)) }
{
    match token {
        Terminal::Close => Ok(Next::Go(State::Closed(e))),
        _ => {
            drop(e);
            Err(Stop::Syntax)
        }
    }
}

/// Where the outermost expression of a statement may end.
fn close_base(alloc: Global, base: Base, e: Expr, token: Terminal) -> Result<Next, Stop>
    ensures { Follows result (close_of (base_of base) (tree_of e) (terminal token)) }
{
    match base {
        Base::Assigning(name) => close_assigned(name, e, token),
        Base::Placing(name, key) => close_placed(name, key, e, token),
        Base::Printing => close_printed(e, token),
        Base::Inside(bracket) => close_bracket(alloc, bracket, Seat::Alone, e, token),
    }
}

/// Where an expression may end.
#[tactic(auto, using(crate::proofs::Steps::around_more))]
pub fn close(alloc: Global, around: Around, e: Expr, token: Terminal) -> Result<Next, Stop>
    ensures { Follows result (close_of (around_of around) (tree_of e) (terminal token)) }
{
    let Around { base, mut stack } = around;
    match stack.pop() {
        Some(Frame { bracket, wait }) => {
            let outer = Seat::In(wait, Around { base, stack });
            close_bracket(alloc, bracket, outer, e, token)
        }
        None => close_base(alloc, Box::into_inner(base), e, token),
    }
}
