//! Behind an atom with the parts that it has so far.
ghost use Rattle.std.specs.Prelude.{◌≡◌, codes, true};
ghost use Rattle.xr_grammar.specs.Machine.{whole as whole_of};
ghost use Rattle.xr_syntax.specs.Syntax.{tree_of, all_arguments, Variable, Method as a_method, Call as a_call};
ghost use Rattle.xr_grammar.specs.Machine.{join as join_of, compare as compare_of, close as close_of, after as after_of, after_operand as after_operand_of, fresh, Alone, Bare, On, Writing, Aligning};
ghost use Rattle.xr_script.specs.Terminals.{terminal, rank_of};
ghost use Rattle.xr_script.specs.States.{pend_of, seat_around, wait_of, around_of, inside, Follows};

use crate::around::enter;
use crate::call::write_call;
use crate::close::close;
use crate::state::{Around, Bracket, Next, Place, Seat, State, Stop, Wait};
use crate::terminal::{Level, Terminal};
use crate::wait::{compare, finish, join, nothing};
use std::alloc::Global;
use xr_syntax::{Argument, Expr, Statement};
use xr_tree::variable;
use xr_types::{Items, Name, OpKind};

/// An operand as the left side of an operator.
fn join_on(
    alloc: Global,
    wait: Wait,
    around: Around,
    e: Expr,
    level: Level,
    op: OpKind,
) -> Result<Next, Stop>
    ensures { Follows result (join_of (wait_of wait) (around_of around) (tree_of e) (rank_of level) op) }
{
    match join(alloc, wait, e, level, op) {
        Ok(wait) => Ok(Next::Go(State::Need(wait, around))),
        Err(_) => {
            drop(around);
            Err(Stop::Memory)
        }
    }
}

/// An operand as the left side of a comparison.
fn compare_on(alloc: Global, wait: Wait, around: Around, e: Expr, op: OpKind) -> Result<Next, Stop>
    ensures { Follows result (compare_of (wait_of wait) (around_of around) (tree_of e) op) }
{
    match compare(alloc, wait, e, op) {
        Ok(wait) => Ok(Next::Go(State::Need(wait, around))),
        Err(stop) => {
            drop(around);
            Err(stop)
        }
    }
}

/// An operand as the last one of an expression.
fn end_operand(
    alloc: Global,
    wait: Wait,
    around: Around,
    e: Expr,
    token: Terminal,
) -> Result<Next, Stop>
    ensures { Follows result (close_of (around_of around) (whole_of (wait_of wait) (tree_of e)) (terminal token)) }
{
    match finish(alloc, wait, e) {
        Ok(e) => close(alloc, around, e, token),
        Err(_) => {
            drop(around);
            Err(Stop::Memory)
        }
    }
}

/// Behind an operand.
pub fn after_operand(
    alloc: Global,
    wait: Wait,
    around: Around,
    e: Expr,
    token: Terminal,
) -> Result<Next, Stop>
    ensures { Follows result (after_operand_of (wait_of wait) (around_of around) (tree_of e) (terminal token)) }
{
    match token {
        Terminal::Dot => Ok(Next::Go(State::At(Place::Dotted(e), Seat::In(wait, around)))),
        Terminal::Left => Ok(Next::Go(State::At(Place::Indexed(e), Seat::In(wait, around)))),
        Terminal::Oper(level, op) => join_on(alloc, wait, around, e, level, op),
        Terminal::Minus => join_on(alloc, wait, around, e, Level::Sum, OpKind::Subtract),
        Terminal::Compare(op) => compare_on(alloc, wait, around, e, op),
        token => end_operand(alloc, wait, around, e, token),
    }
}

/// Behind an atom.
pub fn after(alloc: Global, seat: Seat, e: Expr, token: Terminal) -> Result<Next, Stop>
    ensures { Follows result (after_of (pend_of seat) (seat_around seat) (tree_of e) (terminal token)) }
{
    match seat {
        Seat::In(wait, around) => after_operand(alloc, wait, around, e, token),
        Seat::Alone => match token {
            Terminal::Dot => Ok(Next::Go(State::At(Place::Dotted(e), Seat::Alone))),
            Terminal::Left => Ok(Next::Go(State::At(Place::Indexed(e), Seat::Alone))),
            _ => {
                drop(e);
                Err(Stop::Syntax)
            }
        },
    }
}

/// Behind a name in a bracket.
pub fn after_name_inside(
    alloc: Global,
    seat: Seat,
    bracket: Bracket,
    name: Name,
    token: Terminal,
) -> Result<Next, Stop>
    ensures { Follows result (after_operand_of fresh (inside bracket seat) (Variable name) (terminal token)) }
{
    let around = enter(alloc, seat, bracket)?;
    after_operand(alloc, nothing(), around, variable(name), token)
}

/// Behind a call of `to_netcdf` in a statement that is no expression.
pub fn after_write(
    alloc: Global,
    receiver: Box<Expr>,
    args: Vec<Argument>,
    token: Terminal,
) -> Result<Next, Stop>
    ensures { Follows result (after_of (Alone true) (On Writing) (a_method (tree_of receiver.value) (codes "to_netcdf") (all_arguments args.items)) (terminal token)) }
{
    match token {
        Terminal::Dot => {
            let e = write_call(alloc, receiver, args)?;
            Ok(Next::Go(State::At(Place::Dotted(e), Seat::Alone)))
        }
        Terminal::Left => {
            let e = write_call(alloc, receiver, args)?;
            Ok(Next::Go(State::At(Place::Indexed(e), Seat::Alone)))
        }
        Terminal::End => Ok(Next::Done(Statement::Write(Box::into_inner(receiver), args))),
        _ => {
            drop(receiver);
            drop(args);
            Err(Stop::Syntax)
        }
    }
}

/// Behind the call of `align`.
pub fn after_align(names: Items<Name>, args: Vec<Argument>, token: Terminal) -> Result<Next, Stop>
    ensures { Follows result (after_of Bare (On (Aligning names)) (a_call (codes "align") (all_arguments args.items)) (terminal token)) }
{
    match token {
        Terminal::End => Ok(Next::Done(Statement::Align(names, args))),
        _ => {
            drop(names);
            drop(args);
            Err(Stop::Syntax)
        }
    }
}
