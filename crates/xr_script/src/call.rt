//! Calls whose arguments have ended.
ghost use Rattle.std.specs.Prelude.{◌≡◌, IfOk, codes};
ghost use Rattle.xr_syntax.specs.Grammar.{called};
ghost use Rattle.xr_syntax.specs.Syntax.{tree_of, all_arguments, Call as a_call, Method as a_method};
ghost use Rattle.xr_grammar.specs.Machine.{At, Have, go};
ghost use Rattle.xr_script.specs.States.{head_of, pend_of, seat_around, pend_for, around_for, alone_pend, alone_around, Follows};

use crate::around::no_room;
use crate::state::{Head, Next, Place, Seat, State, Stop};
use std::alloc::{AllocError, Global};
use xr_syntax::{Argument, Expr};
use xr_tree::{Arguments, call, method};
use xr_types::TextBytes;

/// The call of `to_netcdf`.
pub fn write_call(
    alloc: Global,
    receiver: Box<Expr>,
    args: Vec<Argument>,
) -> Result<Expr, AllocError>
    ensures { IfOk result (λ e. tree_of e ≡ a_method (tree_of receiver.value) (codes "to_netcdf") (all_arguments args.items)) }
{
    let name = TextBytes::from_str(alloc, "to_netcdf")?;
    Ok(method(receiver, name, args))
}

/// The call of `align`.
fn align_call(alloc: Global, args: Vec<Argument>) -> Result<Expr, AllocError>
    ensures { IfOk result (λ e. tree_of e ≡ a_call (codes "align") (all_arguments args.items)) }
{
    let name = TextBytes::from_str(alloc, "align")?;
    Ok(call(name, args))
}

/// The call of a head with its arguments.
fn finish_call(alloc: Global, head: Head, args: Vec<Argument>) -> Result<Expr, AllocError>
    ensures { IfOk result (λ e. tree_of e ≡ called (head_of head) (all_arguments args.items)) }
{
    match head {
        Head::Func(name) => Ok(call(name, args)),
        Head::Of(a, name) => Ok(method(a, name, args)),
        Head::Write(a) => write_call(alloc, a, args),
        Head::Align(names) => {
            drop(names);
            align_call(alloc, args)
        }
    }
}

/// Behind the arguments of a call in an expression, or of one at which a statement begins.
fn call_at(alloc: Global, head: Head, args: Vec<Argument>, seat: Seat) -> Result<Next, Stop>
    ensures { Follows result (go (At (Have (called (head_of head) (all_arguments args.items))) (pend_of seat) (seat_around seat))) }
{
    match finish_call(alloc, head, args) {
        Ok(e) => Ok(Next::Go(State::At(Place::Have(e), seat))),
        Err(_) => no_room(seat),
    }
}

/// Behind the arguments of a call.
pub fn end_call(alloc: Global, head: Head, args: Arguments, seat: Seat) -> Result<Next, Stop>
    ensures { Follows result (go (At (Have (called (head_of head) (all_arguments args.list.items))) (pend_for head seat) (around_for head seat))) }
{
    let args = args.into_vec();
    match seat {
        Seat::In(wait, around) => call_at(alloc, head, args, Seat::In(wait, around)),
        Seat::Alone => end_alone(alloc, head, args),
    }
}

/// Behind the arguments of a call that stands in no expression.
fn end_alone(alloc: Global, head: Head, args: Vec<Argument>) -> Result<Next, Stop>
    ensures { Follows result (go (At (Have (called (head_of head) (all_arguments args.items))) (alone_pend head) (alone_around head))) }
{
    match head {
        Head::Write(a) => Ok(Next::Go(State::Wrote(a, args))),
        Head::Align(names) => Ok(Next::Go(State::Joined(names, args))),
        Head::Func(name) => call_at(alloc, Head::Func(name), args, Seat::Alone),
        Head::Of(a, name) => call_at(alloc, Head::Of(a, name), args, Seat::Alone),
    }
}
