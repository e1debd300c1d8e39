//! The forms of a statement.
ghost use Rattle.std.specs.Prelude.{◌≡◌, false};
ghost use Rattle.xr_types.specs.declared.operation.OpKind.TheVariants.{Negate};
ghost use Rattle.xr_syntax.specs.Syntax.{tree_of, Index as an_index, Variable as a_variable};
ghost use Rattle.xr_syntax.specs.Grammar.{Number as a_number};
ghost use Rattle.xr_grammar.specs.Machine.{operand as operand_of, with_sign as one_more, after as after_of, Alone, On, Writing};
ghost use Rattle.xr_grammar.specs.Machine.{step as step_of, Named, NamedOpen, NamedText, NamedIndex, Several, Target, Joint, Prints, Closed, Signed, Fresh};
ghost use Rattle.xr_script.specs.Terminals.{terminal};
ghost use Rattle.xr_script.specs.States.{wait_of, around_of, state_of, Follows};
ghost use Rattle.xr_script.specs.declared.state.State.TheVariants.{Aligns as aligning};

use crate::after::{after, after_operand};
use crate::around::{no_room, outermost};
use crate::operand::operand;
use crate::state::{Around, Base, Head, Next, Place, Seat, State, Stop, Wait};
use crate::terminal::Terminal;
use crate::wait::{nothing, with_sign};
use std::alloc::Global;
use xr_syntax::{Expr, Statement};
use xr_tree::{Arguments, index, variable, whole};
use xr_types::{Items, Name, OpKind, TextBytes};

/// Behind the first name of a statement.
pub fn named(alloc: Global, name: Name, token: Terminal) -> Result<Next, Stop>
    ensures { Follows result (step_of (Named name) (terminal token)) }
{
    match token {
        Terminal::Is => {
            let around = outermost(alloc, Base::Assigning(name))?;
            Ok(Next::Go(State::Need(nothing(), around)))
        }
        Terminal::Comma => {
            let mut names = Items::new(alloc);
            names.push(name)?;
            Ok(Next::Go(State::Several(names)))
        }
        Terminal::Left => Ok(Next::Go(State::NamedOpen(name))),
        Terminal::Open => {
            let call = Place::AtArg(Head::Func(name), Arguments::new(alloc));
            Ok(Next::Go(State::At(call, Seat::Alone)))
        }
        Terminal::Dot => {
            let receiver = Place::Dotted(variable(name));
            Ok(Next::Go(State::At(receiver, Seat::Alone)))
        }
        _ => Err(Stop::Syntax),
    }
}

pub fn named_open(name: Name, token: Terminal) -> Result<Next, Stop>
    ensures { Follows result (step_of (NamedOpen name) (terminal token)) }
{
    match token {
        Terminal::Text(key) => Ok(Next::Go(State::NamedText(name, key))),
        _ => Err(Stop::Syntax),
    }
}

pub fn named_text(name: Name, key: TextBytes, token: Terminal) -> Result<Next, Stop>
    ensures { Follows result (step_of (NamedText name key) (terminal token)) }
{
    match token {
        Terminal::Right => Ok(Next::Go(State::NamedIndex(name, key))),
        _ => Err(Stop::Syntax),
    }
}

/// Behind `name[text]` that is part of a receiver.
fn indexed(alloc: Global, name: Name, key: TextBytes, token: Terminal) -> Result<Next, Stop>
    ensures { Follows result (after_of (Alone false) (On Writing) (an_index (a_variable name) key) (terminal token)) }
{
    let e = index(alloc, variable(name), key)?;
    after(alloc, Seat::Alone, e, token)
}

/// Behind `name[text]`, which is set or is part of a receiver.
pub fn named_index(alloc: Global, name: Name, key: TextBytes, token: Terminal) -> Result<Next, Stop>
    ensures { Follows result (step_of (NamedIndex name key) (terminal token)) }
{
    match token {
        Terminal::Is => {
            let around = outermost(alloc, Base::Placing(name, key))?;
            Ok(Next::Go(State::Need(nothing(), around)))
        }
        token => indexed(alloc, name, key, token),
    }
}

pub fn several(names: Items<Name>, token: Terminal) -> Result<Next, Stop>
    ensures { Follows result (step_of (Several names) (terminal token)) }
{
    match token {
        Terminal::Name(name) => Ok(Next::Go(State::Target(names, name))),
        _ => Err(Stop::Syntax),
    }
}

/// Behind a name of several.
pub fn target(mut names: Items<Name>, name: Name, token: Terminal) -> Result<Next, Stop>
    ensures { Follows result (step_of (Target names name) (terminal token)) }
{
    match token {
        Terminal::Comma => {
            names.push(name)?;
            Ok(Next::Go(State::Several(names)))
        }
        Terminal::Is => Ok(Next::Go(State::Joint(names, name))),
        _ => Err(Stop::Syntax),
    }
}

/// Behind the `=` of several names.
pub fn joint(names: Items<Name>, name: Name, token: Terminal) -> Result<Next, Stop>
    ensures { Follows result (step_of (Joint names name) (terminal token)) }
{
    match token {
        Terminal::Name(function) => {
            if function.as_str() == "align" {
                Ok(Next::Go(State::Aligns(names, name)))
            } else {
                Err(Stop::Syntax)
            }
        }
        _ => Err(Stop::Syntax),
    }
}

pub fn aligns(
    alloc: Global,
    mut names: Items<Name>,
    name: Name,
    token: Terminal,
) -> Result<Next, Stop>
    ensures { Follows result (step_of (state_of (aligning names name)) (terminal token)) }
{
    match token {
        Terminal::Open => {
            names.push(name)?;
            let call = Place::AtArg(Head::Align(names), Arguments::new(alloc));
            Ok(Next::Go(State::At(call, Seat::Alone)))
        }
        _ => Err(Stop::Syntax),
    }
}

pub fn prints(alloc: Global, token: Terminal) -> Result<Next, Stop>
    ensures { Follows result (step_of Prints (terminal token)) }
{
    match token {
        Terminal::Open => {
            let around = outermost(alloc, Base::Printing)?;
            Ok(Next::Go(State::Need(nothing(), around)))
        }
        _ => Err(Stop::Syntax),
    }
}

pub fn closed(e: Expr, token: Terminal) -> Result<Next, Stop>
    ensures { Follows result (step_of (Closed (tree_of e)) (terminal token)) }
{
    match token {
        Terminal::End => Ok(Next::Done(Statement::Print(e))),
        _ => {
            drop(e);
            Err(Stop::Syntax)
        }
    }
}

/// A number with its sign.
fn below(n: i128, wait: Wait, around: Around) -> Result<Next, Stop>
    ensures { Follows result (step_of (Signed (wait_of wait) (around_of around)) (a_number n)) }
{
    match 0_i128.checked_sub(n) {
        Some(n) => Ok(Next::Go(State::At(Place::Have(whole(n)), Seat::In(wait, around)))),
        // no token has this number
        None => no_room(Seat::In(wait, around)),
    }
}

/// A `-` that makes no number negative.
fn negated(alloc: Global, wait: Wait, around: Around, token: Terminal) -> Result<Next, Stop>
    ensures { Follows result (operand_of (one_more Negate (wait_of wait)) (around_of around) (terminal token)) }
{
    match with_sign(alloc, wait, OpKind::Negate) {
        Ok(wait) => operand(alloc, wait, around, token),
        Err(_) => {
            drop(around);
            Err(Stop::Memory)
        }
    }
}

/// Behind a `-` where an operand is expected.
pub fn signed(alloc: Global, wait: Wait, around: Around, token: Terminal) -> Result<Next, Stop>
    ensures { Follows result (step_of (Signed (wait_of wait) (around_of around)) (terminal token)) }
{
    match token {
        Terminal::Number(n) => below(n, wait, around),
        token => negated(alloc, wait, around, token),
    }
}

/// Behind a name where an operand is expected.
pub fn fresh(
    alloc: Global,
    name: Name,
    wait: Wait,
    around: Around,
    token: Terminal,
) -> Result<Next, Stop>
    ensures { Follows result (step_of (Fresh name (wait_of wait) (around_of around)) (terminal token)) }
{
    match token {
        Terminal::Open => {
            let call = Place::AtArg(Head::Func(name), Arguments::new(alloc));
            Ok(Next::Go(State::At(call, Seat::In(wait, around))))
        }
        token => after_operand(alloc, wait, around, variable(name), token),
    }
}
