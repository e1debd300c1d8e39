//! One token of a statement.
ghost use Rattle.std.specs.Prelude.{◌≡◌};
ghost use Rattle.xr_grammar.specs.Machine.{step as step_of};
ghost use Rattle.xr_script.specs.Terminals.{terminal};
ghost use Rattle.xr_script.specs.States.{state_of, Follows};

use crate::after::{after_align, after_write};
use crate::operand::operand;
use crate::place::step_at;
use crate::state::{Next, State, Stop};
use crate::statement::{
    aligns, closed, fresh, joint, named, named_index, named_open, named_text, prints, several,
    signed, target,
};
use crate::terminal::Terminal;
use std::alloc::Global;

/// One token of a statement that has begun.
pub fn step(alloc: Global, state: State, token: Terminal) -> Result<Next, Stop>
    ensures { Follows result (step_of (state_of state) (terminal token)) }
{
    match state {
        State::Named(name) => named(alloc, name, token),
        State::NamedOpen(name) => named_open(name, token),
        State::NamedText(name, key) => named_text(name, key, token),
        State::NamedIndex(name, key) => named_index(alloc, name, key, token),
        State::Several(names) => several(names, token),
        State::Target(names, name) => target(names, name, token),
        State::Joint(names, name) => joint(names, name, token),
        State::Aligns(names, name) => aligns(alloc, names, name, token),
        State::Prints => prints(alloc, token),
        State::Closed(e) => closed(e, token),
        State::Need(wait, around) => operand(alloc, wait, around, token),
        State::Signed(wait, around) => signed(alloc, wait, around, token),
        State::Fresh(name, wait, around) => fresh(alloc, name, wait, around, token),
        State::At(place, seat) => step_at(alloc, place, seat, token),
        State::Wrote(receiver, args) => after_write(alloc, receiver, args, token),
        State::Joined(names, args) => after_align(names, args, token),
    }
}
