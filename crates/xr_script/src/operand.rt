//! Where an operand begins.
ghost use Rattle.std.specs.Prelude.{◌≡◌};
ghost use Rattle.xr_grammar.specs.Machine.{atom as atom_of, operand as operand_of, begin as begin_of, fresh, Alone, On, Writing};
ghost use Rattle.xr_script.specs.Terminals.{terminal};
ghost use Rattle.xr_script.specs.States.{pend_of, seat_around, wait_of, around_of, inside, Follows};

use crate::around::{enter, refused};
use crate::state::{Around, Bracket, Next, Place, Seat, State, Stop, Wait};
use crate::terminal::Terminal;
use crate::wait::{nothing, with_sign};
use std::alloc::Global;
use xr_tree::{TableEntries, constant, text, whole};
use xr_types::OpKind;

/// An atom that doesn't begin with a name.
#[tactic(auto, using(xr_syntax::proofs::Trees::no_trees))]
pub fn atom(alloc: Global, seat: Seat, token: Terminal) -> Result<Next, Stop>
    ensures { Follows result (atom_of (pend_of seat) (seat_around seat) (terminal token)) }
{
    match token {
        Terminal::Number(n) => Ok(Next::Go(State::At(Place::Have(whole(n)), seat))),
        Terminal::Text(t) => Ok(Next::Go(State::At(Place::Have(text(t)), seat))),
        Terminal::Literal(c) => Ok(Next::Go(State::At(Place::Have(constant(c)), seat))),
        Terminal::Open => {
            let around = enter(alloc, seat, Bracket::Round)?;
            Ok(Next::Go(State::Need(nothing(), around)))
        }
        Terminal::Left => Ok(Next::Go(State::At(Place::AtItem(Vec::new(alloc)), seat))),
        Terminal::LeftBrace => Ok(Next::Go(State::At(
            Place::AtEntry(TableEntries::new(alloc)),
            seat,
        ))),
        _ => refused(seat),
    }
}

/// An operand with the signs before it.
pub fn operand(alloc: Global, wait: Wait, around: Around, token: Terminal) -> Result<Next, Stop>
    ensures { Follows result (operand_of (wait_of wait) (around_of around) (terminal token)) }
{
    match token {
        Terminal::Name(name) => Ok(Next::Go(State::Fresh(name, wait, around))),
        Terminal::Minus => Ok(Next::Go(State::Signed(wait, around))),
        Terminal::Tilde => match with_sign(alloc, wait, OpKind::Invert) {
            Ok(wait) => Ok(Next::Go(State::Need(wait, around))),
            Err(_) => {
                drop(around);
                Err(Stop::Memory)
            }
        },
        token => atom(alloc, Seat::In(wait, around), token),
    }
}

/// An operand in a bracket.
pub fn operand_inside(
    alloc: Global,
    seat: Seat,
    bracket: Bracket,
    token: Terminal,
) -> Result<Next, Stop>
    ensures { Follows result (operand_of fresh (inside bracket seat) (terminal token)) }
{
    let around = enter(alloc, seat, bracket)?;
    operand(alloc, nothing(), around, token)
}

/// The first token of a statement.
pub fn begin(alloc: Global, token: Terminal) -> Result<Next, Stop>
    ensures { Follows result (begin_of (terminal token)) }
{
    match token {
        Terminal::Name(name) => Ok(Next::Go(State::Named(name))),
        Terminal::Print => Ok(Next::Go(State::Prints)),
        token => atom(alloc, Seat::Alone, token),
    }
}
