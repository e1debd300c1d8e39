//! The brackets around an expression.
ghost use Rattle.std.specs.Prelude.{◌≡◌, IfOk, Err};
ghost use Rattle.xr_script.specs.declared.state.Stop.TheVariants.{Memory, Syntax};
ghost use Rattle.xr_script.specs.States.{around_of, base_of, inside};

use crate::state::{Around, Base, Bracket, Frame, Next, Seat, Stop};
use std::alloc::{AllocError, Global};

/// Goes into a bracket.
#[tactic(auto, using(crate::proofs::Steps::around_more))]
pub fn enter(alloc: Global, seat: Seat, bracket: Bracket) -> Result<Around, AllocError>
    ensures { IfOk result (λ u. around_of u ≡ inside bracket seat) }
{
    match seat {
        Seat::In(wait, around) => {
            let Around { base, mut stack } = around;
            stack.push(Frame { bracket, wait })?;
            Ok(Around { base, stack })
        }
        Seat::Alone => outermost(alloc, Base::Inside(bracket)),
    }
}

/// Around the expression that a statement begins with.
pub fn outermost(alloc: Global, base: Base) -> Result<Around, AllocError>
    ensures { IfOk result (λ u. around_of u ≡ base_of base) }
{
    let base = Box::new(alloc, base)?;
    Ok(Around {
        base,
        stack: Vec::new(alloc),
    })
}

/// No script goes on here.
pub fn refused(seat: Seat) -> Result<Next, Stop>
    ensures { result ≡ Err Syntax }
{
    drop(seat);
    Err(Stop::Syntax)
}

/// There is no memory to go on.
pub fn no_room(seat: Seat) -> Result<Next, Stop>
    ensures { result ≡ Err Memory }
{
    drop(seat);
    Err(Stop::Memory)
}
