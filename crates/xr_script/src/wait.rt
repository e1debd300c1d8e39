//! Operators and signs that wait for an operand.
ghost use Rattle.std.specs.Prelude.{◌≡◌, [], IfOk, MatchResult, Some, None, Err, reverse};
ghost use Rattle.xr_syntax.specs.Syntax.{tree_of};
ghost use Rattle.xr_grammar.specs.Machine.{fresh, empty, joined, signed, folded, put, whole as whole_of, with_sign as one_more, join as join_of, compare as compare_of, Need, go, Waits, Around as m_around};
ghost use Rattle.xr_syntax.specs.Grammar.{unary, term, sum as a_sum, bitand, bitxor, bitor};
ghost use Rattle.xr_script.specs.Terminals.{rank_of};
ghost use Rattle.xr_script.specs.States.{slot_of, levels_of, waiting_of, wait_of};

use crate::state::{Levels, Slot, Stop, Wait, Waiting};
use crate::terminal::Level;
use std::alloc::{AllocError, Global};
use xr_syntax::Expr;
use xr_tree::{binary, unary as signed_by};
use xr_types::OpKind;

fn no_levels() -> Levels
    ensures { levels_of result ≡ empty bitor }
{
    Levels {
        bit_or: None,
        bit_xor: None,
        bit_and: None,
        sum: None,
        product: None,
    }
}

/// Nothing waits.
pub fn nothing() -> Wait
    ensures { wait_of result ≡ fresh }
{
    None
}

/// What waits, to be changed.
fn opened(alloc: Global, wait: Wait) -> Waiting
    ensures { waiting_of result ≡ wait_of wait }
{
    match wait {
        Some(waiting) => Box::into_inner(waiting),
        None => Waiting {
            compare: None,
            levels: no_levels(),
            signs: Vec::new(alloc),
        },
    }
}

/// What waits, with what was changed.
fn kept(alloc: Global, waiting: Waiting) -> Result<Wait, AllocError>
    ensures { IfOk result (λ w. wait_of w ≡ waiting_of waiting) }
{
    Ok(Some(Box::new(alloc, waiting)?))
}

/// One sign more.
#[tactic(auto, using(crate::proofs::Steps::reverse_more))]
pub fn with_sign(alloc: Global, wait: Wait, op: OpKind) -> Result<Wait, AllocError>
    ensures { IfOk result (λ w. wait_of w ≡ one_more op (wait_of wait)) }
{
    let mut waiting = opened(alloc, wait);
    waiting.signs.push(op)?;
    kept(alloc, waiting)
}

/// An operand with the signs before it.
#[tactic(auto, using(crate::proofs::Steps::reverse_more))]
fn with_signs(alloc: Global, mut signs: Vec<OpKind>, e: Expr) -> Result<Expr, AllocError>
    ensures { IfOk result (λ r. tree_of r ≡ signed (reverse signs.items) (tree_of e)) }
{
    let mut e = e;
    while let Some(op) = signs.pop() {
        e = signed_by(alloc, op, e)?;
    }
    Ok(e)
}

/// An operand as the right side of an operator.
fn joined_to(alloc: Global, slot: Slot, e: Expr) -> Result<Expr, AllocError>
    ensures { IfOk result (λ r. tree_of r ≡ joined (slot_of slot) (tree_of e)) }
{
    match slot {
        None => Ok(e),
        Some((op, a)) => binary(alloc, op, a, e),
    }
}

/// An operand as the left side of an operator.
fn left_side(alloc: Global, op: OpKind, e: Expr) -> Result<Slot, AllocError>
    ensures { IfOk result (λ s. slot_of s ≡ Some (op, tree_of e)) }
{
    Ok(Some((op, Box::new(alloc, e)?)))
}

/// An operand with the products and the sum that wait for it.
fn with_sum(alloc: Global, sum: Slot, product: Slot, e: Expr) -> Result<Expr, AllocError>
    ensures { IfOk result (λ r. tree_of r ≡ joined (slot_of sum) (joined (slot_of product) (tree_of e))) }
{
    let e = joined_to(alloc, product, e)?;
    joined_to(alloc, sum, e)
}

/// An operand with all that binds more tightly than `^`.
fn with_bit_and(
    alloc: Global,
    bit_and: Slot,
    sum: Slot,
    product: Slot,
    e: Expr,
) -> Result<Expr, AllocError>
    ensures { IfOk result (λ r. tree_of r ≡ joined (slot_of bit_and) (joined (slot_of sum) (joined (slot_of product) (tree_of e)))) }
{
    let e = with_sum(alloc, sum, product, e)?;
    joined_to(alloc, bit_and, e)
}

/// An operand with the operators of all levels.
fn with_levels(alloc: Global, levels: Levels, e: Expr) -> Result<Expr, AllocError>
    ensures { IfOk result (λ r. tree_of r ≡ folded (levels_of levels) (tree_of e)) }
{
    let Levels {
        bit_or,
        bit_xor,
        bit_and,
        sum,
        product,
    } = levels;
    let e = with_bit_and(alloc, bit_and, sum, product, e)?;
    let e = joined_to(alloc, bit_xor, e)?;
    joined_to(alloc, bit_or, e)
}

/// An operand with the signs before it and the operators of all levels.
fn with_signs_and_levels(
    alloc: Global,
    signs: Vec<OpKind>,
    levels: Levels,
    e: Expr,
) -> Result<Expr, AllocError>
    ensures { IfOk result (λ r. tree_of r ≡ folded (levels_of levels) (signed (reverse signs.items) (tree_of e))) }
{
    let e = with_signs(alloc, signs, e)?;
    with_levels(alloc, levels, e)
}

/// An operand with all that waits for it.
#[tactic(auto, unfolding(xr_grammar::specs::Machine::whole))]
fn with_waiting(alloc: Global, waiting: Waiting, e: Expr) -> Result<Expr, AllocError>
    ensures { IfOk result (λ r. tree_of r ≡ whole_of (waiting_of waiting) (tree_of e)) }
{
    let Waiting {
        compare,
        levels,
        signs,
    } = waiting;
    let e = with_signs_and_levels(alloc, signs, levels, e)?;
    joined_to(alloc, compare, e)
}

/// The expression that ends with an operand.
#[tactic(auto, unfolding(xr_grammar::specs::Machine::whole))]
pub fn finish(alloc: Global, wait: Wait, e: Expr) -> Result<Expr, AllocError>
    ensures { IfOk result (λ r. tree_of r ≡ whole_of (wait_of wait) (tree_of e)) }
{
    match wait {
        Some(waiting) => with_waiting(alloc, Box::into_inner(waiting), e),
        None => Ok(e),
    }
}

fn put_product(alloc: Global, levels: Levels, e: Expr, op: OpKind) -> Result<Levels, AllocError>
    ensures { IfOk result (λ l. put unary op (levels_of levels) (tree_of e) ≡ Some (levels_of l)) }
{
    let Levels {
        bit_or,
        bit_xor,
        bit_and,
        sum,
        product,
    } = levels;
    let e = joined_to(alloc, product, e)?;
    Ok(Levels {
        bit_or,
        bit_xor,
        bit_and,
        sum,
        product: left_side(alloc, op, e)?,
    })
}

fn put_sum(alloc: Global, levels: Levels, e: Expr, op: OpKind) -> Result<Levels, AllocError>
    ensures { IfOk result (λ l. put term op (levels_of levels) (tree_of e) ≡ Some (levels_of l)) }
{
    let Levels {
        bit_or,
        bit_xor,
        bit_and,
        sum,
        product,
    } = levels;
    let e = with_sum(alloc, sum, product, e)?;
    Ok(Levels {
        bit_or,
        bit_xor,
        bit_and,
        sum: left_side(alloc, op, e)?,
        product: None,
    })
}

fn put_bit_and(alloc: Global, levels: Levels, e: Expr, op: OpKind) -> Result<Levels, AllocError>
    ensures { IfOk result (λ l. put a_sum op (levels_of levels) (tree_of e) ≡ Some (levels_of l)) }
{
    let Levels {
        bit_or,
        bit_xor,
        bit_and,
        sum,
        product,
    } = levels;
    let e = with_bit_and(alloc, bit_and, sum, product, e)?;
    Ok(Levels {
        bit_or,
        bit_xor,
        bit_and: left_side(alloc, op, e)?,
        sum: None,
        product: None,
    })
}

fn put_bit_xor(alloc: Global, levels: Levels, e: Expr, op: OpKind) -> Result<Levels, AllocError>
    ensures { IfOk result (λ l. put bitand op (levels_of levels) (tree_of e) ≡ Some (levels_of l)) }
{
    let Levels {
        bit_or,
        bit_xor,
        bit_and,
        sum,
        product,
    } = levels;
    let e = with_bit_and(alloc, bit_and, sum, product, e)?;
    let e = joined_to(alloc, bit_xor, e)?;
    Ok(Levels {
        bit_or,
        bit_xor: left_side(alloc, op, e)?,
        bit_and: None,
        sum: None,
        product: None,
    })
}

fn put_bit_or(alloc: Global, levels: Levels, e: Expr, op: OpKind) -> Result<Levels, AllocError>
    ensures { IfOk result (λ l. put bitxor op (levels_of levels) (tree_of e) ≡ Some (levels_of l)) }
{
    let e = with_levels(alloc, levels, e)?;
    Ok(Levels {
        bit_or: left_side(alloc, op, e)?,
        bit_xor: None,
        bit_and: None,
        sum: None,
        product: None,
    })
}

/// An operand as the left side of an operator of a level.
fn put_at(
    alloc: Global,
    levels: Levels,
    e: Expr,
    level: Level,
    op: OpKind,
) -> Result<Levels, AllocError>
    ensures { IfOk result (λ l. put (rank_of level) op (levels_of levels) (tree_of e) ≡ Some (levels_of l)) }
{
    match level {
        Level::Product => put_product(alloc, levels, e, op),
        Level::Sum => put_sum(alloc, levels, e, op),
        Level::BitAnd => put_bit_and(alloc, levels, e, op),
        Level::BitXor => put_bit_xor(alloc, levels, e, op),
        Level::BitOr => put_bit_or(alloc, levels, e, op),
    }
}

/// An operand as the left side of an operator of a level.
#[tactic(auto, unfolding(xr_grammar::specs::Machine::join))]
pub fn join(
    alloc: Global,
    wait: Wait,
    e: Expr,
    level: Level,
    op: OpKind,
) -> Result<Wait, AllocError>
    ensures { IfOk result (λ w. (u : m_around) → join_of (wait_of wait) u (tree_of e) (rank_of level) op ≡ go (Need (wait_of w) u)) }
{
    let Waiting {
        compare,
        levels,
        signs,
    } = opened(alloc, wait);
    let e = with_signs(alloc, signs, e)?;
    let levels = put_at(alloc, levels, e, level, op)?;
    let waiting = Waiting {
        compare,
        levels,
        signs: Vec::new(alloc),
    };
    kept(alloc, waiting)
}

/// An operand as the left side of a comparison.
fn comparing(alloc: Global, e: Expr, op: OpKind) -> Result<Wait, AllocError>
    ensures { IfOk result (λ w. wait_of w ≡ Waits (Some (op, tree_of e)) (empty bitor) []) }
{
    let compare = left_side(alloc, op, e)?;
    let waiting = Waiting {
        compare,
        levels: no_levels(),
        signs: Vec::new(alloc),
    };
    kept(alloc, waiting)
}

/// An operand as the left side of a comparison, of which an expression has one at most.
#[tactic(auto, unfolding(xr_grammar::specs::Machine::compare))]
pub fn compare(alloc: Global, wait: Wait, e: Expr, op: OpKind) -> Result<Wait, Stop>
    ensures ok { IfOk result (λ w. (u : m_around) → compare_of (wait_of wait) u (tree_of e) op ≡ go (Need (wait_of w) u)) }
    ensures err { result ≡ Err Stop.Syntax → (u : m_around) → compare_of (wait_of wait) u (tree_of e) op ≡ None }
{
    let Waiting {
        compare,
        levels,
        signs,
    } = opened(alloc, wait);
    match compare {
        Some(waiting) => {
            drop(waiting);
            drop(levels);
            drop(e);
            Err(Stop::Syntax)
        }
        None => {
            let e = with_signs_and_levels(alloc, signs, levels, e)?;
            Ok(comparing(alloc, e, op)?)
        }
    }
}
