//! Each form of an expression, and lists with one more item.
ghost use Rattle.std.specs.Prelude.{◌≡◌, IfOk};
ghost use Rattle.xr_syntax.specs.Syntax.{Variable, Whole, Words, Constantly, Unary as a_unary, Binary as a_binary, Call as a_call, Method as a_method, Index as an_index, Item, Items as a_list, Table as a_table};
ghost use Rattle.xr_syntax.specs.Syntax.{tree_of, all_trees, all_entries, all_arguments};

use std::alloc::{AllocError, Global};
use xr_syntax::{Argument, Constant, Expr};
use xr_types::{Name, OpKind, TextBytes};

#[tactic(auto, using(xr_syntax::proofs::Trees::tree_out))]
pub fn variable(name: Name) -> Expr
    ensures { tree_of result ≡ Variable name }
{
    Expr::Name(name)
}

#[tactic(auto, using(xr_syntax::proofs::Trees::tree_out))]
pub fn whole(n: i128) -> Expr
    ensures { tree_of result ≡ Whole n }
{
    Expr::Number(n)
}

#[tactic(auto, using(xr_syntax::proofs::Trees::tree_out))]
pub fn text(text: TextBytes) -> Expr
    ensures { tree_of result ≡ Words text }
{
    Expr::Text(text)
}

#[tactic(auto, using(xr_syntax::proofs::Trees::tree_out))]
pub fn constant(c: Constant) -> Expr
    ensures { tree_of result ≡ Constantly c }
{
    Expr::Constant(c)
}

/// An expression where a tree holds it.
pub fn boxed(alloc: Global, e: Expr) -> Result<Box<Expr>, AllocError>
    ensures { IfOk result (λ b. b.value ≡ e) }
{
    Ok(Box::new(alloc, e)?)
}

#[tactic(auto, using(xr_syntax::proofs::Trees::tree_out))]
pub fn unary(alloc: Global, op: OpKind, a: Expr) -> Result<Expr, AllocError>
    ensures { IfOk result (λ e. tree_of e ≡ a_unary op (tree_of a)) }
{
    Ok(Expr::Unary(op, Box::new(alloc, a)?))
}

#[tactic(auto, using(xr_syntax::proofs::Trees::tree_out))]
pub fn binary(alloc: Global, op: OpKind, a: Box<Expr>, b: Expr) -> Result<Expr, AllocError>
    ensures { IfOk result (λ e. tree_of e ≡ a_binary op (tree_of a.value) (tree_of b)) }
{
    Ok(Expr::Binary(op, a, Box::new(alloc, b)?))
}

#[tactic(auto, using(xr_syntax::proofs::Trees::tree_out), unfolding(xr_syntax::specs::Syntax::all_arguments))]
pub fn call(name: Name, args: Vec<Argument>) -> Expr
    ensures { tree_of result ≡ a_call name (all_arguments args.items) }
{
    Expr::Call(name, args)
}

#[tactic(auto, using(xr_syntax::proofs::Trees::tree_out), unfolding(xr_syntax::specs::Syntax::all_arguments))]
pub fn method(a: Box<Expr>, name: Name, args: Vec<Argument>) -> Expr
    ensures { tree_of result ≡ a_method (tree_of a.value) name (all_arguments args.items) }
{
    Expr::Method(a, name, args)
}

#[tactic(auto, using(xr_syntax::proofs::Trees::tree_out))]
pub fn index(alloc: Global, a: Expr, text: TextBytes) -> Result<Expr, AllocError>
    ensures { IfOk result (λ e. tree_of e ≡ an_index (tree_of a) text) }
{
    Ok(Expr::Index(Box::new(alloc, a)?, text))
}

#[tactic(auto, using(xr_syntax::proofs::Trees::tree_out), unfolding(xr_syntax::specs::Syntax::all_trees))]
pub fn list(items: Vec<Expr>) -> Expr
    ensures { tree_of result ≡ a_list (all_trees items.items) }
{
    Expr::List(items)
}

#[tactic(auto, using(xr_syntax::proofs::Trees::tree_out), unfolding(xr_syntax::specs::Syntax::all_entries))]
pub fn table(entries: Vec<(TextBytes, Expr)>) -> Expr
    ensures { tree_of result ≡ a_table (all_entries entries.items) }
{
    Expr::Table(entries)
}

#[tactic(auto, using(xr_syntax::proofs::Trees::all_more))]
pub fn push_item(mut items: Vec<Expr>, e: Expr) -> Result<Vec<Expr>, AllocError>
    ensures { IfOk result (λ v. all_trees v.items ≡ Item (all_trees items.items) (tree_of e)) }
{
    items.push(e)?;
    Ok(items)
}
