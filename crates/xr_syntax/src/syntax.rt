//! The syntax trees of scripts.
use xr_types::{Items, Name, OpKind, TextBytes};

/// A value that a reserved word names.
#[derive(Clone, Copy, PartialEq, Eq)]
pub enum Constant {
    True,
    False,
    None,
    Na,
}

/// An expression. The arguments of a call are the plain ones in order, then the named ones; a table is its keys
/// with their values.
#[derive(Drop)]
pub enum Expr {
    Name(Name),
    Number(i128),
    Text(TextBytes),
    Constant(Constant),
    Unary(OpKind, Box<Expr>),
    Binary(OpKind, Box<Expr>, Box<Expr>),
    /// The call of a function by its name.
    Call(Name, Vec<(Option<Name>, Expr)>),
    /// The call of a method of a receiver.
    Method(Box<Expr>, Name, Vec<(Option<Name>, Expr)>),
    Index(Box<Expr>, TextBytes),
    List(Vec<Expr>),
    Table(Vec<(TextBytes, Expr)>),
}

/// An argument, with its name where it has one.
pub type Argument = (Option<Name>, Expr);

/// A statement.
#[derive(Drop)]
pub enum Statement {
    Assign(Name, Expr),
    /// Two names or more that take what `align` gives for these arguments.
    Align(Items<Name>, Vec<(Option<Name>, Expr)>),
    /// Sets a variable of the dataset that a name holds.
    Set(Name, TextBytes, Expr),
    Print(Expr),
    /// Writes a receiver by `to_netcdf` with these arguments.
    Write(Expr, Vec<(Option<Name>, Expr)>),
}

/// The statements of a script in their order.
#[derive(Drop)]
pub struct Script {
    pub statements: Vec<Statement>,
}
