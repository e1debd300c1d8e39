//! Where the parser is in a statement.
use std::alloc::AllocError;
use xr_syntax::{Argument, Expr, Statement};
use xr_tree::{Arguments, TableEntries};
use xr_types::{Items, Name, OpKind, TextBytes};

/// An operator with its left side, which waits for its right side.
pub type Slot = Option<(OpKind, Box<Expr>)>;

/// The operators of each level that wait, the loosest first.
#[derive(Drop)]
pub struct Levels {
    pub bit_or: Slot,
    pub bit_xor: Slot,
    pub bit_and: Slot,
    pub sum: Slot,
    pub product: Slot,
}

/// A comparison, operators and signs, the innermost last, that wait for an operand.
#[derive(Drop)]
pub struct Waiting {
    pub compare: Slot,
    pub levels: Levels,
    pub signs: Vec<OpKind>,
}

/// What waits for an operand. Most operands are all that a bracket holds, so nothing is kept where nothing waits.
pub type Wait = Option<Box<Waiting>>;

/// What is called: a function, a method of a receiver, `to_netcdf` of a receiver as a statement, or `align` for
/// several names.
#[derive(Drop)]
pub enum Head {
    Func(Name),
    Of(Box<Expr>, Name),
    Write(Box<Expr>),
    Align(Items<Name>),
}

/// An open bracket with what was read in it; the key or the name is that of the value which comes.
#[derive(Drop)]
pub enum Bracket {
    Round,
    Items(Vec<Expr>),
    Entry(TableEntries, TextBytes),
    Plain(Head, Arguments),
    Named(Head, Arguments, Name),
}

/// An open bracket, and what waits for what stands in it.
#[derive(Drop)]
pub struct Frame {
    pub bracket: Bracket,
    pub wait: Wait,
}

/// What the outermost expression of a statement stands in.
#[derive(Drop)]
pub enum Base {
    Assigning(Name),
    Placing(Name, TextBytes),
    Printing,
    /// A bracket in the receiver of a statement that writes, or of the call of `align`.
    Inside(Bracket),
}

/// What stands around an expression, the innermost bracket last.
#[derive(Drop)]
pub struct Around {
    pub base: Box<Base>,
    pub stack: Vec<Frame>,
}

/// What an atom stands in: an expression, or a statement that is no expression.
#[derive(Drop)]
pub enum Seat {
    In(Wait, Around),
    Alone,
}

/// Behind an atom, a dot, the name of a method, `[` or the text of an index; or where an item, an entry, the
/// value of a key or an argument may come, or behind a name that may be a keyword.
#[derive(Drop)]
pub enum Place {
    Have(Expr),
    Dotted(Expr),
    Asked(Expr, Name),
    Indexed(Expr),
    Indexing(Expr, TextBytes),
    AtItem(Vec<Expr>),
    AtEntry(TableEntries),
    AtKey(TableEntries, TextBytes),
    AtArg(Head, Arguments),
    AtName(Head, Arguments, Name),
}

/// Where a statement has come to.
#[derive(Drop)]
pub enum State {
    Named(Name),
    NamedOpen(Name),
    NamedText(Name, TextBytes),
    NamedIndex(Name, TextBytes),
    Several(Items<Name>),
    Target(Items<Name>, Name),
    Joint(Items<Name>, Name),
    Aligns(Items<Name>, Name),
    Prints,
    Closed(Expr),
    Need(Wait, Around),
    Signed(Wait, Around),
    Fresh(Name, Wait, Around),
    At(Place, Seat),
    /// Behind a call of `to_netcdf` that may end the statement.
    Wrote(Box<Expr>, Vec<Argument>),
    /// Behind the call of `align`.
    Joined(Items<Name>, Vec<Argument>),
}

/// The statement goes on, or has ended.
#[derive(Drop)]
pub enum Next {
    Go(State),
    Done(Statement),
}

/// Why there is no next state.
#[derive(Clone, Copy, PartialEq, Eq)]
pub enum Stop {
    Memory,
    Syntax,
}

impl From<AllocError> for Stop {
    ghost use Rattle.std.specs.Prelude.{◌≡◌};
    ghost use Rattle.xr_script.specs.declared.state.Stop.TheVariants.{Memory};

    ghost from_gives = { λ _ e. e ≡ Memory };

    fn from(_e: AllocError) -> Stop {
        Stop::Memory
    }
}
