//! What the limits of a script count.

/// The statements begun, the counted elements of the statement and the open brackets, and what the token before is:
/// in a statement, the end of an operand, or a name or `print`, behind which `(` opens a call.
#[derive(Clone, Copy, PartialEq, Eq)]
pub struct Tally {
    pub statements: usize,
    pub elements: usize,
    pub brackets: usize,
    pub in_statement: bool,
    pub behind_operand: bool,
    pub behind_callee: bool,
}
