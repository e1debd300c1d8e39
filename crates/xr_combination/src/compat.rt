//! How values that have one name go together.

/// How variables or coordinates of one name are compared, and what stands for them.
#[derive(Clone, Copy, PartialEq, Eq)]
pub enum Compat {
    /// Present cells agree at each point; those of the others stand where one is missing.
    NoConflicts,
    /// All cells are equal, missing ones too; the first stands.
    Equals,
    /// The first stands, whatever the others are.
    Override,
}
