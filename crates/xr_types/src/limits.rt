//! The limits of the program, which every crate keeps.

/// Bytes of a script.
pub const MOST_SCRIPT_BYTES: usize = 1_048_576;

/// Statements of a script.
pub const MOST_STATEMENTS: usize = 4_096;

/// Brackets that are open at one place of a script.
pub const MOST_OPEN_BRACKETS: usize = 64;

/// Operators, calls, method calls and indexes in one statement.
pub const MOST_STATEMENT_ELEMENTS: usize = 256;

/// Bytes of a file, read or written.
pub const MOST_FILE_BYTES: usize = 268_435_456;

/// Dimensions of an array.
pub const MOST_DIMENSIONS: usize = 16;

/// Cells of an array, and positions of an axis.
pub const MOST_CELLS: u64 = 33_554_432;

/// Data variables and non-index coordinates of a dataset, together.
pub const MOST_VARIABLES: usize = 1_024;

/// Chunks of a grid.
pub const MOST_CHUNKS: u64 = 4_096;

/// Workers.
pub const MOST_WORKERS: u32 = 64;
