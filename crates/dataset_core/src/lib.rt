//! The functions and methods of scripts, found by their names.
#![tactic(auto)]

mod cells;
mod choice;
mod coords;
mod frames;
mod function;
mod grouped;
mod held;
mod made;
mod method;
mod moves;
mod open;
mod operators;
mod part;
mod placing;
mod slice;
mod write;

pub use function::call_function;
pub use method::call_method;
pub use open::{OpenRequest, open_request};
pub use operators::{binary_operator, unary_operator};
pub use part::pick;
pub use placing::assigned_value;
pub use write::{WriteRequest, write_request};
