//! Arrays: cells, element operations, folds, nodes of plans and labels, and in `specs/` what each stands for.
#![tactic(auto)]

mod array;
mod feeds;
mod node;
mod pieces;
mod search;
mod stored;
mod typed;

pub use array::{ArrayValue, Form};
pub use feeds::{Feeds, Positions};
pub use node::{Feed, Node, Sources};
pub use pieces::{Pieces, Run, width};
pub use search::{Direction, Span};
pub use stored::{StoredArray, StoredParts};
pub use typed::{Cells, TypedArray};
