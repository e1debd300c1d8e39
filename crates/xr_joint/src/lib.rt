//! Several datasets over joined axes, and the one that is made of them, before it stands in a plan and as it stands there.
#![tactic(auto)]

mod cells;
mod dataset;
mod filling;
mod fitting;
mod limits;
mod pieces;
mod sets;

pub use dataset::{checked, placed};
pub use filling::check_fills;
pub use fitting::all_fitted;
pub use limits::check_limits;
pub use pieces::{
    Joint, JointVariable, Origin, computed, of_cells, piece_of, push_held, push_pieces,
};
pub use sets::are_over;
