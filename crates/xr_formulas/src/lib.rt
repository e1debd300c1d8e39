//! What calls make: arrays whose cells are formulas over nodes of a plan, and how they come into the plan.
#![tactic(auto)]

mod cellwise;
mod chain;
mod kinds;
mod literals;
mod made;
mod methods;
mod numbers;
mod operators;
mod valued;

pub use cellwise::{changed, of_method};
pub use chain::{Chain, Start, Step, cells_of, one_step, push_chain};
pub use kinds::{
    fits, greatest, is_chars, is_integer_kind, is_truths, kind_named, least, number_kind,
    truth_number,
};
pub use literals::literal;
pub use made::{Formula, Made, like, push_formula, realize};
pub use methods::{array_method, check_fits, literal_for};
pub use numbers::{Placed, beside, filled, result_kind, with_literal};
pub use operators::{common_kind, unary, with_number, with_truth};
pub use valued::called;
