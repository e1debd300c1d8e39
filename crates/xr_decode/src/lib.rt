//! From a classic file to a dataset (CF Conventions; xarray, `decode_cf`).
#![tactic(auto)]

mod attributes;
mod axes;
mod coordinate;
mod decode;
mod decoded;
mod dims;
mod fills;
mod kept;
mod kinds;
mod labels;
mod laws;
mod listed;
mod parts;
mod place;
mod role;
mod shapes;
mod skip;
mod sought;
mod stored;
mod text;
mod times;
mod truths;
mod values;
mod variable;
mod whole;

pub use decode::{decode_bytes, decode_into, decode_set};
pub use laws::files_are_readable;
