//! Where typed cells stand.
use xr_arrays::TypedArray;
/// An array with typed cells that is lent, or that was made for the purpose.
#[derive(Drop)]
pub enum Kept<'a> {
    Lent(&'a TypedArray),
    Owned(TypedArray),
}
