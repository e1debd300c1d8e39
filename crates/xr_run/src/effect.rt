//! What a statement does once nothing refuses it.
use bytes::BytesQueue;
use xr_types::{Items, TextBytes};
use xr_values::Value;

/// What a statement does once nothing refuses it.
#[derive(Drop)]
pub enum Effect {
    /// A name stands for a value from now on.
    Bind(TextBytes, Value),
    /// Each name stands for the value at its place from now on.
    BindEach(Items<TextBytes>, Items<Value>),
    /// A text is printed.
    Print(Vec<u8>),
    /// The bytes of all pieces become those of the file of a name.
    Write(TextBytes, BytesQueue),
}
