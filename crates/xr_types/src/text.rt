//! UTF-8 text, which contracts see as the list of its bytes.
ghost use Rattle.std.specs.Prelude.{◌≡◌, IfOk, string_bytes};
ghost use Rattle.std.specs.Str.{bytes_eq};

use crate::items::DeepCopy;
use std::alloc::{AllocError, Global};
use std::marker::Model;

/// UTF-8 text.
#[derive(Drop)]
pub struct TextBytes {
    text: String,
}

impl Model for TextBytes {
    ghost use Rattle.std.specs.Prelude.{List, ℕ, string_bytes};

    ghost Value = { List ℕ };

    ghost view = { λ t. string_bytes t.text };
}

/// The name of a file, a dimension, a variable or an attribute.
pub type Name = TextBytes;

impl TextBytes {
    /// The text of a `String`.
    pub fn of(text: String) -> Self
        ensures { result ≡ string_bytes text }
    {
        TextBytes { text }
    }

    /// A copy of a text.
    pub fn from_str(alloc: Global, text: &str) -> Result<TextBytes, AllocError>
        ensures { IfOk result (λ t. t ≡ text.now) }
    {
        let text = String::from_str(alloc, text)?;
        Ok(TextBytes { text })
    }

    pub fn as_str(&self) -> &str
        ensures { result.now ≡ self.now }
    {
        self.text.as_str()
    }

    pub fn as_bytes(&self) -> &[u8]
        ensures { result.now ≡ self.now }
    {
        self.text.as_bytes()
    }

    /// Whether two texts have the same bytes.
    pub fn is(&self, other: &TextBytes) -> bool
        ensures { result ≡ bytes_eq self.now other.now }
    {
        self.text.as_str() == other.text.as_str()
    }
}

impl DeepCopy for TextBytes {
    fn deep_copy(&self, alloc: Global) -> Result<TextBytes, AllocError> {
        TextBytes::from_str(alloc, self.text.as_str())
    }
}
