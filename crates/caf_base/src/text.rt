ghost use Rattle.std.specs.Prelude.{◌≡◌, List, ℕ, IfOk, string_bytes};

use crate::Memory;
use std::alloc::Global;
use std::marker::Model;

/// A `String` that contracts see as the list of its bytes, so that a copy equals what it copies.
#[derive(Debug, Drop)]
pub struct Text {
    inner: String,
}

impl Model for Text {
    ghost Value = { List ℕ };

    ghost view = { λ text. string_bytes text.inner };
}

impl Text {
    /// The text of a `String`, which is kept as it is.
    pub fn from_string(inner: String) -> Text
        ensures { result ≡ string_bytes inner }
    {
        Text { inner }
    }

    /// A copy of a text.
    pub fn copy_of(alloc: Global, text: &str) -> Result<Text, Memory>
        ensures { IfOk result (λ copy. copy ≡ text.now) }
    {
        let inner = String::from_str(alloc, text)?;
        Ok(Text { inner })
    }

    pub fn as_str(&self) -> &str
        ensures { result.now ≡ self.now }
    {
        self.inner.as_str()
    }

    /// The `String` itself.
    pub fn into_string(self) -> String
        ensures { string_bytes result ≡ self }
    {
        self.inner
    }
}
