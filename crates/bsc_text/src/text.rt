//! Text that owns its memory, seen by contracts as its octets.
ghost use Rattle.std.specs.Prelude.{◌≡◌, string_bytes};

use std::marker::Model;

/// A text in UTF-8 that owns its memory.
#[derive(Debug, Drop)]
pub struct Text {
    text: String,
}

impl Model for Text {
    ghost use Rattle.std.specs.Prelude.{List, ℕ, string_bytes};

    ghost Value = { List ℕ };

    ghost view = { λ t. string_bytes t.text };
}

impl Text {
    /// The text of `s`. No memory is taken.
    pub fn from_string(s: String) -> Text
        ensures { result ≡ string_bytes s }
    {
        Text { text: s }
    }

    /// The text, in place.
    pub fn as_str(&self) -> &str
        ensures { result.now ≡ self.now }
    {
        self.text.as_str()
    }
}
