// Texts of rows, names and queries.
ghost use Rattle.std.specs.Prelude.{◌≡◌, IfOk};

use crate::memory::Memory;
use std::alloc::{AllocError, Global};
use std::marker::Model;

/// A text that is owned: a name, or a text value of a row.
pub struct Label {
    text: String,
}

// By hand, so that crates that let one go cite this and not the destructors of its parts.
impl Drop for Label {
    fn drop(self) {
        let Label { text: _text } = self;
    }
}

impl Model for Label {
    ghost use Rattle.std.specs.Prelude.{List, ℕ, string_bytes};

    ghost Value = { List ℕ };

    ghost view = { λ l. string_bytes l.text };
}

impl Label {
    /// A copy of the text.
    pub fn new(alloc: Global, text: &str) -> Result<Label, Memory>
        ensures { IfOk result (λ label. label ≡ text.now) }
    {
        Ok(Label {
            text: text.to_string(alloc)?,
        })
    }

    /// The text.
    pub fn as_str(&self) -> &str
        ensures { result.now ≡ self.now }
    {
        self.text.as_str()
    }
}

/// A copy is the same text.
impl Clone for Label {
    ghost is_clone = { λ label copy. copy ≡ label };

    fn clone(&self) -> Result<Label, AllocError> {
        Ok(Label {
            text: self.text.clone()?,
        })
    }
}
