//! Texts of pages.

ghost use Rattle.std.specs.Prelude.{◌≡◌, IfOk, string_bytes};

use std::alloc::{AllocError, Global};
use std::marker::Model;

/// Any text. Contracts see it as its bytes.
#[derive(Debug)]
pub struct Words {
    string: String,
}

// It is written out, so that no crate above proves again how a string is dropped.
impl Drop for Words {
    fn drop(self) {
        let Words { string: _ } = self;
    }
}

impl Model for Words {
    ghost use Rattle.std.specs.Prelude.{List, ℕ, string_bytes};

    ghost Value = { List ℕ };

    ghost view = { λ w. string_bytes w.string };
}

impl Words {
    /// The text of a string. Takes no memory.
    pub fn new(string: String) -> Words
        ensures { result ≡ string_bytes string }
    {
        Words { string }
    }

    /// The same text in memory of its own.
    pub fn of(alloc: Global, text: &str) -> Result<Words, AllocError>
        ensures { IfOk result (λ w. w ≡ text.now) }
    {
        Ok(Words {
            string: String::from_str(alloc, text)?,
        })
    }

    pub fn as_str(&self) -> &str
        ensures { result.now ≡ self.now }
    {
        self.string.as_str()
    }
}
