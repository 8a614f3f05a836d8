//! Texts: what the fields of a record hold as words.

ghost use Rattle.std.specs.Prelude.{◌≡◌, ◌↔◌, [], IfOk, IsTrue, MatchOption, string_bytes};
ghost use Rattle.record_text.specs.Text.{IsPlain, IsText};

use std::alloc::{AllocError, Global};
use std::marker::Model;

/// The most bytes that a text has.
const MAX_BYTES: usize = 1_048_576;

/// UTF-8 without U+0000 and without CR, of at most 1,048,576 bytes. Contracts see a text as its bytes.
#[derive(Debug, Drop)]
pub struct Text {
    string: String,
}

impl Model for Text {
    ghost use Rattle.std.specs.Prelude.{List, ℕ, string_bytes};
    ghost use Rattle.record_text.specs.Text.{IsText};

    ghost Value = { List ℕ };

    ghost view = { λ a. string_bytes a.string };

    ghost invariant = { λ a. IsText (string_bytes a.string) };
}

impl Text {
    /// The string as a text. `None`: it is none. Takes no memory.
    pub fn try_new(string: String) -> Option<Text>
        ensures { MatchOption result (¬ (IsText (string_bytes string))) (λ t. t ≡ string_bytes string) }
    {
        if is_text(&string) {
            Some(Text { string })
        } else {
            None
        }
    }

    /// The text of no characters. Takes no memory.
    pub fn empty(alloc: Global) -> Text
        ensures { result ≡ [] }
    {
        Text {
            string: String::new(alloc),
        }
    }

    /// The text that words are, where the caller knows that they are one.
    pub fn of_words(alloc: Global, words: &str) -> Result<Text, AllocError>
        requires { IsPlain words.now }
        ensures { IfOk result (λ t. t ≡ words.now) }
    {
        Ok(Text {
            string: String::from_str(alloc, words)?,
        })
    }

    /// The text as a string.
    pub fn as_str(&self) -> &str
        ensures same { result.now ≡ self.now }
        ensures text { IsText self.now }
    {
        self.string.as_str()
    }

    /// The same text in memory of its own.
    pub fn copy(&self, alloc: Global) -> Result<Text, AllocError>
        ensures { IfOk result (λ t. t ≡ self.now) }
    {
        Ok(Text {
            string: String::from_str(alloc, self.as_str())?,
        })
    }
}

/// Whether the string is a text.
fn is_text(string: &str) -> bool
    ensures { IsTrue result ↔ IsText string.now }
{
    let bytes = string.as_bytes();
    bytes.len() <= MAX_BYTES && !bytes.contains(&0) && !bytes.contains(&b'\r')
}
