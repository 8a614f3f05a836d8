//! Tags: the words that say what a line is.

ghost use Rattle.std.specs.Prelude.{◌≡◌, ◌↔◌, IfOk, IsTrue, MatchOption, string_bytes};
ghost use Rattle.std.specs.List.{list_all};
ghost use Rattle.record_text.specs.Text.{IsTag, is_word as word_test};

use std::alloc::{AllocError, Global};
use std::marker::Model;

/// The most characters that a tag has: GEDCOM 5.5.1, chapter 1.
const MAX_CHARACTERS: usize = 31;

/// 1 to 31 ASCII letters, digits and underscores, in their case. Contracts see a tag as its bytes.
///
/// GEDCOM 5.5.1, chapter 1, tag.
#[derive(Debug, Drop)]
pub struct Tag {
    string: String,
}

impl Model for Tag {
    ghost use Rattle.std.specs.Prelude.{List, ℕ, string_bytes};
    ghost use Rattle.record_text.specs.Text.{IsTag};

    ghost Value = { List ℕ };

    ghost view = { λ a. string_bytes a.string };

    ghost invariant = { λ a. IsTag (string_bytes a.string) };
}

impl Tag {
    /// The string as a tag. `None`: it is none. Takes no memory.
    pub fn try_new(string: String) -> Option<Tag>
        ensures { MatchOption result (¬ (IsTag (string_bytes string))) (λ t. t ≡ string_bytes string) }
    {
        if is_tag(string.as_bytes()) {
            Some(Tag { string })
        } else {
            None
        }
    }

    /// The tag that a word is, where the caller knows that it is one.
    pub fn of_word(alloc: Global, word: &str) -> Result<Tag, AllocError>
        requires { IsTag word.now }
        ensures { IfOk result (λ t. t ≡ word.now) }
    {
        Ok(Tag {
            string: String::from_str(alloc, word)?,
        })
    }

    /// The tag as a string.
    pub fn as_str(&self) -> &str
        ensures same { result.now ≡ self.now }
        ensures tag { IsTag self.now }
    {
        self.string.as_str()
    }

    /// The same tag in memory of its own.
    pub fn copy(&self, alloc: Global) -> Result<Tag, AllocError>
        ensures { IfOk result (λ t. t ≡ self.now) }
    {
        Ok(Tag {
            string: String::from_str(alloc, self.as_str())?,
        })
    }
}

/// Whether the bytes are a tag.
fn is_tag(bytes: &[u8]) -> bool
    ensures { IsTrue result ↔ IsTag bytes.now }
{
    !bytes.is_empty() && bytes.len() <= MAX_CHARACTERS && has_words_alone(bytes)
}

/// Whether each byte is an ASCII letter, a digit or an underscore.
fn has_words_alone(bytes: &[u8]) -> bool
    ensures { result ≡ list_all word_test bytes.now }
{
    bytes.iter().all(|b| is_word(*b))
}

/// Whether the byte is an ASCII letter, a digit or an underscore.
fn is_word(byte: u8) -> bool
    ensures { result ≡ word_test byte }
{
    (b'0' <= byte && byte <= b'9')
        || (b'A' <= byte && byte <= b'Z')
        || byte == b'_'
        || (b'a' <= byte && byte <= b'z')
}
