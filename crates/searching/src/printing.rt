//! How texts are printed.

ghost use Rattle.std.specs.Prelude.{◌≡◌, ◌++◌, IfOk, string_bytes};
ghost use Rattle.searching.specs.Printing.{
  is_hidden as hidden_test,
  shown as shown_of,
  shown_character as character_of,
};

use std::alloc::{AllocError, Global};

/// The text as it is printed: each control character, and each that turns the direction of a text, is a space.
pub fn shown(alloc: Global, text: &str) -> Result<String, AllocError>
    ensures { IfOk result (λ s. string_bytes s ≡ shown_of text.now) }
{
    text.chars().map(|c| shown_character(c)).collect(alloc)
}

/// The character as it is printed.
pub fn shown_character(c: char) -> char
    ensures { result ≡ character_of c }
{
    if is_hidden(c) { ' ' } else { c }
}

/// A control character, or one that turns the direction of a text (The Unicode Standard, sections 23.1 and 23.2).
#[tactic(auto, unfolding(crate::specs::Printing::is_hidden))]
fn is_hidden(c: char) -> bool
    ensures { result ≡ hidden_test c }
{
    c < '\u{20}'
        || ('\u{7F}' <= c && c < '\u{A0}')
        || ('\u{202A}' <= c && c <= '\u{202E}')
        || ('\u{2066}' <= c && c <= '\u{2069}')
}
