//! Names of persons, as they are displayed and compared.

ghost use Rattle.std.specs.Prelude.{◌≡◌, IfOk, string_bytes};
ghost use Rattle.std.specs.List.{join_with_byte};
ghost use Rattle.record_text.specs.Naming.{displayed, key_of, surname_of};
ghost use Rattle.record_text.specs.Words.{words};

use crate::cutting::{cut, next_word, replaced};
use caseless::default_case_fold_str;
use std::alloc::{AllocError, Global};

/// The name as people read it: slashes removed, LF made a space, runs of spaces made one, and none at the
/// ends.
pub fn display(alloc: Global, name: &str) -> Result<String, AllocError>
    ensures { IfOk result (λ s. string_bytes s ≡ displayed name.now) }
{
    let joined = replaced(alloc, name, '/', "")?;
    let plain = replaced(alloc, &joined, '\n', " ")?;
    spaced(alloc, &plain)
}

/// The words of a text with one space between.
fn spaced(alloc: Global, text: &str) -> Result<String, AllocError>
    ensures { IfOk result (λ s. string_bytes s ≡ join_with_byte 32 (words text.now)) }
{
    let mut out = String::new(alloc);
    let Some((first, after_first)) = next_word(text) else {
        return Ok(out);
    };
    out.push_str(first)?;
    let mut rest = after_first;
    while let Some((word, after)) = next_word(rest) {
        out.push_str(" ")?;
        out.push_str(word)?;
        rest = after;
    }
    Ok(out)
}

/// What stands between the first slash of a name and the next one; empty without both. Takes no memory.
///
/// GEDCOM 5.5.1, chapter 2, NAME_PERSONAL.
pub fn surname(name: &str) -> &str
    ensures { result.now ≡ surname_of name.now }
{
    match cut(name, '/') {
        Some((_, rest)) => match cut(rest, '/') {
            Some((found, _)) => found,
            None => "",
        },
        None => "",
    }
}

/// The key under which a surname is looked up: its default case folding (The Unicode Standard, section
/// 3.13), so that surnames that differ only in case have one key.
pub fn surname_key(alloc: Global, surname: &str) -> Result<String, AllocError>
    ensures { IfOk result (λ k. string_bytes k ≡ key_of surname.now) }
{
    default_case_fold_str(alloc, surname)
}
