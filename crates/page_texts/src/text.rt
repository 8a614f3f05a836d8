//! The text of a page.

ghost use Rattle.std.specs.Prelude.{◌≡◌, IfOk, MatchOption, None, Some, encode_utf8_all};
ghost use Rattle.character_sets.specs.Sets.{characters};
ghost use Rattle.page_texts.specs.Texts as texts;

use character_sets::{CharacterSet, push_text, units_of};
use std::alloc::{AllocError, Global};

/// The text of a page in UTF-8: of UTF-16 where the bytes begin with its mark, else of the set, where one is given;
/// without both they stay as they are. U+FFFD stands for what the set has not. Of UTF-16 that ends within a character,
/// or has half of one elsewhere, it is a byte that is in no text.
#[tactic(auto, unfolding(crate::specs::Texts::page_text))]
pub fn page_text(
    alloc: Global,
    set: Option<CharacterSet>,
    bytes: Vec<u8>,
) -> Result<Vec<u8>, AllocError>
    ensures { IfOk result (λ text. text.items ≡ texts.page_text set bytes.items) }
{
    match marked(&bytes) {
        Some((set, more)) => text_in(alloc, set, more),
        None => given_text(alloc, set, bytes),
    }
}

/// The set that the mark of UTF-16 says, and the bytes after it. `None`: there is no such mark.
fn marked(bytes: &[u8]) -> Option<(CharacterSet, &[u8])>
    ensures { MatchOption result (texts.marked bytes.now ≡ None)
        (λ m. texts.marked bytes.now ≡ Some (m.0, m.1.now)) }
{
    match bytes {
        [0xFF, 0xFE, more @ ..] => Some((CharacterSet::Utf16Le, more)),
        [0xFE, 0xFF, more @ ..] => Some((CharacterSet::Utf16Be, more)),
        _ => None,
    }
}

/// The text of bytes without a mark of UTF-16.
fn given_text(
    alloc: Global,
    set: Option<CharacterSet>,
    bytes: Vec<u8>,
) -> Result<Vec<u8>, AllocError>
    ensures { IfOk result (λ text. text.items ≡ texts.given_text set bytes.items) }
{
    match set {
        Some(set) => text_in(alloc, set, &bytes),
        None => Ok(bytes),
    }
}

/// The text of bytes in a set.
fn text_in(alloc: Global, set: CharacterSet, bytes: &[u8]) -> Result<Vec<u8>, AllocError>
    ensures { IfOk result (λ text. text.items ≡ texts.text_in set bytes.now) }
{
    let units = units_of(alloc, set, bytes)?;
    if !is_wide(set) {
        return narrow_text(alloc, set, &units);
    }
    if bytes.len() % 2 == 0 {
        wide_text(alloc, &units)
    } else {
        no_text(alloc)
    }
}

fn is_wide(set: CharacterSet) -> bool
    ensures { result ≡ texts.is_wide set }
{
    match set {
        CharacterSet::Utf16Le | CharacterSet::Utf16Be => true,
        _ => false,
    }
}

/// The text of units in a set whose units are bytes.
fn narrow_text(alloc: Global, set: CharacterSet, units: &[u16]) -> Result<Vec<u8>, AllocError>
    ensures { IfOk result (λ text. text.items ≡ encode_utf8_all (characters set units.now)) }
{
    let mut text = String::new(alloc);
    push_text(alloc, &mut text, set, units)?;
    Ok(text.into_bytes())
}

/// The text of units of UTF-16.
fn wide_text(alloc: Global, units: &[u16]) -> Result<Vec<u8>, AllocError>
    ensures { IfOk result (λ text. text.items ≡ texts.wide_text units.now) }
{
    match String::from_utf16(alloc, units)? {
        Ok(text) => Ok(text.into_bytes()),
        Err(_) => no_text(alloc),
    }
}

/// A byte that is in no text.
fn no_text(alloc: Global) -> Result<Vec<u8>, AllocError>
    ensures { IfOk result (λ text. text.items ≡ texts.no_text) }
{
    let mut text = Vec::new(alloc);
    text.push(0xFF)?;
    Ok(text)
}
