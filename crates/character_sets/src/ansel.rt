//! ANSEL: marks stand before their letter.

ghost use Rattle.std.specs.Prelude.{◌≡◌, ◌++◌, [], OnOk, encode_utf8_all, string_bytes, map};
ghost use Rattle.character_sets.specs.Ansel.{
  Steps,
  ansel_character as character_of,
  ansel_characters,
  letter,
  mark as mark_of,
};

use crate::code_pages::{at_place, character};
use crate::tables::{ANSEL, ANSEL_MARKS};
use std::alloc::{AllocError, Global};
use unicode_normalization::slice::extend_nfc;

/// The mark that a byte is. `None`: it is none.
#[tactic(auto, unfolding(crate::specs::Ansel::mark))]
pub(crate) fn mark(unit: u16) -> Option<char>
    ensures { result ≡ mark_of unit }
{
    if unit < 224 {
        return None;
    }
    let found = at_place(&ANSEL_MARKS, usize::from(unit) - 224);
    if found == char::REPLACEMENT_CHARACTER {
        None
    } else {
        Some(found)
    }
}

/// The character of a byte that is no mark.
#[tactic(auto, unfolding(crate::specs::Ansel::ansel_character))]
fn ansel_character(unit: u16) -> char
    ensures { result ≡ character_of unit }
{
    character(&ANSEL, unit)
}

/// Adds the characters of bytes. U+FFFD stands for each mark that no character follows.
pub(crate) fn push_ansel(alloc: Global, out: &mut String, units: &[u16]) -> Result<(), AllocError>
    ensures { OnOk result (string_bytes out.new
        ≡ string_bytes out.old ++ encode_utf8_all (ansel_characters [] units.now)) }
{
    let mut marks: Vec<char> = Vec::new(alloc);
    for unit in units {
        push_unit(alloc, out, &mut marks, *unit)?;
    }
    push_replacements(out, &marks)
}

/// Adds a mark to those that wait, or a character with these.
fn push_unit(
    alloc: Global,
    out: &mut String,
    marks: &mut Vec<char>,
    unit: u16,
) -> Result<(), AllocError>
    ensures { OnOk result (Steps (string_bytes out.old) marks.old.items unit
        (string_bytes out.new) marks.new.items) }
{
    match mark(unit) {
        Some(found) => {
            marks.push(found)?;
            Ok(())
        }
        None => {
            push_letter(alloc, out, ansel_character(unit), marks)?;
            marks.clear();
            Ok(())
        }
    }
}

/// Adds a character with its marks after it, composed where there are marks.
fn push_letter(
    alloc: Global,
    out: &mut String,
    first: char,
    marks: &[char],
) -> Result<(), AllocError>
    ensures { OnOk result (string_bytes out.new ≡ string_bytes out.old ++ encode_utf8_all (letter first marks.now)) }
{
    if marks.is_empty() {
        return out.push(first);
    }
    let mut spelt: Vec<char> = Vec::new(alloc);
    spelt.push(first)?;
    spelt.extend_from_slice(marks)?;
    let mut composed = Vec::new(alloc);
    extend_nfc(&mut composed, &spelt)?;
    push_all(out, &composed)
}

fn push_all(out: &mut String, characters: &[char]) -> Result<(), AllocError>
    ensures { OnOk result (string_bytes out.new ≡ string_bytes out.old ++ encode_utf8_all characters.now) }
{
    for one in characters {
        out.push(*one)?;
    }
    Ok(())
}

fn push_replacements(out: &mut String, marks: &[char]) -> Result<(), AllocError>
    ensures { OnOk result (string_bytes out.new
        ≡ string_bytes out.old ++ encode_utf8_all (map (λ _. 0xFFFD) marks.now)) }
{
    for one in marks {
        out.push(replacement(*one))?;
    }
    Ok(())
}

fn replacement(_mark: char) -> char
    ensures { result ≡ 0xFFFD }
{
    char::REPLACEMENT_CHARACTER
}
