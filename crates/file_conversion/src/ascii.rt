//! Lines of ASCII, which each set has alike.

ghost use Rattle.std.specs.Prelude.{◌≡◌, ◌++◌, OnOk, encode_utf8_all, map, string_bytes};
ghost use Rattle.std.specs.List.{list_all};
ghost use Rattle.character_sets.specs.Sets.{characters};
ghost use Rattle.file_conversion.specs.Conversion.{is_ascii as is_ascii_of};
ghost use Rattle.file_conversion.specs.PlainLines.{is_plain as is_plain_of, plain_character as character_of};

use character_sets::{CharacterSet, push_text};
use std::alloc::{AllocError, Global};

/// Whether a line with `carry` in front of its value is all of ASCII, and nothing is in front: it is written as it
/// stands.
pub fn is_plain(carry: &[u16], body: &[u16]) -> bool
    ensures { result ≡ is_plain_of carry.now body.now }
{
    carry.is_empty() && are_ascii_units(body)
}

fn are_ascii_units(units: &[u16]) -> bool
    ensures { result ≡ list_all is_ascii_of units.now }
{
    units.iter().all(|unit| *unit < 128)
}

/// Adds the characters of units.
pub(crate) fn push_units(
    alloc: Global,
    text: &mut String,
    set: CharacterSet,
    units: &[u16],
) -> Result<(), AllocError>
    ensures { OnOk result (string_bytes text.new
        ≡ string_bytes text.old ++ encode_utf8_all (characters set units.now)) }
{
    if are_ascii_units(units) {
        push_ascii(text, units)?;
        return Ok(());
    }
    push_text(alloc, text, set, units)
}

/// Adds units of ASCII as characters. U+FFFD stands for any other.
fn push_ascii(text: &mut String, units: &[u16]) -> Result<(), AllocError>
    ensures { OnOk result (string_bytes text.new
        ≡ string_bytes text.old ++ encode_utf8_all (map character_of units.now)) }
{
    for unit in units {
        text.push(plain_character(*unit))?;
    }
    Ok(())
}

fn plain_character(unit: u16) -> char
    ensures { result ≡ character_of unit }
{
    if unit < 128 {
        char::from(unit as u8)
    } else {
        char::REPLACEMENT_CHARACTER
    }
}
