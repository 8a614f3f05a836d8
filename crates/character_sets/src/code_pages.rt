//! Sets of which each byte is a character by itself.

ghost use Rattle.std.specs.Prelude.{◌≡◌, ◌++◌, OnOk, map, encode_utf8_all, slice_index_or, string_bytes};
ghost use Rattle.std.specs.List.{list_all};
ghost use Rattle.character_sets.specs.CodePages.{character as character_of, is_alike};
ghost use Rattle.character_sets.specs.declared.tables.TheConstants.{CODE_PAGE_437, CODE_PAGE_850};

use crate::tables::{CODE_PAGE_437, CODE_PAGE_850};
use std::alloc::AllocError;

/// The character of a byte: ASCII, or what the table has. U+FFFD: the set has not the byte.
pub(crate) fn character(table: &[char; 128], unit: u16) -> char
    ensures { result ≡ character_of table.now unit }
{
    if unit < 128 {
        return char::from(unit as u8);
    }
    at_place(table, usize::from(unit) - 128)
}

/// The character at a place of a table. U+FFFD: the table ends before it.
pub(crate) fn at_place(table: &[char], place: usize) -> char
    ensures { result ≡ slice_index_or table.now place 0xFFFD }
{
    match table.get(place) {
        Some(found) => *found,
        None => char::REPLACEMENT_CHARACTER,
    }
}

/// Adds the characters of bytes.
pub(crate) fn push_bytes(
    out: &mut String,
    table: &[char; 128],
    units: &[u16],
) -> Result<(), AllocError>
    ensures { OnOk result (string_bytes out.new
        ≡ string_bytes out.old ++ encode_utf8_all (map (character_of table.now) units.now)) }
{
    for unit in units {
        out.push(character(table, *unit))?;
    }
    Ok(())
}

/// Whether code pages 437 and 850 have the same characters for all of these bytes.
pub fn is_read_alike(units: &[u16]) -> bool
    ensures { result ≡ list_all is_alike units.now }
{
    units.iter().all(|unit| is_one_character(*unit))
}

fn is_one_character(unit: u16) -> bool
    ensures { result ≡ is_alike unit }
{
    character(&CODE_PAGE_437, unit) == character(&CODE_PAGE_850, unit)
}
