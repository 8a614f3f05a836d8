//! The characters of units.

ghost use Rattle.std.specs.Prelude.{◌≡◌, ◌++◌, OnOk, encode_utf8_all, string_bytes};
ghost use Rattle.std.specs.Char.Utf16.{utf16_lossy_chars};
ghost use Rattle.character_sets.specs.Sets.{characters};

use crate::ansel::push_ansel;
use crate::code_pages::push_bytes;
use crate::set::CharacterSet;
use crate::tables::{CODE_PAGE_437, CODE_PAGE_850, MACINTOSH, WINDOWS_1252};
use crate::utf8::push_utf8;
use std::alloc::{AllocError, Global};

/// Adds the characters of units, in which no character goes beyond the last one. U+FFFD stands for what the set
/// has not.
pub fn push_text(
    alloc: Global,
    out: &mut String,
    set: CharacterSet,
    units: &[u16],
) -> Result<(), AllocError>
    ensures { OnOk result (string_bytes out.new
        ≡ string_bytes out.old ++ encode_utf8_all (characters set units.now)) }
{
    match set {
        CharacterSet::Utf8 => push_utf8(out, units),
        CharacterSet::Utf16Le | CharacterSet::Utf16Be => push_utf16(alloc, out, units),
        CharacterSet::Windows1252 => push_bytes(out, &WINDOWS_1252, units),
        CharacterSet::CodePage437 => push_bytes(out, &CODE_PAGE_437, units),
        CharacterSet::CodePage850 => push_bytes(out, &CODE_PAGE_850, units),
        CharacterSet::Macintosh => push_bytes(out, &MACINTOSH, units),
        CharacterSet::Ansel => push_ansel(alloc, out, units),
    }
}

fn push_utf16(alloc: Global, out: &mut String, units: &[u16]) -> Result<(), AllocError>
    ensures { OnOk result (string_bytes out.new
        ≡ string_bytes out.old ++ encode_utf8_all (utf16_lossy_chars units.now)) }
{
    let text = String::from_utf16_lossy(alloc, units)?;
    out.push_str(&text)
}
