//! UTF-8, and a byte of Windows-1252 where one is no part of a character.

ghost use Rattle.std.specs.Prelude.{
  ◌≡◌,
  ◌++◌,
  ◌≤◌,
  ◌<◌,
  ◌∷◌,
  false,
  OnOk,
  MatchOption,
  length,
  if◌then◌else◌,
  encode_utf8_all,
  string_bytes,
};
ghost use Rattle.character_sets.specs.Utf8.{
  front as front_of,
  is_next as is_next_of,
  led_by as led_by_of,
  two as two_of,
  three as three_of,
  four as four_of,
  shortest as shortest_of,
  utf8_characters,
  has_no_stray,
  IsWithin,
};

use crate::code_pages::character;
use crate::tables::WINDOWS_1252;
use std::alloc::AllocError;

/// What bytes begin with.
#[derive(Clone, Copy, Debug, PartialEq, Eq)]
pub(crate) enum Beginning {
    /// A character, and its number of bytes.
    Whole(char, usize),
    /// The bytes end within a character.
    Partial,
    /// The first byte is no part of a character.
    Stray,
}

/// What bytes begin with (RFC 3629). Of no bytes it is `Partial`.
pub(crate) fn front(units: &[u16]) -> Beginning
    ensures front { result ≡ front_of units.now }
    ensures within { IsWithin units.now result }
{
    let [a, more @ ..] = units else {
        return Beginning::Partial;
    };
    led_by(*a, more)
}

/// What a byte and those after it begin with.
fn led_by(a: u16, more: &[u16]) -> Beginning
    ensures front { result ≡ led_by_of a more.now }
    ensures within { IsWithin (a ∷ more.now) result }
{
    if a < 0x80 {
        Beginning::Whole(char::from(a as u8), 1)
    } else if a < 0xC0 {
        Beginning::Stray
    } else if a < 0xE0 {
        two(a, more)
    } else if a < 0xF0 {
        three(a, more)
    } else if a < 0xF8 {
        four(a, more)
    } else {
        Beginning::Stray
    }
}

fn is_next(unit: u16) -> bool
    ensures { result ≡ is_next_of unit }
{
    0x80 <= unit && unit < 0xC0
}

fn shortest(least: u32, code: u32, count: usize) -> Beginning
    ensures { result ≡ shortest_of least code count }
{
    match char::from_u32(code) {
        Some(found) if least <= code => Beginning::Whole(found, count),
        _ => Beginning::Stray,
    }
}

fn two(a: u16, more: &[u16]) -> Beginning
    requires low { 0xC0 ≤ a }
    requires high { a < 0xE0 }
    ensures { result ≡ two_of a more.now }
{
    let [b, ..] = more else {
        return Beginning::Partial;
    };
    if !is_next(*b) {
        return Beginning::Stray;
    }
    shortest(0x80, u32::from(a - 0xC0) * 64 + u32::from(*b - 0x80), 2)
}

fn three(a: u16, more: &[u16]) -> Beginning
    requires low { 0xE0 ≤ a }
    requires high { a < 0xF0 }
    ensures { result ≡ three_of a more.now }
{
    match more {
        [] => Beginning::Partial,
        [b] => partial_if(is_next(*b)),
        [b, c, ..] => {
            if !is_next(*b) || !is_next(*c) {
                return Beginning::Stray;
            }
            let code = u32::from(a - 0xE0) * 4_096
                + u32::from(*b - 0x80) * 64
                + u32::from(*c - 0x80);
            shortest(0x800, code, 3)
        }
    }
}

fn partial_if(is_partial: bool) -> Beginning
    ensures { result ≡ (if is_partial then Beginning.Partial else Beginning.Stray) }
{
    if is_partial {
        Beginning::Partial
    } else {
        Beginning::Stray
    }
}

fn four(a: u16, more: &[u16]) -> Beginning
    requires low { 0xF0 ≤ a }
    requires high { a < 0xF8 }
    ensures { result ≡ four_of a more.now }
{
    match more {
        [] => Beginning::Partial,
        [b] => partial_if(is_next(*b)),
        [b, c] => partial_if(is_next(*b) && is_next(*c)),
        [b, c, d, ..] => {
            if !is_next(*b) || !is_next(*c) || !is_next(*d) {
                return Beginning::Stray;
            }
            let high = u32::from(a - 0xF0) * 262_144 + u32::from(*b - 0x80) * 4_096;
            shortest(
                0x1_0000,
                high + u32::from(*c - 0x80) * 64 + u32::from(*d - 0x80),
                4,
            )
        }
    }
}

/// The first character of bytes, and the bytes after it.
fn next(units: &[u16]) -> (char, &[u16])
    requires { 0 < length units.now }
    ensures characters { utf8_characters 0 units.now ≡ result.0 ∷ utf8_characters 0 result.1.now }
    ensures shorter { length result.1.now < length units.now }
{
    match front(units) {
        Beginning::Whole(found, count) => (found, &units[count..]),
        _ => (character(&WINDOWS_1252, units[0]), &units[1..]),
    }
}

/// Adds the characters of bytes.
pub(crate) fn push_utf8(out: &mut String, units: &[u16]) -> Result<(), AllocError>
    ensures { OnOk result (string_bytes out.new
        ≡ string_bytes out.old ++ encode_utf8_all (utf8_characters 0 units.now)) }
{
    let mut rest = units;
    'characters: while !rest.is_empty() {
        let (found, more) = next(rest);
        out.push(found)?;
        rest = more;
    }
    Ok(())
}

/// Whether each byte belongs to a character of UTF-8.
pub fn is_utf8(units: &[u16]) -> bool
    ensures { result ≡ has_no_stray 0 units.now }
{
    let mut rest = units;
    'characters: while !rest.is_empty() {
        match past_character(rest) {
            Some(more) => rest = more,
            None => return false,
        }
    }
    true
}

/// The bytes after the first character. `None`: the first byte is no part of one.
fn past_character(units: &[u16]) -> Option<&[u16]>
    requires { 0 < length units.now }
    ensures { MatchOption result (has_no_stray 0 units.now ≡ false)
        (λ more. (has_no_stray 0 units.now ≡ has_no_stray 0 more.now) × (length more.now < length units.now)) }
{
    match front(units) {
        Beginning::Whole(_, count) => Some(&units[count..]),
        Beginning::Partial => None,
        Beginning::Stray => None,
    }
}
