//! Counts of what is read otherwise than as it stands.

ghost use Rattle.std.specs.Prelude.{◌≡◌, ◌+◌, ◌<◌, ◌≤◌, false, length};
ghost use Rattle.character_sets.specs.Counts.{
  is_ansel_letter as is_ansel_letter_of,
  is_within as is_within_of,
  marked_others as marked_others_of,
  strays,
};

use crate::ansel::mark;
use crate::utf8::{Beginning, front};

/// How many bytes are no part of a character of UTF-8.
pub fn stray_bytes(units: &[u16]) -> usize
    ensures { result ≡ strays 0 units.now }
{
    let mut rest = units;
    let mut count = 0usize;
    'characters: while !rest.is_empty() {
        let (strays, more) = past_next(rest);
        count += strays;
        rest = more;
    }
    count
}

/// Whether the first byte is no part of a character, as a number, and the bytes after the first character.
fn past_next(units: &[u16]) -> (usize, &[u16])
    requires { 0 < length units.now }
    ensures strays { strays 0 units.now ≡ result.0 + strays 0 result.1.now }
    ensures shorter { result.0 + length result.1.now ≤ length units.now }
    ensures ends { length result.1.now < length units.now }
{
    match front(units) {
        Beginning::Whole(_, count) => (0, &units[count..]),
        Beginning::Partial => (1, &units[1..]),
        Beginning::Stray => (1, &units[1..]),
    }
}

/// How many characters of ANSEL have marks and are no letters.
pub fn marked_others(units: &[u16]) -> usize
    ensures { result ≡ marked_others_of false units.now }
{
    let mut count = 0usize;
    let mut is_waiting = false;
    for unit in units {
        if mark(*unit).is_some() {
            is_waiting = true;
        } else {
            if is_waiting && !is_ansel_letter(*unit) {
                count += 1;
            }
            is_waiting = false;
        }
    }
    count
}

/// The byte of a letter in ANSEL.
fn is_ansel_letter(unit: u16) -> bool
    ensures { result ≡ is_ansel_letter_of unit }
{
    is_within(0x41, 0x5A, unit)
        || is_within(0x61, 0x7A, unit)
        || is_within(0xA1, 0xA7, unit)
        || is_within(0xAC, 0xAE, unit)
        || is_within(0xB0, 0xB8, unit)
        || unit == 0xBA
        || is_within(0xBC, 0xBD, unit)
        || unit == 0xC1
        || unit == 0xC7
        || is_within(0xCD, 0xCF, unit)
}

fn is_within(low: u16, high: u16, unit: u16) -> bool
    ensures { result ≡ is_within_of low high unit }
{
    low <= unit && unit <= high
}
