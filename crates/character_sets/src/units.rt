//! The units of a file: its bytes, or of UTF-16 the pairs of them.

ghost use Rattle.std.specs.Prelude.{◌≡◌, ◌+◌, ◌*◌, IfOk, if◌then◌else◌};
ghost use Rattle.character_sets.specs.Sets.{units_of as units_in, wide_units};

use crate::set::CharacterSet;
use std::alloc::{AllocError, Global};

/// The units of a file in a set: each byte by itself, and of UTF-16 each two bytes. A last byte of UTF-16 that has no
/// other is half a unit, and left out.
pub fn units_of(alloc: Global, set: CharacterSet, bytes: &[u8]) -> Result<Vec<u16>, AllocError>
    ensures { IfOk result (λ units. units.items ≡ units_in set bytes.now) }
{
    match set {
        CharacterSet::Utf16Le => pairs(alloc, bytes, true),
        CharacterSet::Utf16Be => pairs(alloc, bytes, false),
        _ => single(alloc, bytes),
    }
}

fn single(alloc: Global, bytes: &[u8]) -> Result<Vec<u16>, AllocError>
    ensures { IfOk result (λ units. units.items ≡ bytes.now) }
{
    let mut units = Vec::with_capacity(alloc, bytes.len())?;
    for byte in bytes {
        units.push(u16::from(*byte))?;
    }
    Ok(units)
}

fn pairs(alloc: Global, bytes: &[u8], is_low_first: bool) -> Result<Vec<u16>, AllocError>
    ensures { IfOk result (λ units. units.items ≡ wide_units is_low_first bytes.now) }
{
    let mut units = Vec::with_capacity(alloc, bytes.len() / 2)?;
    let mut rest = bytes;
    'pairs: while let [first, second, more @ ..] = rest {
        units.push(unit(is_low_first, *first, *second))?;
        rest = more;
    }
    Ok(units)
}

fn unit(is_low_first: bool, first: u8, second: u8) -> u16
    ensures { result ≡ (if is_low_first then first + 256 * second else 256 * first + second) }
{
    if is_low_first {
        u16::from(first) + 256 * u16::from(second)
    } else {
        256 * u16::from(first) + u16::from(second)
    }
}
