//! Parts of a record, changed in place: each position becomes the number of its record.

ghost use Rattle.std.specs.Prelude.{◌≡◌, ℕ, OnOk, map, option_map};
ghost use Rattle.import_definitions.specs.Numbers.{number_at};

use std::alloc::{AllocError, Global};

/// A part of a record, in which pointers stand.
pub(crate) trait Renumber {
    ghost with: { (ℕ → ℕ) → Self → Self };

    /// Puts the number of each position in its place.
    fn renumber(&mut self, alloc: Global, numbers: &[u32]) -> Result<(), AllocError>
        ensures { OnOk result (self.new ≡ with (number_at numbers.now) self.old) };
}

/// All parts, in their order.
pub(crate) fn renumber_all<P: Renumber>(
    alloc: Global,
    parts: &mut [P],
    numbers: &[u32],
) -> Result<(), AllocError>
    ensures { OnOk result (parts.new ≡ map (P.with (number_at numbers.now)) parts.old) }
{
    for part in parts.iter_mut() {
        part.renumber(alloc, numbers)?;
    }
    Ok(())
}

/// A part that may be missing.
pub(crate) fn renumber_part<P: Renumber>(
    alloc: Global,
    part: &mut Option<P>,
    numbers: &[u32],
) -> Result<(), AllocError>
    ensures { OnOk result (part.new ≡ option_map (P.with (number_at numbers.now)) part.old) }
{
    match part {
        None => Ok(()),
        Some(part) => part.renumber(alloc, numbers),
    }
}

/// The number of a position; 0 where it has none.
pub(crate) fn number_of(numbers: &[u32], position: u32) -> u32
    ensures { result ≡ number_at numbers.now position }
{
    match numbers.get(position as usize) {
        Some(number) => *number,
        None => 0,
    }
}

/// The same of a position that may be missing.
pub(crate) fn maybe_number(numbers: &[u32], position: Option<u32>) -> Option<u32>
    ensures { result ≡ option_map (number_at numbers.now) position }
{
    match position {
        None => None,
        Some(position) => Some(number_of(numbers, position)),
    }
}
