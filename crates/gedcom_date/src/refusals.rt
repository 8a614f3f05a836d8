//! The number of a fault, of the one table of refusals.

ghost use Rattle.std.specs.Prelude.{◌≡◌};
ghost use Rattle.gedcom_date.specs.Refusals.{number_of};

use crate::fault::DateKind;

impl DateKind {
    /// The refusal's number. docs/REFUSALS.md explains it. `gedcom_rules` and `record_text` have it too, and
    /// tests/refusals.py compares them.
    pub fn number(self) -> u8
        ensures { result ≡ number_of self }
    {
        match self {
            DateKind::OutOfMemory => 1,
        }
    }
}
