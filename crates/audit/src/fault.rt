//! What is found where an archive is not sound.

use crate::part::SlipPart;
use sound_records::Breach;

/// What breaks the rule of a sound archive.
#[derive(Clone, Copy, Debug, PartialEq, Eq)]
pub enum Fault {
    /// The next number is 0, or above 4,294,967,296.
    Next,
    /// A record breaks a part of the rule on records.
    Record(Breach),
    /// A record has the number of a slip.
    Shared(u32),
    /// The slip of a number breaks a part of the rule on slips.
    Slip(u32, SlipPart),
    /// Where the person stood that the slip says to stay, another record stands.
    Stayed(u32),
    /// A slip has the number of the person that is gone by the slip of this number.
    Taken(u32),
}
