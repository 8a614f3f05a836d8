//! The parts of the rule on slips.

use sound_records::Breach;

/// A part of the rule on the slip of a merge.
#[derive(Clone, Copy, Debug, PartialEq, Eq)]
pub enum SlipPart {
    /// All numbers are from 1, and below the next one.
    Number,
    /// The changed numbers ascend.
    Order,
    /// The old record of the person that is gone is a person.
    Gone,
    /// So is that of the person that stays; where it did not change, the other had no name, sex and carried line.
    Keep,
    /// They are two.
    Same,
    /// No old record is a family of both, but with both as its children.
    Clash,
    /// The merge of the old records gives the new ones.
    Merge,
    /// The old records break no rule on records, where what a number outside the slip names is not judged.
    Old(Breach),
}
