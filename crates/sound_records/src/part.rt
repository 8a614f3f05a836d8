//! The parts of the rule on records.

use crate::demand::Unmet;

/// A part of the rule on records of a sound archive.
#[derive(Clone, Copy, Debug, PartialEq, Eq)]
pub enum Part {
    /// Numbers are from 1, and below the next one.
    Number,
    /// A number in a record names a record of the kind that is demanded there.
    Link(Unmet),
    /// A place is within one of a smaller number.
    Parent,
    /// The name of a place is normal.
    Name,
    /// The path of a place is within the limits.
    Path,
    /// No person stands twice in a family.
    Members,
    /// No line has the tag of a continuation.
    Tags,
    /// No record has the tag of a trailer.
    Trailer,
    /// Each text is one.
    Texts,
    /// The path of the place of an event or an entry has a part that is not empty.
    Place,
    /// An event has a tag of its owner's kind.
    EventTag,
    /// An entry has 1 to 100 mentions, with roles of its kind.
    Mentions,
    /// No field would take a carried line.
    Untaken,
    /// A record of no other kind has not the shape of one of the others.
    Shape,
    /// No line is below level 98.
    Levels,
    /// No two entries agree in source, kind, page and item.
    Key,
}

/// A record that breaks a part of the rule.
#[derive(Clone, Copy, Debug, PartialEq, Eq)]
pub struct Breach {
    /// The number of the record.
    pub number: u32,
    pub part: Part,
}
