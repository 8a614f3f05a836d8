//! What a line is within a record.

/// What a line is within a record: the field that it is, one of those of a list, something that the record owns, a
/// membership, or carried.
#[derive(Clone, Copy, Debug, PartialEq, Eq)]
pub enum Field {
    Name,
    Parent,
    Sex,
    Event,
    /// A family of a person.
    Side,
    Citation,
    Title,
    Author,
    Publisher,
    /// Where a source is kept.
    Holding,
    CallNumber,
    /// A person of a family.
    Member,
    Page,
    Quality,
    Date,
    Place,
    Participant,
    Role,
    Carried,
}
