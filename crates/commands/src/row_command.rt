//! The commands of one row.

use crate::correction::GivenCorrection;
use crate::entry_row::EntryRow;
use crate::field::Field;
use crate::given::GivenDate;
use record_fields::{Partnership, Quality, Sex};

/// A command of one row, with its fields in the order of the row.
#[derive(Drop)]
pub enum RowCommand {
    /// A new person.
    Person {
        name: Field,
        sex: Option<Sex>,
    },
    /// A further name of a person.
    Name {
        person: u32,
        name: Field,
    },
    /// The sex of a person.
    Sex {
        person: u32,
        sex: Sex,
    },
    /// A new family, with its partners.
    Family {
        husband: Option<u32>,
        wife: Option<u32>,
    },
    /// A further child of a family.
    Child {
        family: u32,
        person: u32,
    },
    /// A new event of a person or a family.
    Event {
        owner: u32,
        tag: Field,
        value: Field,
        date: Option<GivenDate>,
        place: Option<u32>,
    },
    /// Another value, date or place of an event. What is empty or none stays as it is.
    Amend {
        event: u32,
        value: Field,
        date: Option<GivenDate>,
        place: Option<u32>,
    },
    /// A further participant of an event.
    Participant {
        event: u32,
        person: u32,
        role: Field,
    },
    /// A new place, within another or none.
    Place {
        name: Field,
        parent: Option<u32>,
    },
    /// A new repository.
    Repo {
        name: Field,
    },
    /// A new source. Author, publisher and call number are none where they are empty.
    Source {
        title: Field,
        author: Field,
        publisher: Field,
        repo: Option<u32>,
        call_number: Field,
    },
    /// A new citation of a source, for a person, a family or an event. The page is none where it is empty.
    Citation {
        owner: u32,
        source: u32,
        page: Field,
        quality: Option<Quality>,
    },
    /// A new register entry of a source.
    Entry {
        source: u32,
        entry: EntryRow,
    },
    /// A mention of an entry, from 1, is of that person, for that reason.
    Link {
        entry: u32,
        mention: u32,
        person: u32,
        reason: Field,
    },
    /// A mention of an entry, from 1, is of no person.
    Unlink {
        entry: u32,
        mention: u32,
    },
    /// The person `gone` becomes `keep`.
    Merge {
        keep: u32,
        gone: u32,
    },
    /// What the merge of a slip changed gets its old value back.
    Undo {
        slip: u32,
    },
    /// A record is removed of the archive.
    Remove {
        number: u32,
    },
    /// A further partner of a family, last among its partners.
    Partner {
        family: u32,
        partnership: Partnership,
        person: u32,
    },
    /// A person is no partner of a family any more.
    Unpartner {
        family: u32,
        person: u32,
    },
    /// A person is no child of a family any more.
    Unchild {
        family: u32,
        person: u32,
    },
    /// The participant of a place in the list of an event, from 1, is removed.
    Unparticipant {
        event: u32,
        place: u32,
    },
    /// A field of a record gets another value, or is taken away.
    Correct {
        number: u32,
        given: GivenCorrection,
    },
}
