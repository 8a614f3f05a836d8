//! What is printed of a fault.

use crate::fault::Fault;
use crate::part::SlipPart;
use sound_records::{Breach, Demand, Part, Unmet};
use std::fmt;

impl fmt::Display for Fault {
    /// `record 17: it names 9, which is no source`.
    fn fmt<W: fmt::Write>(&self, f: &mut fmt::Formatter<W>) -> fmt::Result {
        match self {
            Fault::Next => write!(f, "the next number is not one that can be given"),
            Fault::Record(breach) => write_breach(f, *breach),
            Fault::Shared(number) => write!(f, "record {number}: a slip has its number"),
            Fault::Slip(number, part) => write_slip(f, *number, *part),
            Fault::Stayed(number) => write!(
                f,
                "slip {number}: where the person stood that stays, another record stands"
            ),
            Fault::Taken(number) => write!(
                f,
                "slip {number}: another slip has the number of the person that is gone"
            ),
        }
    }
}

fn write_breach<W: fmt::Write>(f: &mut fmt::Formatter<W>, breach: Breach) -> fmt::Result {
    let number = breach.number;
    match breach.part {
        Part::Link(unmet) => write_unmet(f, number, unmet),
        part => {
            let words = words_of(part);
            write!(f, "record {number}: {words}")
        }
    }
}

fn write_unmet<W: fmt::Write>(f: &mut fmt::Formatter<W>, number: u32, unmet: Unmet) -> fmt::Result {
    let named = unmet.number;
    let kind = demanded(unmet.demand);
    write!(f, "record {number}: it names {named}, which is no {kind}")
}

fn write_slip<W: fmt::Write>(
    f: &mut fmt::Formatter<W>,
    number: u32,
    part: SlipPart,
) -> fmt::Result {
    match part {
        SlipPart::Old(breach) => {
            write!(f, "slip {number}: before the merge, ")?;
            write_breach(f, breach)
        }
        part => {
            let words = slip_words(part);
            write!(f, "slip {number}: {words}")
        }
    }
}

/// What a number has to name.
fn demanded(demand: Demand) -> &'static str {
    match demand {
        Demand::Place => "place",
        Demand::Repo => "repository",
        Demand::Source => "source",
        Demand::Person => "person",
        Demand::Holder => "person or family",
        Demand::Cited => "person, family or event",
        Demand::Level0 => "record of level 0",
    }
}

/// What is wrong with a record.
fn words_of(part: Part) -> &'static str {
    match part {
        Part::Number => "its number is not below the next one",
        Part::Link(_) => "it names a number that is no such record",
        Part::Parent => "the place above it has no smaller number",
        Part::Name => "the name of the place is not normal",
        Part::Path => "the path of the place has over 32 parts or 4,096 bytes",
        Part::Members => "a person stands twice in the family",
        Part::Tags => "a tag is CONC or CONT",
        Part::Trailer => "its tag is TRLR",
        Part::Texts => "a text is none",
        Part::Place => "the path of its place has only empty parts",
        Part::EventTag => "the tag of the event is not of its owner's kind",
        Part::Mentions => "it has not 1 to 100 mentions, with roles of its kind",
        Part::Untaken => "a carried line is one that a field would take",
        Part::Shape => "it has the shape of a record of another kind",
        Part::Levels => "a line is below level 98",
        Part::Key => "another entry has its source, kind, page and item",
    }
}

/// What is wrong with a slip.
fn slip_words(part: SlipPart) -> &'static str {
    match part {
        SlipPart::Number => "a number is not below the next one",
        SlipPart::Order => "the changed numbers do not ascend",
        SlipPart::Gone => "what is gone was no person",
        SlipPart::Keep => "what stays was no person, or gained without a change",
        SlipPart::Same => "one person is merged into itself",
        SlipPart::Clash => "the two were in one family, and not both its children",
        SlipPart::Merge => "the new records are not the merge of the old ones",
        SlipPart::Old(_) => "an old record breaks a rule",
    }
}
