//! Records.

use crate::citation::Citation;
use crate::entry::Entry;
use crate::event::Event;
use crate::family::Family;
use crate::other::Other;
use crate::person::Person;
use crate::place::Place;
use crate::source::{Repo, Source};

/// A record of the archive. It is of one of nine kinds.
#[derive(Drop)]
pub enum Record {
    Place(Place),
    Repo(Repo),
    Source(Source),
    Person(Person),
    Family(Family),
    Citation(Citation),
    Event(Event),
    Entry(Entry),
    Other(Other),
}
