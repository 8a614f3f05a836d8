//! What a record of the archive is: places, repositories, sources, persons, families, citations, events,
//! register entries and others, each with the carried lines of its parts.
//!
//! It uses `record_text`, `record_fields` and `stored_lines`, whose texts, tags, dates, words and carried
//! lines are in the fields. How a record is kept is for `records` to say, which hands all of this on.
//!
//! Callers may rely on: what a record cannot be is in its types, and contracts see it as the values of
//! `specs/Model`.
#![tactic(auto)]

mod citation;
mod entry;
mod event;
mod family;
mod other;
mod person;
mod place;
mod record;
mod source;

pub use citation::Citation;
pub use entry::{Entry, Link, Mention};
pub use event::{Event, EventPlace, Participant};
pub use family::{Child, Family, Partner};
pub use other::Other;
pub use person::{Name, Person};
pub use place::Place;
pub use record::Record;
pub use source::{Holding, Repo, Source};
