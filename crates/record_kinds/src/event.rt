//! Events of persons and families.

use record_fields::Date;
use record_text::{Tag, Text};
use std::marker::Model;
use stored_lines::Carried;

/// The place of an event.
pub struct EventPlace {
    /// The number of the place.
    pub place: u32,
    /// The carried lines of the line that names the place.
    pub carried: Vec<Carried>,
}

// It is written out, so that no crate above proves again how each part is dropped.
impl Drop for EventPlace {
    fn drop(self) {
        let EventPlace {
            place: _,
            carried: _,
        } = self;
    }
}

impl Model for EventPlace {
    ghost use Rattle.std.specs.Coded.{codes};
    ghost use Rattle.stored_lines.specs.Line.{lines_code, value_code};
    ghost use Rattle.record_kinds.specs.Model as model;

    ghost Value = { model.EventPlace };

    ghost coded = { Prim.hlevel (codes, lines_code, value_code) };

    ghost view = { λ a. record { place = a.place; carried = a.carried.items } };
}

/// Who took part in an event, beside its owner.
pub struct Participant {
    /// The number of the person.
    pub person: u32,
    /// As what; empty where it is not said.
    pub role: Text,
    pub carried: Vec<Carried>,
}

// It is written out, so that no crate above proves again how each part is dropped.
impl Drop for Participant {
    fn drop(self) {
        let Participant {
            person: _,
            role: _,
            carried: _,
        } = self;
    }
}

impl Model for Participant {
    ghost use Rattle.std.specs.Coded.{codes};
    ghost use Rattle.stored_lines.specs.Line.{lines_code, value_code};
    ghost use Rattle.record_kinds.specs.Model as model;

    ghost Value = { model.Participant };

    ghost coded = { Prim.hlevel (codes, lines_code, value_code) };

    ghost view = { λ a. record { person = a.person; role = a.role; carried = a.carried.items } };
}

/// An event of a person or a family.
pub struct Event {
    /// The number of the person or family.
    pub owner: u32,
    /// What happened: a tag of GEDCOM 5.5.1, chapter 2, as `BIRT`.
    pub tag: Tag,
    /// What stands after the tag; mostly empty.
    pub value: Text,
    pub date: Option<Date>,
    pub place: Option<EventPlace>,
    pub participants: Vec<Participant>,
    pub carried: Vec<Carried>,
}

// It is written out, so that no crate above proves again how each part is dropped.
impl Drop for Event {
    fn drop(self) {
        let Event {
            owner: _,
            tag: _,
            value: _,
            date: _,
            place: _,
            participants: _,
            carried: _,
        } = self;
    }
}

impl Model for Event {
    ghost use Rattle.std.specs.Coded.{codes};
    ghost use Rattle.stored_lines.specs.Line.{lines_code, value_code};
    ghost use Rattle.record_fields.specs.Codes.{date_code};
    ghost use Rattle.record_kinds.specs.Model as model;

    ghost Value = { model.Event };

    ghost coded = { Prim.hlevel (codes, date_code, lines_code, value_code) };

    ghost view = { λ a. record {
      owner = a.owner;
      tag = a.tag;
      value = a.value;
      date = a.date;
      place = a.place;
      participants = a.participants.items;
      carried = a.carried.items;
    } };
}
