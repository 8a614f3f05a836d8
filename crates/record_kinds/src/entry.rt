//! Register entries.

use record_fields::{Date, EntryKind, Item, Role};
use record_text::Text;
use std::marker::Model;

/// Which person a mention is of, and why.
pub struct Link {
    /// The number of the person.
    pub person: u32,
    pub reason: Text,
}

// It is written out, so that no crate above proves again how each part is dropped.
impl Drop for Link {
    fn drop(self) {
        let Link {
            person: _,
            reason: _,
        } = self;
    }
}

impl Model for Link {
    ghost use Rattle.std.specs.Coded.{codes};
    ghost use Rattle.record_kinds.specs.Model as model;

    ghost Value = { model.Link };

    ghost coded = { Prim.hlevel codes };

    ghost view = { λ a. record { person = a.person; reason = a.reason } };
}

/// Who is named in an entry, and as what.
pub struct Mention {
    pub role: Role,
    /// The name as it stands in the entry.
    pub name: Text,
    pub link: Option<Link>,
}

// It is written out, so that no crate above proves again how each part is dropped.
impl Drop for Mention {
    fn drop(self) {
        let Mention {
            role: _,
            name: _,
            link: _,
        } = self;
    }
}

impl Model for Mention {
    ghost use Rattle.std.specs.Coded.{codes};
    ghost use Rattle.record_kinds.specs.Model as model;

    ghost Value = { model.Mention };

    ghost coded = { Prim.hlevel codes };

    ghost view = { λ a. record { role = a.role; name = a.name; link = a.link } };
}

/// An entry of a register of baptisms, marriages or burials.
pub struct Entry {
    /// The number of the source, which is the register.
    pub source: u32,
    pub kind: EntryKind,
    pub page: Text,
    pub item: Item,
    pub date: Option<Date>,
    /// The number of the place.
    pub place: Option<u32>,
    /// What stands in the register.
    pub text: Text,
    /// In the order in which they are named.
    pub mentions: Vec<Mention>,
}

// It is written out, so that no crate above proves again how each part is dropped.
impl Drop for Entry {
    fn drop(self) {
        let Entry {
            source: _,
            kind: _,
            page: _,
            item: _,
            date: _,
            place: _,
            text: _,
            mentions: _,
        } = self;
    }
}

impl Model for Entry {
    ghost use Rattle.std.specs.Coded.{codes};
    ghost use Rattle.record_fields.specs.Codes.{date_code};
    ghost use Rattle.record_kinds.specs.Model as model;

    ghost Value = { model.Entry };

    ghost coded = { Prim.hlevel (codes, date_code) };

    ghost view = { λ a. record {
      source = a.source;
      kind = a.kind;
      page = a.page;
      item = a.item;
      date = a.date;
      place = a.place;
      text = a.text;
      mentions = a.mentions.items;
    } };
}
