//! Families.

use record_fields::Partnership;
use std::marker::Model;
use stored_lines::Carried;

/// A partner in a family. A membership has two sides, each with carried lines of its own.
pub struct Partner {
    pub partnership: Partnership,
    /// The number of the person.
    pub person: u32,
    /// The carried lines of the family's side.
    pub carried: Vec<Carried>,
    /// The carried lines of the person's side.
    pub carried_by_person: Vec<Carried>,
}

// It is written out, so that no crate above proves again how each part is dropped.
impl Drop for Partner {
    fn drop(self) {
        let Partner {
            partnership: _,
            person: _,
            carried: _,
            carried_by_person: _,
        } = self;
    }
}

impl Model for Partner {
    ghost use Rattle.std.specs.Coded.{codes};
    ghost use Rattle.stored_lines.specs.Line.{lines_code, value_code};
    ghost use Rattle.record_kinds.specs.Model as model;

    ghost Value = { model.Partner };

    ghost coded = { Prim.hlevel (codes, lines_code, value_code) };

    ghost view = { λ a. record {
      partnership = a.partnership;
      person = a.person;
      carried = a.carried.items;
      carried_by_person = a.carried_by_person.items;
    } };
}

/// A child in a family.
pub struct Child {
    /// The number of the person.
    pub person: u32,
    /// The carried lines of the family's side.
    pub carried: Vec<Carried>,
    /// The carried lines of the person's side.
    pub carried_by_person: Vec<Carried>,
}

// It is written out, so that no crate above proves again how each part is dropped.
impl Drop for Child {
    fn drop(self) {
        let Child {
            person: _,
            carried: _,
            carried_by_person: _,
        } = self;
    }
}

impl Model for Child {
    ghost use Rattle.std.specs.Coded.{codes};
    ghost use Rattle.stored_lines.specs.Line.{lines_code, value_code};
    ghost use Rattle.record_kinds.specs.Model as model;

    ghost Value = { model.Child };

    ghost coded = { Prim.hlevel (codes, lines_code, value_code) };

    ghost view = { λ a. record {
      person = a.person;
      carried = a.carried.items;
      carried_by_person = a.carried_by_person.items;
    } };
}

/// A family, with its partners and its children in order.
pub struct Family {
    pub partners: Vec<Partner>,
    pub children: Vec<Child>,
    pub carried: Vec<Carried>,
}

// It is written out, so that no crate above proves again how each part is dropped.
impl Drop for Family {
    fn drop(self) {
        let Family {
            partners: _,
            children: _,
            carried: _,
        } = self;
    }
}

impl Model for Family {
    ghost use Rattle.std.specs.Coded.{codes};
    ghost use Rattle.stored_lines.specs.Line.{lines_code, value_code};
    ghost use Rattle.record_kinds.specs.Model as model;

    ghost Value = { model.Family };

    ghost coded = { Prim.hlevel (codes, lines_code, value_code) };

    ghost view = { λ a. record {
      partners = a.partners.items;
      children = a.children.items;
      carried = a.carried.items;
    } };
}
