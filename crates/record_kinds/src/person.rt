//! Persons.

use record_fields::Sex;
use record_text::Text;
use std::marker::Model;
use stored_lines::Carried;

/// A name of a person.
pub struct Name {
    /// The name, its surname between slashes.
    pub text: Text,
    pub carried: Vec<Carried>,
}

// It is written out, so that no crate above proves again how each part is dropped.
impl Drop for Name {
    fn drop(self) {
        let Name {
            text: _,
            carried: _,
        } = self;
    }
}

impl Model for Name {
    ghost use Rattle.std.specs.Coded.{codes};
    ghost use Rattle.stored_lines.specs.Line.{lines_code, value_code};
    ghost use Rattle.record_kinds.specs.Model as model;

    ghost Value = { model.Name };

    ghost coded = { Prim.hlevel (codes, lines_code, value_code) };

    ghost view = { λ a. record { text = a.text; carried = a.carried.items } };
}

/// A person. The families of a person stand in these families.
pub struct Person {
    pub names: Vec<Name>,
    pub sex: Option<Sex>,
    pub carried: Vec<Carried>,
}

// It is written out, so that no crate above proves again how each part is dropped.
impl Drop for Person {
    fn drop(self) {
        let Person {
            names: _,
            sex: _,
            carried: _,
        } = self;
    }
}

impl Model for Person {
    ghost use Rattle.std.specs.Coded.{codes};
    ghost use Rattle.stored_lines.specs.Line.{lines_code, value_code};
    ghost use Rattle.record_kinds.specs.Model as model;

    ghost Value = { model.Person };

    ghost coded = { Prim.hlevel (codes, lines_code, value_code) };

    ghost view = { λ a. record { names = a.names.items; sex = a.sex; carried = a.carried.items } };
}
