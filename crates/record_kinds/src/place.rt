//! Places.

use record_text::Text;
use std::marker::Model;
use stored_lines::Carried;

/// A place, within another or none.
pub struct Place {
    pub name: Text,
    /// The number of the place that it is within.
    pub parent: Option<u32>,
    pub carried: Vec<Carried>,
}

// It is written out, so that no crate above proves again how each part is dropped.
impl Drop for Place {
    fn drop(self) {
        let Place {
            name: _,
            parent: _,
            carried: _,
        } = self;
    }
}

impl Model for Place {
    ghost use Rattle.std.specs.Coded.{codes};
    ghost use Rattle.stored_lines.specs.Line.{lines_code, value_code};
    ghost use Rattle.record_kinds.specs.Model as model;

    ghost Value = { model.Place };

    ghost coded = { Prim.hlevel (codes, lines_code, value_code) };

    ghost view = { λ a. record { name = a.name; parent = a.parent; carried = a.carried.items } };
}
