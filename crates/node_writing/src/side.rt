//! A person's side of a membership.

use std::marker::Model;
use stored_lines::Carried;

/// A family where a person is a member, with the carried lines of the person's side.
pub struct Side {
    /// The number of the family.
    pub family: u32,
    pub carried: Vec<Carried>,
}

// It is written out, so that no crate above proves again how each part is dropped.
impl Drop for Side {
    fn drop(self) {
        let Side {
            family: _,
            carried: _,
        } = self;
    }
}

impl Model for Side {
    ghost use Rattle.std.specs.Coded.{codes};
    ghost use Rattle.stored_lines.specs.Line.{lines_code, value_code};
    ghost use Rattle.record_shapes.specs.Shapes as shapes;

    ghost Value = { shapes.Side };

    ghost coded = { Prim.hlevel (codes, lines_code, value_code) };

    ghost view = { λ a. record { family = a.family; carried = a.carried.items } };
}
