//! Records of no other kind.

use record_text::Tag;
use std::marker::Model;
use stored_lines::{Carried, Value};

/// A record of a file that is of no other kind: its tag, its value and the lines below it.
pub struct Other {
    pub tag: Tag,
    pub value: Value,
    pub carried: Vec<Carried>,
}

// It is written out, so that no crate above proves again how each part is dropped.
impl Drop for Other {
    fn drop(self) {
        let Other {
            tag: _,
            value: _,
            carried: _,
        } = self;
    }
}

impl Model for Other {
    ghost use Rattle.std.specs.Coded.{codes};
    ghost use Rattle.stored_lines.specs.Line.{lines_code, value_code};
    ghost use Rattle.record_kinds.specs.Model as model;

    ghost Value = { model.Other };

    ghost coded = { Prim.hlevel (codes, lines_code, value_code) };

    ghost view = { λ a. record { tag = a.tag; value = a.value; carried = a.carried.items } };
}
