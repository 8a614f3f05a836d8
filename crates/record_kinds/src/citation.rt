//! Citations.

use record_fields::Quality;
use record_text::Text;
use std::marker::Model;
use stored_lines::Carried;

/// Where in a source something stands.
pub struct Citation {
    /// The number of the person, family or event that it speaks of.
    pub owner: u32,
    /// The number of the source.
    pub source: u32,
    pub page: Option<Text>,
    pub quality: Option<Quality>,
    pub carried: Vec<Carried>,
}

// It is written out, so that no crate above proves again how each part is dropped.
impl Drop for Citation {
    fn drop(self) {
        let Citation {
            owner: _,
            source: _,
            page: _,
            quality: _,
            carried: _,
        } = self;
    }
}

impl Model for Citation {
    ghost use Rattle.std.specs.Coded.{codes};
    ghost use Rattle.stored_lines.specs.Line.{lines_code, value_code};
    ghost use Rattle.record_kinds.specs.Model as model;

    ghost Value = { model.Citation };

    ghost coded = { Prim.hlevel (codes, lines_code, value_code) };

    ghost view = { λ a. record {
      owner = a.owner;
      source = a.source;
      page = a.page;
      quality = a.quality;
      carried = a.carried.items;
    } };
}
