//! What a reading room has of an archive.

ghost use Rattle.std.specs.Prelude.{◌≡◌};

use masking::Shown;
use record_text::Text;
use std::marker::Model;

/// What may be shown of an archive on a day, and the name of its society. Contracts see the masked state.
pub struct Shelf {
    shown: Shown,
    society: Text,
}

// It is written out, so that no function above proves again how a masked state is dropped.
impl Drop for Shelf {
    fn drop(self) {
        let Shelf {
            shown: _,
            society: _,
        } = self;
    }
}

impl Model for Shelf {
    ghost use Rattle.std.specs.Coded.{codes, coded_ℕ, coded_list};
    ghost use Rattle.std.specs.FinMap as map;
    ghost use Rattle.stored_lines.specs.Line.{lines_code, value_code};
    ghost use Rattle.archive_state.specs.Content as content;

    ghost Value = { content.Content };

    ghost coded = { Prim.hlevel (codes, map.code, lines_code, value_code) };

    ghost view = { λ s. s.shown };
}

impl Shelf {
    /// The masked state, and the name of the society.
    pub fn into_parts(self) -> (Shown, Text)
        ensures { result.0 ≡ self }
    {
        let Shelf { shown, society } = self;
        (shown, society)
    }
}

/// A masked state under a name.
pub(crate) fn shelf_with(shown: Shown, society: Text) -> Shelf
    ensures { result ≡ shown }
{
    Shelf { shown, society }
}
