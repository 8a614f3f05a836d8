//! What is known where one path is looked at.

ghost use Rattle.std.specs.Prelude.{◌≡◌};

use field_rows::{Known, Named};

/// The path of one place, and the number of a source; each other number counts as that of a person.
#[derive(Clone, Copy)]
pub(crate) struct OnePath<'a> {
    pub number: u32,
    pub path: &'a str,
    pub source: u32,
}

impl<'a> Known for OnePath<'a> {
    ghost use Rattle.place_names.specs.Known.{one_path};

    ghost known = { λ k. one_path k.number k.path.now k.source };

    fn is_of(&self, number: u32, kind: Named) -> bool {
        match kind {
            Named::Source => number == self.source,
            Named::Person => number != self.source,
            Named::Repo | Named::Family => false,
        }
    }

    fn path(&self, number: u32) -> Option<&str> {
        if number == self.number {
            Some(self.path)
        } else {
            None
        }
    }
}
