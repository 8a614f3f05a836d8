//! The paths of places by their numbers.

ghost use Rattle.std.specs.Prelude.{◌≡◌, ℕ, None, OnOk, option_map, string_bytes};
ghost use Rattle.std.specs.FinMap as map;

use std::alloc::{AllocError, Global};
use std::collections::BTreeMap;
use std::marker::Model;

/// The path of a place. Contracts see its bytes.
struct PlacePath {
    string: String,
}

// It is written out, so that no crate above proves again how each part is dropped.
impl Drop for PlacePath {
    fn drop(self) {
        let PlacePath { string: _ } = self;
    }
}

impl Model for PlacePath {
    ghost use Rattle.std.specs.Prelude.{List, ℕ, string_bytes};

    ghost Value = { List ℕ };

    ghost view = { λ a. string_bytes a.string };
}

/// The paths of places by their numbers. Contracts see a finite map.
pub struct Paths {
    found: BTreeMap<u32, PlacePath>,
}

// It is written out, so that no crate above proves again how each part is dropped.
impl Drop for Paths {
    fn drop(self) {
        let Paths { found: _ } = self;
    }
}

impl Model for Paths {
    ghost use Rattle.std.specs.Coded.{codes, coded_ℕ, coded_list};
    ghost use Rattle.std.specs.FinMap as map;
    ghost use Rattle.sound_records.specs.Knowing as knowing;

    ghost Value = { knowing.PathMap };

    ghost coded = { Prim.hlevel (codes, map.code) };

    ghost view = { λ a. map.from_entries a.found.entries };
}

impl Paths {
    /// No path is known.
    pub(crate) fn new(alloc: Global) -> Paths
        ensures { (n : ℕ) → map.get result n ≡ None }
    {
        Paths {
            found: BTreeMap::new(alloc),
        }
    }

    /// The path of the place of a number. `None`: it has none.
    pub fn path(&self, number: u32) -> Option<&str>
        ensures { option_map (λ p. p.now) result ≡ map.get self.now number }
    {
        match self.found.get(&number) {
            Some(path) => Some(path.string.as_str()),
            None => None,
        }
    }

    /// Adds a path.
    pub(crate) fn put(&mut self, number: u32, path: String) -> Result<(), AllocError>
        ensures { OnOk result (self.new ≡ map.insert self.old number (string_bytes path)) }
    {
        self.found.insert(number, PlacePath { string: path })?;
        Ok(())
    }
}
