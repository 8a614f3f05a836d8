//! The cross references of numbers, and the paths of places.

ghost use Rattle.std.specs.Prelude.{◌≡◌, IfOk, option_map, string_bytes};
ghost use Rattle.std.specs.FinMap as map;
ghost use Rattle.gedcom_export.specs.Paths.{path_at};
ghost use Rattle.gedcom_export.specs.Shown.{names_in, around_in};

use crate::index::Index;
use node_writing::Named;
use std::alloc::{AllocError, Global};

impl Named for Index {
    ghost names = { names_in };

    ghost around = { around_in };

    fn name(&self, alloc: Global, number: u32) -> Result<String, AllocError> {
        format!(in alloc; "@{}{}@", self.letter(number), number)
    }

    fn path(&self, alloc: Global, place: u32) -> Result<String, AllocError> {
        match found_path(alloc, self, place)? {
            Some(path) => Ok(path),
            None => Ok(String::new(alloc)),
        }
    }
}

/// The path of a place; none where it has none.
#[tactic(auto, using(record_shapes::proofs::Climbed::starts, crate::proofs::Places::lost_there, crate::proofs::Places::lost_above, crate::proofs::Places::ends_here, crate::proofs::Places::climbs))]
fn found_path(alloc: Global, index: &Index, place: u32) -> Result<Option<String>, AllocError>
    ensures { IfOk result (λ found. option_map string_bytes found ≡ path_at (map.get index.now.names) place) }
{
    let mut path = String::new(alloc);
    let mut at = place;
    'above: loop {
        let Some(found) = index.place(at) else {
            return Ok(None);
        };
        path.push_str(found.name.as_str())?;
        let Some(parent) = found.parent else {
            return Ok(Some(path));
        };
        if parent >= at {
            return Ok(None);
        }
        path.push_str(", ")?;
        at = parent;
    }
}
