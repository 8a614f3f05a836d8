//! The places of an archive, each with its path.

ghost use Rattle.std.specs.Prelude.{◌≡◌, ◌++◌, ℕ, List, OnOk, option_map, string_bytes};
ghost use Rattle.archive_state.specs.Known.{path_of};
ghost use Rattle.archive_state.specs.Looks.{CountsFailures, Looked};
ghost use Rattle.archive_state.specs.Views.{On};
ghost use Rattle.page_answers.specs.Likes.{IsIndex, or_none, place_paths};

use crate::index::PlaceIndex;
use archive_state::View;
use place_names::path_at;
use record_text::RefusalKind;
use std::alloc::{AllocError, Global};

/// The paths of all places that a view shows, by number. Each record is read once, and of a place also those that it
/// is within. Refusals are those of the view: 1, 40 or 80.
pub(crate) fn places_of<V: View>(alloc: Global, view: &mut V) -> Result<PlaceIndex, RefusalKind>
    ensures shows { On V.View view.old view.new
        (λ c. Looked result (λ index. IsIndex index.paths (place_paths c.records))) }
    ensures counts { CountsFailures (V.failed view.old) (V.failed view.new) result }
{
    let mut index = PlaceIndex::new(alloc);
    let numbers = view.record_numbers(alloc)?;
    'numbers: for number in &numbers {
        add_at(alloc, view, &mut index, *number)?;
    }
    Ok(index)
}

/// Adds the path of the place of a number, if there is one.
fn add_at<V: View>(
    alloc: Global,
    view: &mut V,
    index: &mut PlaceIndex,
    number: u32,
) -> Result<(), RefusalKind>
    ensures shows { On V.View view.old view.new (λ c. Looked result (λ done. (paths : List (List ℕ))
        → IsIndex index.old.paths paths → IsIndex index.new.paths (paths ++ or_none (path_of c.records number)))) }
    ensures counts { CountsFailures (V.failed view.old) (V.failed view.new) result }
{
    let found = path_at(alloc, view, number)?;
    add_found(alloc, index, &found)?;
    Ok(())
}

fn add_found(
    alloc: Global,
    index: &mut PlaceIndex,
    found: &Option<String>,
) -> Result<(), AllocError>
    ensures { OnOk result ((paths : List (List ℕ)) → IsIndex index.old.paths paths
        → IsIndex index.new.paths (paths ++ or_none (option_map (λ s. string_bytes s) found.now))) }
{
    match found {
        Some(path) => index.add(alloc, path.as_str()),
        None => Ok(()),
    }
}
