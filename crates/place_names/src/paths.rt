//! The path of a place.

ghost use Rattle.std.specs.Prelude.{◌≡◌, option_map, string_bytes};
ghost use Rattle.archive_state.specs.Known.{path_of};
ghost use Rattle.archive_state.specs.Looks.{CountsFailures, Looked};
ghost use Rattle.archive_state.specs.Views.{On};
ghost use Rattle.place_names.specs.Naming as naming;

use archive_state::View;
use field_rows::path_below;
use record_kinds::{Place, Record};
use record_text::RefusalKind;
use std::alloc::Global;

/// The path of the place of a number. `None`: no place stands there, or one without a path. It reads as many places as
/// the path has names.
#[tactic(auto, using(crate::proofs::Climbed::path_none, crate::proofs::Climbed::path_top))]
pub fn path_at<V: View>(
    alloc: Global,
    view: &mut V,
    number: u32,
) -> Result<Option<String>, RefusalKind>
    ensures shows { On V.View view.old view.new
        (λ c. Looked result (λ found. option_map (λ s. string_bytes s) found ≡ path_of c.records number)) }
    ensures counts { CountsFailures (V.failed view.old) (V.failed view.new) result }
{
    let Some(place) = place_in(view.record_at(alloc, number)?) else {
        return Ok(None);
    };
    let Some(parent) = place.parent else {
        return Ok(Some(place.name.as_str().to_string(alloc)?));
    };
    if parent >= number {
        return Ok(None);
    }
    match path_at(alloc, view, parent)? {
        Some(above) => Ok(Some(path_below(alloc, place.name.as_str(), above.as_str())?)),
        None => Ok(None),
    }
}

/// The place, if the record is one.
fn place_in(found: Option<Record>) -> Option<Place>
    ensures { result ≡ naming.place_in found }
{
    match found {
        Some(Record::Place(place)) => Some(place),
        Some(other) => {
            drop(other);
            None
        }
        None => None,
    }
}
