//! The paths of places: a place's name, and where it has a parent, then comma, space and the parent's path.

ghost use Rattle.std.specs.Prelude.{◌≡◌, ◌≢◌, ◌↔◌, ◌++◌, ℕ, List, IsTrue, MatchOption};
ghost use Rattle.record_kinds.specs.Model as model;
ghost use Rattle.archive_state.specs.Paths.{HasPath, IsPlaceAt};

use crate::state::State;
use record_kinds::{Place, Record};

/// Whether the place of a number has this path. A place whose parent has no smaller number has none.
pub(crate) fn has_path(state: &State, number: u32, path: &[u8]) -> bool
    ensures { IsTrue result ↔ HasPath state.now.records number path.now }
{
    let Some(place) = place_of(state, number) else {
        return false;
    };
    let Some(rest) = behind(path, place.name.as_str().as_bytes()) else {
        return false;
    };
    let Some(parent) = place.parent else {
        return rest.is_empty();
    };
    if parent >= number {
        return false;
    }
    match behind(rest, b", ") {
        Some(above) => has_path(state, parent, above),
        None => false,
    }
}

/// The place of a number.
fn place_of(state: &State, number: u32) -> Option<&Place>
    ensures { MatchOption result
        ((p : model.Place) → ¬ (IsPlaceAt state.now.records number p))
        (λ p. IsPlaceAt state.now.records number p.now) }
{
    match state.record(number) {
        Some(Record::Place(place)) => Some(place),
        _ => None,
    }
}

/// What stands after the front, where the bytes begin with it.
fn behind<'a>(bytes: &'a [u8], front: &[u8]) -> Option<&'a [u8]>
    ensures { MatchOption result
        ((rest : List ℕ) → bytes.now ≢ front.now ++ rest) (λ rest. bytes.now ≡ front.now ++ rest.now) }
{
    bytes.strip_prefix(front)
}
