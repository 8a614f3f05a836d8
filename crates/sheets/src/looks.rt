//! What a sheet shows of other records.

ghost use Rattle.std.specs.Prelude.{◌≡◌, IfOk, string_bytes};
ghost use Rattle.std.specs.FinMap as map;
ghost use Rattle.gedcom_export.specs.Paths.{path_in};
ghost use Rattle.sheets.specs.Owned.{display_in, place_words};

use archive_state::State;
use gedcom_export::Index;
use node_writing::Named;
use record_kinds::{EventPlace, Record};
use sheet_lines::display_of;
use std::alloc::{AllocError, Global};

/// The display of the person of a number.
pub(crate) fn shown_at(alloc: Global, state: &State, number: u32) -> Result<String, AllocError>
    ensures { IfOk result (λ s. string_bytes s ≡ display_in (map.get state.now.records number)) }
{
    match state.record(number) {
        Some(Record::Person(person)) => display_of(alloc, person),
        _ => String::from_str(alloc, "?"),
    }
}

/// The path of the place of an event; empty where there is none.
pub(crate) fn path_of(
    alloc: Global,
    index: &Index,
    place: &Option<EventPlace>,
) -> Result<String, AllocError>
    ensures { IfOk result (λ s. string_bytes s ≡ place_words (path_in index.now) place.now) }
{
    match place {
        Some(place) => index.path(alloc, place.place),
        None => Ok(String::new(alloc)),
    }
}
