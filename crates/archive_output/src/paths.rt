//! The paths of places: a place's name, and where it has a parent, then comma, space and the parent's path.

ghost use Rattle.std.specs.Prelude.{◌≡◌, ◌++◌, IfOk, OnOk, option_copied, option_map, string_bytes};
ghost use Rattle.std.specs.FinMap as map;
ghost use Rattle.archive_state.specs.Known.{path_of as path_in};
ghost use Rattle.archive_output.specs.Lines as lines;
ghost use Rattle.archive_output.specs.Places.{place_in};

use archive_state::State;
use record_kinds::{Place, Record};
use sheet_lines::push_printed;
use std::alloc::{AllocError, Global};

/// Appends the path of a place after two spaces, where one is named and has a path.
pub(crate) fn push_place(
    alloc: Global,
    out: &mut String,
    state: &State,
    place: Option<u32>,
) -> Result<(), AllocError>
    ensures { OnOk result (string_bytes out.new ≡ string_bytes out.old
        ++ lines.behind (lines.path_at state.now.records place)) }
{
    match place {
        None => Ok(()),
        Some(place) => push_path(alloc, out, state, place),
    }
}

fn push_path(alloc: Global, out: &mut String, state: &State, place: u32) -> Result<(), AllocError>
    ensures { OnOk result (string_bytes out.new ≡ string_bytes out.old
        ++ lines.behind (path_in state.now.records place)) }
{
    match path_of(alloc, state, place)? {
        None => Ok(()),
        Some(path) => {
            out.push_str("  ")?;
            push_printed(out, path.as_str())
        }
    }
}

/// The path of a place; none where it has none.
#[tactic(auto, using(crate::proofs::Climbing::lost_there))]
fn path_of(alloc: Global, state: &State, place: u32) -> Result<Option<String>, AllocError>
    ensures { IfOk result (λ found. option_map string_bytes found ≡ path_in state.now.records place) }
{
    let mut path = String::new(alloc);
    let mut at = place;
    'above: loop {
        let Some(found) = place_at(state, at) else {
            return Ok(None);
        };
        path.push_str(found.name.as_str())?;
        let Some(parent) = found.parent else {
            return Ok(Some(path));
        };
        if parent >= at {
            return Ok(None);
        }
        path.push_str(", ")?;
        at = parent;
    }
}

/// The place of a number.
fn place_at(state: &State, number: u32) -> Option<&Place>
    ensures { option_copied result ≡ place_in (map.get state.now.records number) }
{
    match state.record(number) {
        Some(Record::Place(place)) => Some(place),
        _ => None,
    }
}
