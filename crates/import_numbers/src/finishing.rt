//! Records finished.

ghost use Rattle.std.specs.Prelude.{◌≡◌, Some, OnOk, option_map};
ghost use Rattle.import_definitions.specs.Numbers as numbers;
ghost use Rattle.import_numbers.specs.Views.{found_said};
ghost use Rattle.import_numbers.specs.Placed.{finished_at, placed_at};

use crate::found::Found;
use crate::record_parts::renumber;
use record_kinds::{Place, Record};
use record_text::Text;
use std::alloc::{AllocError, Global};

/// The number of the place that was found; 0 where none was.
fn number_found(roots: &[u32], found: Option<Found>) -> u32
    ensures { result ≡ numbers.number_found roots.now (option_map found_said found) }
{
    match found {
        Some(Found::Number(number)) => number,
        Some(Found::Position(position)) => number_at(roots, position),
        None => 0,
    }
}

fn number_at(roots: &[u32], position: u32) -> u32
    ensures { result ≡ numbers.number_at roots.now position }
{
    match roots.get(position as usize) {
        Some(number) => *number,
        None => 0,
    }
}

/// Puts an event at the place of a number.
fn put_at(found: &mut Record, number: u32)
    ensures { found.new ≡ numbers.at_place number found.old }
{
    if let Record::Event(event) = found
        && let Some(place) = &mut event.place
    {
        place.place = number;
    }
}

/// Gives an event or a citation its owner.
fn put_owner(found: &mut Record, owner: u32)
    ensures { found.new ≡ numbers.owned_by owner found.old }
{
    match found {
        Record::Event(event) => event.owner = owner,
        Record::Citation(citation) => citation.owner = owner,
        _ => {}
    }
}

/// Puts an event at the place that was found for the path that it was sought by, where it was.
fn put_place(found: &mut Record, roots: &[u32], path: &Option<Text>, place: Option<Found>)
    ensures { found.new ≡ placed_at roots.now path.now (option_map found_said place)
        found.old }
{
    if path.is_some() {
        put_at(found, number_found(roots, place));
    }
}

/// Finishes a record of the file: its pointers become numbers, it gets its owner, and an event its place.
pub fn finish(
    alloc: Global,
    found: &mut Record,
    roots: &[u32],
    owner: u32,
    path: &Option<Text>,
    place: Option<Found>,
) -> Result<(), AllocError>
    ensures { OnOk result (found.new ≡ finished_at roots.now owner path.now
        (option_map found_said place) found.old) }
{
    renumber(alloc, found, roots)?;
    put_place(found, roots, path, place);
    put_owner(found, owner);
    Ok(())
}

/// The place that is made of a name, within another where there is one.
pub fn made_place(alloc: Global, roots: &[u32], name: Text, parent: Option<Found>) -> Place
    ensures { result ≡ numbers.place_made roots.now name (option_map found_said parent) }
{
    Place {
        name,
        parent: parent_number(roots, parent),
        carried: Vec::new(alloc),
    }
}

fn parent_number(roots: &[u32], parent: Option<Found>) -> Option<u32>
    ensures { result ≡ option_map (λ f. numbers.number_found roots.now (Some f)) (option_map found_said parent) }
{
    match parent {
        Some(found) => Some(number_found(roots, Some(found))),
        None => None,
    }
}
