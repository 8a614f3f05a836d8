//! What a record keeps by other records.

ghost use Rattle.std.specs.Prelude.{◌≡◌, ◌↔◌, IsTrue, IfOk, MatchOption, option_copied};
ghost use Rattle.std.specs.FinMap.{get};
ghost use Rattle.record_rules.specs.Judged as judged;
ghost use Rattle.archive_state.specs.Content.{Records};
ghost use Rattle.archive_state.specs.Sound.{HasEventTag, HasOwnShape, HasSaidPlace, owner_in, place_of};
ghost use Rattle.archive_state.specs.Known.{known_before, known_of};
ghost use Rattle.record_kinds.specs.declared.record.Record.TheVariants as kind;
ghost use Rattle.record_shapes.specs.Levels.{HasRoom};
ghost use Rattle.record_shapes.specs.Paths as place_paths;
ghost use Rattle.record_shapes.specs.Untaken.{HasUntaken};
ghost use Rattle.sound_records.specs.Knowing.{KnowsPaths};
ghost use Rattle.sound_records.specs.Parts.{BreaksBeside, KeepsBeside};

use crate::event_tags::is_event_tag;
use crate::link_searching::first_unmet;
use crate::part::Part;
use crate::paths::Paths;
use crate::seen::{Before, Seen};
use archive_state::State;
use field_rows::has_part;
use record_kinds::{Event, Record};
use record_rules::{has_own_shape, has_room, has_untaken};
use std::alloc::{AllocError, Global};

/// The first part that the record of a number breaks by other records. `may_miss`: its numbers may name nothing.
pub(crate) fn broken_beside(
    alloc: Global,
    state: &State,
    paths: &Paths,
    may_miss: bool,
    number: u32,
    record: &Record,
) -> Result<Option<Part>, AllocError>
    ensures { KnowsPaths state.now.records paths.now → IfOk result (λ o. MatchOption o
        (KeepsBeside may_miss state.now.records number «record».now)
        (BreaksBeside may_miss state.now.records number «record».now)) }
{
    if let Some(unmet) = first_unmet(state, may_miss, record) {
        return Ok(Some(Part::Link(unmet)));
    }
    if !has_said_place(paths, record) {
        return Ok(Some(Part::Place));
    }
    if !has_event_tag(state, record) {
        return Ok(Some(Part::EventTag));
    }
    if !is_untaken(alloc, state, paths, number, record)? {
        return Ok(Some(Part::Untaken));
    }
    if !is_of_own_shape(alloc, state, paths, record)? {
        return Ok(Some(Part::Shape));
    }
    if !is_within_levels(state, record) {
        return Ok(Some(Part::Levels));
    }
    Ok(None)
}

/// Whether the path of the place of an event or an entry has a part that is not empty.
fn has_said_place(paths: &Paths, record: &Record) -> bool
    ensures { (m : Records) → KnowsPaths m paths.now → IsTrue result ↔ HasSaidPlace m «record».now }
{
    match place_in(record) {
        Some(place) => is_said(paths, place),
        None => true,
    }
}

/// The number of the place of an event or of an entry.
fn place_in(record: &Record) -> Option<u32>
    ensures { result ≡ place_of «record».now }
{
    match record {
        Record::Event(event) => event.place.as_ref().map(|place| place.place),
        Record::Entry(entry) => entry.place,
        _ => None,
    }
}

fn is_said(paths: &Paths, place: u32) -> bool
    ensures { result ≡ judged.all_some place_paths.has_part (get paths.now place) }
{
    match paths.path(place) {
        Some(path) => has_part(path),
        None => true,
    }
}

/// Whether the tag of an event is of its owner's kind.
fn has_event_tag(state: &State, record: &Record) -> bool
    ensures { IsTrue result ↔ HasEventTag state.now.records «record».now }
{
    match record {
        Record::Event(event) => has_tag_of_owner(state, event),
        _ => true,
    }
}

fn has_tag_of_owner(state: &State, event: &Event) -> bool
    ensures { IsTrue result ↔ HasEventTag state.now.records (kind.Event event.now) }
{
    match state.record(event.owner) {
        Some(owner) => is_event_tag(event.tag.as_str(), owner),
        None => true,
    }
}

/// Whether no field would take a carried line.
fn is_untaken(
    alloc: Global,
    state: &State,
    paths: &Paths,
    number: u32,
    record: &Record,
) -> Result<bool, AllocError>
    ensures { KnowsPaths state.now.records paths.now → IfOk result (λ b. IsTrue b
        ↔ HasUntaken (known_before state.now.records number) (known_of state.now.records) «record».now) }
{
    let before = Before {
        state,
        paths,
        bound: number,
    };
    has_untaken(alloc, &before, &Seen { state, paths }, record)
}

/// Whether a record of no other kind has not the shape of one of the others.
fn is_of_own_shape(
    alloc: Global,
    state: &State,
    paths: &Paths,
    record: &Record,
) -> Result<bool, AllocError>
    ensures { KnowsPaths state.now.records paths.now
        → IfOk result (λ b. IsTrue b ↔ HasOwnShape state.now.records «record».now) }
{
    has_own_shape(alloc, &Seen { state, paths }, record)
}

/// Whether no line of the record is below level 98.
fn is_within_levels(state: &State, record: &Record) -> bool
    ensures { IsTrue result ↔ HasRoom (owner_in state.now.records «record».now) «record».now }
{
    has_room(owner_of(state, record), record)
}

/// What has a citation or an event.
fn owner_of<'a>(state: &'a State, record: &Record) -> Option<&'a Record>
    ensures { option_copied result ≡ owner_in state.now.records «record».now }
{
    match record {
        Record::Citation(citation) => state.record(citation.owner),
        Record::Event(event) => state.record(event.owner),
        _ => None,
    }
}
