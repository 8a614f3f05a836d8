//! Lines that have texts of places.

ghost use Rattle.std.specs.Prelude.{◌≡◌, ◌&&◌, IfOk, MatchOption, codes, false, true, string_bytes};
ghost use Rattle.record_shapes.specs.Paths as paths;
ghost use Rattle.record_shapes.specs.Fields as fields;
ghost use Rattle.record_shapes.specs.Forms as forms;
ghost use Rattle.record_shapes.specs.Forms.{tagged};
ghost use Rattle.record_shapes.specs.Reading as reading;
ghost use Rattle.field_rows.specs.Rows.{IsRow, beside, is_place};

use crate::forms::{is_bare, is_childless, is_text, number_of, text_of};
use crate::known::{Known, Named, names_a};
use crate::normal::{has_part, is_below_within_limits, is_within_limits, made_normal};
use crate::rows::{is_citation, is_tagged};
use record_shapes::Field;
use record_text::Text;
use std::alloc::{AllocError, Global};
use stored_lines::Carried;

/// Below a place, the line that names the place above it. Known are only the paths of the places before it.
pub fn parent_field<K: Known>(known: &K, name: &str, line: &Carried) -> Field
    ensures { result ≡ fields.parent_field (K.known known.now) name.now line.now }
{
    if is_tagged(line, "_LOC")
        && is_childless(line)
        && !is_text(line)
        && is_above(known, name, number_of(line))
    {
        Field::Parent
    } else {
        Field::Carried
    }
}

/// Whether the place of a number may be above one of that name.
fn is_above<K: Known>(known: &K, name: &str, number: u32) -> bool
    ensures { result ≡ fields.is_above name.now ((K.known known.now).path number) }
{
    match known.path(number) {
        Some(path) => is_below_within_limits(name, path),
        None => false,
    }
}

/// Below a place, the name of a line that tells it, made normal. `None`: it tells none.
pub fn place_name(alloc: Global, line: &Carried) -> Result<Option<Text>, AllocError>
    ensures { IfOk result (λ found. MatchOption found (fields.place_field line.now ≡ fields.carried)
        (λ name. (fields.place_field line.now ≡ fields.a_name) × (name ≡ paths.normal (forms.text_of line.now)))) }
{
    if !is_tagged(line, "NAME") || !is_bare(line) {
        return Ok(None);
    }
    let name = made_normal(alloc, text_of(line))?;
    if is_within_limits(name.as_str()) {
        Ok(Some(Text::of_words(alloc, name.as_str())?))
    } else {
        Ok(None)
    }
}

/// Below an event, the path of a line that tells its place, made normal. `None`: it tells none.
fn place_path(alloc: Global, line: &Carried) -> Result<Option<String>, AllocError>
    ensures { IfOk result (λ found. MatchOption found (is_place line.now ≡ false)
        (λ s. (is_place line.now ≡ true) × (string_bytes s ≡ paths.normal (forms.text_of line.now)))) }
{
    if !is_tagged(line, "PLAC") || !is_text(line) {
        return Ok(None);
    }
    let path = made_normal(alloc, text_of(line))?;
    if is_within_limits(path.as_str()) && has_part(path.as_str()) {
        Ok(Some(path))
    } else {
        Ok(None)
    }
}

/// What a line is below an event.
#[derive(Drop)]
pub enum EventRow {
    /// The line of a place, with the path that it tells, made normal.
    Place(String),
    /// Another one.
    Line(Field),
}

/// Below an event.
pub fn event_row<K: Known>(alloc: Global, known: &K, line: &Carried) -> Result<EventRow, AllocError>
    ensures { IfOk result
        (λ r. IsRow (fields.event_field (K.known known.now) line.now) (forms.text_of line.now) r) }
{
    if is_date(line) {
        return Ok(EventRow::Line(Field::Date));
    }
    match place_path(alloc, line)? {
        Some(path) => Ok(EventRow::Place(path)),
        None => Ok(EventRow::Line(other_field(known, line))),
    }
}

/// The line of a date.
fn is_date(line: &Carried) -> bool
    ensures { result ≡ (tagged (codes "DATE") line.now && forms.is_bare line.now) }
{
    is_tagged(line, "DATE") && is_bare(line)
}

/// Below an event, a line that is of neither date nor place.
fn other_field<K: Known>(known: &K, line: &Carried) -> Field
    ensures { result ≡ beside (K.known known.now) line.now }
{
    if is_tagged(line, "_PART") && names_a(known, Named::Person, line) {
        Field::Participant
    } else if is_citation(known, line) {
        Field::Citation
    } else {
        Field::Carried
    }
}

/// Below the line of a place of that path, a line that names a place which has it.
pub fn is_loc<K: Known>(known: &K, path: &str, line: &Carried) -> bool
    ensures { result ≡ reading.is_loc (K.known known.now) path.now line.now }
{
    is_tagged(line, "_LOC")
        && is_childless(line)
        && !is_text(line)
        && has_path(known, path, number_of(line))
}

/// Whether the place of a number has that path.
fn has_path<K: Known>(known: &K, path: &str, number: u32) -> bool
    ensures { result ≡ reading.has_path path.now ((K.known known.now).path number) }
{
    match known.path(number) {
        Some(found) => found == path,
        None => false,
    }
}
