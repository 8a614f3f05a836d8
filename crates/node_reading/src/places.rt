//! Places.

ghost use Rattle.std.specs.Prelude.{◌≡◌, [], ◌++◌, ◌∷◌, ◌&&◌, IfOk, MatchOption, false, not, true, string_bytes};
ghost use Rattle.std.specs.Option.{unwrap_or};
ghost use Rattle.stored_lines.specs.Line.{Lines};
ghost use Rattle.record_shapes.specs.Forms as forms;
ghost use Rattle.record_shapes.specs.Forms.{Known as KnownOf};
ghost use Rattle.record_shapes.specs.Fields as fields;
ghost use Rattle.record_shapes.specs.Paths as paths;
ghost use Rattle.record_shapes.specs.Picking.{without_first};
ghost use Rattle.record_shapes.specs.Reading as reading;
ghost use Rattle.node_reading.specs.Partly as partly;

use crate::fields::is_first;
use field_rows::{Known, number_of, parent_field, path_below, place_name};
use record_kinds::Place;
use record_shapes::Field;
use record_text::Text;
use std::alloc::{AllocError, Global};
use stored_lines::Carried;

/// The place of its lines, and its path. Known are only the paths of the places before it.
pub fn place_of<K: Known>(
    alloc: Global,
    earlier: &K,
    lines: Vec<Carried>,
) -> Result<(Place, String), AllocError>
    ensures place { IfOk result (λ r. r.0 ≡ reading.place_from (K.known earlier.now) lines.items) }
    ensures path { IfOk result (λ r. string_bytes r.1 ≡ reading.path_from (K.known earlier.now) lines.items) }
{
    let place = placed(alloc, earlier, named_lines(alloc, lines)?)?;
    let path = path_of(alloc, earlier, &place)?;
    Ok((place, path))
}

/// The name of a place, made normal, and the lines beside that of the name.
#[derive(Drop)]
struct NamedLines {
    name: Text,
    lines: Vec<Carried>,
}

fn named_lines(alloc: Global, lines: Vec<Carried>) -> Result<NamedLines, AllocError>
    ensures name { IfOk result (λ n. n.name ≡ reading.place_name lines.items) }
    ensures lines { IfOk result (λ n. n.lines.items ≡ without_first fields.place_field fields.a_name lines.items) }
{
    let mut name = None;
    let mut rest = Vec::new(alloc);
    'lines: for line in lines {
        take_name_line(alloc, &mut name, &mut rest, line)?;
    }
    Ok(NamedLines {
        name: text_or_none(alloc, name),
        lines: rest,
    })
}

/// The text; none where there is none.
pub fn text_or_none(alloc: Global, text: Option<Text>) -> Text
    ensures { result ≡ unwrap_or text [] }
{
    match text {
        Some(text) => text,
        None => Text::empty(alloc),
    }
}

fn take_name_line(
    alloc: Global,
    name: &mut Option<Text>,
    rest: &mut Vec<Carried>,
    line: Carried,
) -> Result<(), AllocError>
    ensures name { IfOk result (λ _. (ts : Lines) → partly.name_or name.new ts ≡ partly.name_or name.old (line ∷ ts)) }
    ensures rest { IfOk result (λ _. (ts : Lines)
        → rest.new.items ++ partly.unnamed name.new ts ≡ rest.old.items ++ partly.unnamed name.old (line ∷ ts)) }
{
    match first_name(alloc, name, &line)? {
        Some(found) => *name = Some(found),
        None => rest.push(line)?,
    }
    Ok(())
}

/// The name of a line that is the first to tell one.
fn first_name(
    alloc: Global,
    name: &Option<Text>,
    line: &Carried,
) -> Result<Option<Text>, AllocError>
    ensures { IfOk result (λ found. MatchOption found
        ((fields.is_same (fields.place_field line.now) fields.a_name && not (forms.is_some name.now)) ≡ false)
        (λ t. ((fields.is_same (fields.place_field line.now) fields.a_name && not (forms.is_some name.now)) ≡ true)
        × (t ≡ paths.normal (forms.text_of line.now)))) }
{
    if name.is_some() {
        return Ok(None);
    }
    place_name(alloc, line)
}

/// The place of that name with these lines beside.
fn placed<K: Known>(alloc: Global, earlier: &K, named: NamedLines) -> Result<Place, AllocError>
    ensures { IfOk result
        (λ p. p ≡ partly.place_with (K.known earlier.now) (partly.place_called named.name) named.lines.items) }
{
    let NamedLines { name, lines } = named;
    let mut place = Place {
        name,
        parent: None,
        carried: Vec::new(alloc),
    };
    'lines: for line in lines {
        let field = parent_field(earlier, place.name.as_str(), &line);
        take_place_line(&mut place, field, line)?;
    }
    Ok(place)
}

fn take_place_line(place: &mut Place, field: Field, line: Carried) -> Result<(), AllocError>
    ensures { IfOk result (λ _. (known : KnownOf) (ts : Lines)
        → field ≡ fields.parent_field known place.old.name line
        → partly.place_with known place.new ts ≡ partly.place_with known place.old (line ∷ ts)) }
{
    if is_first(field, Field::Parent, &place.parent) {
        place.parent = Some(number_of(&line));
        return Ok(());
    }
    place.carried.push(line)?;
    Ok(())
}

fn path_of<K: Known>(alloc: Global, earlier: &K, place: &Place) -> Result<String, AllocError>
    ensures { IfOk result
        (λ s. string_bytes s ≡ partly.path_at (K.known earlier.now) place.now.name place.now.parent) }
{
    match place.parent {
        Some(number) => {
            let above = earlier.path(number).unwrap_or("");
            path_below(alloc, place.name.as_str(), above)
        }
        None => String::from_str(alloc, place.name.as_str()),
    }
}
