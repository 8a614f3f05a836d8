//! The batch of what the nodes of a file are read as.

ghost use Rattle.std.specs.Prelude.{◌≡◌, ◌<◌, ◌^◌, ◌++◌, ◌∷◌, [], None, IfOk, OnOk, length, map, option_map};
ghost use Rattle.record_shapes.specs.Lists.{EachOf};
ghost use Rattle.archive_state.specs.Looks.{Agrees, CountsFailures, Looked, OnView, is_stop};
ghost use Rattle.record_text.specs.Text.{IsPlain};
ghost use Rattle.import_definitions.specs.Made.{batch};
ghost use Rattle.import_definitions.specs.Numbers as numbers;
ghost use Rattle.import_numbers.specs.Settling.{Knows};
ghost use Rattle.import_numbers.specs.Views.{drawing_said, drawn_said, found_said, places_of};
ghost use Rattle.import_numbers.specs.Placed.{finished_at};
ghost use Rattle.node_reading.specs.Trees.{draft_tree};
ghost use Rattle.imports.specs.Drafts.{SeeksByPaths, draw_each};
ghost use Rattle.imports.specs.Drawing.{IsPlaceOf, batch_or_full};

use crate::lists::take_last;
use crate::roots::draw_drafts;
use archive_state::{Batch, Numbered, View};
use import_numbers::{Drawing, Drawn, FilePlaces, Found, Looks, finish, made_place};
use node_reading::Draft;
use record_kinds::Record;
use record_text::{RefusalKind, Text};
use std::alloc::{AllocError, Global};
use std::mem;

/// How many numbers there are from 0 on.
const NUMBERS: u64 = 4_294_967_296;

/// The batch of all nodes of a file, of which these are the drafts, from the next number of an archive on. The file's
/// places are those of `first_places`. 63: a number above 4,294,967,295 would be needed.
pub fn batch_of_drafts<V: View>(
    alloc: Global,
    view: &mut V,
    file: &FilePlaces,
    next: u64,
    drafts: Vec<Draft>,
) -> Result<Batch, RefusalKind>
    requires few { length drafts.items < 2 ^ 32 }
    requires paths { EachOf SeeksByPaths (map draft_tree drafts.items) }
    ensures makes { OnView V.is_honest V.shows V.content view.old view.new (λ c. Agrees is_stop result
        (batch_or_full (places_of c file.now)
        (draw_each (places_of c file.now) 0 (numbers.begun next) (map draft_tree drafts.items)))) }
    ensures counts { CountsFailures (V.failed view.old) (V.failed view.new) result }
{
    let mut looks = Looks::new(alloc);
    let mut drawing = Drawing::new(alloc, next);
    draw_drafts(alloc, view, &mut looks, file, &mut drawing, drafts)?;
    if drawing.next > NUMBERS {
        return Err(RefusalKind::Full);
    }
    finished_batch(alloc, view, &mut looks, file, &mut drawing)
}

/// The batch, once all numbers are drawn. What they were drawn for is removed.
fn finished_batch<V: View>(
    alloc: Global,
    view: &mut V,
    looks: &mut Looks,
    file: &FilePlaces,
    drawing: &mut Drawing,
) -> Result<Batch, RefusalKind>
    ensures makes { OnView V.is_honest V.shows V.content view.old view.new (λ c. Knows looks.old.found c
        → Looked result (λ made. made ≡ batch (places_of c file.now) (drawing_said drawing.old))) }
    ensures counts { CountsFailures (V.failed view.old) (V.failed view.new) result }
{
    let next = drawing.next;
    let drawn = mem::replace(&mut drawing.drawn, Vec::new(alloc));
    let records = finished_records(alloc, view, looks, file, drawing, drawn)?;
    Ok(Batch { records, next })
}

/// The records of what numbers were drawn for. Each is taken from the end of the list, which is turned round before, so
/// that its memory is given back while that of the records is needed.
fn finished_records<V: View>(
    alloc: Global,
    view: &mut V,
    looks: &mut Looks,
    file: &FilePlaces,
    drawing: &Drawing,
    drawn: Vec<Drawn>,
) -> Result<Vec<Numbered>, RefusalKind>
    ensures makes { OnView V.is_honest V.shows V.content view.old view.new (λ c. Knows looks.old.found c
        → Looked result (λ found. found.items
        ≡ map (numbers.finished (places_of c file.now) (drawing_said drawing.now)) (map drawn_said drawn.items))) }
    ensures counts { CountsFailures (V.failed view.old) (V.failed view.new) result }
{
    let mut records = Vec::with_capacity(alloc, drawn.len())?;
    let mut left = drawn;
    left.reverse();
    'left: while let Some(one) = take_last(&mut left) {
        add_finished(alloc, view, looks, file, drawing, one, &mut records)?;
    }
    Ok(records)
}

/// Adds the record of what a number was drawn for. After a refusal it is given back here.
fn add_finished<V: View>(
    alloc: Global,
    view: &mut V,
    looks: &mut Looks,
    file: &FilePlaces,
    drawing: &Drawing,
    one: Drawn,
    records: &mut Vec<Numbered>,
) -> Result<(), RefusalKind>
    ensures adds { OnView V.is_honest V.shows V.content view.old view.new (λ c. Knows looks.old.found c
        → Looked result (λ _. Knows looks.new.found c × (records.new.items ≡ records.old.items
        ++ numbers.finished (places_of c file.now) (drawing_said drawing.now) (drawn_said one) ∷ []))) }
    ensures counts { CountsFailures (V.failed view.old) (V.failed view.new) result }
{
    match place_of(alloc, view, looks, file, drawing, &one) {
        Ok(place) => Ok(push_finished(alloc, &drawing.roots, records, one, place)?),
        Err(refusal) => {
            drop(one);
            Err(refusal)
        }
    }
}

/// The place that is found for the path by which that of an event was sought, where it was.
fn place_of<V: View>(
    alloc: Global,
    view: &mut V,
    looks: &mut Looks,
    file: &FilePlaces,
    drawing: &Drawing,
    one: &Drawn,
) -> Result<Option<Found>, RefusalKind>
    ensures finds { OnView V.is_honest V.shows V.content view.old view.new (λ c. Knows looks.old.found c
        → Looked result (λ found. Knows looks.new.found c × IsPlaceOf (places_of c file.now) (drawing_said drawing.now)
        (drawn_said one.now) (option_map found_said found))) }
    ensures counts { CountsFailures (V.failed view.old) (V.failed view.new) result }
{
    match one {
        Drawn::Record(_, _, _, path) => match path {
            Some(path) => find_drawn(alloc, view, looks, file, drawing, path.as_str()),
            None => Ok(None),
        },
        Drawn::Place(..) => Ok(None),
    }
}

/// The place of a path, of all of the file and all that were made.
fn find_drawn<V: View>(
    alloc: Global,
    view: &mut V,
    looks: &mut Looks,
    file: &FilePlaces,
    drawing: &Drawing,
    path: &str,
) -> Result<Option<Found>, RefusalKind>
    requires { IsPlain path.now }
    ensures finds { OnView V.is_honest V.shows V.content view.old view.new (λ c. Knows looks.old.found c
        → Looked result (λ found. Knows looks.new.found c × (option_map found_said found
        ≡ numbers.find (places_of c file.now) None (drawing_said drawing.now).made path.now))) }
    ensures counts { CountsFailures (V.failed view.old) (V.failed view.new) result }
{
    let made = drawing.made(path);
    looks.find(alloc, view, file, None, made, path)
}

/// Adds the record of what a number was drawn for, where its place is known.
fn push_finished(
    alloc: Global,
    roots: &[u32],
    records: &mut Vec<Numbered>,
    one: Drawn,
    place: Option<Found>,
) -> Result<(), AllocError>
    ensures { OnOk result ((w : numbers.Places) (d : numbers.Drawing) → d.roots ≡ roots.now
        → IsPlaceOf w d (drawn_said one) (option_map found_said place)
        → records.new.items ≡ records.old.items ++ numbers.finished w d (drawn_said one) ∷ []) }
{
    let record = finished(alloc, roots, one, place)?;
    records.push(record)?;
    Ok(())
}

fn finished(
    alloc: Global,
    roots: &[u32],
    one: Drawn,
    place: Option<Found>,
) -> Result<Numbered, AllocError>
    ensures { IfOk result (λ r. (w : numbers.Places) (d : numbers.Drawing) → d.roots ≡ roots.now
        → IsPlaceOf w d (drawn_said one) (option_map found_said place) → r ≡ numbers.finished w d (drawn_said one)) }
{
    match one {
        Drawn::Record(number, owner, found, path) => {
            let record = finished_record(alloc, roots, owner, found, &path, place)?;
            Ok(Numbered { number, record })
        }
        Drawn::Place(number, name, parent) => Ok(Numbered {
            number,
            record: Record::Place(made_place(alloc, roots, name, parent)),
        }),
    }
}

fn finished_record(
    alloc: Global,
    roots: &[u32],
    owner: u32,
    found: Record,
    path: &Option<Text>,
    place: Option<Found>,
) -> Result<Record, AllocError>
    ensures { IfOk result (λ r. r ≡ finished_at roots.now owner path.now (option_map found_said place) found) }
{
    let mut record = found;
    finish(alloc, &mut record, roots, owner, path, place)?;
    Ok(record)
}
