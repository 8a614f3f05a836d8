//! Numbers drawn for what records own, in the order of the lines.

ghost use Rattle.std.specs.Prelude.{◌≡◌, ℕ, false, None, IfErr, IfOk, map};
ghost use Rattle.stored_lines.specs.Tree.{forest_of, node, none};
ghost use Rattle.record_shapes.specs.Reading.{read, sought};
ghost use Rattle.archive_state.specs.Looks.{CountsFailures, OnView, is_failure};
ghost use Rattle.import_definitions.specs.Numbers as numbers;
ghost use Rattle.import_numbers.specs.Settling.{IsPathText, Knows};
ghost use Rattle.import_numbers.specs.Views.{drawing_said, places_of};
ghost use Rattle.node_reading.specs.Drafts.{event_tree, part_draft, path_in};
ghost use Rattle.node_reading.specs.Owners.{owned_tree};
ghost use Rattle.imports.specs.Drafts.{AllSeekByPaths, SeeksByPaths};
ghost use Rattle.imports.specs.Drawing.{Draws};

use archive_state::View;
use import_numbers::{Drawing, FilePlaces, Looks, Spot, settle};
use node_reading::{EventDraft, EventPart, Owned};
use record_kinds::{Citation, Record};
use record_text::{RefusalKind, Text};
use std::alloc::{AllocError, Global};

/// Where in a file something stands that numbers are drawn for.
#[derive(Clone, Copy)]
pub(crate) struct Below {
    /// The position of its node.
    pub(crate) position: u32,
    /// The number of the record that owns it.
    pub(crate) owner: u32,
}

impl Below {
    /// Where a place is sought for it: all places of the file count.
    fn spot(self) -> Spot
        ensures { (result.position ≡ self.position) × (result.before ≡ None) }
    {
        Spot {
            position: self.position,
            before: None,
        }
    }

    /// What is below the record of a number there.
    fn owned_by(self, number: u32) -> Below
        ensures { (result.position ≡ self.position) × (result.owner ≡ number) }
    {
        Below {
            position: self.position,
            owner: number,
        }
    }
}

/// Draws the numbers of what a person or a family owns.
pub(crate) fn draw_all_owned<V: View>(
    alloc: Global,
    view: &mut V,
    looks: &mut Looks,
    file: &FilePlaces,
    drawing: &mut Drawing,
    below: Below,
    owned: Vec<Owned>,
) -> Result<(), RefusalKind>
    requires { AllSeekByPaths (forest_of (map owned_tree owned.items)) }
    ensures draws { OnView V.is_honest V.shows V.content view.old view.new (λ c. Knows looks.old.found c
        → Draws (numbers.draw_all (places_of c file.now) below.position below.owner (drawing_said drawing.old)
        (forest_of (map owned_tree owned.items))) drawing.new result × IfOk result (λ _. Knows looks.new.found c)) }
    ensures counts { CountsFailures (V.failed view.old) (V.failed view.new) result }
{
    'owned: for one in owned {
        draw_owned(alloc, view, looks, file, drawing, below, one)?;
    }
    Ok(())
}

fn draw_owned<V: View>(
    alloc: Global,
    view: &mut V,
    looks: &mut Looks,
    file: &FilePlaces,
    drawing: &mut Drawing,
    below: Below,
    one: Owned,
) -> Result<(), RefusalKind>
    requires { SeeksByPaths (owned_tree one) }
    ensures draws { OnView V.is_honest V.shows V.content view.old view.new (λ c. Knows looks.old.found c
        → Draws (numbers.draw (places_of c file.now) below.position below.owner (drawing_said drawing.old)
        (owned_tree one)) drawing.new result × IfOk result (λ _. Knows looks.new.found c)) }
    ensures counts { CountsFailures (V.failed view.old) (V.failed view.new) result }
{
    match one {
        Owned::Event(draft) => draw_event(alloc, view, looks, file, drawing, below, draft),
        Owned::Citation(citation) => draw_citation(drawing, below.owner, citation),
    }
}

/// An event with its citations, and its place where one is made. A copy of the path by which its place is sought stays
/// with the record.
fn draw_event<V: View>(
    alloc: Global,
    view: &mut V,
    looks: &mut Looks,
    file: &FilePlaces,
    drawing: &mut Drawing,
    below: Below,
    draft: EventDraft,
) -> Result<(), RefusalKind>
    requires { SeeksByPaths (event_tree draft) }
    ensures draws { OnView V.is_honest V.shows V.content view.old view.new (λ c. Knows looks.old.found c
        → Draws (numbers.draw (places_of c file.now) below.position below.owner (drawing_said drawing.old)
        (event_tree draft)) drawing.new result × IfOk result (λ _. Knows looks.new.found c)) }
    ensures counts { CountsFailures (V.failed view.old) (V.failed view.new) result }
{
    let EventDraft { event, parts } = draft;
    let path = path_sought(alloc, &parts)?;
    let number = drawing.draw(below.owner, Record::Event(event), path)?;
    draw_parts(
        alloc,
        view,
        looks,
        file,
        drawing,
        below.owned_by(number),
        parts,
    )
}

/// The path by which the place of an event is sought, where it is.
fn path_sought(alloc: Global, parts: &[EventPart]) -> Result<Option<Text>, AllocError>
    requires { AllSeekByPaths (forest_of (map part_draft parts.now)) }
    ensures { IfOk result (λ path. path ≡ path_in parts.now) }
{
    for part in parts {
        if let EventPart::Sought(path) = part {
            return Ok(Some(Text::of_words(alloc, path.as_str())?));
        }
    }
    Ok(None)
}

fn draw_parts<V: View>(
    alloc: Global,
    view: &mut V,
    looks: &mut Looks,
    file: &FilePlaces,
    drawing: &mut Drawing,
    below: Below,
    parts: Vec<EventPart>,
) -> Result<(), RefusalKind>
    requires { AllSeekByPaths (forest_of (map part_draft parts.items)) }
    ensures draws { OnView V.is_honest V.shows V.content view.old view.new (λ c. Knows looks.old.found c
        → Draws (numbers.draw_all (places_of c file.now) below.position below.owner (drawing_said drawing.old)
        (forest_of (map part_draft parts.items))) drawing.new result × IfOk result (λ _. Knows looks.new.found c)) }
    ensures counts { CountsFailures (V.failed view.old) (V.failed view.new) result }
{
    'parts: for part in parts {
        draw_part(alloc, view, looks, file, drawing, below, part)?;
    }
    Ok(())
}

fn draw_part<V: View>(
    alloc: Global,
    view: &mut V,
    looks: &mut Looks,
    file: &FilePlaces,
    drawing: &mut Drawing,
    below: Below,
    part: EventPart,
) -> Result<(), RefusalKind>
    requires { SeeksByPaths (part_draft part) }
    ensures draws { OnView V.is_honest V.shows V.content view.old view.new (λ c. Knows looks.old.found c
        → Draws (numbers.draw (places_of c file.now) below.position below.owner (drawing_said drawing.old)
        (part_draft part)) drawing.new result × IfOk result (λ _. Knows looks.new.found c)) }
    ensures counts { CountsFailures (V.failed view.old) (V.failed view.new) result }
{
    match part {
        EventPart::Citation(citation) => draw_citation(drawing, below.owner, citation),
        EventPart::Sought(path) => {
            seek_place(alloc, view, looks, file, drawing, below, path.as_str())
        }
    }
}

/// Draws the number of a citation. No place is sought for it.
fn draw_citation(drawing: &mut Drawing, owner: u32, citation: Citation) -> Result<(), RefusalKind>
    ensures draws { (w : numbers.Places) (k : ℕ) → Draws (numbers.draw w k owner (drawing_said drawing.old)
        (node (read (Record.Citation citation) None) none)) drawing.new result }
    ensures own { IfErr result (λ e. is_failure e ≡ false) }
{
    drawing.draw(owner, Record::Citation(citation), None)?;
    Ok(())
}

/// Finds the place of a path, or makes it.
fn seek_place<V: View>(
    alloc: Global,
    view: &mut V,
    looks: &mut Looks,
    file: &FilePlaces,
    drawing: &mut Drawing,
    below: Below,
    path: &str,
) -> Result<(), RefusalKind>
    requires { IsPathText path.now }
    ensures draws { OnView V.is_honest V.shows V.content view.old view.new (λ c. Knows looks.old.found c
        → Draws (numbers.draw (places_of c file.now) below.position below.owner (drawing_said drawing.old)
        (node (sought path.now) none)) drawing.new result × IfOk result (λ _. Knows looks.new.found c)) }
    ensures counts { CountsFailures (V.failed view.old) (V.failed view.new) result }
{
    settle(alloc, view, looks, file, drawing, below.spot(), path)?;
    Ok(())
}
