//! Numbers drawn for the nodes of a file, in their order.

ghost use Rattle.std.specs.Prelude.{◌≡◌, ◌<◌, ◌^◌, false, None, IfErr, IfOk, OnOk, MatchResult, length, map};
ghost use Rattle.stored_lines.specs.Tree.{forest_of, node};
ghost use Rattle.record_shapes.specs.Lists.{EachOf};
ghost use Rattle.record_shapes.specs.Reading.{read};
ghost use Rattle.archive_state.specs.Looks.{CountsFailures, OnView, is_failure, is_stop};
ghost use Rattle.import_definitions.specs.Numbers as numbers;
ghost use Rattle.import_numbers.specs.Settling.{Knows};
ghost use Rattle.import_numbers.specs.Views.{drawing_said, places_of};
ghost use Rattle.node_reading.specs.Owners.{owned_tree};
ghost use Rattle.node_reading.specs.Trees.{draft_tree};
ghost use Rattle.imports.specs.Drafts.{SeeksByPaths, draw_each};
ghost use Rattle.imports.specs.Drawing.{Draws, with_root};

use crate::below::{Below, draw_all_owned};
use crate::lists::take_last;
use archive_state::View;
use import_numbers::{Drawing, FilePlaces, Looks};
use node_reading::{Draft, Owned};
use record_kinds::Record;
use record_text::RefusalKind;
use std::alloc::{AllocError, Global};

/// Draws the numbers of all nodes of a file, of which these are the drafts. 63: there is no number left.
pub fn draw_drafts<V: View>(
    alloc: Global,
    view: &mut V,
    looks: &mut Looks,
    file: &FilePlaces,
    drawing: &mut Drawing,
    drafts: Vec<Draft>,
) -> Result<(), RefusalKind>
    requires few { length drafts.items < 2 ^ 32 }
    requires paths { EachOf SeeksByPaths (map draft_tree drafts.items) }
    ensures draws { OnView V.is_honest V.shows V.content view.old view.new (λ c. Knows looks.old.found c
        → Draws (draw_each (places_of c file.now) 0 (drawing_said drawing.old) (map draft_tree drafts.items))
        drawing.new result × IfOk result (λ _. Knows looks.new.found c)) }
    ensures counts { CountsFailures (V.failed view.old) (V.failed view.new) result }
{
    let mut left = drafts;
    left.reverse();
    let mut position: u32 = 0;
    'left: while let Some(draft) = take_last(&mut left) {
        draw_root(alloc, view, looks, file, drawing, position, draft)?;
        position += 1;
    }
    Ok(())
}

/// Draws the numbers of the node at the next position: that of its record, which has no owner and is the number of the
/// position, and those of what it owns. 63: there is no number left.
pub fn draw_root<V: View>(
    alloc: Global,
    view: &mut V,
    looks: &mut Looks,
    file: &FilePlaces,
    drawing: &mut Drawing,
    position: u32,
    draft: Draft,
) -> Result<(), RefusalKind>
    requires { SeeksByPaths (draft_tree draft) }
    ensures draws { OnView V.is_honest V.shows V.content view.old view.new (λ c. Knows looks.old.found c
        → Draws (numbers.draw (places_of c file.now) position 0 (numbers.root_drawn (drawing_said drawing.old))
        (draft_tree draft)) drawing.new result × IfOk result (λ _. Knows looks.new.found c)) }
    ensures counts { CountsFailures (V.failed view.old) (V.failed view.new) result }
{
    let (found, owned) = taken_apart(alloc, draft);
    let number = draw_record(drawing, found)?;
    let below = Below {
        position,
        owner: number,
    };
    draw_all_owned(alloc, view, looks, file, drawing, below, owned)
}

/// A draft as its record and what that owns.
fn taken_apart(alloc: Global, draft: Draft) -> (Record, Vec<Owned>)
    ensures { draft_tree draft ≡ node (read result.0 None) (forest_of (map owned_tree result.1.items)) }
{
    match draft {
        Draft::Place(place) => (Record::Place(place), Vec::new(alloc)),
        Draft::Repo(repo) => (Record::Repo(repo), Vec::new(alloc)),
        Draft::Source(source) => (Record::Source(source), Vec::new(alloc)),
        Draft::Person(draft) => (Record::Person(draft.person), draft.owned),
        Draft::Family(draft) => (Record::Family(draft.family), draft.owned),
        Draft::Entry(entry) => (Record::Entry(entry), Vec::new(alloc)),
        Draft::Other(other) => (Record::Other(other), Vec::new(alloc)),
    }
}

/// Draws the number of a record of level 0, which is that of its position.
fn draw_record(drawing: &mut Drawing, found: Record) -> Result<u32, RefusalKind>
    ensures drawn { OnOk result (drawing_said drawing.new
        ≡ numbers.drawn_more (numbers.root_drawn (drawing_said drawing.old))
        (numbers.of_file drawing.old.next 0 found None)) }
    ensures number { MatchResult result
        (λ n. n ≡ drawing.old.next)
        (λ e. is_stop e ≡ false → (e ≡ RefusalKind.Full) × (4294967295 < drawing.old.next)) }
    ensures own { IfErr result (λ e. is_failure e ≡ false) }
{
    let number = drawing.draw(0, found, None)?;
    add_root(drawing, number)?;
    Ok(number)
}

fn add_root(drawing: &mut Drawing, number: u32) -> Result<(), AllocError>
    ensures { OnOk result (drawing_said drawing.new ≡ with_root number (drawing_said drawing.old)) }
{
    drawing.roots.push(number)?;
    Ok(())
}
