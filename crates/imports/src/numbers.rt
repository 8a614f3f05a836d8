//! The numbers that the nodes of a file get as records.

ghost use Rattle.std.specs.Prelude.{◌<◌, ◌^◌, length, map};
ghost use Rattle.record_shapes.specs.Lists.{EachOf};
ghost use Rattle.archive_state.specs.Looks.{CountsFailures, CountsStops, OnView};
ghost use Rattle.import_definitions.specs.Numbers as numbers;
ghost use Rattle.import_numbers.specs.Views.{places_of};
ghost use Rattle.node_reading.specs.Trees.{draft_tree};
ghost use Rattle.imports.specs.Drafts.{SeeksByPaths, draw_each};
ghost use Rattle.imports.specs.RootNumbers.{AreDrawn, AreNumbers};

use crate::laws::the_batch_of_drafts_is_that_of_nodes;
use crate::reading::{Reading, reading_of};
use crate::roots::draw_drafts;
use archive_state::View;
use gedcom_tree::Forest;
use import_numbers::{Drawing, FilePlaces, Looks};
use node_reading::Draft;
use record_text::{Refusal, RefusalKind};
use std::alloc::Global;
use std::mem;

/// The numbers that an import of a forest gives the nodes that become records, by their positions, as long as nothing
/// else changes the archive. Where it would be refused so is this, as `batch_of`; nothing is changed.
pub fn root_numbers<V: View>(
    alloc: Global,
    forest: &Forest,
    view: &mut V,
) -> Result<Vec<u32>, Refusal>
    ensures makes { OnView V.is_honest V.shows V.content view.old view.new (λ c. AreNumbers c forest.now result) }
    ensures counts { CountsStops (V.failed view.old) (V.failed view.new) result }
{
    let next = view.next(alloc)?;
    let Reading {
        drafts,
        places,
        report,
    } = reading_of(alloc, forest)?;
    drop(report);
    the_batch_of_drafts_is_that_of_nodes();
    let found = drawn_roots(alloc, view, &places, next, drafts)?;
    Ok(found)
}

/// The numbers of the positions of drafts, from the next number of an archive on. 63: there is no number left.
fn drawn_roots<V: View>(
    alloc: Global,
    view: &mut V,
    file: &FilePlaces,
    next: u64,
    drafts: Vec<Draft>,
) -> Result<Vec<u32>, RefusalKind>
    requires few { length drafts.items < 2 ^ 32 }
    requires paths { EachOf SeeksByPaths (map draft_tree drafts.items) }
    ensures makes { OnView V.is_honest V.shows V.content view.old view.new (λ c. AreDrawn
        (draw_each (places_of c file.now) 0 (numbers.begun next) (map draft_tree drafts.items)) result) }
    ensures counts { CountsFailures (V.failed view.old) (V.failed view.new) result }
{
    let mut looks = Looks::new(alloc);
    let mut drawing = Drawing::new(alloc, next);
    draw_drafts(alloc, view, &mut looks, file, &mut drawing, drafts)?;
    let found = mem::replace(&mut drawing.roots, Vec::new(alloc));
    Ok(found)
}
