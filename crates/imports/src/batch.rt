//! The batch of a forest.

ghost use Rattle.archive_state.specs.Looks.{is_stop, Agrees, CountsStops, OnView};
ghost use Rattle.import_definitions.specs.Made.{made};
ghost use Rattle.import_definitions.specs.Report.{report as report_of};
ghost use Rattle.std.specs.Prelude.{◌≡◌, IfErr, IfOk};
ghost use Rattle.imports.specs.Results.{IsUnreported, batch_in};

use crate::drawn_batch::batch_of_drafts;
use crate::laws::the_batch_of_drafts_is_that_of_nodes;
use crate::reading::{Reading, reading_of};
use archive_state::{Batch, View};
use gedcom_tree::Forest;
use receipts::Report;
use record_text::Refusal;
use std::alloc::Global;

/// What a forest makes of an archive: the records with their numbers, and what was not taken over as it stood.
///
/// 60, at the line of the second: two entries have one source, kind, page and item. 63: a number above 4,294,967,295
/// would be needed. The entries are looked through before any number is drawn, so that 60 comes first.
pub fn batch_of<V: View>(
    alloc: Global,
    forest: &Forest,
    view: &mut V,
) -> Result<(Batch, Report), Refusal>
    ensures makes { OnView V.is_honest V.shows V.content view.old view.new
        (λ c. Agrees (λ (e : Refusal). is_stop e.kind) (batch_in result) (made c forest.now)) }
    ensures reports { IfOk result (λ r. r.1 ≡ report_of forest.now) }
    ensures counts { CountsStops (V.failed view.old) (V.failed view.new) result }
{
    let next = view.next(alloc)?;
    let Reading {
        drafts,
        places,
        report,
    } = reading_of(alloc, forest)?;
    the_batch_of_drafts_is_that_of_nodes();
    let batch = batch_of_drafts(alloc, view, &places, next, drafts)?;
    Ok((batch, report))
}

/// What is reported of a forest: it depends only on the forest. It is refused where an empty archive does not take the
/// forest, as `batch_of`, and if out of memory.
#[tactic(auto, using(crate::proofs::Batches::unreported))]
pub fn report_of(alloc: Global, forest: &Forest) -> Result<Report, Refusal>
    ensures told { IfOk result (λ r. r ≡ report_of forest.now) }
    ensures untold { IfErr result (IsUnreported forest.now) }
{
    let Reading {
        drafts: _,
        places: _,
        report,
    } = reading_of(alloc, forest)?;
    Ok(report)
}
