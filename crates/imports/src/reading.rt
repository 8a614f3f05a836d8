//! What a forest is read as, before a number is drawn.

ghost use Rattle.std.specs.Prelude.{
  ◌≡◌,
  ◌++◌,
  ◌<◌,
  ◌^◌,
  ℕ,
  List,
  Err,
  IfErr,
  IfOk,
  None,
  OnOk,
  false,
  length,
  map,
  true,
};
ghost use Rattle.record_text.specs.declared.refusal.RefusalKind.TheVariants as refusal;
ghost use Rattle.record_shapes.specs.Lists.{EachOf};
ghost use Rattle.archive_state.specs.Looks.{is_stop};
ghost use Rattle.node_reading.specs.Trees.{draft_tree};
ghost use Rattle.import_definitions.specs.Lines.{lined_roots, roots as roots_in};
ghost use Rattle.import_definitions.specs.Reports.{said_of_roots};
ghost use Rattle.import_definitions.specs.Roots.{candidates, kept};
ghost use Rattle.import_definitions.specs.Positions.{paths as paths_in, position_of};
ghost use Rattle.import_definitions.specs.Report.{report as report_of, said_of_lines, said_of_members};
ghost use Rattle.imports.specs.Drafts.{SeeksByPaths};
ghost use Rattle.import_numbers.specs.Views.{under};
ghost use Rattle.file_records.specs.KnownViews.{path_said};
ghost use Rattle.import_definitions.specs.Sides.{drafts_from};
ghost use Rattle.imports.specs.Seconds.{refused_second, second_position};

use crate::checking::check_entries;
use crate::first::first_places;
use crate::laws::{a_file_has_no_more_nodes_than_lines, the_drafts_of_a_file_seek_by_paths};
use crate::reports::put_in_order;
use file_records::laws::what_is_said_is_what_an_import_reports;
use file_records::{arrange, drafts_of, paths_of, sides_of};
use gedcom_tree::Forest;
use import_definitions::{Roots, roots_of};
use import_numbers::FilePlaces;
use node_reading::Draft;
use receipts::{Report, ReportLine};
use record_text::Refusal;
use std::alloc::{AllocError, Global};

/// What a forest is read as.
#[derive(Drop)]
pub(crate) struct Reading {
    /// What each node that becomes a record is read as, with all below it, in order.
    pub(crate) drafts: Vec<Draft>,
    /// The first place of each path.
    pub(crate) places: FilePlaces,
    /// What is not taken over as it stands.
    pub(crate) report: Report,
}

/// Reads a forest. 60, at the line of the second: two entries have one source, kind, page and item.
pub(crate) fn reading_of(alloc: Global, forest: &Forest) -> Result<Reading, Refusal>
    ensures drafts { IfOk result (λ r. map draft_tree r.drafts.items
        ≡ drafts_from (roots_in (kept (candidates forest.now))) 0 (roots_in (kept (candidates forest.now)))) }
    ensures few { IfOk result (λ r. length r.drafts.items < 2 ^ 32) }
    ensures paths { IfOk result (λ r. EachOf SeeksByPaths (map draft_tree r.drafts.items)) }
    ensures places { IfOk result (λ r. (path : List ℕ) → under r.places path
        ≡ position_of path 0 (paths_in (roots_in (kept (candidates forest.now))))) }
    ensures report { IfOk result (λ r. r.report ≡ report_of forest.now) }
    ensures apart { IfOk result (λ r. second_position (kept (candidates forest.now)) ≡ None) }
    ensures second { IfErr result (λ e. is_stop e.kind ≡ false
        → refused_second (kept (candidates forest.now)) (second_position (kept (candidates forest.now))) ≡ Err e) }
    ensures stops { IfErr result (λ e. is_stop e.kind ≡ true → e ≡ record { kind = refusal.OutOfMemory; at = None }) }
{
    the_drafts_of_a_file_seek_by_paths();
    let mut report = Vec::new(alloc);
    let roots = few_roots(alloc, forest, &mut report)?;
    let paths = paths_of(alloc, &roots)?;
    let drafts = drafts_in(alloc, &roots, &paths, &mut report)?;
    check_entries(alloc, &roots, &drafts)?;
    let places = first_places(alloc, &paths)?;
    put_in_order(&mut report)?;
    Ok(Reading {
        drafts,
        places,
        report: Report { lines: report },
    })
}

/// The nodes of a file that become records. There are fewer than 2^32, as its lines are.
fn few_roots<'a>(
    alloc: Global,
    forest: &'a Forest,
    report: &mut Vec<ReportLine>,
) -> Result<Roots<'a>, AllocError>
    ensures kept { IfOk result (λ r. r ≡ kept (candidates forest.now)) }
    ensures few { IfOk result (λ r. length r < 2 ^ 32) }
    ensures report { OnOk result (report.new.items ≡ report.old.items ++ said_of_roots (candidates forest.now)) }
{
    let _ = forest.nodes();
    a_file_has_no_more_nodes_than_lines();
    let roots = roots_of(alloc, forest, report)?;
    Ok(roots)
}

/// What the nodes of a file are read as, a family with both sides of its memberships.
fn drafts_in(
    alloc: Global,
    roots: &Roots<'_>,
    paths: &[Option<String>],
    report: &mut Vec<ReportLine>,
) -> Result<Vec<Draft>, AllocError>
    requires few { length roots.now < 2 ^ 32 }
    requires paths { map path_said paths.now ≡ paths_in (roots_in roots.now) }
    ensures drafts { IfOk result (λ ds. map draft_tree ds.items
        ≡ drafts_from (roots_in roots.now) 0 (roots_in roots.now)) }
    ensures report { OnOk result (report.new.items ≡ report.old.items
        ++ (said_of_members (roots_in roots.now) (lined_roots roots.now) ++ said_of_lines roots.now)) }
{
    what_is_said_is_what_an_import_reports();
    let mut sides = sides_of(alloc, roots, report)?;
    arrange(&mut sides)?;
    let drafts = drafts_of(alloc, roots, paths, &sides, report)?;
    Ok(drafts)
}
