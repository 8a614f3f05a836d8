//! Drafts of all nodes.

ghost use Rattle.std.specs.Prelude.{◌≡◌, ◌++◌, ◌<◌, ◌^◌, Some, IfOk, OnOk, length, map};
ghost use Rattle.std.specs.List.{slice_get};
ghost use Rattle.stored_lines.specs.Tree.{children};
ghost use Rattle.node_reading.specs.Trees.{draft_tree};
ghost use Rattle.import_definitions.specs.Lines.{place_in, roots as roots_in};
ghost use Rattle.import_definitions.specs.Nodes.{tree_of, IsInFile};
ghost use Rattle.import_definitions.specs.Reports.{dangling};
ghost use Rattle.file_records.specs.Arranged.{IsArrangedBy};
ghost use Rattle.file_records.specs.Taken.{sides as sides_told};
ghost use Rattle.file_records.specs.declared.sides.Side as declared;
ghost use Rattle.import_definitions.specs.Positions.{paths as paths_in};
ghost use Rattle.import_definitions.specs.Report.{said_of_lines};
ghost use Rattle.import_definitions.specs.Sides.{draft_at, drafts_from};
ghost use Rattle.file_records.specs.KnownViews.{path_said};
ghost use Rattle.file_records.specs.Drafts.{as_line};

use crate::fitted::fit_draft;
use crate::known::KnownRoots;
use crate::lines::line_of;
use crate::sided::put_sides;
use crate::sides::Side;
use gedcom_tree::Node;
use import_definitions::Roots;
use node_reading::{Draft, draft_of};
use receipts::ReportLine;
use std::alloc::{AllocError, Global};

/// What each node of a file is read as, with all below it, in order. The paths are those of its places, and the sides
/// those of all persons, arranged by their families. Lines whose pointers name nothing are left out and reported.
pub fn drafts_of(
    alloc: Global,
    roots: &Roots<'_>,
    paths: &[Option<String>],
    sides: &[Side],
    report: &mut Vec<ReportLine>,
) -> Result<Vec<Draft>, AllocError>
    requires few { length roots.now < 2 ^ 32 }
    requires paths { map path_said paths.now ≡ paths_in (roots_in roots.now) }
    requires sides { IsArrangedBy (λ (s : declared.Side). s.family) (sides_told roots.now) sides.now }
    ensures drafts { IfOk result (λ ds. map draft_tree ds.items
        ≡ drafts_from (roots_in roots.now) 0 (roots_in roots.now)) }
    ensures report { OnOk result (report.new.items ≡ report.old.items ++ said_of_lines roots.now) }
{
    let mut drafts = Vec::new(alloc);
    let mut position: usize = 0;
    for node in roots.nodes() {
        let draft = draft_of_root(alloc, roots, paths, sides, position, node, report)?;
        drafts.push(draft)?;
        position += 1;
    }
    Ok(drafts)
}

/// What the node at a position is read as.
fn draft_of_root(
    alloc: Global,
    roots: &Roots<'_>,
    paths: &[Option<String>],
    sides: &[Side],
    position: usize,
    node: &Node,
    report: &mut Vec<ReportLine>,
) -> Result<Draft, AllocError>
    requires few { length roots.now < 2 ^ 32 }
    requires paths { map path_said paths.now ≡ paths_in (roots_in roots.now) }
    requires sides { IsArrangedBy (λ (s : declared.Side). s.family) (sides_told roots.now) sides.now }
    requires in_file { IsInFile (tree_of node.now) }
    requires at { slice_get roots.now position ≡ Some (tree_of node.now) }
    ensures draft { IfOk result (λ d. draft_tree d
        ≡ draft_at (roots_in roots.now) position (as_line (place_in roots.now) (tree_of node.now))) }
    ensures report { OnOk result (report.new.items
        ≡ report.old.items ++ dangling (place_in roots.now) (children (tree_of node.now))) }
{
    let line = line_of(alloc, roots, node, report)?;
    let earlier = KnownRoots {
        roots,
        paths: &paths[..position],
    };
    let known = KnownRoots { roots, paths };
    let mut draft = draft_of(alloc, &earlier, &known, line)?;
    put_sides(alloc, roots, position, sides, &mut draft)?;
    fit_draft(&mut draft);
    Ok(draft)
}
