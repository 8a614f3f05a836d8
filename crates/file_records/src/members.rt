//! The members that families name.

ghost use Rattle.std.specs.Prelude.{◌≡◌, ◌++◌, ℕ, false, is_some, Some, IfOk, OnOk};
ghost use Rattle.std.specs.List.{flat_map};
ghost use Rattle.stored_lines.specs.Tree.{label};
ghost use Rattle.import_definitions.specs.Nodes.{tree_of, trees_of};
ghost use Rattle.import_definitions.specs.Numbers.{or_else};
ghost use Rattle.file_records.specs.Members as members;
ghost use Rattle.file_records.specs.Taken.{named_in};
ghost use Rattle.file_records.specs.Told as told;
ghost use Rattle.file_records.specs.SideViews.{member_at, member_in};

use crate::nodes::{below, is_family};
use crate::told::{Told, member_told};
use gedcom_tree::Node;
use import_definitions::Roots;
use receipts::{ReportLine, ReportWord};
use std::alloc::{AllocError, Global};
use std::collections::BTreeMap;

/// The persons that each node names as members, by their positions, each with whether as a partner. A family names
/// each once, and a further line of one is reported; a node that is no family names none.
pub(crate) fn members_of_all(
    alloc: Global,
    roots: &Roots<'_>,
    report: &mut Vec<ReportLine>,
) -> Result<Vec<BTreeMap<usize, bool>>, AllocError>
    ensures members { IfOk result (λ all. member_in all.items ≡ named_in roots.now) }
    ensures report { OnOk result (report.new.items
        ≡ report.old.items ++ flat_map (members.doubled_in roots.now) roots.now) }
{
    let mut all = Vec::new(alloc);
    for node in roots.nodes() {
        all.push(members_of(alloc, roots, node, report)?)?;
    }
    Ok(all)
}

/// The persons that a node names as members.
fn members_of(
    alloc: Global,
    roots: &Roots<'_>,
    node: &Node,
    report: &mut Vec<ReportLine>,
) -> Result<BTreeMap<usize, bool>, AllocError>
    ensures members { IfOk result (λ m. (n : ℕ)
        → member_at m n ≡ members.membership_of roots.now (tree_of node.now) n) }
    ensures report { OnOk result (report.new.items
        ≡ report.old.items ++ members.doubled_in roots.now (tree_of node.now)) }
{
    if is_family(node) {
        members_on(alloc, roots, below(node), report)
    } else {
        Ok(BTreeMap::new(alloc))
    }
}

/// The persons that the lines of a family name.
fn members_on(
    alloc: Global,
    roots: &Roots<'_>,
    lines: &[Node],
    report: &mut Vec<ReportLine>,
) -> Result<BTreeMap<usize, bool>, AllocError>
    ensures members { IfOk result (λ m. (n : ℕ)
        → member_at m n ≡ members.first_as n (members.members_told roots.now (trees_of lines.now))) }
    ensures report { OnOk result (report.new.items
        ≡ report.old.items ++ members.doubled roots.now (λ n. false) (trees_of lines.now)) }
{
    let mut found = BTreeMap::new(alloc);
    for line in lines {
        take_line(roots, line, &mut found, report)?;
    }
    Ok(found)
}

/// Takes a line of a family; one that names a person whom one before it names is reported.
fn take_line(
    roots: &Roots<'_>,
    line: &Node,
    found: &mut BTreeMap<usize, bool>,
    report: &mut Vec<ReportLine>,
) -> Result<(), AllocError>
    ensures members { OnOk result ((n : ℕ) → member_at found.new n
        ≡ or_else (member_at found.old n) (members.names_as n (told.member_told roots.now (tree_of line.now)))) }
    ensures report { OnOk result (report.new.items ≡ report.old.items
        ++ members.doubled_by (λ n. is_some (member_at found.old n)) (label (tree_of line.now))
        (told.member_told roots.now (tree_of line.now))) }
{
    let Some(told) = member_told(roots, line) else {
        return Ok(());
    };
    report_doubled(found, line, told, report)?;
    keep(found, told)
}

/// Reports a line of a person who is named already.
fn report_doubled(
    found: &BTreeMap<usize, bool>,
    line: &Node,
    told: Told,
    report: &mut Vec<ReportLine>,
) -> Result<(), AllocError>
    ensures { OnOk result (report.new.items ≡ report.old.items
        ++ members.doubled_by (λ n. is_some (member_at found.now n)) (label (tree_of line.now)) (Some told)) }
{
    if found.contains_key(&told.other) {
        report.push(ReportLine {
            line: line.line,
            word: ReportWord::Doubled,
        })?;
    }
    Ok(())
}

/// Keeps how a person is named, where that is not kept yet.
fn keep(found: &mut BTreeMap<usize, bool>, told: Told) -> Result<(), AllocError>
    ensures { OnOk result ((n : ℕ) → member_at found.new n
        ≡ or_else (member_at found.old n) (members.names_as n (Some told))) }
{
    if !found.contains_key(&told.other) {
        found.insert(told.other, told.as_partner)?;
    }
    Ok(())
}
