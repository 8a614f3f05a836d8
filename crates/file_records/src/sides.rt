//! The lines of persons that count as their sides of memberships.

ghost use Rattle.std.specs.Prelude.{◌≡◌, ◌++◌, ℕ, false, IfOk, OnOk};
ghost use Rattle.stored_lines.specs.Tree.{label};
ghost use Rattle.import_definitions.specs.Nodes.{tree_of, trees_of};
ghost use Rattle.file_records.specs.Taken as taken_words;
ghost use Rattle.file_records.specs.Told as told_words;
ghost use Rattle.file_records.specs.SideViews.{member_in, taken_at};

use crate::nodes::{below, is_person};
use crate::told::{Told, side_told};
use gedcom_tree::Node;
use import_definitions::Roots;
use receipts::{ReportLine, ReportWord};
use std::alloc::{AllocError, Global};
use std::collections::{BTreeMap, BTreeSet};

/// A person's side of a membership.
#[derive(Clone, Copy)]
pub struct Side {
    /// The position of the family.
    pub family: usize,
    /// The position of the person.
    pub person: usize,
    /// Which line of the person's node it is, from 0.
    pub line: usize,
    /// The family does not name the person, who becomes a child of it.
    pub is_late: bool,
}

/// The sides of all persons, in the order of the file, by the members that families name. A line that does not count
/// is reported.
pub(crate) fn sides_of_all(
    alloc: Global,
    roots: &Roots<'_>,
    members: &[BTreeMap<usize, bool>],
    report: &mut Vec<ReportLine>,
) -> Result<Vec<Side>, AllocError>
    ensures sides { IfOk result (λ all. all.items
        ≡ taken_words.sides_from roots.now (member_in members.now) 0 roots.now) }
    ensures report { OnOk result (report.new.items
        ≡ report.old.items ++ taken_words.said_from roots.now (member_in members.now) 0 roots.now) }
{
    let mut all = Vec::new(alloc);
    let mut person: usize = 0;
    for node in roots.nodes() {
        add_node(alloc, roots, members, person, node, &mut all, report)?;
        person += 1;
    }
    Ok(all)
}

/// Adds the sides that a node tells; one that is no person tells none.
fn add_node(
    alloc: Global,
    roots: &Roots<'_>,
    members: &[BTreeMap<usize, bool>],
    person: usize,
    node: &Node,
    sides: &mut Vec<Side>,
    report: &mut Vec<ReportLine>,
) -> Result<(), AllocError>
    ensures sides { OnOk result (sides.new.items ≡ sides.old.items
        ++ taken_words.sides_by_members roots.now (member_in members.now) person (tree_of node.now)) }
    ensures report { OnOk result (report.new.items ≡ report.old.items
        ++ taken_words.said_by_members roots.now (member_in members.now) person (tree_of node.now)) }
{
    if is_person(node) {
        add_person(alloc, roots, members, person, below(node), sides, report)
    } else {
        Ok(())
    }
}

/// Adds the sides that the lines of a person tell.
fn add_person(
    alloc: Global,
    roots: &Roots<'_>,
    members: &[BTreeMap<usize, bool>],
    person: usize,
    lines: &[Node],
    sides: &mut Vec<Side>,
    report: &mut Vec<ReportLine>,
) -> Result<(), AllocError>
    ensures sides { OnOk result (sides.new.items ≡ sides.old.items
        ++ taken_words.sides_on roots.now person (λ k. member_in members.now k person) (λ k. false) 0
        (trees_of lines.now)) }
    ensures report { OnOk result (report.new.items ≡ report.old.items
        ++ taken_words.said_on roots.now (λ k. member_in members.now k person) (λ k. false)
        (trees_of lines.now)) }
{
    let mut taken: BTreeSet<usize> = BTreeSet::new(alloc);
    let mut at: usize = 0;
    for line in lines {
        add_line(roots, members, person, at, line, &mut taken, sides, report)?;
        at += 1;
    }
    Ok(())
}

/// Adds the side that a line of a person tells, or reports the line.
fn add_line(
    roots: &Roots<'_>,
    members: &[BTreeMap<usize, bool>],
    person: usize,
    at: usize,
    line: &Node,
    taken: &mut BTreeSet<usize>,
    sides: &mut Vec<Side>,
    report: &mut Vec<ReportLine>,
) -> Result<(), AllocError>
    ensures taken { OnOk result ((k : ℕ) → taken_at taken.new k
        ≡ taken_words.taken_by (λ k. member_in members.now k person) (taken_at taken.old)
        (told_words.side_told roots.now (tree_of line.now)) k) }
    ensures sides { OnOk result (sides.new.items ≡ sides.old.items
        ++ taken_words.side_by person (λ k. member_in members.now k person) (taken_at taken.old) at
        (told_words.side_told roots.now (tree_of line.now))) }
    ensures report { OnOk result (report.new.items ≡ report.old.items
        ++ taken_words.said_by (λ k. member_in members.now k person) (taken_at taken.old) (label (tree_of line.now))
        (told_words.side_told roots.now (tree_of line.now))) }
{
    let Some(told) = side_told(roots, line) else {
        return Ok(());
    };
    let member = member_of(members, told.other, person);
    let word = word_of(told, member, taken.contains(&told.other));
    report_word(line, word, report)?;
    take_side(person, at, told, member, word, sides)?;
    take_family(told, word, taken)
}

/// How a family names a person.
fn member_of(members: &[BTreeMap<usize, bool>], family: usize, person: usize) -> Option<bool>
    ensures { result ≡ member_in members.now family person }
{
    match members.get(family) {
        Some(named) => named.get(&person).copied(),
        None => None,
    }
}

/// What is said of a line of a person, by how the family names the person and whether a line before it was taken.
fn word_of(told: Told, member: Option<bool>, is_taken: bool) -> Option<ReportWord>
    ensures { result ≡ taken_words.word_of told member is_taken }
{
    if told.as_partner != (member == Some(true)) {
        Some(ReportWord::OneSided)
    } else if is_taken {
        Some(ReportWord::Doubled)
    } else {
        None
    }
}

fn report_word(
    line: &Node,
    word: Option<ReportWord>,
    report: &mut Vec<ReportLine>,
) -> Result<(), AllocError>
    ensures { OnOk result (report.new.items
        ≡ report.old.items ++ taken_words.said_if (label (tree_of line.now)) word) }
{
    if let Some(word) = word {
        report.push(ReportLine {
            line: line.line,
            word,
        })?;
    }
    Ok(())
}

/// Takes a line of which nothing is said.
fn take_side(
    person: usize,
    at: usize,
    told: Told,
    member: Option<bool>,
    word: Option<ReportWord>,
    sides: &mut Vec<Side>,
) -> Result<(), AllocError>
    ensures { OnOk result (sides.new.items
        ≡ sides.old.items ++ taken_words.side_if person at told member word) }
{
    if word.is_none() {
        sides.push(Side {
            family: told.other,
            person,
            line: at,
            is_late: member.is_none(),
        })?;
    }
    Ok(())
}

fn take_family(
    told: Told,
    word: Option<ReportWord>,
    taken: &mut BTreeSet<usize>,
) -> Result<(), AllocError>
    ensures { OnOk result ((k : ℕ)
        → taken_at taken.new k ≡ taken_words.taken_if told word (taken_at taken.old) k) }
{
    if word.is_none() {
        taken.insert(told.other)?;
    }
    Ok(())
}
