//! Lines as they are stored: those of a branch in order, each with its depth.

ghost use Rattle.std.specs.Prelude.{◌≡◌, ◌≢◌, ◌++◌, ◌+◌, IfOk, OnOk, MatchOption, nat_le};
ghost use Rattle.std.specs.List.{list_any};
ghost use Rattle.stored_lines.specs.Tree.{Tree, flat};
ghost use Rattle.stored_lines.specs.Levels.{IsLow};
ghost use Rattle.stored_lines.specs.Growing.{grown, graft, begins_at, sole};
ghost use Rattle.stored_lines.specs.Line.{Label};

use crate::branch::{Branch, copied};
use record_text::{Tag, Text};
use std::alloc::{AllocError, Global};
use std::collections::VecDeque;
use std::marker::Model;

/// How many depths a branch that is read has, from 0 on.
const MAX_DEPTHS: u32 = 128;

/// A line as it is stored. Contracts see its depth, and the rest beside it.
#[derive(Drop)]
pub struct StoredLine {
    /// How many lines it stands below; 0 for the first.
    pub depth: u32,
    pub tag: Tag,
    pub text: Option<Text>,
    /// The number of the record that the line names.
    pub target: Option<u32>,
}

impl Model for StoredLine {
    ghost use Rattle.std.specs.Prelude.{ℕ};
    ghost use Rattle.std.specs.Coded.{coded×, coded_ℕ};
    ghost use Rattle.stored_lines.specs.Line.{Label, label_code};

    ghost Value = { ℕ × Label };

    ghost coded = { coded× coded_ℕ label_code };

    ghost view = { λ a. (a.depth, record { tag = a.tag; text = a.text; target = a.target }) };
}

/// A branch that begins at a depth.
#[derive(Drop)]
struct Grown {
    depth: u32,
    branch: Branch,
}

impl Model for Grown {
    ghost use Rattle.std.specs.Prelude.{ℕ};
    ghost use Rattle.std.specs.Coded.{coded×, coded_ℕ};
    ghost use Rattle.stored_lines.specs.Tree.{Tree, coded_tree};
    ghost use Rattle.stored_lines.specs.Line.{Label, label_code};

    ghost Value = { ℕ × Tree Label };

    ghost coded = { coded× coded_ℕ (coded_tree label_code) };

    ghost view = { λ a. (a.depth, a.branch) };
}

/// The lines of a branch, in order, each with its depth.
pub fn lines_of_branch(alloc: Global, branch: Branch) -> Result<Vec<StoredLine>, AllocError>
    ensures { IfOk result (λ lines. lines.items ≡ flat 0 branch) }
{
    let mut lines = Vec::new(alloc);
    push_branch(&mut lines, 0, branch)?;
    Ok(lines)
}

/// Adds the lines of a branch that stands at a depth.
fn push_branch(out: &mut Vec<StoredLine>, depth: u32, branch: Branch) -> Result<(), AllocError>
    ensures { OnOk result (out.new.items ≡ out.old.items ++ flat depth branch) }
{
    out.push(StoredLine {
        depth,
        tag: branch.tag,
        text: branch.text,
        target: branch.target,
    })?;
    // No memory holds a branch that is deeper than that.
    let Some(below) = depth.checked_add(1) else {
        return Err(AllocError);
    };
    'children: for child in branch.children {
        push_branch(out, below, child)?;
    }
    Ok(())
}

/// The branch that has these lines. `None`: no branch of at most 128 levels has them. The limit keeps branches
/// so low that a call may follow them to their ends; all records are lower.
#[tactic(auto, using(crate::proofs::Growing::sole_low, crate::proofs::Levels::none_low))]
pub fn branch_of_lines(alloc: Global, lines: &[StoredLine]) -> Result<Option<Branch>, AllocError>
    ensures { IfOk result (λ found. MatchOption found
        ((t : Tree Label) → IsLow t → lines.now ≢ flat 0 t) (λ t. IsLow t × (lines.now ≡ flat 0 t))) }
{
    if are_deep(lines) {
        return Ok(None);
    }
    let branches = branches_of(alloc, lines)?;
    Ok(sole_branch(branches))
}

/// Whether a line stands deeper than those of a branch that is read.
fn are_deep(lines: &[StoredLine]) -> bool
    ensures { result ≡ list_any (λ l. nat_le 128 l.0) lines.now }
{
    lines.iter().any(|line| line.depth >= MAX_DEPTHS)
}

/// The one branch, where there is one and it stands at depth 0.
fn sole_branch(mut branches: VecDeque<Grown>) -> Option<Branch>
    ensures { result ≡ sole branches.items }
{
    if branches.len() != 1 {
        return None;
    }
    match branches.pop_front() {
        Some(grown) if grown.depth == 0 => Some(grown.branch),
        _ => None,
    }
}

/// The branches that lines make, from the last line to the first.
fn branches_of(alloc: Global, lines: &[StoredLine]) -> Result<VecDeque<Grown>, AllocError>
    ensures { IfOk result (λ branches. branches.items ≡ grown lines.now) }
{
    let mut branches = VecDeque::new(alloc);
    let mut at = lines.len();
    'lines: while at > 0 {
        at -= 1;
        add_line(alloc, &mut branches, &lines[at])?;
    }
    Ok(branches)
}

/// A line before branches: those right below it become its children.
fn add_line(
    alloc: Global,
    branches: &mut VecDeque<Grown>,
    line: &StoredLine,
) -> Result<(), AllocError>
    ensures { OnOk result (branches.new.items ≡ graft line.now.0 line.now.1 branches.old.items) }
{
    let mut children = Vec::new(alloc);
    'below: while is_right_below(branches, line.depth) {
        if let Some(grown) = branches.pop_front() {
            children.push(grown.branch)?;
        }
    }
    let branch = Branch {
        tag: line.tag.copy(alloc)?,
        text: copied(alloc, &line.text)?,
        target: line.target,
        children,
    };
    branches.push_front(Grown {
        depth: line.depth,
        branch,
    })?;
    Ok(())
}

/// Whether a branch at the front begins right below a depth.
fn is_right_below(branches: &VecDeque<Grown>, depth: u32) -> bool
    ensures { result ≡ begins_at (depth + 1) branches.now.items }
{
    match branches.front() {
        Some(grown) => grown.depth > 0 && grown.depth - 1 == depth,
        None => false,
    }
}
