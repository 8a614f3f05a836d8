//! Records kept as lines, and read again.

ghost use Rattle.std.specs.Prelude.{◌≡◌, ◌≢◌, ◌⊎◌, ◌↔◌, IfOk, IfErr, IsTrue, MatchOption};
ghost use Rattle.records.specs.Shallow.{IsShallow};
ghost use Rattle.records.specs.Stored.{record_tree, stored};
ghost use Rattle.record_kinds.specs.declared.record.Record.{Record};
ghost use Rattle.record_text.specs.declared.refusal.RefusalKind.TheVariants as kinds;

use crate::kinds::{branch_of_record, record_in};
use record_kinds::Record;
use record_text::RefusalKind;
use std::alloc::{AllocError, Global};
use stored_lines::{Branch, StoredLine, are_same_branches, branch_of_lines, lines_of_branch};

/// The lines that a record is kept as.
pub fn lines_of(alloc: Global, record: &Record) -> Result<Vec<StoredLine>, AllocError>
    ensures kept { IfOk result (λ lines. lines.items ≡ stored «record».now) }
    ensures shallow { IfOk result (λ _. IsShallow «record».now) }
{
    let branch = branch_of_record(alloc, record)?;
    lines_of_branch(alloc, branch)
}

/// The record that is kept as these lines. 40: no record is, as where lines are nested too deep.
pub fn record_of(alloc: Global, lines: &[StoredLine]) -> Result<Record, RefusalKind>
    ensures read { IfOk result (λ r. lines.now ≡ stored r) }
    ensures refused { IfErr result (λ kind. (kind ≡ kinds.OutOfMemory)
        ⊎ ((kind ≡ kinds.BadStored) × ((r : Record) → IsShallow r → lines.now ≢ stored r))) }
{
    match found_in(alloc, lines)? {
        Some(found) => Ok(found),
        None => Err(RefusalKind::BadStored),
    }
}

/// The same record in memory of its own.
#[tactic(auto, using(crate::proofs::Shallow::copied_back))]
pub fn copy_record(alloc: Global, record: &Record) -> Result<Record, AllocError>
    ensures { IfOk result (λ r. r ≡ «record».now) }
{
    let kept = branch_of_record(alloc, record)?;
    match record_in(alloc, &kept)? {
        Some(copy) => Ok(copy),
        None => unreachable!(),
    }
}

/// The record that is kept as these lines. `None`: no record is.
#[tactic(auto, using(crate::proofs::Shallow::no_tree, crate::proofs::Shallow::no_record))]
fn found_in(alloc: Global, lines: &[StoredLine]) -> Result<Option<Record>, AllocError>
    ensures { IfOk result (λ found. MatchOption found
        ((r : Record) → IsShallow r → lines.now ≢ stored r) (λ r. lines.now ≡ stored r)) }
{
    let Some(tree) = branch_of_lines(alloc, lines)? else {
        return Ok(None);
    };
    match record_in(alloc, &tree)? {
        Some(found) => kept_alone(alloc, found, &tree),
        None => Ok(None),
    }
}

/// The record, where this branch is the one that it is kept as.
fn kept_alone(alloc: Global, found: Record, tree: &Branch) -> Result<Option<Record>, AllocError>
    ensures { IfOk result (λ kept. MatchOption kept
        (tree.now ≢ record_tree found) (λ r. tree.now ≡ record_tree r)) }
{
    match is_kept_as(alloc, &found, tree) {
        Ok(true) => Ok(Some(found)),
        Ok(false) => {
            drop(found);
            Ok(None)
        }
        Err(e) => {
            drop(found);
            Err(e)
        }
    }
}

/// Whether this branch is the one that the record is kept as.
fn is_kept_as(alloc: Global, record: &Record, tree: &Branch) -> Result<bool, AllocError>
    ensures { IfOk result (λ same. IsTrue same ↔ (tree.now ≡ record_tree «record».now)) }
{
    let kept = branch_of_record(alloc, record)?;
    Ok(are_same_branches(tree, &kept))
}
