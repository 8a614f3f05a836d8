//! Slips: what is kept of a merge, so that it can be undone.

ghost use Rattle.std.specs.Prelude.{◌≡◌, IfOk};

use record_kinds::Record;
use records::copy_record;
use std::alloc::{AllocError, Global};
use std::marker::Model;

/// A number whose record a merge changed.
#[derive(Drop)]
pub struct Change {
    pub number: u32,
    /// The record of before.
    pub old: Record,
    /// The record of after; none where it was removed.
    pub new: Option<Record>,
}

/// What a merge changed.
#[derive(Drop)]
pub struct Slip {
    /// The number of the person that stays.
    pub keep: u32,
    /// The number of the person that was merged into the other, and is no more.
    pub gone: u32,
    /// Each number whose record differs, ascending.
    pub changes: Vec<Change>,
    /// Whether the merge was undone, which is for good.
    pub is_undone: bool,
}

impl Model for Slip {
    ghost use Rattle.std.specs.Coded.{codes};
    ghost use Rattle.stored_lines.specs.Line.{lines_code, value_code};
    ghost use Rattle.archive_state.specs.Slips as slips;

    ghost Value = { slips.Slip };

    ghost coded = { Prim.hlevel (codes, lines_code, value_code) };

    ghost view = { λ a. record { keep = a.keep; gone = a.gone; changes = a.changes.items; is_undone = a.is_undone } };
}

impl Change {
    /// The same change in memory of its own.
    pub fn copy(&self, alloc: Global) -> Result<Change, AllocError>
        ensures { IfOk result (λ c. c ≡ self.now) }
    {
        Ok(Change {
            number: self.number,
            old: copy_record(alloc, &self.old)?,
            new: copied(alloc, &self.new)?,
        })
    }
}

impl Slip {
    /// The same slip in memory of its own.
    pub fn copy(&self, alloc: Global) -> Result<Slip, AllocError>
        ensures { IfOk result (λ s. s ≡ self.now) }
    {
        let mut changes = Vec::new(alloc);
        'changes: for change in &self.changes {
            changes.push(change.copy(alloc)?)?;
        }
        Ok(Slip {
            keep: self.keep,
            gone: self.gone,
            changes,
            is_undone: self.is_undone,
        })
    }
}

/// The same record in memory of its own, where there is one.
fn copied(alloc: Global, found: &Option<Record>) -> Result<Option<Record>, AllocError>
    ensures { IfOk result (λ r. r ≡ found.now) }
{
    match found {
        None => Ok(None),
        Some(record) => Ok(Some(copy_record(alloc, record)?)),
    }
}
