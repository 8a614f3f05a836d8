//! Records of tables of before, read anew.

ghost use Rattle.std.specs.Prelude.{◌≡◌, ◌≢◌, ◌⊎◌, IfOk, IfErr, MatchOption};
ghost use Rattle.record_text.specs.declared.refusal.RefusalKind.TheVariants as kinds;
ghost use Rattle.records.specs.Stored.{stored};
ghost use Rattle.older_archives.specs.RecordReading.{IsAnewOf, IsKeptAsNone, IsReadAnew, WasKeptAsNone};

use crate::dates::new_date;
use crate::lines::{lines_with, place_in, text_at};
use record_kinds::Record;
use record_text::RefusalKind;
use records::record_of;
use std::alloc::{AllocError, Global};
use stored_lines::StoredLine;

/// What a record of before is today.
#[derive(Drop)]
pub enum ReadAnew {
    /// Its lines stay as they are.
    Stays(Record),
    /// Its date is written in another spelling.
    Changes(Record),
}

/// What the record is today that was kept as these lines before the grammar had French Republican dates. 40: no record
/// was, as where lines are nested too deep.
pub fn read_anew(alloc: Global, lines: &[StoredLine]) -> Result<ReadAnew, RefusalKind>
    ensures read { IfOk result (λ found. IsReadAnew lines.now found) }
    ensures refused { IfErr result (λ kind. (kind ≡ kinds.OutOfMemory)
        ⊎ ((kind ≡ kinds.BadStored) × WasKeptAsNone lines.now)) }
{
    if let Some(found) = kept(alloc, lines)? {
        return Ok(ReadAnew::Stays(found));
    }
    match changed(alloc, lines)? {
        Some(found) => Ok(ReadAnew::Changes(found)),
        None => Err(RefusalKind::BadStored),
    }
}

/// The record of today that is kept as these lines. `None`: none is.
fn kept(alloc: Global, lines: &[StoredLine]) -> Result<Option<Record>, AllocError>
    ensures { IfOk result (λ found. MatchOption found (IsKeptAsNone lines.now) (λ r. lines.now ≡ stored r)) }
{
    match record_of(alloc, lines) {
        Ok(found) => Ok(Some(found)),
        Err(RefusalKind::BadStored) => Ok(None),
        Err(_) => Err(AllocError),
    }
}

/// What the record is today that was kept as these lines, where none of today is. `None`: none was.
fn changed(alloc: Global, lines: &[StoredLine]) -> Result<Option<Record>, AllocError>
    ensures { IsKeptAsNone lines.now → IfOk result (λ found.
        MatchOption found (WasKeptAsNone lines.now) (λ r. IsAnewOf lines.now r × (lines.now ≢ stored r))) }
{
    let Some(at) = place_in(lines) else {
        return Ok(None);
    };
    let Some(text) = text_at(alloc, lines, at)? else {
        return Ok(None);
    };
    let Some(date) = new_date(alloc, &text)? else {
        return Ok(None);
    };
    let written = date.text(alloc)?;
    let lines = lines_with(alloc, lines, at, written)?;
    kept(alloc, &lines)
}
