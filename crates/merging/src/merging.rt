//! What stands at a number after a merge.

ghost use Rattle.std.specs.Prelude.{◌≡◌, IfOk};
ghost use Rattle.std.specs.FinMap.{get};
ghost use Rattle.archive_state.specs.Merging as merging;

use crate::new_records::{merged_person, merged_record};
use archive_state::State;
use record_kinds::Record;
use std::alloc::{AllocError, Global};

/// What stands at the number after `gone` was merged into `keep`, of what the state has before it.
pub fn merged_at(
    alloc: Global,
    before: &State,
    keep: u32,
    gone: u32,
    number: u32,
) -> Result<Option<Record>, AllocError>
    ensures { IfOk result (λ o. o ≡ merging.merged keep gone (get before.now.records) number) }
{
    if number == gone {
        return Ok(None);
    }
    let Some(found) = before.record(number) else {
        return Ok(None);
    };
    if number == keep {
        Ok(Some(merged_person(alloc, found, before.record(gone), keep, gone)?))
    } else {
        Ok(Some(merged_record(alloc, found, keep, gone)?))
    }
}
