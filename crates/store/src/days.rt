//! The events and register entries of an archive between two days.

ghost use Rattle.std.specs.Prelude.{◌≡◌, false};
ghost use Rattle.sqlite.specs.State.{HasCleanDisk};
ghost use Rattle.sqlite.specs.Held.{state};
ghost use Rattle.date_spans.specs.Between.{AreAll, IsBetween};
ghost use Rattle.store.specs.Calls.{Reads};

use crate::reading::refusal_after;
use record_text::RefusalKind;
use sqlite::{Alter, Connection};
use std::alloc::Global;
use table_looks::between_days;

/// The numbers of the events and register entries that may have happened in these days. After any refusal but 80 the
/// connection still answers.
pub(crate) fn between_on<S: Alter>(
    alloc: Global,
    conn: &mut Connection<S>,
    first: i32,
    last: i32,
) -> Result<Vec<u32>, RefusalKind>
    requires autocommit { conn.old.in_transaction ≡ false }
    ensures reads { HasCleanDisk (state S.Store conn.new)
        → Reads (λ _ c found. AreAll (IsBetween c.records first last) found.items) (state S.Store conn.old) result
        (state S.Store conn.new) }
    ensures ended { conn.new.in_transaction ≡ false }
{
    match between_days(alloc, conn, first, last) {
        Err(kind) => Err(refusal_after(conn, kind)),
        Ok(found) => Ok(found),
    }
}
