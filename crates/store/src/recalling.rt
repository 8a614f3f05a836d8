//! What a number was before.

ghost use Rattle.std.specs.Prelude.{◌≡◌, false};
ghost use Rattle.sqlite.specs.State.{HasCleanDisk};
ghost use Rattle.sqlite.specs.Held.{state};
ghost use Rattle.past_values.specs.Recalling.{CanBeRecalled, IsRecalled};
ghost use Rattle.store.specs.Recalling.{Recalls};

use crate::reading::refusal_after;
use past_values::{Recalled, recall};
use record_text::RefusalKind;
use sqlite::{Alter, Connection};
use std::alloc::Global;

/// The values of before of a number, by the keys of their rows, and how many answers are kept. 40: such a row cannot be
/// read. After any refusal but 80 the connection still answers.
pub(crate) fn recall_on<S: Alter>(
    alloc: Global,
    conn: &mut Connection<S>,
    number: u32,
) -> Result<Recalled, RefusalKind>
    requires autocommit { conn.old.in_transaction ≡ false }
    ensures recalls { HasCleanDisk (state S.Store conn.new)
        → Recalls (λ rows found. IsRecalled number rows found.answers found.values.items) (CanBeRecalled number)
        (state S.Store conn.old) result (state S.Store conn.new) }
    ensures ended { conn.new.in_transaction ≡ false }
{
    match recall(alloc, conn, number) {
        Err(kind) => Err(refusal_after(conn, kind)),
        Ok(found) => Ok(found),
    }
}
