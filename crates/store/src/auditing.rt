//! What an archive holds, judged of its tables.

ghost use Rattle.std.specs.Prelude.{◌≡◌, false, length};
ghost use Rattle.std.specs.FinMap.{keys};
ghost use Rattle.sqlite.specs.State.{HasCleanDisk};
ghost use Rattle.sqlite.specs.Held.{state};
ghost use Rattle.table_looks.specs.Judging.{Judges, Tells, without_fault};
ghost use Rattle.store.specs.Calls.{Reads};
ghost use Rattle.store.specs.Histories as history;

use crate::failing::is_storage;
use crate::reading::refusal_after;
use record_text::RefusalKind;
use sqlite::{Alter, Connection};
use std::alloc::Global;
use table_looks::{Flaw, judge_tables};

/// What an audit answers: how many records there are, or why not, with what is wrong where that was found.
pub(crate) type Audit = Result<u32, (RefusalKind, Option<Flaw>)>;

/// How many records the archive has, where its tables are good. After any refusal but 80 the connection still answers.
pub(crate) fn audit_on<S: Alter>(alloc: Global, conn: &mut Connection<S>) -> Audit
    requires autocommit { conn.old.in_transaction ≡ false }
    ensures judged { HasCleanDisk (state S.Store conn.new)
        → Judges (state S.Store conn.old) (without_fault result) }
    ensures told { HasCleanDisk (state S.Store conn.new) → Tells (state S.Store conn.old) result }
    ensures reads { HasCleanDisk (state S.Store conn.new) → Reads (λ _ c n. n ≡ length (keys c.records))
        (state S.Store conn.old) (without_fault result) (state S.Store conn.new) }
    ensures ended { conn.new.in_transaction ≡ false }
{
    match judge_tables(alloc, conn) {
        Err((kind, fault)) => Err((refusal_after(conn, kind), fault)),
        Ok(records) => Ok(records),
    }
}

/// Whether an audit was refused because the database failed.
pub(crate) fn has_failed(audit: &Audit) -> bool
    ensures { result ≡ history.has_broken (without_fault audit.now) }
{
    match audit {
        Ok(_) => false,
        Err((kind, _)) => is_storage(*kind),
    }
}
