//! What a request changes, decided over what the archive shows.

ghost use Rattle.std.specs.Prelude.{◌≡◌, ◌≢◌, true, false, None, Ok, Err, IfOk, IfErr, OnOk};
ghost use Rattle.sqlite.specs.State.{HasCleanDisk};
ghost use Rattle.sqlite.specs.Held.{state};
ghost use Rattle.record_text.specs.declared.refusal.RefusalKind.TheVariants.{BadStored};
ghost use Rattle.archive_core.specs.Applied.{Decides};
ghost use Rattle.archive_core.specs.Exact.{IsExactFor};
ghost use Rattle.archive_core.specs.Machine.{outcome};
ghost use Rattle.archive_core.specs.Words.{HasUtf8Words};
ghost use Rattle.archive_state.specs.Looks.{CountsStops, is_stop};
ghost use Rattle.archive_state.specs.Views.{On};
ghost use Rattle.store_tables.specs.Calls.{Settled, LeavesOnly};
ghost use Rattle.store.specs.Overwritten.{kept_values};
ghost use Rattle.store.specs.Viewing.{OnReadable};

use crate::archive::Archive;
use crate::overwriting::kept_values;
use archive_core::{Request, decide};
use archive_state::{Changes, Numbered, View};
use record_text::{Refusal, RefusalKind};
use sqlite::Alter;
use std::alloc::Global;

/// What a request changes, and the records of before whose values it keeps.
#[derive(Drop)]
pub(crate) struct Plan {
    pub(crate) changes: Changes,
    pub(crate) values: Vec<Numbered>,
}

/// What a request changes in an archive, and what is kept of it as it was. It is refused as by `decide`, and with 80
/// where a look lost the archive; nothing is written.
pub(crate) fn decide_on<S: Alter>(
    alloc: Global,
    archive: &mut Archive<S>,
    request: &Request,
) -> Result<Plan, Refusal>
    requires kept { archive.old.is_lost ≡ false }
    ensures decides { HasCleanDisk (state S.Store archive.new.conn) → OnReadable (state S.Store archive.old.conn)
        (λ _ c. IfOk result (λ plan. Decides c (Ok plan.changes) (outcome c «request».now))) }
    ensures declines { HasCleanDisk (state S.Store archive.new.conn) → OnReadable (state S.Store archive.old.conn)
        (λ _ c. IfErr result (λ e. Decides c (Err e) (outcome c «request».now))) }
    ensures exact { HasCleanDisk (state S.Store archive.new.conn) → OnReadable (state S.Store archive.old.conn)
        (λ _ c. IfOk result (λ plan. IsExactFor c «request».now plan.changes)) }
    ensures values { HasCleanDisk (state S.Store archive.new.conn) → OnReadable (state S.Store archive.old.conn)
        (λ _ c. IfOk result (λ plan. plan.values.items ≡ kept_values c «request».now.command plan.changes)) }
    ensures readable { HasCleanDisk (state S.Store archive.new.conn)
        → OnReadable (state S.Store archive.old.conn) (λ _ _. IfErr result (λ e. e.kind ≢ BadStored)) }
    ensures same { HasCleanDisk (state S.Store archive.new.conn)
        → OnReadable (state S.Store archive.old.conn)
        (λ rows _. OnOk result (Settled (state S.Store archive.new.conn) rows × (archive.new.failures ≡ 0))) }
    ensures placed { IfErr result (λ e. is_stop e.kind ≡ true → e.at ≡ None) }
    ensures crash { HasCleanDisk (state S.Store archive.new.conn)
        → OnReadable (state S.Store archive.old.conn) (λ rows _. LeavesOnly (state S.Store archive.new.conn) rows) }
    ensures clean { HasCleanDisk (state S.Store archive.new.conn) → HasCleanDisk (state S.Store archive.old.conn) }
    ensures words { HasUtf8Words «request».now.command }
{
    archive.failures = 0;
    let decided = decide_wholly(alloc, archive, request);
    if archive.is_lost {
        drop(decided);
        return Err(RefusalKind::Storage.into());
    }
    decided
}

/// The same over any view, refused as by `decide`; the stops may come in place of any answer.
fn decide_wholly<V: View>(alloc: Global, view: &mut V, request: &Request) -> Result<Plan, Refusal>
    ensures decides { On V.View view.old view.new
        (λ c. IfOk result (λ plan. Decides c (Ok plan.changes) (outcome c «request».now))) }
    ensures declines { On V.View view.old view.new
        (λ c. IfErr result (λ e. Decides c (Err e) (outcome c «request».now))) }
    ensures exact { On V.View view.old view.new (λ c. IfOk result (λ plan. IsExactFor c «request».now plan.changes)) }
    ensures values { On V.View view.old view.new
        (λ c. IfOk result (λ plan. plan.values.items ≡ kept_values c «request».now.command plan.changes)) }
    ensures counts { CountsStops (V.failed view.old) (V.failed view.new) result }
    ensures words { HasUtf8Words «request».now.command }
{
    let changes = decide(alloc, view, request)?;
    let values = kept_values(alloc, view, &request.command, &changes)?;
    Ok(Plan { changes, values })
}
