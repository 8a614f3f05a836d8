//! An import of a forest that is given up once it is decided: it is not in memory while rows are written.

ghost use Rattle.std.specs.Prelude.{
  ◌≡◌,
  ◌≢◌,
  [],
  ◌∷◌,
  true,
  false,
  None,
  Err,
  IfOk,
  IfErr,
  IsSome,
  IsTrue,
  OnOk,
};
ghost use Rattle.std.specs.FinMap.{get};
ghost use Rattle.sqlite.specs.State.{HasCleanDisk};
ghost use Rattle.sqlite.specs.Held.{state};
ghost use Rattle.record_text.specs.declared.refusal.RefusalKind.TheVariants as refusal;
ghost use Rattle.archive_core.specs.Machine.{import_of};
ghost use Rattle.archive_core.specs.Steps.{refused_at};
ghost use Rattle.archive_core.specs.declared.request.Request.{Request};
ghost use Rattle.archive_state.specs.Looks.{is_stop};
ghost use Rattle.store_tables.specs.Calls.{LeavesOnly, Settled};
ghost use Rattle.store.specs.Calls.{Acknowledges, OnArchive, Performs};
ghost use Rattle.store.specs.Histories.{has_failed, is_storage};
ghost use Rattle.store.specs.Lives.{IsCall};
ghost use Rattle.store.specs.Standing.{heard, must_wait, shuts, standing};
ghost use Rattle.store.specs.Telling.{TellsDone, TellsImport};

use crate::archive::Archive;
use crate::beginning::begin_on;
use crate::failing::has_failed;
use crate::staged::finish_begun;
use gedcom_tree::Forest;
use receipts::{Answer, Token};
use record_text::{Refusal, RefusalKind};
use sqlite::Alter;
use staging::Progress;
use std::alloc::Global;

impl<S: Alter> Archive<S> {
    /// Imports a forest, as `perform` does the request of its import. The forest is given up before the first row is
    /// written, and `progress` gets how far it is.
    ///
    /// Refusals as of `perform`.
    pub fn import<P: Progress>(
        &mut self,
        alloc: Global,
        token: &Token,
        forest: Forest,
        progress: &mut P,
    ) -> Result<Answer, Refusal>
        ensures performs { HasCleanDisk (state S.Store self.new.conn) → shuts self.old.is_lost self.old.import ≡ false
            → Performs (state S.Store self.old.conn) ((import_of token.now forest, result) ∷ [])
            (state S.Store self.new.conn) }
        ensures acknowledged { HasCleanDisk (state S.Store self.new.conn)
            → IfOk result (λ answer. Acknowledges (state S.Store self.old.conn) (import_of token.now forest) answer
            (state S.Store self.new.conn)) }
        ensures repeated { HasCleanDisk (state S.Store self.new.conn) → OnArchive (state S.Store self.old.conn)
            (λ society c rows.
            get c.receipts token.now ≢ None → LeavesOnly (state S.Store self.new.conn) rows) }
        ensures lost { shuts self.old.is_lost self.old.import ≡ false
            → shuts self.new.is_lost self.new.import ≡ has_failed result }
        ensures failed { shuts self.old.is_lost self.old.import ≡ false → self.new.is_lost ≡ has_failed result }
        ensures alone { self.old.import ≡ None → self.new.import ≡ None }
        ensures reopen { IsTrue self.old.is_lost → (result ≡ Err (refused_at None refusal.Reopen))
            × (self.new ≡ self.old) }
        ensures waits { self.old.is_lost ≡ false → IsSome self.old.import → (result ≡ must_wait)
            × (self.new ≡ self.old) }
        ensures refused { HasCleanDisk (state S.Store self.new.conn) → self.old.is_lost ≡ false
            → IfErr result (λ e. is_storage e.kind ≡ false
            → OnArchive (state S.Store self.old.conn) (λ society c rows. Settled (state S.Store self.new.conn) rows)) }
        ensures placed { IfErr result (λ e. is_stop e.kind ≡ true → e.at ≡ None) }
        ensures quiet { HasCleanDisk (state S.Store self.new.conn) → self.old.is_lost ≡ false
            → OnArchive (state S.Store self.old.conn) (λ society c rows. OnOk result (self.new.failures ≡ 0)) }
        ensures called { (r : Request) → IsCall S.Store self.old.conn (standing r self.old.is_lost self.old.import)
            (heard (shuts self.old.is_lost self.old.import) ((import_of token.now forest, result) ∷ [])) self.new.conn
            (standing r self.new.is_lost self.new.import) }
        ensures told { TellsImport P.Tells progress.old progress.new }
        ensures told_done { HasCleanDisk (state S.Store self.new.conn) → OnOk result (OnArchive
            (state S.Store self.old.conn) (λ society c rows. TellsDone P.Tells c (import_of token.now forest)
            progress.old progress.new)) }
    {
        if self.is_lost {
            return Err(RefusalKind::Reopen.into());
        }
        if self.import.is_some() {
            return Err(RefusalKind::ImportOpen.into());
        }
        let outcome = import_whole(alloc, self, token, forest, progress);
        self.is_lost = has_failed(&outcome);
        self.import = None;
        outcome
    }
}

/// Imports a forest into an archive as `import_on` does, and gives the forest up before the first row is written.
fn import_whole<S: Alter, P: Progress>(
    alloc: Global,
    archive: &mut Archive<S>,
    token: &Token,
    forest: Forest,
    progress: &mut P,
) -> Result<Answer, Refusal>
    requires kept { archive.old.is_lost ≡ false }
    ensures performs { HasCleanDisk (state S.Store archive.new.conn) → Performs (state S.Store archive.old.conn)
        ((import_of token.now forest, result) ∷ []) (state S.Store archive.new.conn) }
    ensures acknowledged { HasCleanDisk (state S.Store archive.new.conn)
        → IfOk result (λ answer. Acknowledges (state S.Store archive.old.conn) (import_of token.now forest) answer
        (state S.Store archive.new.conn)) }
    ensures repeated { HasCleanDisk (state S.Store archive.new.conn) → OnArchive (state S.Store archive.old.conn)
        (λ society c rows. get c.receipts token.now ≢ None → LeavesOnly (state S.Store archive.new.conn) rows) }
    ensures refused { HasCleanDisk (state S.Store archive.new.conn) → IfErr result (λ e. is_storage e.kind ≡ false
        → OnArchive (state S.Store archive.old.conn)
        (λ society c rows. Settled (state S.Store archive.new.conn) rows)) }
    ensures placed { IfErr result (λ e. is_stop e.kind ≡ true → e.at ≡ None) }
    ensures quiet { HasCleanDisk (state S.Store archive.new.conn) → OnArchive (state S.Store archive.old.conn)
        (λ society c rows. OnOk result (archive.new.failures ≡ 0)) }
    ensures told { TellsImport P.Tells progress.old progress.new }
    ensures told_done { HasCleanDisk (state S.Store archive.new.conn) → OnOk result (OnArchive
        (state S.Store archive.old.conn) (λ society c rows. TellsDone P.Tells c (import_of token.now forest)
        progress.old progress.new)) }
{
    match begin_on(alloc, archive, token, forest) {
        Ok((answer, begun)) => match finish_begun(alloc, &mut archive.conn, begun, progress) {
            Ok(()) => Ok(answer),
            Err(kind) => Err(Refusal { kind, at: None }),
        },
        Err(refusal) => Err(refusal),
    }
}
