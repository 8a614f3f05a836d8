//! An archive: made, opened, asked, and changed by requests.

ghost use Rattle.std.specs.Prelude.{
  ◌≡◌,
  ◌≢◌,
  ◌↔◌,
  ◌⊎◌,
  ⊤,
  true,
  List,
  ℕ,
  [],
  ◌∷◌,
  length,
  drop,
  false,
  is_some,
  is_none,
  None,
  Some,
  Ok,
  Err,
  IfOk,
  IfErr,
  IfSome,
  IfNone,
  OnOk,
  OnErr,
  IsSome,
  IsTrue,
  MatchOption,
};
ghost use Rattle.std.specs.List.{AllByRecursion, zip};
ghost use Rattle.std.specs.String.{string_bytes};
ghost use Rattle.std.specs.FinMap.{get, keys};
ghost use Rattle.sqlite.specs.State.{HasCleanDisk};
ghost use Rattle.sqlite.specs.Held.{state};
ghost use Rattle.sqlite.specs.Tree.{Trees};
ghost use Rattle.archive_state.specs.Looks.{is_stop};
ghost use Rattle.date_spans.specs.Between.{AreAll, IsBetween};
ghost use Rattle.record_text.specs.declared.refusal.RefusalKind.TheVariants as refusal;
ghost use Rattle.archive_core.specs.Machine.{Does, import_of};
ghost use Rattle.archive_core.specs.Steps.{refused_at};
ghost use Rattle.archive_core.specs.declared.request.Request.{Request};
ghost use Rattle.archive_state.specs.Content.{Content, nothing};
ghost use Rattle.store_tables.specs.Calls.{IsAsItWas, Settled, SettledBlank, LeavesOnly};
ghost use Rattle.store_tables.specs.Looking.{IsFailure};
ghost use Rattle.store_tables.specs.Rows.{Rows};
ghost use Rattle.store_tables.specs.Schema.{no_schema};
ghost use Rattle.table_looks.specs.Judging.{Judges, Tells, without_fault};
ghost use Rattle.store.specs.Adopting.{
  HasNoImport,
  IsRecognised,
  LeavesRefused,
  LeavesStore,
  RefusesToAdopt,
  StaysSettled,
  TakesUp,
  is_foreign,
};
ghost use Rattle.store.specs.Archives.{HasArchive, Keeps, LeavesArchive};
ghost use Rattle.store.specs.Calls.{
  Acknowledges,
  LeavesDoneOrNot,
  LeavesTogether,
  OnArchive,
  Performs,
  Reads,
};
ghost use Rattle.store.specs.Creating.{IsSociety, RefusesToCreate, RefusesToMake};
ghost use Rattle.store.specs.Histories.{
  AreLost,
  Outcome,
  has_broken,
  has_failed,
  is_storage,
  loses,
};
ghost use Rattle.store.specs.Importing.{HasAnswered, HasBegun, HasImport, HasPublished, StaysOn};
ghost use Rattle.store.specs.Lives.{IsCall, IsOpenedOver, IsRefusedOver, IsTakenUpOver};
ghost use Rattle.store.specs.Looking.{IsRead, IsUnread};
ghost use Rattle.store.specs.Overwritten.{keeps_past};
ghost use Rattle.past_values.specs.Recalling.{CanBeRecalled, IsRecalled};
ghost use Rattle.store.specs.Recalling.{Recalls};
ghost use Rattle.store.specs.Standing.{
  begun_as,
  heard,
  must_wait,
  published_by,
  shuts,
  standing,
};

use crate::adopting::take_up;
use crate::auditing::{self, audit_on};
use crate::beginning::begin_on;
use crate::days::between_on;
use crate::failing::{has_broken, has_failed, loses};
use crate::open_imports::{abandon_open, publish_open, stage_open, told};
use crate::performing::perform_on;
use crate::reading::{society_on, state_on};
use crate::recalling::recall_on;
use archive_core::Request;
use archive_state::State;
use gedcom_tree::Forest;
use import_commits::laws::an_import_that_is_begun_is_in_no_view;
use past_values::Recalled;
use receipts::{Answer, Token};
use record_text::{Refusal, RefusalKind, Text};
use sqlite::{Alter, Connection};
use staging::OpenImport;
use std::alloc::Global;
use store_tables::connection::is_blank;
use table_looks::Flaw;

/// A society's archive, over a connection on which no transaction is open.
pub struct Archive<S: Alter> {
    pub(crate) conn: Connection<S>,
    /// A call or a look answered 80, and the archive has to be opened again.
    pub(crate) is_lost: bool,
    /// How many looks of the last request failed.
    pub(crate) failures: u64,
    /// The import that is open: its rows are in the tables up to a place, in a batch that is in no view.
    pub(crate) import: Option<OpenImport>,
    ghost ended: { conn.in_transaction ≡ false },
}

impl<S: Alter> Archive<S> {
    /// A new archive of a society, in a store in which nothing was made. At a refusal the connection is handed back.
    ///
    /// 58: the society is empty or no text. 82: something was made in the store before; it is not changed. 80: the
    /// database failed; the store is empty, or it has the new archive.
    pub fn create(
        mut conn: Connection<S>,
        society: String,
    ) -> Result<Archive<S>, (RefusalKind, Connection<S>)>
        requires autocommit { conn.in_transaction ≡ false }
        ensures created { IfOk result (λ made. HasCleanDisk (state S.Store made.conn)
            → SettledBlank (state S.Store conn)
            → HasArchive (string_bytes society) nothing (state S.Store made.conn) × LeavesArchive
            (state S.Store made.conn) (string_bytes society) (λ found. found ≡ nothing)) }
        ensures closed { IfOk result (λ made. HasCleanDisk (state S.Store made.conn)
            → SettledBlank (state S.Store conn) → HasNoImport (state S.Store made.conn)) }
        ensures named { IfOk result (λ made. (made.is_lost ≡ false) × IsSociety (string_bytes society)
            × ((state S.Store conn).now.schema ≡ no_schema)) }
        ensures quiet { IfOk result (λ made. made.failures ≡ 0) }
        ensures idle { IfOk result (λ made. (made.import ≡ None) × (shuts made.is_lost made.import ≡ false)) }
        ensures refused { IfErr result (λ e. RefusesToCreate (string_bytes society) (state S.Store conn)
            (state S.Store e.1) e.0) }
        ensures back { IfErr result (λ e. is_storage e.0 ≡ false → e.1 ≡ conn) }
        ensures clean { IfOk result (λ made. HasCleanDisk (state S.Store made.conn)
            → HasCleanDisk (state S.Store conn)) }
        ensures honest { IfErr result (λ e. HasCleanDisk (state S.Store e.1) → HasCleanDisk (state S.Store conn)) }
        ensures ended { IfErr result (λ e. e.1.in_transaction ≡ false) }
    {
        match society_named(society) {
            Some(society) => create_named(conn, &society),
            None => Err((RefusalKind::BadText, conn)),
        }
    }

    /// The archive that a store has. Imports that were left open are removed from it; where none was, nothing is
    /// written. Then one of the first version is made one of the second, in one commit, and its dates are read anew.
    /// At a refusal the connection is handed back.
    ///
    /// 82: the store has no archive. 83: a later program wrote it. 40: it shows the first version, and its rows are no
    /// archive of that version, or a row of `batch` is none of an archive; nothing is written anew. 80: the database
    /// failed. 1: memory was refused.
    pub fn adopt(
        alloc: Global,
        mut conn: Connection<S>,
    ) -> Result<Archive<S>, (RefusalKind, Connection<S>)>
        requires autocommit { conn.in_transaction ≡ false }
        ensures adopted { IfOk result (λ made. (made.is_lost ≡ false)
            × (HasCleanDisk (state S.Store made.conn) → TakesUp (state S.Store conn) (Ok tt)
            (state S.Store made.conn))) }
        ensures recognised { IfOk result (λ made. HasCleanDisk (state S.Store made.conn)
            → IsRecognised S.Store (state S.Store conn)) }
        ensures quiet { IfOk result (λ made. made.failures ≡ 0) }
        ensures idle { IfOk result (λ made. (made.import ≡ None) × (shuts made.is_lost made.import ≡ false)) }
        ensures begins { IfOk result (λ made. HasCleanDisk (state S.Store made.conn) → (t : Trees)
            → IsOpenedOver t (state S.Store conn) → IsTakenUpOver t (state S.Store made.conn)) }
        ensures left { IfErr result (λ e. LeavesRefused S.Store (state S.Store conn) e.0 (state S.Store e.1)) }
        ensures foreign { IfErr result (λ e. is_foreign e.0 ≡ true
            → LeavesStore (state S.Store conn) (state S.Store e.1)) }
        ensures unchanged { IfErr result (λ e. HasCleanDisk (state S.Store e.1) → is_foreign e.0 ≡ true
            → IsAsItWas (state S.Store conn) (state S.Store e.1)) }
        ensures refused { IfErr result (λ e. HasCleanDisk (state S.Store e.1)
            → TakesUp (state S.Store conn) (Err e.0) (state S.Store e.1)) }
        ensures stopped { IfErr result (λ e. HasCleanDisk (state S.Store e.1) → (t : Trees)
            → IsOpenedOver t (state S.Store conn) → IsRefusedOver t (state S.Store e.1)) }
        ensures told { IfErr result (λ e. HasCleanDisk (state S.Store e.1) → RefusesToAdopt S.Store
            (state S.Store conn) e.0) }
        ensures stays { IfErr result (λ e. HasCleanDisk (state S.Store e.1) → is_storage e.0 ≡ false
            → StaysSettled (state S.Store conn) (state S.Store e.1)) }
        ensures ended { IfErr result (λ e. e.1.in_transaction ≡ false) }
    {
        match take_up(alloc, &mut conn) {
            Ok(()) => Ok(Archive {
                conn,
                is_lost: false,
                failures: 0,
                import: None,
            }),
            Err(kind) => Err((kind, conn)),
        }
    }

    /// Does a request, and then answers: an import in commits of at most 256 rows, of which the last publishes it, and
    /// any other in one commit. A request whose token is kept is answered as before, and nothing is written. In the
    /// commit of one that puts something right, or removes it, go the values of before that it overwrites.
    ///
    /// Any refusal but 80 leaves the archive as it was. 80: the database failed, and the request is done or not; the
    /// archive has to be opened again, and each later call answers 81. 84: an import is open.
    pub fn perform(&mut self, alloc: Global, request: &Request) -> Result<Answer, Refusal>
        ensures performs { HasCleanDisk (state S.Store self.new.conn) → shuts self.old.is_lost self.old.import ≡ false
            → Performs (state S.Store self.old.conn) ((«request».now, result) ∷ []) (state S.Store self.new.conn) }
        ensures acknowledged { HasCleanDisk (state S.Store self.new.conn)
            → IfOk result (λ answer. Acknowledges (state S.Store self.old.conn) «request».now answer
            (state S.Store self.new.conn)) }
        ensures repeated { HasCleanDisk (state S.Store self.new.conn) → OnArchive (state S.Store self.old.conn)
            (λ society c rows.
            get c.receipts «request».now.token ≢ None → LeavesOnly (state S.Store self.new.conn) rows) }
        ensures together { HasCleanDisk (state S.Store self.new.conn) → shuts self.old.is_lost self.old.import ≡ false
            → keeps_past «request».now.command ≡ true
            → IfErr result (λ e. OnArchive (state S.Store self.old.conn) (λ society c rows.
            LeavesTogether (state S.Store self.new.conn) society c rows «request».now)) }
        ensures lost { shuts self.old.is_lost self.old.import ≡ false
            → shuts self.new.is_lost self.new.import ≡ has_failed result }
        ensures failed { shuts self.old.is_lost self.old.import ≡ false → self.new.is_lost ≡ has_failed result }
        ensures alone { self.old.import ≡ None → self.new.import ≡ None }
        ensures reopen { IsTrue self.old.is_lost → (result ≡ Err (refused_at None refusal.Reopen))
            × (self.new ≡ self.old) }
        ensures waits { self.old.is_lost ≡ false → IsSome self.old.import → (result ≡ must_wait)
            × (self.new ≡ self.old) }
        ensures refused { HasCleanDisk (state S.Store self.new.conn) → self.old.is_lost ≡ false
            → IfErr result (λ e. is_storage e.kind ≡ false
            → OnArchive (state S.Store self.old.conn) (λ society c rows. Settled (state S.Store self.new.conn) rows)) }
        ensures placed { IfErr result (λ e. is_stop e.kind ≡ true → e.at ≡ None) }
        ensures quiet { HasCleanDisk (state S.Store self.new.conn) → self.old.is_lost ≡ false
            → OnArchive (state S.Store self.old.conn) (λ society c rows. OnOk result (self.new.failures ≡ 0)) }
        ensures called { (r : Request) → IsCall S.Store self.old.conn (standing r self.old.is_lost self.old.import)
            (heard (shuts self.old.is_lost self.old.import) ((«request».now, result) ∷ [])) self.new.conn
            (standing r self.new.is_lost self.new.import) }
    {
        if self.is_lost {
            return Err(RefusalKind::Reopen.into());
        }
        if self.import.is_some() {
            return Err(RefusalKind::ImportOpen.into());
        }
        let outcome = perform_on(alloc, self, request);
        self.is_lost = has_failed(&outcome);
        self.import = None;
        outcome
    }

    /// Performs requests in their order, and answers the outcome of each. After an 80 the rest get 81. While an import
    /// is open each gets 84.
    ///
    /// 1: memory for the outcomes was refused, before the first request.
    pub fn run(
        &mut self,
        alloc: Global,
        requests: &[Request],
    ) -> Result<Vec<Result<Answer, Refusal>>, Refusal>
        ensures performs { IfOk result (λ outcomes. (length outcomes.items ≡ length requests.now)
            × (HasCleanDisk (state S.Store self.new.conn) → shuts self.old.is_lost self.old.import ≡ false
            → Performs (state S.Store self.old.conn) (zip requests.now outcomes.items) (state S.Store self.new.conn))) }
        ensures lost { self.old.import ≡ None
            → IfOk result (λ outcomes. AreLost self.old.is_lost outcomes.items self.new.is_lost) }
        ensures alone { self.old.import ≡ None → self.new.import ≡ None }
        ensures reopen { IsTrue self.old.is_lost → self.new ≡ self.old }
        ensures waits { self.old.is_lost ≡ false → IsSome self.old.import
            → IfOk result (λ outcomes. AllByRecursion (λ (o : Outcome). o ≡ must_wait) outcomes.items)
            × (self.new ≡ self.old) }
        ensures called { IfOk result (λ outcomes. (r : Request) → IsCall S.Store self.old.conn
            (standing r self.old.is_lost self.old.import)
            (heard (shuts self.old.is_lost self.old.import) (zip requests.now outcomes.items)) self.new.conn
            (standing r self.new.is_lost self.new.import)) }
        ensures refused { IfErr result (λ e. (e ≡ refused_at None refusal.OutOfMemory) × (self.new ≡ self.old)) }
    {
        let mut outcomes = Vec::with_capacity(alloc, requests.len())?;
        'requests: for request in requests {
            let outcome = self.perform(alloc, request);
            outcomes.push(outcome).unwrap();
        }
        Ok(outcomes)
    }

    /// Begins the import of a forest: it is decided as by `perform`, and where nothing is kept for the token an import
    /// is open, of which no row is written yet. Some: the answer that was kept; nothing is written then, and no import
    /// is open.
    ///
    /// Refusals as of `perform`; after each of them no import is open that was not open before.
    pub fn begin_import(
        &mut self,
        alloc: Global,
        token: &Token,
        forest: &Forest,
    ) -> Result<Option<Answer>, Refusal>
        ensures begun { HasCleanDisk (state S.Store self.new.conn) → shuts self.old.is_lost self.old.import ≡ false
            → IfOk result (λ o. IfNone o (OnArchive (state S.Store self.old.conn) (λ society c rows.
            IfSome self.new.import (λ i. HasBegun society c rows (import_of token.now forest.now) i.changes.answer i
            (state S.Store self.new.conn))))) }
        ensures opened { IfOk result (λ o. is_some self.new.import ≡ is_none o) }
        ensures kept { HasCleanDisk (state S.Store self.new.conn)
            → IfOk result (λ o. IfSome o (λ answer. OnArchive (state S.Store self.old.conn) (λ society c rows.
            HasAnswered c rows (import_of token.now forest.now) answer (state S.Store self.new.conn)))) }
        ensures refused { HasCleanDisk (state S.Store self.new.conn) → shuts self.old.is_lost self.old.import ≡ false
            → IfErr result (λ e. is_storage e.kind ≡ false → OnArchive (state S.Store self.old.conn)
            (λ society c rows. Does c (import_of token.now forest.now) (Err e) c
            × Settled (state S.Store self.new.conn) rows)) }
        ensures crash { HasCleanDisk (state S.Store self.new.conn) → shuts self.old.is_lost self.old.import ≡ false
            → (society : List ℕ) (c : Content) → HasArchive society c (state S.Store self.old.conn)
            → LeavesArchive (state S.Store self.new.conn) society (λ found. found ≡ c) }
        ensures lost { shuts self.old.is_lost self.old.import ≡ false → self.new.is_lost ≡ loses result }
        ensures alone { self.old.import ≡ None → IfErr result (λ _. self.new.import ≡ None) }
        ensures placed { IfErr result (λ e. is_stop e.kind ≡ true → e.at ≡ None) }
        ensures reopen { IsTrue self.old.is_lost → (result ≡ Err (refused_at None refusal.Reopen))
            × (self.new ≡ self.old) }
        ensures waits { self.old.is_lost ≡ false → IsSome self.old.import
            → (result ≡ Err (refused_at None refusal.ImportOpen)) × (self.new ≡ self.old) }
        ensures called { self.old.import ≡ None
            → IsCall S.Store self.old.conn (standing (import_of token.now forest.now) self.old.is_lost self.old.import)
            (heard self.old.is_lost (begun_as (import_of token.now forest.now) result))
            self.new.conn (standing (import_of token.now forest.now) self.new.is_lost self.new.import) }
    {
        if self.is_lost {
            return Err(RefusalKind::Reopen.into());
        }
        if self.import.is_some() {
            return Err(RefusalKind::ImportOpen.into());
        }
        let begun = begin_on(alloc, self, token, forest);
        let (outcome, import) = told(begun);
        self.is_lost = loses(&outcome);
        self.import = import;
        outcome
    }

    /// Writes the next 256 rows of the import that is open, or all that are left, in one commit, and answers whether
    /// more is left. Where nothing is left nothing is committed.
    ///
    /// 85: no import is open. 1: memory was refused, and the import is as it was. 80: the database failed; the archive
    /// has to be opened again, and the import is gone then.
    pub fn stage(&mut self, alloc: Global) -> Result<bool, RefusalKind>
        ensures left { IfOk result (λ more. IfSome self.old.import (λ i.
            (self.new.import ≡ Some (record i { left = drop 256 i.left }))
            × ((more ≡ false) ↔ (drop 256 i.left ≡ [])))) }
        ensures idle { self.old.is_lost ≡ false → IfSome self.old.import (λ i. i.left ≡ []
            → (result ≡ Ok false) × (self.new.conn ≡ self.old.conn)) }
        ensures told { self.old.is_lost ≡ false → IsSome self.old.import
            → IfErr result (λ kind. (kind ≡ refusal.OutOfMemory) ⊎ (kind ≡ refusal.Storage)) }
        ensures staged { HasCleanDisk (state S.Store self.new.conn) → OnOk result (IfSome self.old.import (λ i.
            StaysOn i (state S.Store self.old.conn) (record i { left = drop 256 i.left })
            (state S.Store self.new.conn))) }
        ensures stays { HasCleanDisk (state S.Store self.new.conn) → self.old.is_lost ≡ false
            → IfErr result (λ kind. is_storage kind ≡ false → IfSome self.old.import (λ i.
            (kind ≡ refusal.OutOfMemory) × (self.new.import ≡ self.old.import)
            × StaysOn i (state S.Store self.old.conn) i (state S.Store self.new.conn))) }
        ensures crash { HasCleanDisk (state S.Store self.new.conn) → self.old.is_lost ≡ false
            → IfSome self.old.import (λ i. (society : List ℕ) (c : Content) (r : Request)
            → HasImport society c r i (state S.Store self.old.conn)
            → LeavesArchive (state S.Store self.new.conn) society (λ found. found ≡ c)) }
        ensures lost { self.old.is_lost ≡ false → self.new.is_lost ≡ has_broken result }
        ensures reopen { IsTrue self.old.is_lost → (result ≡ Err refusal.Reopen) × (self.new ≡ self.old) }
        ensures none { self.old.is_lost ≡ false → self.old.import ≡ None → (result ≡ Err refusal.NoImport)
            × (self.new.conn ≡ self.old.conn) × (self.new.import ≡ None) }
        ensures called { (r : Request) → IsCall S.Store self.old.conn
            (standing r self.old.is_lost self.old.import) [] self.new.conn
            (standing r self.new.is_lost self.new.import) }
    {
        if self.is_lost {
            return Err(RefusalKind::Reopen);
        }
        let staged = stage_open(alloc, &mut self.conn, &mut self.import);
        self.is_lost = has_broken(&staged);
        staged
    }

    /// Publishes the import that is open, in one commit: its batch is closed, the next number is moved, and its answer
    /// is kept and given.
    ///
    /// 85: no import is open. 86: rows of it are left to be written; it stays open. 80: the database failed, and the
    /// import is done or not. Takes no memory outside of the database.
    pub fn publish(&mut self) -> Result<Answer, RefusalKind>
        ensures done { HasCleanDisk (state S.Store self.new.conn) → IfOk result (λ answer. IfSome self.old.import (λ i.
            (answer ≡ i.changes.answer) × ((society : List ℕ) (c : Content) (r : Request)
            → (has : HasImport society c r i (state S.Store self.old.conn))
            → HasPublished society c has.2.before r i (state S.Store self.new.conn)))) }
        ensures crash { HasCleanDisk (state S.Store self.new.conn) → self.old.is_lost ≡ false
            → IfSome self.old.import (λ i. i.left ≡ [] → (society : List ℕ) (c : Content) (r : Request)
            → HasImport society c r i (state S.Store self.old.conn)
            → LeavesDoneOrNot (state S.Store self.new.conn) society c r) }
        ensures closed { OnOk result (self.new.import ≡ None) }
        ensures kept { OnErr result (self.new.import ≡ self.old.import) }
        ensures unfinished { self.old.is_lost ≡ false → IfSome self.old.import (λ i. i.left ≢ []
            → (result ≡ Err refusal.NotAllStaged) × (self.new.conn ≡ self.old.conn)) }
        ensures told { self.old.is_lost ≡ false → IfSome self.old.import (λ i. i.left ≡ []
            → IfErr result (λ kind. kind ≡ refusal.Storage)) }
        ensures lost { self.old.is_lost ≡ false → self.new.is_lost ≡ has_broken result }
        ensures reopen { IsTrue self.old.is_lost → (result ≡ Err refusal.Reopen) × (self.new ≡ self.old) }
        ensures none { self.old.is_lost ≡ false → self.old.import ≡ None → (result ≡ Err refusal.NoImport)
            × (self.new.conn ≡ self.old.conn) × (self.new.import ≡ None) }
        ensures called { (r : Request) → IsCall S.Store self.old.conn
            (standing r self.old.is_lost self.old.import) (published_by r result) self.new.conn
            (standing r self.new.is_lost self.new.import) }
    {
        if self.is_lost {
            return Err(RefusalKind::Reopen);
        }
        an_import_that_is_begun_is_in_no_view();
        let published = publish_open(&mut self.conn, &mut self.import);
        self.is_lost = has_broken(&published);
        published
    }

    /// Gives the import up that is open: its rows are removed again, in commits of at most 256 rows.
    ///
    /// 85: no import is open. 80: the database failed; the archive has to be opened again, and the import is gone then.
    /// Takes no memory outside of the database.
    pub fn abandon(&mut self) -> Result<(), RefusalKind>
        ensures gone { HasCleanDisk (state S.Store self.new.conn)
            → OnOk result (IfSome self.old.import (λ i. (society : List ℕ) (c : Content) (r : Request)
            → (has : HasImport society c r i (state S.Store self.old.conn))
            → Settled (state S.Store self.new.conn) has.2.before × Keeps society c has.2.before)) }
        ensures crash { HasCleanDisk (state S.Store self.new.conn) → self.old.is_lost ≡ false
            → IfSome self.old.import (λ i. (society : List ℕ) (c : Content) (r : Request)
            → HasImport society c r i (state S.Store self.old.conn)
            → LeavesArchive (state S.Store self.new.conn) society (λ found. found ≡ c)) }
        ensures closed { OnOk result (self.new.import ≡ None) }
        ensures told { self.old.is_lost ≡ false → IsSome self.old.import
            → IfErr result (λ kind. kind ≡ refusal.Storage) }
        ensures lost { self.old.is_lost ≡ false → self.new.is_lost ≡ has_broken result }
        ensures reopen { IsTrue self.old.is_lost → (result ≡ Err refusal.Reopen) × (self.new ≡ self.old) }
        ensures none { self.old.is_lost ≡ false → self.old.import ≡ None → (result ≡ Err refusal.NoImport)
            × (self.new.conn ≡ self.old.conn) × (self.new.import ≡ None) }
        ensures called { (r : Request) → IsCall S.Store self.old.conn
            (standing r self.old.is_lost self.old.import) [] self.new.conn
            (standing r self.new.is_lost self.new.import) }
    {
        if self.is_lost {
            return Err(RefusalKind::Reopen);
        }
        let given_up = abandon_open(&mut self.conn, &mut self.import);
        self.is_lost = has_broken(&given_up);
        given_up
    }

    /// All that the archive holds.
    ///
    /// 40: stored lines are no record, as where somebody else wrote the file. 80: the database failed. 81: it failed
    /// before. 1: memory was refused.
    pub fn state(&mut self, alloc: Global) -> Result<State, RefusalKind>
        ensures reads { HasCleanDisk (state S.Store self.new.conn) → self.old.is_lost ≡ false
            → Reads (λ _ c held. held ≡ c) (state S.Store self.old.conn) result (state S.Store self.new.conn) }
        ensures read { HasCleanDisk (state S.Store self.new.conn) → self.old.is_lost ≡ false
            → IfOk result (IsRead (state S.Store self.old.conn)) }
        ensures unread { HasCleanDisk (state S.Store self.new.conn) → self.old.is_lost ≡ false
            → IfErr result (IsUnread (state S.Store self.old.conn)) }
        ensures lost { self.old.is_lost ≡ false → self.new.is_lost ≡ has_broken result }
        ensures reopen { IsTrue self.old.is_lost → (result ≡ Err refusal.Reopen) × (self.new ≡ self.old) }
        ensures open { self.new.import ≡ self.old.import }
        ensures called { (r : Request) → IsCall S.Store self.old.conn
            (standing r self.old.is_lost self.old.import) [] self.new.conn
            (standing r self.new.is_lost self.new.import) }
    {
        if self.is_lost {
            return Err(RefusalKind::Reopen);
        }
        an_import_that_is_begun_is_in_no_view();
        let read = state_on(alloc, &mut self.conn);
        self.is_lost = has_broken(&read);
        read
    }

    /// The numbers of the events and register entries whose date may mean a day from the first to the last, ascending.
    /// Days are counted from 1970-01-01, day 0; any two are taken. A date that is a phrase, or spelt in no form, is
    /// never found. Refusals as of `state`; it serves while an import is open, of which it sees nothing.
    pub fn between_days(
        &mut self,
        alloc: Global,
        first: i32,
        last: i32,
    ) -> Result<Vec<u32>, RefusalKind>
        ensures reads { HasCleanDisk (state S.Store self.new.conn) → self.old.is_lost ≡ false
            → Reads (λ _ c found. AreAll (IsBetween c.records first last) found.items) (state S.Store self.old.conn)
            result (state S.Store self.new.conn) }
        ensures lost { self.old.is_lost ≡ false → self.new.is_lost ≡ has_broken result }
        ensures reopen { IsTrue self.old.is_lost → (result ≡ Err refusal.Reopen) × (self.new ≡ self.old) }
        ensures open { self.new.import ≡ self.old.import }
        ensures called { (r : Request) → IsCall S.Store self.old.conn
            (standing r self.old.is_lost self.old.import) [] self.new.conn
            (standing r self.new.is_lost self.new.import) }
    {
        if self.is_lost {
            return Err(RefusalKind::Reopen);
        }
        an_import_that_is_begun_is_in_no_view();
        let read = between_on(alloc, &mut self.conn, first, last);
        self.is_lost = has_broken(&read);
        read
    }

    /// The values that a number had before, one for each row of them, by the keys of the rows, and how many answers are
    /// kept. Refusals as of `state`, but 40 only where one of these rows cannot be read; it serves while an import is
    /// open.
    pub fn recall(&mut self, alloc: Global, number: u32) -> Result<Recalled, RefusalKind>
        ensures recalls { HasCleanDisk (state S.Store self.new.conn) → self.old.is_lost ≡ false
            → Recalls (λ rows found. IsRecalled number rows found.answers found.values.items)
            (CanBeRecalled number) (state S.Store self.old.conn) result (state S.Store self.new.conn) }
        ensures lost { self.old.is_lost ≡ false → self.new.is_lost ≡ has_broken result }
        ensures reopen { IsTrue self.old.is_lost → (result ≡ Err refusal.Reopen) × (self.new ≡ self.old) }
        ensures open { self.new.import ≡ self.old.import }
        ensures called { (r : Request) → IsCall S.Store self.old.conn
            (standing r self.old.is_lost self.old.import) [] self.new.conn
            (standing r self.new.is_lost self.new.import) }
        ensures uncounted { self.new.failures ≡ self.old.failures }
    {
        if self.is_lost {
            return Err(RefusalKind::Reopen);
        }
        an_import_that_is_begun_is_in_no_view();
        let read = recall_on(alloc, &mut self.conn, number);
        self.is_lost = has_broken(&read);
        read
    }

    /// The society that the archive was made for. Refusals as of `state`.
    pub fn society(&mut self, alloc: Global) -> Result<Text, RefusalKind>
        ensures reads { HasCleanDisk (state S.Store self.new.conn) → self.old.is_lost ≡ false
            → Reads (λ society _ text. text ≡ society) (state S.Store self.old.conn) result
            (state S.Store self.new.conn) }
        ensures unread { HasCleanDisk (state S.Store self.new.conn) → self.old.is_lost ≡ false
            → IfErr result (λ kind. (rows : Rows) → Settled (state S.Store self.old.conn) rows → IsFailure kind) }
        ensures lost { self.old.is_lost ≡ false → self.new.is_lost ≡ has_broken result }
        ensures reopen { IsTrue self.old.is_lost → (result ≡ Err refusal.Reopen) × (self.new ≡ self.old) }
        ensures open { self.new.import ≡ self.old.import }
        ensures called { (r : Request) → IsCall S.Store self.old.conn
            (standing r self.old.is_lost self.old.import) [] self.new.conn
            (standing r self.new.is_lost self.new.import) }
        ensures uncounted { self.new.failures ≡ self.old.failures }
    {
        if self.is_lost {
            return Err(RefusalKind::Reopen);
        }
        an_import_that_is_begun_is_in_no_view();
        let read = society_on(alloc, &mut self.conn);
        self.is_lost = has_broken(&read);
        read
    }

    /// Whether a call or a look answered 80, so that the archive has to be opened again.
    pub fn is_lost(&self) -> bool
        ensures { result ≡ self.now.is_lost }
    {
        self.is_lost
    }

    /// Gives the connection back, also after an 80.
    pub fn into_connection(self) -> Connection<S>
        ensures { result ≡ self.conn }
    {
        let Archive {
            conn,
            is_lost: _,
            failures: _,
            import: _,
        } = self;
        conn
    }

    /// How many records the archive has, where its tables are good. Nothing is changed.
    ///
    /// 40: the tables are not good: they cannot be read, as where somebody else wrote them, or what they mean is not
    /// sound. 80: the database failed. 81: it failed before. 1: memory was refused.
    pub fn audit(&mut self, alloc: Global) -> Result<u32, RefusalKind>
        ensures judged { HasCleanDisk (state S.Store self.new.conn) → self.old.is_lost ≡ false
            → Judges (state S.Store self.old.conn) result }
        ensures reads { HasCleanDisk (state S.Store self.new.conn) → self.old.is_lost ≡ false
            → Reads (λ _ c n. n ≡ length (keys c.records)) (state S.Store self.old.conn) result
            (state S.Store self.new.conn) }
        ensures lost { self.old.is_lost ≡ false → self.new.is_lost ≡ has_broken result }
        ensures reopen { IsTrue self.old.is_lost → (result ≡ Err refusal.Reopen) × (self.new ≡ self.old) }
        ensures open { self.new.import ≡ self.old.import }
        ensures called { (r : Request) → IsCall S.Store self.old.conn
            (standing r self.old.is_lost self.old.import) [] self.new.conn
            (standing r self.new.is_lost self.new.import) }
        ensures uncounted { self.new.failures ≡ self.old.failures }
    {
        match self.audit_with_fault(alloc) {
            Ok(records) => Ok(records),
            Err((kind, _)) => Err(kind),
        }
    }

    /// The same, and what is wrong, where a 40 says that what the tables mean is not sound, or that a record does not
    /// have the span of its date, a link for each number that it names, or the row of what it is looked for by.
    pub fn audit_with_fault(&mut self, alloc: Global) -> Result<u32, (RefusalKind, Option<Flaw>)>
        ensures judged { HasCleanDisk (state S.Store self.new.conn) → self.old.is_lost ≡ false
            → Judges (state S.Store self.old.conn) (without_fault result) }
        ensures told { HasCleanDisk (state S.Store self.new.conn) → self.old.is_lost ≡ false
            → Tells (state S.Store self.old.conn) result }
        ensures reads { HasCleanDisk (state S.Store self.new.conn) → self.old.is_lost ≡ false
            → Reads (λ _ c n. n ≡ length (keys c.records)) (state S.Store self.old.conn) (without_fault result)
            (state S.Store self.new.conn) }
        ensures lost { self.old.is_lost ≡ false → self.new.is_lost ≡ has_broken (without_fault result) }
        ensures reopen { IsTrue self.old.is_lost → (result ≡ Err (refusal.Reopen, None)) × (self.new ≡ self.old) }
        ensures open { self.new.import ≡ self.old.import }
        ensures called { (r : Request) → IsCall S.Store self.old.conn
            (standing r self.old.is_lost self.old.import) [] self.new.conn
            (standing r self.new.is_lost self.new.import) }
        ensures uncounted { self.new.failures ≡ self.old.failures }
    {
        if self.is_lost {
            return Err((RefusalKind::Reopen, None));
        }
        an_import_that_is_begun_is_in_no_view();
        let audit = audit_on(alloc, &mut self.conn);
        self.is_lost = auditing::has_failed(&audit);
        audit
    }
}

/// The string as the name of a society. `None`: it is empty or no text.
pub fn society_named(society: String) -> Option<Text>
    ensures { MatchOption result (¬ (IsSociety (string_bytes society)))
        (λ text. (text ≡ string_bytes society) × IsSociety text) }
{
    let text = Text::try_new(society)?;
    if text.as_str().is_empty() {
        return None;
    }
    Some(text)
}

/// A new archive of a society with this name.
fn create_named<S: Alter>(
    mut conn: Connection<S>,
    society: &Text,
) -> Result<Archive<S>, (RefusalKind, Connection<S>)>
    requires autocommit { conn.in_transaction ≡ false }
    ensures created { IfOk result (λ made. HasCleanDisk (state S.Store made.conn) → SettledBlank (state S.Store conn)
        → HasArchive society.now nothing (state S.Store made.conn) × LeavesArchive (state S.Store made.conn) society.now
        (λ found. found ≡ nothing)) }
    ensures closed { IfOk result (λ made. HasCleanDisk (state S.Store made.conn) → SettledBlank (state S.Store conn)
        → HasNoImport (state S.Store made.conn)) }
    ensures blank { IfOk result (λ made. (made.is_lost ≡ false) × ((state S.Store conn).now.schema ≡ no_schema)) }
    ensures refused { IfErr result (λ e. RefusesToMake society.now (state S.Store conn) (state S.Store e.1) e.0) }
    ensures back { IfErr result (λ e. is_storage e.0 ≡ false → e.1 ≡ conn) }
    ensures quiet { IfOk result (λ made. made.failures ≡ 0) }
    ensures idle { IfOk result (λ made. (made.import ≡ None) × (shuts made.is_lost made.import ≡ false)) }
    ensures clean { IfOk result (λ made. HasCleanDisk (state S.Store made.conn) → HasCleanDisk (state S.Store conn)) }
    ensures honest { IfErr result (λ e. HasCleanDisk (state S.Store e.1) → HasCleanDisk (state S.Store conn)) }
    ensures ended { IfErr result (λ e. e.1.in_transaction ≡ false) }
{
    if !is_blank(&conn) {
        return Err((RefusalKind::NotAnArchive, conn));
    }
    match store_tables::create(&mut conn, society) {
        Ok(()) => Ok(Archive {
            conn,
            is_lost: false,
            failures: 0,
            import: None,
        }),
        Err(_) => Err((RefusalKind::Storage, conn)),
    }
}
