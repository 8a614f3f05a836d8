//! An archive as a view: each look reads the rows that it needs, and no others.

ghost use Rattle.std.specs.Prelude.{◌≡◌, ◌||◌, Err, false};
ghost use Rattle.sqlite.specs.State.{HasCleanDisk};
ghost use Rattle.sqlite.specs.Held.{state};
ghost use Rattle.archive_state.specs.Looks.{CountsOne, is_failure};
ghost use Rattle.store_tables.specs.Calls.{LeavesAsBefore, LeavesOnly, Settled};
ghost use Rattle.store_tables.specs.Rows.{Rows};
ghost use Rattle.store.specs.Histories.{is_storage};
ghost use Rattle.store.specs.Viewing as viewing;

use crate::archive::Archive;
use crate::failing::{is_failure, is_storage};
use crate::reading::refusal_after;
use archive_state::{Slip, View};
use kind_views::{KindView, Kinds};
use receipts::{Receipt, Token};
use record_fields::{EntryKind, Item};
use record_kinds::Record;
use record_text::{RefusalKind, Text};
use sqlite::Alter;
use std::alloc::Global;
use store_rows::{looking, numbers_of};

/// After a look that failed with 80 each is refused with 80. Any other refusal leaves the archive as it was.
impl<S: Alter> View for Archive<S> {
    ghost Held = { viewing.Kept };

    ghost content = { λ kept. kept.content };

    ghost shows = { λ a kept. viewing.Shows (state S.Store a.conn) a.is_lost a.failures kept };

    ghost is_honest = { λ a. HasCleanDisk (state S.Store a.conn) };

    ghost failed = { λ a. a.failures };

    fn failures(&self) -> u64 {
        self.failures
    }

    fn record_at(&mut self, alloc: Global, number: u32) -> Result<Option<Record>, RefusalKind> {
        if self.is_lost {
            return Err(fail(self, RefusalKind::Storage));
        }
        match looking::record_at(alloc, &mut self.conn, number) {
            Ok(found) => Ok(found),
            Err(kind) => Err(fail(self, kind)),
        }
    }

    fn record_numbers(&mut self, alloc: Global) -> Result<Vec<u32>, RefusalKind> {
        if self.is_lost {
            return Err(fail(self, RefusalKind::Storage));
        }
        match looking::record_numbers(alloc, &mut self.conn) {
            Ok(found) => Ok(found),
            Err(kind) => Err(fail(self, kind)),
        }
    }

    fn referrers(&mut self, alloc: Global, number: u32) -> Result<Vec<u32>, RefusalKind> {
        if self.is_lost {
            return Err(fail(self, RefusalKind::Storage));
        }
        match looking::referrers_of(alloc, &mut self.conn, number) {
            Ok(found) => Ok(found),
            Err(kind) => Err(fail(self, kind)),
        }
    }

    fn receipt(&mut self, alloc: Global, token: &Token) -> Result<Option<Receipt>, RefusalKind> {
        if self.is_lost {
            return Err(fail(self, RefusalKind::Storage));
        }
        match looking::receipt_at(alloc, &mut self.conn, token) {
            Ok(found) => Ok(found),
            Err(kind) => Err(fail(self, kind)),
        }
    }

    fn slip(&mut self, alloc: Global, number: u32) -> Result<Option<Slip>, RefusalKind> {
        if self.is_lost {
            return Err(fail(self, RefusalKind::Storage));
        }
        match looking::slip_at(alloc, &mut self.conn, number) {
            Ok(found) => Ok(found),
            Err(kind) => Err(fail(self, kind)),
        }
    }

    fn next(&mut self, alloc: Global) -> Result<u64, RefusalKind> {
        if self.is_lost {
            return Err(fail(self, RefusalKind::Storage));
        }
        match looking::next(alloc, &mut self.conn) {
            Ok(next) => Ok(next),
            Err(kind) => Err(fail(self, kind)),
        }
    }

    fn place_at(&mut self, alloc: Global, path: &Text) -> Result<Option<u32>, RefusalKind> {
        if self.is_lost {
            return Err(fail(self, RefusalKind::Storage));
        }
        match looking::place_at(alloc, &mut self.conn, path) {
            Ok(found) => Ok(found),
            Err(kind) => Err(fail(self, kind)),
        }
    }

    fn entry_at(
        &mut self,
        alloc: Global,
        source: u32,
        kind: EntryKind,
        page: &Text,
        item: Item,
    ) -> Result<Option<u32>, RefusalKind> {
        if self.is_lost {
            return Err(fail(self, RefusalKind::Storage));
        }
        match looking::entry_at(alloc, &mut self.conn, source, kind, page, item) {
            Ok(found) => Ok(found),
            Err(refusal) => Err(fail(self, refusal)),
        }
    }
}

impl<S: Alter> KindView for Archive<S> {
    fn numbers_of(&mut self, alloc: Global, kinds: Kinds) -> Result<Vec<u32>, RefusalKind> {
        if self.is_lost {
            return Err(fail(self, RefusalKind::Storage));
        }
        match numbers_of(alloc, &mut self.conn, kinds) {
            Ok(found) => Ok(found),
            Err(kind) => Err(fail(self, kind)),
        }
    }
}

/// The refusal of a look, which is noted: 80 where the connection answers no more.
fn fail<S: Alter>(archive: &mut Archive<S>, kind: RefusalKind) -> RefusalKind
    ensures settled { HasCleanDisk (state S.Store archive.new.conn) → is_storage result ≡ false
        → (rows : Rows) → LeavesOnly (state S.Store archive.old.conn) rows
        → Settled (state S.Store archive.new.conn) rows }
    ensures same { is_storage result ≡ false → result ≡ kind }
    ensures survives { LeavesAsBefore (state S.Store archive.old.conn) (state S.Store archive.new.conn) }
    ensures lost { archive.new.is_lost ≡ archive.old.is_lost || is_storage result }
    ensures counts { CountsOne {A = Unit {0}} archive.old.failures archive.new.failures (Err result) }
    ensures passed { is_failure result ≡ false → archive.new.failures ≡ archive.old.failures }
{
    let kind = refusal_after(&mut archive.conn, kind);
    note(archive, kind);
    kind
}

/// Notes what a look was refused with: a failure is counted, and after an 80 the archive is lost.
fn note<S: Alter>(archive: &mut Archive<S>, kind: RefusalKind)
    ensures conn { archive.new.conn ≡ archive.old.conn }
    ensures lost { archive.new.is_lost ≡ archive.old.is_lost || is_storage kind }
    ensures counts { CountsOne {A = Unit {0}} archive.old.failures archive.new.failures (Err kind) }
    ensures passed { is_failure kind ≡ false → archive.new.failures ≡ archive.old.failures }
{
    archive.is_lost = archive.is_lost || is_storage(kind);
    if is_failure(kind) {
        archive.failures = archive.failures.saturating_add(1);
    }
}
