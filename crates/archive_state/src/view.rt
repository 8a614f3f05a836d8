//! What the layers above look at records through, wherever they are.

ghost use Rattle.std.specs.Prelude.{◌≡◌, ℕ, ⊤};
ghost use Rattle.std.specs.FinMap as map;
ghost use Rattle.archive_state.specs.Content.{Content};
ghost use Rattle.archive_state.specs.Entries.{IsEntryAt};
ghost use Rattle.archive_state.specs.Referrers.{referrers};
ghost use Rattle.archive_state.specs.Looks.{CountsOne, Looked, OnView};
ghost use Rattle.archive_state.specs.Paths.{HasPath, IsLowest};

use crate::slip::Slip;
use crate::state::State;
use receipts::{Receipt, Token};
use record_fields::{EntryKind, Item};
use record_kinds::Record;
use record_text::{RefusalKind, Text};
use records::copy_record;
use std::alloc::Global;

/// How many calls of a view of memory failed.
const NO_FAILURES: u64 = 0;

/// What an archive holds, to be looked at. A call answers what is there, or it is refused: with 1, or, where a
/// read of the view's own failed, with 40 or 80. Each such failure is counted.
pub trait View {
    /// What an archive is kept as.
    ghost Held: { Type 0 };

    /// What is in an archive that is kept so.
    ghost content: { Held → Content };

    /// What it shows. An archive in tables shows its rows, which nobody need have read.
    ghost shows: { Self → Held → Type 0 };

    /// Whether it shows that.
    ghost is_honest: { Self → Type 0 };

    /// How many of its calls failed.
    ghost failed: { Self → ℕ };

    /// How many of its calls failed. At its last value it counts as risen. Takes no memory.
    fn failures(&self) -> u64
        ensures { result ≡ failed self.now };

    /// The record of a number.
    fn record_at(&mut self, alloc: Global, number: u32) -> Result<Option<Record>, RefusalKind>
        ensures shows { OnView is_honest shows content self.old self.new
            (λ c. Looked result (λ found. found ≡ map.get c.records number)) }
        ensures counts { CountsOne (failed self.old) (failed self.new) result };

    /// The numbers of all records, ascending.
    fn record_numbers(&mut self, alloc: Global) -> Result<Vec<u32>, RefusalKind>
        ensures shows { OnView is_honest shows content self.old self.new
            (λ c. Looked result (λ found. found.items ≡ map.keys c.records)) }
        ensures counts { CountsOne (failed self.old) (failed self.new) result };

    /// The numbers of the records that name a number, ascending.
    fn referrers(&mut self, alloc: Global, number: u32) -> Result<Vec<u32>, RefusalKind>
        ensures shows { OnView is_honest shows content self.old self.new
            (λ c. Looked result (λ found. found.items ≡ referrers c number)) }
        ensures counts { CountsOne (failed self.old) (failed self.new) result };

    /// What is kept under a token.
    fn receipt(&mut self, alloc: Global, token: &Token) -> Result<Option<Receipt>, RefusalKind>
        ensures shows { OnView is_honest shows content self.old self.new
            (λ c. Looked result (λ found. found ≡ map.get c.receipts token.now)) }
        ensures counts { CountsOne (failed self.old) (failed self.new) result };

    /// The slip of a number.
    fn slip(&mut self, alloc: Global, number: u32) -> Result<Option<Slip>, RefusalKind>
        ensures shows { OnView is_honest shows content self.old self.new
            (λ c. Looked result (λ found. found ≡ map.get c.slips number)) }
        ensures counts { CountsOne (failed self.old) (failed self.new) result };

    /// The number that the next record or slip gets.
    fn next(&mut self, alloc: Global) -> Result<u64, RefusalKind>
        ensures shows { OnView is_honest shows content self.old self.new
            (λ c. Looked result (λ next. next ≡ c.next)) }
        ensures counts { CountsOne (failed self.old) (failed self.new) result };

    /// The lowest number of a place that has this path.
    fn place_at(&mut self, alloc: Global, path: &Text) -> Result<Option<u32>, RefusalKind>
        ensures shows { OnView is_honest shows content self.old self.new
            (λ c. Looked result (IsLowest (λ n. HasPath c.records n path.now))) }
        ensures counts { CountsOne (failed self.old) (failed self.new) result };

    /// The lowest number of an entry of this source, kind, page and item.
    fn entry_at(
        &mut self,
        alloc: Global,
        source: u32,
        kind: EntryKind,
        page: &Text,
        item: Item,
    ) -> Result<Option<u32>, RefusalKind>
        ensures shows { OnView is_honest shows content self.old self.new
            (λ c. Looked result (IsLowest (λ n. IsEntryAt c.records source kind page.now item n))) }
        ensures counts { CountsOne (failed self.old) (failed self.new) result };
}

impl View for &State {
    ghost Held = { Content };

    ghost content = { λ c. c };

    ghost shows = { λ s held. held ≡ s.now };

    ghost is_honest = { λ s. ⊤ };

    ghost failed = { λ s. 0 };

    fn failures(&self) -> u64 {
        NO_FAILURES
    }

    fn record_at(&mut self, alloc: Global, number: u32) -> Result<Option<Record>, RefusalKind> {
        let state: &State = *self;
        match state.record(number) {
            None => Ok(None),
            Some(record) => Ok(Some(copy_record(alloc, record)?)),
        }
    }

    fn record_numbers(&mut self, alloc: Global) -> Result<Vec<u32>, RefusalKind> {
        let state: &State = *self;
        Ok(state.record_numbers(alloc)?)
    }

    fn referrers(&mut self, alloc: Global, number: u32) -> Result<Vec<u32>, RefusalKind> {
        let state: &State = *self;
        Ok(state.referrers(alloc, number)?)
    }

    fn receipt(&mut self, _alloc: Global, token: &Token) -> Result<Option<Receipt>, RefusalKind> {
        let state: &State = *self;
        Ok(state.receipt(token).copied())
    }

    fn slip(&mut self, alloc: Global, number: u32) -> Result<Option<Slip>, RefusalKind> {
        let state: &State = *self;
        match state.slip(number) {
            None => Ok(None),
            Some(slip) => Ok(Some(slip.copy(alloc)?)),
        }
    }

    fn next(&mut self, _alloc: Global) -> Result<u64, RefusalKind> {
        let state: &State = *self;
        Ok(state.next())
    }

    fn place_at(&mut self, _alloc: Global, path: &Text) -> Result<Option<u32>, RefusalKind> {
        let state: &State = *self;
        Ok(state.place_at(path))
    }

    fn entry_at(
        &mut self,
        _alloc: Global,
        source: u32,
        kind: EntryKind,
        page: &Text,
        item: Item,
    ) -> Result<Option<u32>, RefusalKind> {
        let state: &State = *self;
        Ok(state.entry_at(source, kind, page, item))
    }
}
