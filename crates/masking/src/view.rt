//! What a visitor may see, looked at as an archive is.

ghost use Rattle.std.specs.Prelude.{◌≡◌, ⊤};
ghost use Rattle.archive_state.specs.Content.{Content};

use crate::state::Shown;
use archive_state::{Slip, View};
use receipts::{Receipt, Token};
use record_fields::{EntryKind, Item};
use record_kinds::Record;
use record_text::{RefusalKind, Text};
use std::alloc::Global;

impl View for &Shown {
    ghost Held = { Content };

    ghost content = { λ c. c };

    ghost shows = { λ s held. held ≡ s.now };

    ghost is_honest = { λ s. ⊤ };

    ghost failed = { λ s. 0 };

    fn failures(&self) -> u64 {
        0
    }

    fn record_at(&mut self, alloc: Global, number: u32) -> Result<Option<Record>, RefusalKind> {
        let mut state = self.as_state();
        state.record_at(alloc, number)
    }

    fn record_numbers(&mut self, alloc: Global) -> Result<Vec<u32>, RefusalKind> {
        Ok(self.as_state().record_numbers(alloc)?)
    }

    fn referrers(&mut self, alloc: Global, number: u32) -> Result<Vec<u32>, RefusalKind> {
        Ok(self.as_state().referrers(alloc, number)?)
    }

    fn receipt(&mut self, _alloc: Global, token: &Token) -> Result<Option<Receipt>, RefusalKind> {
        Ok(self.as_state().receipt(token).copied())
    }

    fn slip(&mut self, alloc: Global, number: u32) -> Result<Option<Slip>, RefusalKind> {
        match self.as_state().slip(number) {
            None => Ok(None),
            Some(slip) => Ok(Some(slip.copy(alloc)?)),
        }
    }

    fn next(&mut self, _alloc: Global) -> Result<u64, RefusalKind> {
        Ok(self.as_state().next())
    }

    fn place_at(&mut self, _alloc: Global, path: &Text) -> Result<Option<u32>, RefusalKind> {
        Ok(self.as_state().place_at(path))
    }

    fn entry_at(
        &mut self,
        _alloc: Global,
        source: u32,
        kind: EntryKind,
        page: &Text,
        item: Item,
    ) -> Result<Option<u32>, RefusalKind> {
        Ok(self.as_state().entry_at(source, kind, page, item))
    }
}
