//! A view whose looks fail from some look on.

ghost use Rattle.std.specs.Prelude.{◌≡◌, ⊤, true};
ghost use Rattle.std.specs.Result.{IfErr};
ghost use Rattle.archive_state.specs.Content.{Content};
ghost use Rattle.archive_state.specs.Looks.{CountsOne, is_failure, is_stop};

use archive_state::{Slip, State, View};
use receipts::{Receipt, Token};
use record_fields::{EntryKind, Item};
use record_kinds::Record;
use record_text::{RefusalKind, Text};
use std::alloc::Global;

/// Why a look fails.
#[derive(Clone, Copy)]
pub(crate) enum Failure {
    Storage,
    BadStored,
}

impl Failure {
    pub(crate) fn kind(self) -> RefusalKind
        ensures fails { is_failure result ≡ true }
        ensures stops { is_stop result ≡ true }
    {
        match self {
            Failure::Storage => RefusalKind::Storage,
            Failure::BadStored => RefusalKind::BadStored,
        }
    }
}

/// So many looks that succeed, and then all fail.
#[derive(Drop)]
struct Looks {
    good: u32,
    failure: Failure,
    failures: u64,
}

impl Looks {
    /// Counts one look down, or counts a failure.
    fn look(&mut self) -> Result<(), RefusalKind>
        ensures stops { IfErr result (λ e. is_stop e ≡ true) }
        ensures counts { CountsOne self.old.failures self.new.failures result }
    {
        match self.good.checked_sub(1) {
            Some(good) => {
                self.good = good;
                Ok(())
            }
            None => {
                self.failures = self.failures.saturating_add(1);
                Err(self.failure.kind())
            }
        }
    }
}

/// A state that is looked at so often.
#[derive(Drop)]
pub(crate) struct Failing<'a> {
    state: &'a State,
    looks: Looks,
}

impl<'a> Failing<'a> {
    pub(crate) fn new(state: &'a State, good: u32, failure: Failure) -> Failing<'a> {
        Failing {
            state,
            looks: Looks {
                good,
                failure,
                failures: 0,
            },
        }
    }
}

impl View for Failing<'_> {
    ghost Held = { Content };

    ghost content = { λ c. c };

    ghost shows = { λ s held. held ≡ s.state.now };

    ghost is_honest = { λ s. ⊤ };

    ghost failed = { λ s. s.looks.failures };

    fn failures(&self) -> u64 {
        self.looks.failures
    }

    fn record_at(&mut self, alloc: Global, number: u32) -> Result<Option<Record>, RefusalKind> {
        self.looks.look()?;
        let mut state: &State = self.state;
        state.record_at(alloc, number)
    }

    fn record_numbers(&mut self, alloc: Global) -> Result<Vec<u32>, RefusalKind> {
        self.looks.look()?;
        let mut state: &State = self.state;
        View::record_numbers(&mut state, alloc)
    }

    fn referrers(&mut self, alloc: Global, number: u32) -> Result<Vec<u32>, RefusalKind> {
        self.looks.look()?;
        let mut state: &State = self.state;
        View::referrers(&mut state, alloc, number)
    }

    fn receipt(&mut self, alloc: Global, token: &Token) -> Result<Option<Receipt>, RefusalKind> {
        self.looks.look()?;
        let mut state: &State = self.state;
        View::receipt(&mut state, alloc, token)
    }

    fn slip(&mut self, alloc: Global, number: u32) -> Result<Option<Slip>, RefusalKind> {
        self.looks.look()?;
        let mut state: &State = self.state;
        View::slip(&mut state, alloc, number)
    }

    fn next(&mut self, alloc: Global) -> Result<u64, RefusalKind> {
        self.looks.look()?;
        let mut state: &State = self.state;
        View::next(&mut state, alloc)
    }

    fn place_at(&mut self, _alloc: Global, path: &Text) -> Result<Option<u32>, RefusalKind> {
        self.looks.look()?;
        Ok(self.state.place_at(path))
    }

    fn entry_at(
        &mut self,
        _alloc: Global,
        source: u32,
        kind: EntryKind,
        page: &Text,
        item: Item,
    ) -> Result<Option<u32>, RefusalKind> {
        self.looks.look()?;
        Ok(self.state.entry_at(source, kind, page, item))
    }
}
