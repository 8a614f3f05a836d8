//! The entries that the rows of a batch have made so far.

ghost use Rattle.std.specs.Prelude.{◌≡◌, ◌+◌, ◌++◌, ◌∷◌, ◌≤◌, [], IfErr, IfOk, None, Ok, false, length};
ghost use Rattle.archive_state.specs.Looks.{Agrees, is_failure, is_stop};
ghost use Rattle.record_kinds.specs.declared.record.Record.TheVariants as kind;
ghost use Rattle.commands.specs.Rows.{and_then};
ghost use Rattle.entry_batches.specs.Batches as batches;

use crate::keys::{add_key, key_words};
use archive_state::{Changes, Numbered};
use receipts::Answer;
use record_kinds::{Entry, Record};
use record_text::RefusalKind;
use std::alloc::{AllocError, Global};
use std::collections::BTreeSet;
use std::marker::Model;

/// The last number that there is.
const LAST: u64 = 4_294_967_295;

/// How many entries there may be before another one, so that the place of each row has 32 bits.
const MOST: u32 = 4_294_967_293;

/// What the rows so far have made, in their order. Contracts see it as the list of that.
#[derive(Drop)]
pub(crate) struct Made {
    puts: Vec<Numbered>,
    /// The keys of these entries.
    keys: BTreeSet<String>,
}

impl Model for Made {
    ghost use Rattle.std.specs.Prelude.{List};
    ghost use Rattle.std.specs.Coded.{codes};
    ghost use Rattle.stored_lines.specs.Line.{lines_code, value_code};
    ghost use Rattle.archive_state.specs.declared.changes.Numbered as numbered;
    ghost use Rattle.entry_batches.specs.Keys.{IsCounted, IsKeyed};

    ghost Value = { List numbered.Numbered };

    ghost coded = { Prim.hlevel (codes, lines_code, value_code) };

    ghost view = { λ a. a.puts.items };

    ghost invariant = { λ a. IsKeyed a.keys a.puts.items × IsCounted a.puts.items };
}

impl Made {
    /// Nothing yet. Takes no memory.
    pub(crate) fn new(alloc: Global) -> Made
        ensures { result ≡ [] }
    {
        Made {
            puts: Vec::new(alloc),
            keys: BTreeSet::new(alloc),
        }
    }

    /// How many there are.
    pub(crate) fn count(&self) -> u32
        ensures length { result ≡ length self.now }
        ensures few { result ≤ 4_294_967_294 }
    {
        self.puts.len() as u32
    }

    /// That none of them has the key of an entry (else `DuplicateEntry`).
    #[tactic(auto, using(crate::proofs::Keyed::is_taken, crate::proofs::Keyed::is_free))]
    pub(crate) fn check_new(&self, alloc: Global, entry: &Entry) -> Result<(), RefusalKind>
        ensures decides { Agrees is_stop result (batches.key_is_new self.now entry.now) }
        ensures memory { IfErr result (λ e. is_failure e ≡ false) }
    {
        let words = key_words(alloc, entry)?;
        if self.keys.contains(words.as_str()) {
            Err(RefusalKind::DuplicateEntry)
        } else {
            Ok(())
        }
    }

    /// With an entry more, at the number after these where one is left (else `Full`).
    #[tactic(auto, using(crate::proofs::Looked::left_behind_few))]
    pub(crate) fn with_entry(
        self,
        alloc: Global,
        next: u64,
        entry: Entry,
    ) -> Result<Made, RefusalKind>
        ensures decides { Agrees is_stop result (batches.with_entry next self entry) }
        ensures memory { IfErr result (λ e. is_failure e ≡ false) }
    {
        match number_behind(next, self.count()) {
            Ok(number) => Ok(self.with_put(alloc, number, entry)?),
            Err(e) => {
                drop(self);
                drop(entry);
                Err(e)
            }
        }
    }

    /// With an entry more, at that number.
    #[tactic(auto, using(crate::proofs::Keyed::keyed_more))]
    fn with_put(self, alloc: Global, number: u32, entry: Entry) -> Result<Made, AllocError>
        requires { length self ≤ 4_294_967_293 }
        ensures { IfOk result (λ made. made ≡ self ++ (record { number = number; «record» = kind.Entry entry } ∷ [])) }
    {
        let Made { mut puts, mut keys } = self;
        add_key(alloc, &mut keys, &entry)?;
        puts.push(Numbered {
            number,
            record: Record::Entry(entry),
        })?;
        Ok(Made { puts, keys })
    }

    /// What a batch changes that has made these, where there was a next number for its answer (else `Full`).
    pub(crate) fn changes(self, alloc: Global, next: u64) -> Result<Changes, RefusalKind>
        ensures { result ≡ and_then (batches.first_number next) (λ n. Ok (record {
          puts = self;
          removals = [];
          next = next + length self;
          answer = record { first = n; count = length self };
          kept = None;
          slip = None;
        })) }
    {
        if next > LAST {
            drop(self);
            return Err(RefusalKind::Full);
        }
        let answer = Answer {
            first: next as u32,
            count: self.count(),
        };
        Ok(Changes {
            next: next + u64::from(answer.count),
            puts: self.puts,
            removals: Vec::new(alloc),
            answer,
            kept: None,
            slip: None,
        })
    }
}

/// The number after so many entries, where one is left (else `Full`).
#[tactic(auto, using(crate::proofs::Looked::left_is))]
fn number_behind(next: u64, count: u32) -> Result<u32, RefusalKind>
    ensures { result ≡ batches.number_behind next count }
{
    if next <= LAST && u64::from(count) <= LAST - next && count <= MOST {
        Ok(next as u32 + count)
    } else {
        Err(RefusalKind::Full)
    }
}
