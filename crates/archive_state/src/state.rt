//! All that an archive holds, in memory.

ghost use Rattle.std.specs.Prelude.{◌≡◌, IfOk, OnOk, OnErr, Some, None, MatchOption, option_copied};
ghost use Rattle.std.specs.FinMap as map;
ghost use Rattle.std.specs.Ordering.{nat_cmp};
ghost use Rattle.archive_state.specs.Content.{nothing};
ghost use Rattle.archive_state.specs.Sound.{IsSound};
ghost use Rattle.archive_state.specs.Referrers.{referrers};
ghost use Rattle.archive_state.specs.Entries.{IsEntryAt};
ghost use Rattle.archive_state.specs.Paths.{HasPath, IsLowest};

use crate::keys::is_entry_of;
use crate::naming::is_naming;
use crate::paths::has_path;
use crate::slip::Slip;
use receipts::{Receipt, Token};
use record_fields::{EntryKind, Item};
use record_kinds::Record;
use record_text::Text;
use std::alloc::{AllocError, Global};
use std::collections::BTreeMap;
use std::marker::Model;

/// Records by their numbers, the next number, the answers that are kept under tokens, and the slips of
/// merges by their numbers. Contracts see finite maps and a number.
#[derive(Drop)]
pub struct State {
    records: BTreeMap<u32, Record>,
    next: u64,
    receipts: BTreeMap<String, Receipt>,
    slips: BTreeMap<u32, Slip>,
}

impl Model for State {
    ghost use Rattle.std.specs.Coded.{codes, coded_ℕ, coded_list};
    ghost use Rattle.std.specs.FinMap as map;
    ghost use Rattle.stored_lines.specs.Line.{lines_code, value_code};
    ghost use Rattle.archive_state.specs.Content as content;

    ghost Value = { content.Content };

    ghost coded = { Prim.hlevel (codes, map.code, lines_code, value_code) };

    ghost view = { λ a. record {
      records = map.from_entries a.records.entries;
      next = a.next;
      receipts = content.receipts_of a.receipts.entries;
      slips = map.from_entries a.slips.entries;
    } };
}

impl State {
    /// The state of a new archive: nothing in it, and the next number 1. Takes no memory.
    pub fn new(alloc: Global) -> State
        ensures empty { result ≡ nothing }
        ensures sound { IsSound result }
    {
        State {
            records: BTreeMap::new(alloc),
            next: 1,
            receipts: BTreeMap::new(alloc),
            slips: BTreeMap::new(alloc),
        }
    }

    /// The same records and the same next number, without receipts and slips. Takes no memory.
    pub fn records_alone(self, alloc: Global) -> State
        ensures { result ≡ record self { receipts = map.empty; slips = map.empty } }
    {
        let State {
            records,
            next,
            receipts,
            slips,
        } = self;
        drop(receipts);
        drop(slips);
        State {
            records,
            next,
            receipts: BTreeMap::new(alloc),
            slips: BTreeMap::new(alloc),
        }
    }

    /// The number that the next record or slip gets.
    pub fn next(&self) -> u64
        ensures { result ≡ self.now.next }
    {
        self.next
    }

    /// The record of a number.
    pub fn record(&self, number: u32) -> Option<&Record>
        ensures { option_copied result ≡ map.get self.now.records number }
    {
        self.records.get(&number)
    }

    /// What is kept under a token.
    pub fn receipt(&self, token: &Token) -> Option<&Receipt>
        ensures { option_copied result ≡ map.get self.now.receipts token.now }
    {
        self.receipts.get(token.as_str())
    }

    /// The slip of a number.
    pub fn slip(&self, number: u32) -> Option<&Slip>
        ensures { option_copied result ≡ map.get self.now.slips number }
    {
        self.slips.get(&number)
    }

    /// The numbers of the records, ascending.
    pub fn record_numbers(&self, alloc: Global) -> Result<Vec<u32>, AllocError>
        ensures { IfOk result (λ found. found.items ≡ map.keys self.now.records) }
    {
        keys_of(alloc, &self.records)
    }

    /// The numbers of the slips, ascending.
    pub fn slip_numbers(&self, alloc: Global) -> Result<Vec<u32>, AllocError>
        ensures { IfOk result (λ found. found.items ≡ map.keys self.now.slips) }
    {
        keys_of(alloc, &self.slips)
    }

    /// The numbers of the records that name a number, ascending.
    pub fn referrers(&self, alloc: Global, number: u32) -> Result<Vec<u32>, AllocError>
        ensures { IfOk result (λ found. found.items ≡ referrers self.now number) }
    {
        let mut found = Vec::new(alloc);
        'records: for (at, record) in &self.records {
            if is_naming(record, number) {
                found.push(*at)?;
            }
        }
        Ok(found)
    }

    /// The lowest number of a place that has this path. Takes no memory.
    pub fn place_at(&self, path: &Text) -> Option<u32>
        ensures { IsLowest (λ n. HasPath self.now.records n path.now) result }
    {
        'records: for (at, _record) in &self.records {
            if has_path(self, *at, path.as_str().as_bytes()) {
                return Some(*at);
            }
        }
        None
    }

    /// The lowest number of an entry of this source, kind, page and item. Takes no memory.
    pub fn entry_at(&self, source: u32, kind: EntryKind, page: &Text, item: Item) -> Option<u32>
        ensures { IsLowest (λ n. IsEntryAt self.now.records source kind page.now item n) result }
    {
        'records: for (number, record) in &self.records {
            if is_entry_of(record, source, kind, page, item) {
                return Some(*number);
            }
        }
        None
    }

    /// Sets the number that the next record or slip gets.
    pub fn set_next(&mut self, next: u64)
        ensures { self.new ≡ record self.old { next = next } }
    {
        self.next = next;
    }

    /// Puts a record at a number, and answers the one that stood there. Where memory is refused nothing is
    /// changed; it is refused only where none stood there.
    pub fn put_record(&mut self, number: u32, value: Record) -> Result<Option<Record>, AllocError>
        ensures ok { OnOk result (self.new ≡ record self.old { records = map.insert self.old.records number value }) }
        ensures before { IfOk result (λ found. found ≡ map.get self.old.records number) }
        ensures err { OnErr result (self.new ≡ self.old) }
        ensures absent { OnErr result (map.get self.old.records number ≡ None) }
    {
        Ok(self.records.insert(number, value)?)
    }

    /// Takes the record of a number out, and answers it.
    pub fn remove_record(&mut self, number: u32) -> Option<Record>
        ensures removed { self.new ≡ record self.old { records = map.remove self.old.records number } }
        ensures before { result ≡ map.get self.old.records number }
    {
        self.records.remove(&number)
    }

    /// Puts a slip at a number, and answers the one that stood there. Where memory is refused nothing is
    /// changed; it is refused only where none stood there.
    pub fn put_slip(&mut self, number: u32, slip: Slip) -> Result<Option<Slip>, AllocError>
        ensures ok { OnOk result (self.new ≡ record self.old { slips = map.insert self.old.slips number slip }) }
        ensures before { IfOk result (λ found. found ≡ map.get self.old.slips number) }
        ensures err { OnErr result (self.new ≡ self.old) }
        ensures absent { OnErr result (map.get self.old.slips number ≡ None) }
    {
        Ok(self.slips.insert(number, slip)?)
    }

    /// Takes the slip of a number out, and answers it.
    pub fn remove_slip(&mut self, number: u32) -> Option<Slip>
        ensures removed { self.new ≡ record self.old { slips = map.remove self.old.slips number } }
        ensures before { result ≡ map.get self.old.slips number }
    {
        self.slips.remove(&number)
    }

    /// Keeps a receipt under a token, and answers the one that was kept there. Where memory is refused nothing
    /// is changed.
    pub fn put_receipt(
        &mut self,
        token: Token,
        receipt: Receipt,
    ) -> Result<Option<Receipt>, AllocError>
        ensures ok { OnOk result
            (self.new ≡ record self.old { receipts = map.insert self.old.receipts token receipt }) }
        ensures before { IfOk result (λ found. found ≡ map.get self.old.receipts token) }
        ensures err { OnErr result (self.new ≡ self.old) }
    {
        let key = token.into_string();
        Ok(self.receipts.insert(key, receipt)?)
    }
}

/// The keys of a map, ascending.
fn keys_of<V>(alloc: Global, entries: &BTreeMap<u32, V>) -> Result<Vec<u32>, AllocError>
    ensures { IfOk result (λ found. found.items ≡ map.keys (map.from_entries {R = nat_cmp} entries.now.entries)) }
{
    let mut found = Vec::new(alloc);
    'entries: for (at, _value) in entries {
        found.push(*at)?;
    }
    Ok(found)
}
