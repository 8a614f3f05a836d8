//! The keys of register entries: source, kind, page and item.

ghost use Rattle.std.specs.Prelude.{◌≡◌, ◌↔◌, IsTrue};
ghost use Rattle.record_kinds.specs.Model as model;
ghost use Rattle.record_kinds.specs.declared.record.Record.TheVariants as variant;
ghost use Rattle.archive_state.specs.Entries.{HasKey};

use record_fields::{EntryKind, Item};
use record_kinds::{Entry, Record};
use record_text::Text;

/// Whether the record is an entry of that source, kind, page and item.
pub fn is_entry_of(found: &Record, source: u32, kind: EntryKind, page: &Text, item: Item) -> bool
    ensures { IsTrue result ↔ ((e : model.Entry) × (found.now ≡ variant.Entry e) × HasKey source kind page.now item e) }
{
    match found {
        Record::Entry(entry) => has_key(entry, source, kind, page, item),
        _ => false,
    }
}

/// Whether the entry has that source, kind, page and item.
fn has_key(entry: &Entry, source: u32, kind: EntryKind, page: &Text, item: Item) -> bool
    ensures { IsTrue result ↔ HasKey source kind page.now item entry.now }
{
    is_of(entry, source, kind) && is_on(entry, page, item)
}

/// Whether the entry is one of that source and kind.
fn is_of(entry: &Entry, source: u32, kind: EntryKind) -> bool
    ensures { IsTrue result ↔ ((entry.now.source ≡ source) × (entry.now.kind ≡ kind)) }
{
    entry.source == source && entry.kind == kind
}

/// Whether the entry is that item of that page.
fn is_on(entry: &Entry, page: &Text, item: Item) -> bool
    ensures { IsTrue result ↔ ((entry.now.page ≡ page.now) × (entry.now.item ≡ item)) }
{
    entry.page.as_str() == page.as_str() && entry.item == item
}
