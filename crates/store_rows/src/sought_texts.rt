//! What a record is looked for by, as a value.

ghost use Rattle.std.specs.Prelude.{◌≡◌, IfOk, Some, None};
ghost use Rattle.record_kinds.specs.declared.record.Record.TheVariants as kind;
ghost use Rattle.store_rows.specs.Sought.{sought_of};

use record_kinds::{Entry, Record};
use record_text::Text;
use records::entry_key;
use std::alloc::{AllocError, Global};
use std::marker::Model;

/// What a record is looked for by: a text, and the number of another record where it goes with it.
#[derive(Drop)]
pub struct SoughtText {
    pub text: Text,
    pub target: Option<u32>,
}

impl Model for SoughtText {
    ghost use Rattle.std.specs.Coded.{codes};
    ghost use Rattle.store_rows.specs.Sought.{Sought};

    ghost Value = { Sought };

    ghost coded = { Prim.hlevel codes };

    ghost view = { λ a. (a.text, a.target) };
}

/// A place is looked for by its name, an entry by its key and its source, and no other record is.
pub fn sought_of(alloc: Global, record: &Record) -> Result<Option<SoughtText>, AllocError>
    ensures { IfOk result (λ found. found ≡ sought_of «record».now) }
{
    match record {
        Record::Place(place) => by_name(alloc, &place.name),
        Record::Entry(entry) => by_key(alloc, entry),
        _ => Ok(None),
    }
}

/// A name, with no other record.
fn by_name(alloc: Global, name: &Text) -> Result<Option<SoughtText>, AllocError>
    ensures { IfOk result (λ found. found ≡ Some (name.now, None)) }
{
    Ok(Some(SoughtText {
        text: name.copy(alloc)?,
        target: None,
    }))
}

/// The key of an entry, and its source.
fn by_key(alloc: Global, entry: &Entry) -> Result<Option<SoughtText>, AllocError>
    ensures { IfOk result (λ found. found ≡ sought_of (kind.Entry entry.now)) }
{
    Ok(Some(SoughtText {
        text: entry_key(alloc, entry.item, &entry.page)?,
        target: Some(entry.source),
    }))
}
