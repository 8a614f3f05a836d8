//! Records of no other kind.

ghost use Rattle.std.specs.Prelude.{◌≡◌, ◌↔◌, not, IsTrue, IfOk};
ghost use Rattle.record_shapes.specs.Entries as entries;
ghost use Rattle.record_kinds.specs.declared.record.Record.TheVariants as kind;
ghost use Rattle.record_shapes.specs.Forms.{is_some};
ghost use Rattle.archive_state.specs.Sound.{IsNoTrailer};
ghost use Rattle.record_rules.specs.Judged as judged;

use entry_reading::entry_of;
use field_rows::Known;
use record_kinds::{Other, Record};
use std::alloc::{AllocError, Global};

/// Whether the record is not the line that ends a file.
pub fn is_no_trailer(record: &Record) -> bool
    ensures { IsTrue result ↔ IsNoTrailer «record».now }
{
    match record {
        Record::Other(other) => other.tag.as_str() != "TRLR",
        _ => true,
    }
}

/// Whether a record of no other kind has not the shape of one of the others.

pub fn has_own_shape<K: Known>(
    alloc: Global,
    known: &K,
    record: &Record,
) -> Result<bool, AllocError>
    ensures { IfOk result (λ b. b ≡ judged.has_own_shape (K.known known.now) «record».now) }
{
    match record {
        Record::Other(other) => is_other(alloc, known, other),
        _ => Ok(true),
    }
}

fn is_other<K: Known>(alloc: Global, known: &K, other: &Other) -> Result<bool, AllocError>
    ensures { IfOk result (λ b. b ≡ judged.has_own_shape (K.known known.now) (kind.Other other.now)) }
{
    if !has_own_tag(other) {
        return Ok(false);
    }
    if other.tag.as_str() != "_REG" {
        return Ok(true);
    }
    is_no_entry(alloc, known, other)
}

/// Whether the tag is not that of one of five kinds.
fn has_own_tag(other: &Other) -> bool
    ensures { result ≡ judged.has_own_tag other.now }
{
    let tag = other.tag.as_str();
    tag != "_LOC" && tag != "REPO" && tag != "SOUR" && tag != "INDI" && tag != "FAM"
}

/// Whether the value and the lines are not those of a register entry.
fn is_no_entry<K: Known>(alloc: Global, known: &K, other: &Other) -> Result<bool, AllocError>
    ensures { IfOk result (λ b. b ≡ not (is_some
        (entries.entry_of (K.known known.now) other.now.value other.now.carried))) }
{
    match entry_of(alloc, known, &other.value, &other.carried)? {
        Some(entry) => {
            drop(entry);
            Ok(false)
        }
        None => Ok(true),
    }
}
