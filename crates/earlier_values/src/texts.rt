//! A record as one text, and back.

ghost use Rattle.std.specs.Prelude.{◌≡◌, ◌⊎◌, IfErr, IfOk, string_bytes};
ghost use Rattle.packed_rows.specs.Packed.{HaveText};
ghost use Rattle.record_kinds.specs.declared.record.Record.{Record};
ghost use Rattle.record_text.specs.declared.refusal.RefusalKind.TheVariants as kinds;
ghost use Rattle.records.specs.Shallow.{IsShallow};
ghost use Rattle.records.specs.Stored.{stored};
ghost use Rattle.earlier_values.specs.Earlier.{IsPastOf, past};

use packed_rows::{pack_whole, unpack_whole};
use record_kinds::Record;
use record_text::RefusalKind;
use records::{lines_of, record_of};
use std::alloc::{AllocError, Global};
use stored_lines::StoredLine;

/// The text of a record: all lines that it is stored as, the first one too, which has its kind.
pub fn past_text(alloc: Global, record: &Record) -> Result<String, AllocError>
    ensures text { IfOk result (λ t. string_bytes t ≡ past «record».now) }
    ensures again { IfOk result (λ t. IsPastOf «record».now (string_bytes t)) }
{
    let lines = lines_of(alloc, record)?;
    pack_whole(alloc, &lines)
}

/// The record of a text. 40: it is the text of none. 1: out of memory.
pub fn record_of_past(alloc: Global, text: &str) -> Result<Record, RefusalKind>
    ensures read { IfOk result (λ r. HaveText text.now (stored r)) }
    ensures refused { IfErr result (λ kind. (kind ≡ kinds.OutOfMemory)
        ⊎ ((kind ≡ kinds.BadStored) × ((r : Record) → ¬ (IsPastOf r text.now)))) }
{
    let lines = unpack_whole(alloc, text)?;
    record_in(alloc, &lines)
}

/// The record that is stored as these lines.
fn record_in(alloc: Global, lines: &[StoredLine]) -> Result<Record, RefusalKind>
    ensures read { IfOk result (λ r. lines.now ≡ stored r) }
    ensures refused { IfErr result (λ kind. (kind ≡ kinds.OutOfMemory)
        ⊎ ((kind ≡ kinds.BadStored) × ((r : Record) → IsShallow r → ¬ (lines.now ≡ stored r)))) }
{
    record_of(alloc, lines)
}
