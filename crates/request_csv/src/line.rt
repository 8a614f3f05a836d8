//! The line of a row that was refused.

ghost use Rattle.std.specs.Prelude.{◌≡◌, IfOk, string_bytes};
ghost use Rattle.request_csv.specs.Faults.{IsFault, line_text};

use crate::sentences::finding_of;
use csv::ByteRecord;
use record_text::RefusalKind;
use std::alloc::{AllocError, Global};

/// The line of the row with this number, from 1, that was refused so: `row <n>: <no.> <Name>: <what is wrong>`, ended
/// by LF. What is wrong is said by the row's own fields, where one or two of them are to blame with their places and
/// names, the token's place being 1; no word of the row stands in it. Refused only if out of memory.
pub fn fault_line(
    alloc: Global,
    number: u64,
    kind: RefusalKind,
    row: &ByteRecord,
) -> Result<String, AllocError>
    ensures { IfOk result (λ line. IsFault number kind (string_bytes line)) }
{
    let what = finding_of(kind, row).words(alloc)?;
    line_of(alloc, number, kind.number(), kind.name(), what.as_str())
}

fn line_of(
    alloc: Global,
    number: u64,
    refusal: u8,
    name: &str,
    what: &str,
) -> Result<String, AllocError>
    ensures { IfOk result (λ line. string_bytes line ≡ line_text number refusal name.now what.now) }
{
    format!(in alloc; "row {number}: {refusal} {name}: {what}\n")
}
