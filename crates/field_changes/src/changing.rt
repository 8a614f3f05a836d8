//! A record with another value of a field.

ghost use Rattle.std.specs.Prelude.{◌≡◌, ◌↔◌, IfErr, IfOk, IsTrue, Some, Ok, false};
ghost use Rattle.std.specs.FinMap as map;
ghost use Rattle.archive_state.specs.Looks.{Agrees, CountsFailures, Looked, is_failure, is_stop};
ghost use Rattle.archive_state.specs.Views.{On};
ghost use Rattle.command_checks.specs.Applied.{Plans};
ghost use Rattle.command_checks.specs.Exact.{IsExact};
ghost use Rattle.corrections.specs.Corrections as corrections;
ghost use Rattle.record_changes.specs.Steps.{replaced};
ghost use Rattle.field_changes.specs.Steps as steps;

use crate::carrying::is_still_carried;
use crate::given::{check_named, check_said, correction_in};
use crate::keys::check_changed_key;
use archive_state::{Changes, View};
use commands::GivenValue;
use corrections::{Correction, corrected};
use record_changes::{kept_if, replaces, unchanged};
use record_kinds::Record;
use record_text::RefusalKind;
use records::lines_of;
use std::alloc::{AllocError, Global};
use stored_lines::are_same;

/// The record of a number with another value of a field. Refused, in this order: words that are no text (58), a number
/// that names nothing, also that of a place or a repository in the value, and a record of another kind there (50, 51),
/// a field that the record has not (64), what the field forbids (58), a carried line that would be read as a field
/// (66), a role that is not of the kind (62), the key of another entry (60). What the name of a place does to paths is
/// not looked at.
pub fn changed_record<V: View>(
    alloc: Global,
    view: &mut V,
    number: u32,
    value: &GivenValue,
) -> Result<Record, RefusalKind>
    ensures decides { On V.View view.old view.new (λ c. Agrees is_stop result (steps.changed c number value.now)) }
    ensures counts { CountsFailures (V.failed view.old) (V.failed view.new) result }
{
    let correction = correction_in(alloc, value)?;
    let before = named_record(alloc, view, number, value)?;
    let after = corrected_in(alloc, before, correction)?;
    let check = check_after(alloc, view, number, value, &after);
    kept_if(after, check)
}

/// The record of a number, where the number of a place or a repository in the value names one.
fn named_record<V: View>(
    alloc: Global,
    view: &mut V,
    number: u32,
    value: &GivenValue,
) -> Result<Record, RefusalKind>
    ensures decides { On V.View view.old view.new (λ c. Agrees is_stop result (steps.named_record c number value.now)) }
    ensures counts { CountsFailures (V.failed view.old) (V.failed view.new) result }
{
    let before = record_there(alloc, view, number)?;
    let check = check_named(alloc, view, value);
    kept_if(before, check)
}

/// The record of a number (50).
pub(crate) fn record_there<V: View>(
    alloc: Global,
    view: &mut V,
    number: u32,
) -> Result<Record, RefusalKind>
    ensures decides { On V.View view.old view.new
        (λ c. Agrees is_stop result (steps.record_there (map.get c.records number))) }
    ensures counts { CountsFailures (V.failed view.old) (V.failed view.new) result }
{
    match view.record_at(alloc, number)? {
        Some(record) => Ok(record),
        None => Err(RefusalKind::NoSuch),
    }
}

/// The corrected record, or what the record by itself refuses (64, 58, 62).
#[tactic(auto, using(crate::proofs::Refused::no_failure))]
fn corrected_in(alloc: Global, value: Record, correction: Correction) -> Result<Record, RefusalKind>
    ensures decides { Agrees is_stop result (corrections.corrected correction value) }
    ensures memory { IfErr result (λ e. is_failure e ≡ false) }
{
    match corrected(alloc, value, correction)? {
        Ok(after) => Ok(after),
        Err(e) => Err(e),
    }
}

/// What other records and carried lines say against the corrected record: 58, 66, 60.
fn check_after<V: View>(
    alloc: Global,
    view: &mut V,
    number: u32,
    value: &GivenValue,
    after: &Record,
) -> Result<(), RefusalKind>
    ensures decides { On V.View view.old view.new
        (λ c. Agrees is_stop result (steps.checked_after c number value.now after.now)) }
    ensures counts { CountsFailures (V.failed view.old) (V.failed view.new) result }
{
    check_said(alloc, view, value)?;
    if is_still_carried(alloc, after)? {
        return Err(RefusalKind::StillCarried);
    }
    check_changed_key(alloc, view, number, after)
}

/// The changes that put a record at a number where one stands; none if it is the one that stands there.
#[tactic(auto, using(crate::proofs::Same::replaced_same))]
pub fn put_changed<V: View>(
    alloc: Global,
    view: &mut V,
    number: u32,
    value: Record,
) -> Result<Changes, RefusalKind>
    ensures decides { On V.View view.old view.new (λ c. Plans c result (Ok (replaced c number value))) }
    ensures exact { On V.View view.old view.new (λ c. IfOk result (IsExact c)) }
    ensures counts { CountsFailures (V.failed view.old) (V.failed view.new) result }
{
    match is_there(alloc, view, number, &value) {
        Ok(false) => replaces(alloc, view, number, value),
        Ok(true) => {
            drop(value);
            unchanged(alloc, view)
        }
        Err(e) => {
            drop(value);
            Err(e)
        }
    }
}

/// Whether this record stands at the number.
fn is_there<V: View>(
    alloc: Global,
    view: &mut V,
    number: u32,
    value: &Record,
) -> Result<bool, RefusalKind>
    ensures shows { On V.View view.old view.new
        (λ c. Looked result (λ is. IsTrue is ↔ (map.get c.records number ≡ Some value.now))) }
    ensures counts { CountsFailures (V.failed view.old) (V.failed view.new) result }
{
    let Some(old) = view.record_at(alloc, number)? else {
        return Ok(false);
    };
    let same = has_same_lines(alloc, &old, value);
    drop(old);
    Ok(same?)
}

/// Whether both are stored as the same lines.
fn has_same_lines(alloc: Global, one: &Record, other: &Record) -> Result<bool, AllocError>
    ensures { IfOk result (λ is. IsTrue is ↔ (Some one.now ≡ Some other.now)) }
{
    let a = lines_of(alloc, one)?;
    let b = lines_of(alloc, other)?;
    Ok(are_same(&a, &b))
}
