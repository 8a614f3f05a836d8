//! The key of a register entry that changes.

ghost use Rattle.std.specs.Prelude.{◌≡◌};
ghost use Rattle.archive_state.specs.Looks.{Agrees, CountsFailures, Looked, is_stop};
ghost use Rattle.archive_state.specs.Views.{On};
ghost use Rattle.command_checks.specs.Entries.{is_like};
ghost use Rattle.record_kinds.specs.declared.record.Record.TheVariants as kind;
ghost use Rattle.std.specs.FinMap as map;
ghost use Rattle.field_changes.specs.Steps as steps;

use archive_state::View;
use command_checks::check_key;
use record_kinds::{Entry, Record};
use record_text::RefusalKind;
use std::alloc::Global;

/// That no other entry has the key of this one, if the record is an entry whose key is not that of before (60).
pub(crate) fn check_changed_key<V: View>(
    alloc: Global,
    view: &mut V,
    number: u32,
    value: &Record,
) -> Result<(), RefusalKind>
    ensures decides { On V.View view.old view.new (λ c. Agrees is_stop result (steps.keyed c number value.now)) }
    ensures counts { CountsFailures (V.failed view.old) (V.failed view.new) result }
{
    match value {
        Record::Entry(entry) => check_entry_key(alloc, view, number, entry),
        _ => Ok(()),
    }
}

fn check_entry_key<V: View>(
    alloc: Global,
    view: &mut V,
    number: u32,
    entry: &Entry,
) -> Result<(), RefusalKind>
    ensures decides { On V.View view.old view.new
        (λ c. Agrees is_stop result (steps.entry_keyed c number entry.now)) }
    ensures counts { CountsFailures (V.failed view.old) (V.failed view.new) result }
{
    if has_key_at(alloc, view, number, entry)? {
        return Ok(());
    }
    check_key(
        alloc,
        view,
        entry.source,
        entry.kind,
        &entry.page,
        entry.item,
    )
}

/// Whether the record of a number is an entry with the key of this one.
fn has_key_at<V: View>(
    alloc: Global,
    view: &mut V,
    number: u32,
    entry: &Entry,
) -> Result<bool, RefusalKind>
    ensures shows { On V.View view.old view.new
        (λ c. Looked result (λ has. has ≡ steps.has_key (map.get c.records number) entry.now)) }
    ensures counts { CountsFailures (V.failed view.old) (V.failed view.new) result }
{
    let found = view.record_at(alloc, number)?;
    let has = match &found {
        Some(old) => is_like_entry(old, entry),
        None => false,
    };
    drop(found);
    Ok(has)
}

fn is_like_entry(value: &Record, entry: &Entry) -> bool
    ensures { result ≡ is_like entry.now.source entry.now.kind entry.now.page entry.now.item value.now }
{
    match value {
        Record::Entry(old) => {
            old.source == entry.source
                && old.kind.as_str() == entry.kind.as_str()
                && old.page.as_str() == entry.page.as_str()
                && old.item.number == entry.item.number
        }
        _ => false,
    }
}
