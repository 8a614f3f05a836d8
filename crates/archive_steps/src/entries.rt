//! The commands on register entries.

ghost use Rattle.std.specs.Prelude.{◌≡◌, ◌↔◌, ◌-◌, ◌++◌, IfErr, IfOk, IsTrue, Some, drop, false, take};
ghost use Rattle.std.specs.FinMap as map;
ghost use Rattle.record_kinds.specs.declared.record.Record.TheVariants as kind;
ghost use Rattle.archive_state.specs.Looks.{Agrees, CountsFailures, is_failure, is_stop};
ghost use Rattle.archive_state.specs.Views.{On};
ghost use Rattle.command_checks.specs.Applied.{Plans};
ghost use Rattle.command_checks.specs.Exact.{IsExact};
ghost use Rattle.archive_steps.specs.Steps as steps;

use crate::families::check_person;
use crate::making::{creates, kept_if, replaces, unchanged};
use archive_state::{Changes, View};
use command_checks::{
    Demand, check_demand, check_key, check_place, check_texts, date_in, entry_at, push_mentions,
    reason_in, text_in,
};
use commands::{EntryRow, Field};
use record_kinds::{Entry, Link, Mention, Record};
use record_text::RefusalKind;
use std::alloc::Global;

/// A new register entry of a source.
pub(crate) fn new_entry<V: View>(
    alloc: Global,
    view: &mut V,
    source: u32,
    row: &EntryRow,
) -> Result<Changes, RefusalKind>
    ensures decides { On V.View view.old view.new (λ c. Plans c result (steps.new_entry c source row.now)) }
    ensures exact { On V.View view.old view.new (λ c. IfOk result (IsExact c)) }
    ensures counts { CountsFailures (V.failed view.old) (V.failed view.new) result }
{
    check_texts(alloc, row)?;
    check_demand(alloc, view, Demand::Source, source)?;
    check_place(alloc, view, row.place)?;
    let entry = entry_of(alloc, source, row)?;
    let free = check_key(alloc, view, source, entry.kind, &entry.page, entry.item);
    let entry = kept_if(entry, free)?;
    creates(alloc, view, Record::Entry(entry))
}

/// The entry that a row gives of a source. Its mentions are of no person yet.
pub fn entry_of(alloc: Global, source: u32, row: &EntryRow) -> Result<Entry, RefusalKind>
    ensures decides { Agrees is_stop result (steps.entry_of source row.now) }
    ensures memory { IfErr result (λ e. is_failure e ≡ false) }
{
    let page = text_in(alloc, &row.page)?;
    let text = text_in(alloc, &row.text)?;
    let date = date_in(alloc, &row.date)?;
    let mut mentions = Vec::new(alloc);
    push_mentions(alloc, row.kind, &mut mentions, row.mentions.as_slice())?;
    Ok(Entry {
        source,
        kind: row.kind,
        page,
        item: row.item,
        date,
        place: row.place,
        text,
        mentions,
    })
}

/// A mention of an entry is of that person, for that reason.
pub(crate) fn link_mention<V: View>(
    alloc: Global,
    view: &mut V,
    number: u32,
    mention: u32,
    person: u32,
    reason: &Field,
) -> Result<Changes, RefusalKind>
    ensures decides { On V.View view.old view.new
        (λ c. Plans c result (steps.link_mention c number mention person reason.now)) }
    ensures exact { On V.View view.old view.new (λ c. IfOk result (IsExact c)) }
    ensures counts { CountsFailures (V.failed view.old) (V.failed view.new) result }
{
    let reason = reason_in(alloc, reason)?;
    let entry = entry_at(alloc, view, number)?;
    let entry = kept_if(entry, check_person(alloc, view, person))?;
    relinked(
        alloc,
        view,
        number,
        entry,
        mention,
        Some(Link { person, reason }),
    )
}

/// A mention of an entry is of no person.
pub(crate) fn unlink_mention<V: View>(
    alloc: Global,
    view: &mut V,
    number: u32,
    mention: u32,
) -> Result<Changes, RefusalKind>
    ensures decides { On V.View view.old view.new (λ c. Plans c result (steps.unlink_mention c number mention)) }
    ensures exact { On V.View view.old view.new (λ c. IfOk result (IsExact c)) }
    ensures counts { CountsFailures (V.failed view.old) (V.failed view.new) result }
{
    let entry = entry_at(alloc, view, number)?;
    relinked(alloc, view, number, entry, mention, None)
}

/// The entry of a number, with another link of a mention or none.
fn relinked<V: View>(
    alloc: Global,
    view: &mut V,
    number: u32,
    entry: Entry,
    mention: u32,
    link: Option<Link>,
) -> Result<Changes, RefusalKind>
    ensures decides { On V.View view.old view.new (λ c. map.get c.records number ≡ Some (kind.Entry entry)
        → Plans c result (steps.relinked c number entry mention link)) }
    ensures exact { On V.View view.old view.new
        (λ c. map.get c.records number ≡ Some (kind.Entry entry) → IfOk result (IsExact c)) }
    ensures counts { CountsFailures (V.failed view.old) (V.failed view.new) result }
{
    if !has_mention(&entry, mention) {
        return Err(RefusalKind::NoSuchMention);
    }
    if has_link(&entry, mention, &link) {
        drop(entry);
        return unchanged(alloc, view);
    }
    let entry = with_link(entry, mention, link);
    replaces(alloc, view, number, Record::Entry(entry))
}

/// Whether the entry has a mention of that place, from 1.
fn has_mention(entry: &Entry, mention: u32) -> bool
    ensures { result ≡ steps.has_mention mention entry.now }
{
    1 <= mention && mention as usize <= entry.mentions.len()
}

/// Whether the mention has that link already.
fn has_link(entry: &Entry, mention: u32, link: &Option<Link>) -> bool
    ensures { IsTrue result ↔ (steps.with_link mention link.now entry.now ≡ entry.now) }
{
    match entry.mentions.get(index_of(mention)) {
        Some(found) => is_link(&found.link, link),
        None => true,
    }
}

/// Whether two links are of one person, for one reason.
fn is_link(old: &Option<Link>, link: &Option<Link>) -> bool
    ensures { IsTrue result ↔ (old.now ≡ link.now) }
{
    match (old, link) {
        (None, None) => true,
        (Some(old), Some(link)) => {
            old.person == link.person && old.reason.as_str() == link.reason.as_str()
        }
        _ => false,
    }
}

/// The entry with that link of a mention.
fn with_link(entry: Entry, mention: u32, link: Option<Link>) -> Entry
    ensures { result ≡ steps.with_link mention link entry }
{
    let mut entry = entry;
    set_link(&mut entry.mentions, index_of(mention), link);
    entry
}

/// Another link of the mention at an index, where there is one.
fn set_link(mentions: &mut Vec<Mention>, index: usize, link: Option<Link>)
    ensures { mentions.new.items ≡ take index mentions.old.items ++ steps.linked link (drop index mentions.old.items) }
{
    if index < mentions.len() {
        mentions[index].link = link;
    }
}

/// Where the mention of a place is in the list.
fn index_of(mention: u32) -> usize
    ensures { result ≡ mention - 1 }
{
    mention.saturating_sub(1) as usize
}
