//! Register entries: the words that a command gives of one, its mentions, and what is there already.

ghost use Rattle.std.specs.Prelude.{◌≡◌, ◌++◌, ◌∷◌, [], IfErr, IfOk, List, Ok, false};
ghost use Rattle.record_kinds.specs.Model as model;
ghost use Rattle.archive_state.specs.Looks.{Agrees, CountsFailures, is_failure, is_stop};
ghost use Rattle.archive_state.specs.Views.{On};
ghost use Rattle.command_checks.specs.Checks.{passed, text_in as text_of_words};
ghost use Rattle.command_checks.specs.Entries as entries;

use crate::looks::{date_in, text_in, wrong_kind};
use archive_state::View;
use commands::{EntryRow, Field, GivenMention};
use record_fields::{EntryKind, Item, Role};
use record_kinds::{Entry, Mention, Record};
use record_shapes::is_role_of;
use record_text::{RefusalKind, Text};
use std::alloc::{AllocError, Global};

/// That the words of an entry are texts, and its date a date of the archive (else `BadText`).
pub fn check_texts(alloc: Global, entry: &EntryRow) -> Result<(), RefusalKind>
    ensures decides { Agrees is_stop result (entries.texts_fit entry.now) }
    ensures memory { IfErr result (λ e. is_failure e ≡ false) }
{
    check_text(alloc, &entry.page)?;
    check_text(alloc, &entry.text)?;
    drop(date_in(alloc, &entry.date)?);
    check_mentions(alloc, entry.mentions.as_slice())
}

fn check_text(alloc: Global, field: &Field) -> Result<(), RefusalKind>
    ensures decides { Agrees is_stop result (passed (text_of_words field.now)) }
    ensures memory { IfErr result (λ e. is_failure e ≡ false) }
{
    drop(text_in(alloc, field)?);
    Ok(())
}

/// The same of mentions. They are at most 100, so that the calls are not deep.
fn check_mentions(alloc: Global, mentions: &[GivenMention]) -> Result<(), RefusalKind>
    ensures decides { Agrees is_stop result (entries.mentions_fit mentions.now) }
    ensures memory { IfErr result (λ e. is_failure e ≡ false) }
{
    match mentions {
        [] => Ok(()),
        [first, more @ ..] => {
            check_text(alloc, &first.role)?;
            check_text(alloc, &first.name)?;
            check_mentions(alloc, more)
        }
    }
}

/// Adds the mentions that a row gives of an entry of that kind, each of no person. Refused is a role that is none of
/// the kind's (`NotOfKind`), and a name that is no text (`BadText`).
pub fn push_mentions(
    alloc: Global,
    kind: EntryKind,
    mentions: &mut Vec<Mention>,
    given: &[GivenMention],
) -> Result<(), RefusalKind>
    ensures decides { Agrees is_stop result (passed (entries.mentions_in kind given.now)) }
    ensures pushes { IfOk result (λ _. (added : List model.Mention) → entries.mentions_in kind given.now ≡ Ok added
        → mentions.new.items ≡ mentions.old.items ++ added) }
    ensures memory { IfErr result (λ e. is_failure e ≡ false) }
{
    match given {
        [] => Ok(()),
        [first, more @ ..] => {
            let mention = mention_in(alloc, kind, first)?;
            push(mentions, mention)?;
            push_mentions(alloc, kind, mentions, more)
        }
    }
}

/// The mention that a row gives.
fn mention_in(alloc: Global, kind: EntryKind, given: &GivenMention) -> Result<Mention, RefusalKind>
    ensures decides { Agrees is_stop result (entries.mention_in kind given.now) }
    ensures memory { IfErr result (λ e. is_failure e ≡ false) }
{
    let role = role_in(kind, given.role.as_str())?;
    let name = text_in(alloc, &given.name)?;
    Ok(Mention {
        role,
        name,
        link: None,
    })
}

/// The role of a word, which a mention in an entry of that kind may have (else `NotOfKind`).
fn role_in(kind: EntryKind, word: &str) -> Result<Role, RefusalKind>
    ensures { result ≡ entries.role_in kind word.now }
{
    let Some(role) = Role::from_word(word) else {
        return Err(RefusalKind::NotOfKind);
    };
    if is_role_of(kind, role) {
        Ok(role)
    } else {
        Err(RefusalKind::NotOfKind)
    }
}

/// That no entry of that source, kind, page and item is there (else `DuplicateEntry`).
#[tactic(auto, using(crate::proofs::Likes::key_free))]
pub fn check_key<V: View>(
    alloc: Global,
    view: &mut V,
    source: u32,
    kind: EntryKind,
    page: &Text,
    item: Item,
) -> Result<(), RefusalKind>
    ensures decides { On V.View view.old view.new
        (λ c. Agrees is_stop result (entries.key_is_free c.records source kind page.now item)) }
    ensures counts { CountsFailures (V.failed view.old) (V.failed view.new) result }
{
    match view.entry_at(alloc, source, kind, page, item)? {
        None => Ok(()),
        Some(_) => Err(RefusalKind::DuplicateEntry),
    }
}

/// The entry of a number.
pub fn entry_at<V: View>(alloc: Global, view: &mut V, number: u32) -> Result<Entry, RefusalKind>
    ensures decides { On V.View view.old view.new (λ c. Agrees is_stop result (entries.entry_at c number)) }
    ensures counts { CountsFailures (V.failed view.old) (V.failed view.new) result }
{
    entry_in(view.record_at(alloc, number)?)
}

fn entry_in(found: Option<Record>) -> Result<Entry, RefusalKind>
    ensures { result ≡ entries.entry_in found }
{
    match found {
        None => Err(RefusalKind::NoSuch),
        Some(Record::Entry(entry)) => Ok(entry),
        Some(other) => wrong_kind(other),
    }
}

/// The reason of a link: a text that is not empty (else `BadText`).
pub fn reason_in(alloc: Global, field: &Field) -> Result<Text, RefusalKind>
    ensures decides { Agrees is_stop result (entries.reason_in field.now) }
    ensures memory { IfErr result (λ e. is_failure e ≡ false) }
{
    not_empty(text_in(alloc, field)?)
}

fn not_empty(text: Text) -> Result<Text, RefusalKind>
    ensures { result ≡ entries.not_empty text }
{
    if text.as_str().is_empty() {
        return Err(RefusalKind::BadText);
    }
    Ok(text)
}

/// Adds an item after the others.
fn push<T: Drop>(items: &mut Vec<T>, item: T) -> Result<(), AllocError>
    ensures { IfOk result (λ _. items.new.items ≡ items.old.items ++ (item ∷ [])) }
{
    items.push(item)?;
    Ok(())
}
