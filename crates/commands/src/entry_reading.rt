//! Rows of register entries, read without their source.

ghost use Rattle.std.specs.Prelude.{◌≡◌, ◌++◌, ◌∷◌, [], IfOk, map, option_map};
ghost use Rattle.record_text.specs.declared.refusal.RefusalKind.TheVariants.{BadRow, FieldCount};
ghost use Rattle.commands.specs.Dated.{given_of};
ghost use Rattle.commands.specs.Items.{item_at};
ghost use Rattle.commands.specs.Rows.{
  Decided,
  ReadsEntry,
  and_then,
  counted,
  item_in,
  kind_in,
  mentions_in,
  ok_or,
  pairs,
  read_entry,
};

use crate::entry_row::{EntryRow, GivenMention, GivenMentions};
use crate::reading::{date_or_none, number_in, number_or_none, words_in};
use record_fields::{EntryKind, Item};
use record_text::RefusalKind;
use std::alloc::{AllocError, Global};

/// The most fields that mentions can have: a role and a name for each of 100.
const MOST_FIELDS: usize = 200;

impl EntryRow {
    /// The register entry of a row of a batch, which has no source. Refused are first too few or too many fields, and a
    /// role without a name (`FieldCount`), and then a field that is not of its type (`BadRow`). `OutOfMemory` may come
    /// in place of any answer.
    pub fn of_row(alloc: Global, fields: &[&str]) -> Result<EntryRow, RefusalKind>
        ensures { Decided result (ReadsEntry (map (λ f. f.now) fields.now)) }
    {
        entry_of_fields(alloc, fields)
    }
}

/// The register entry of the fields after its source. Refused are first too few or too many fields, and a role without
/// a name (`FieldCount`), and then a field that is not of its type (`BadRow`). `OutOfMemory` may come in place of any
/// answer.
pub(crate) fn entry_of_fields(alloc: Global, fields: &[&str]) -> Result<EntryRow, RefusalKind>
    ensures { Decided result (λ r. r ≡ read_entry given_of (map (λ f. f.now) fields.now)) }
{
    match fields {
        [kind, page, item, date, place, text, mentions @ ..] => {
            entry(alloc, kind, page, item, date, place, text, mentions)
        }
        _ => Err(RefusalKind::FieldCount),
    }
}

fn entry(
    alloc: Global,
    kind: &str,
    page: &str,
    item: &str,
    date: &str,
    place: &str,
    text: &str,
    mentions: &[&str],
) -> Result<EntryRow, RefusalKind>
    ensures { Decided result (λ r. r ≡ read_entry given_of
        (kind.now ∷ page.now ∷ item.now ∷ date.now ∷ place.now ∷ text.now ∷ map (λ f. f.now) mentions.now)) }
{
    let mentions = mentions_in(alloc, mentions)?;
    let kind = kind_in(kind)?;
    let item = item_in(item)?;
    let place = number_or_none(place)?;
    let page = words_in(alloc, page)?;
    let date = date_or_none(alloc, date)?;
    let text = words_in(alloc, text)?;
    Ok(EntryRow {
        kind,
        page,
        item,
        date,
        place,
        text,
        mentions,
    })
}

/// The kind of a word.
fn kind_in(field: &str) -> Result<EntryKind, RefusalKind>
    ensures { result ≡ kind_in field.now }
{
    match EntryKind::from_word(field) {
        Some(kind) => Ok(kind),
        None => Err(RefusalKind::BadRow),
    }
}

/// The item of a field.
#[tactic(auto, unfolding(crate::specs::Rows::item_in))]
pub(crate) fn item_in(field: &str) -> Result<Item, RefusalKind>
    ensures { result ≡ item_in field.now }
{
    let number = number_in(field)?;
    item_of(number)
}

/// The item of a number.
fn item_of(number: u32) -> Result<Item, RefusalKind>
    ensures { result ≡ ok_or BadRow (item_at number) }
{
    match Item::new(number) {
        Some(item) => Ok(item),
        None => Err(RefusalKind::BadRow),
    }
}

/// The mentions of a row's last fields: 1 to 100, a role and a name for each.
fn mentions_in(alloc: Global, fields: &[&str]) -> Result<GivenMentions, RefusalKind>
    ensures { Decided result (λ r. r ≡ mentions_in (map (λ f. f.now) fields.now)) }
{
    if fields.len() > MOST_FIELDS {
        return Err(RefusalKind::FieldCount);
    }
    with_mentions(alloc, Vec::new(alloc), fields)
}

/// The mentions, and after them those of the fields: 1 to 100.
fn with_mentions(
    alloc: Global,
    mut mentions: Vec<GivenMention>,
    fields: &[&str],
) -> Result<GivenMentions, RefusalKind>
    ensures { Decided result (λ r. r ≡ and_then
        (ok_or FieldCount (option_map (λ ms. mentions.items ++ ms) (pairs (map (λ f. f.now) fields.now)))) counted) }
{
    match fields {
        [] => counted(mentions),
        [_] => Err(RefusalKind::FieldCount),
        [role, name, more @ ..] => {
            push_mention(alloc, &mut mentions, role, name)?;
            with_mentions(alloc, mentions, more)
        }
    }
}

/// These mentions, where they are 1 to 100.
fn counted(mentions: Vec<GivenMention>) -> Result<GivenMentions, RefusalKind>
    ensures { result ≡ counted mentions.items }
{
    match GivenMentions::try_new(mentions) {
        Some(mentions) => {
            // tells a proof how many they are
            let _ = mentions.as_slice();
            Ok(mentions)
        }
        None => Err(RefusalKind::FieldCount),
    }
}

fn push_mention(
    alloc: Global,
    mentions: &mut Vec<GivenMention>,
    role: &str,
    name: &str,
) -> Result<(), AllocError>
    ensures { IfOk result
        (λ _. mentions.new.items ≡ mentions.old.items ++ (record { role = role.now; name = name.now } ∷ [])) }
{
    let role = words_in(alloc, role)?;
    let name = words_in(alloc, name)?;
    mentions.push(GivenMention { role, name })?;
    Ok(())
}
