//! Register entries as branches.

ghost use Rattle.std.specs.Prelude.{[], ◌≡◌, IfOk, Some, option_map};
ghost use Rattle.std.specs.Option.{unwrap_or};
ghost use Rattle.record_fields.specs.Words.{entry_kind_of, entry_kind_word, role_of, role_word};
ghost use Rattle.record_fields.specs.Items.{first_item, item_of};
ghost use Rattle.record_fields.specs.declared.entry_words.EntryKind.TheVariants as kinds;
ghost use Rattle.record_fields.specs.declared.entry_words.Role.TheVariants as roles;
ghost use Rattle.records.specs.Stored.{
  branch,
  mention_tree,
  entry_tree,
  link_person,
  link_reason,
  bare_place,
  key_words,
};
ghost use Rattle.records.specs.Reading.{
  shallow_lines,
  mention_from,
  entry_from,
  link_from,
  read_by,
  place_number,
  event_place_from,
  first,
  under,
  text_from,
};
ghost use Rattle.records.specs.declared.field.Field.TheVariants as field;

use crate::entry_keys::entry_key;
use crate::event_parts::{date_at, date_words, place_at, push_when};
use crate::field::Field;
use crate::part::{Part, parts_at, push_parts};
use crate::reading::{children_of, number_at, text_at, text_or_none, words_at};
use crate::writing::push_text;
use record_fields::{EntryKind, Item, Role};
use record_kinds::{Entry, EventPlace, Link, Mention};
use record_text::Text;
use std::alloc::{AllocError, Global};
use stored_lines::Branch;

impl Part for Mention {
    ghost kept_as = { mention_tree };

    ghost read_of = { mention_from };

    ghost is_shallow = { λ _. Unit {0} };

    fn write(&self, alloc: Global) -> Result<Branch, AllocError> {
        let mut below = Vec::new(alloc);
        push_text(
            alloc,
            &mut below,
            Field::Role,
            Some(role_text(alloc, self.role)?),
        )?;
        push_text(
            alloc,
            &mut below,
            Field::Reason,
            reason_of(alloc, &self.link)?,
        )?;
        let name = Some(self.name.copy(alloc)?);
        Field::Mention.branch(alloc, name, person_of(&self.link), below)
    }

    fn read(alloc: Global, branch: &Branch) -> Result<Mention, AllocError> {
        let parts = children_of(branch);
        Ok(Mention {
            role: role_in(&text_at(alloc, parts, Field::Role)?),
            name: text_or_none(alloc, &branch.text)?,
            link: link_in(alloc, branch.target, &text_at(alloc, parts, Field::Reason)?)?,
        })
    }
}

impl Part for Entry {
    ghost kept_as = { entry_tree };

    ghost read_of = { entry_from shallow_lines };

    ghost is_shallow = { λ _. Unit {0} };

    fn write(&self, alloc: Global) -> Result<Branch, AllocError> {
        let mut below = Vec::new(alloc);
        below.push(key_line(alloc, self)?)?;
        push_text(alloc, &mut below, Field::Page, Some(self.page.copy(alloc)?))?;
        push_text(alloc, &mut below, Field::Item, Some(self.item.text(alloc)?))?;
        let place = bare(alloc, self.place);
        push_when(alloc, &mut below, date_words(alloc, &self.date)?, &place)?;
        push_text(alloc, &mut below, Field::Text, Some(self.text.copy(alloc)?))?;
        push_parts(alloc, &mut below, &self.mentions)?;
        let kind = Some(kind_text(alloc, self.kind)?);
        Field::Entry.branch(alloc, kind, None, below)
    }

    fn read(alloc: Global, branch: &Branch) -> Result<Entry, AllocError> {
        let parts = children_of(branch);
        Ok(Entry {
            source: number_at(parts, Field::Key),
            kind: kind_in(&branch.text),
            item: item_at(alloc, parts)?,
            place: number_at_date(alloc, parts)?,
            page: words_at(alloc, parts, Field::Page)?,
            date: date_at(alloc, parts)?,
            text: words_at(alloc, parts, Field::Text)?,
            mentions: parts_at(alloc, parts, Field::Mention)?,
        })
    }
}

/// The line by which an entry is found; it names the source.
fn key_line(alloc: Global, entry: &Entry) -> Result<Branch, AllocError>
    ensures { IfOk result (λ line. line ≡ branch field.Key (Some (key_words entry.now.item entry.now.page))
        (Some entry.now.source) []) }
{
    let words = Some(entry_key(alloc, entry.item, &entry.page)?);
    Field::Key.branch(alloc, words, Some(entry.source), Vec::new(alloc))
}

/// The number of a place as that of an event, without carried lines.
fn bare(alloc: Global, place: Option<u32>) -> Option<EventPlace>
    ensures { result ≡ option_map bare_place place }
{
    match place {
        None => None,
        Some(place) => Some(EventPlace {
            place,
            carried: Vec::new(alloc),
        }),
    }
}

/// The number of the place on the line of a date.
fn number_at_date(alloc: Global, branches: &[Branch]) -> Result<Option<u32>, AllocError>
    ensures { IfOk result (λ n. n
        ≡ option_map place_number (event_place_from shallow_lines (first (under field.Date branches.now)))) }
{
    match place_at(alloc, branches)? {
        None => Ok(None),
        Some(place) => Ok(Some(place.place)),
    }
}

/// The word of a kind as a text.
#[tactic(auto, using(record_fields::proofs::Worded::entry_kind_is_plain))]
fn kind_text(alloc: Global, kind: EntryKind) -> Result<Text, AllocError>
    ensures { IfOk result (λ t. t ≡ entry_kind_word kind) }
{
    Text::of_words(alloc, kind.as_str())
}

/// The kind of a text; of other words that of a baptism.
fn kind_in(text: &Option<Text>) -> EntryKind
    ensures { result ≡ unwrap_or (read_by entry_kind_of text.now) kinds.Baptism }
{
    match text {
        None => EntryKind::Baptism,
        Some(text) => EntryKind::from_word(text.as_str()).unwrap_or(EntryKind::Baptism),
    }
}

/// The word of a role as a text.
#[tactic(auto, using(record_fields::proofs::Worded::role_is_plain))]
fn role_text(alloc: Global, role: Role) -> Result<Text, AllocError>
    ensures { IfOk result (λ t. t ≡ role_word role) }
{
    Text::of_words(alloc, role.as_str())
}

/// The role of a text; of other words that of a child.
fn role_in(text: &Option<Text>) -> Role
    ensures { result ≡ unwrap_or (read_by role_of text.now) roles.Child }
{
    match text {
        None => Role::Child,
        Some(text) => Role::from_word(text.as_str()).unwrap_or(Role::Child),
    }
}

/// The item on its line; of other words the first.
fn item_at(alloc: Global, branches: &[Branch]) -> Result<Item, AllocError>
    ensures { IfOk result (λ i. i
        ≡ unwrap_or (read_by item_of (text_from field.Item branches.now)) first_item) }
{
    item_in(alloc, &text_at(alloc, branches, Field::Item)?)
}

/// The item of a text; of other words the first.
fn item_in(alloc: Global, text: &Option<Text>) -> Result<Item, AllocError>
    ensures { IfOk result (λ i. i ≡ unwrap_or (read_by item_of text.now) first_item) }
{
    let Some(text) = text else {
        return Ok(Item::first());
    };
    let found = Item::of_words(alloc, text.as_str())?;
    Ok(found.unwrap_or(Item::first()))
}

/// The number of the person of a link.
fn person_of(link: &Option<Link>) -> Option<u32>
    ensures { result ≡ option_map link_person link.now }
{
    match link {
        None => None,
        Some(link) => Some(link.person),
    }
}

/// The reason of a link.
fn reason_of(alloc: Global, link: &Option<Link>) -> Result<Option<Text>, AllocError>
    ensures { IfOk result (λ t. t ≡ option_map link_reason link.now) }
{
    match link {
        None => Ok(None),
        Some(link) => Ok(Some(link.reason.copy(alloc)?)),
    }
}

/// A link to the person, where there is one.
fn link_in(
    alloc: Global,
    person: Option<u32>,
    reason: &Option<Text>,
) -> Result<Option<Link>, AllocError>
    ensures { IfOk result (λ l. l ≡ link_from person reason.now) }
{
    let Some(person) = person else {
        return Ok(None);
    };
    let reason = text_or_none(alloc, reason)?;
    Ok(Some(Link { person, reason }))
}
