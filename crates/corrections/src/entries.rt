//! Corrections of register entries.

ghost use Rattle.std.specs.Prelude.{◌≡◌};
ghost use Rattle.record_fields.specs.Words.{role_of};
ghost use Rattle.corrections.specs.Corrections as corrections;
ghost use Rattle.corrections.specs.Lists.{changed_at};
ghost use Rattle.corrections.specs.declared.correction.Correction.TheVariants as value;

use crate::correction::Correction;
use crate::field::TextField;
use crate::position::Position;
use record_fields::{EntryKind, Role};
use record_kinds::{Entry, Mention};
use record_shapes::is_role_of;
use record_text::{RefusalKind, Text};

/// An entry with another value of a field.
pub(crate) fn entry_with(entry: Entry, correction: Correction) -> Result<Entry, RefusalKind>
    ensures { result ≡ corrections.entry_with correction entry }
{
    let mut entry = entry;
    match correction {
        Correction::Item(item) => entry.item = item,
        Correction::Date(date) => entry.date = date,
        Correction::Place(place) => entry.place = place,
        Correction::Text(field, text) => return entry_text(entry, field, text),
        _ => return Err(RefusalKind::NoSuchField),
    }
    Ok(entry)
}

/// An entry with another text of a field.
fn entry_text(entry: Entry, field: TextField, text: Text) -> Result<Entry, RefusalKind>
    ensures { result ≡ corrections.entry_with (value.Text field text) entry }
{
    let mut entry = entry;
    match field {
        TextField::Page => entry.page = text,
        TextField::Text => entry.text = text,
        TextField::NameAt(at) => {
            if !has_mention(&entry, at) {
                return Err(RefusalKind::NoSuchField);
            }
            set_name(&mut entry.mentions, at.index(), text);
        }
        TextField::RoleAt(at) => {
            if !has_mention(&entry, at) {
                return Err(RefusalKind::NoSuchField);
            }
            let role = role_in(entry.kind, text.as_str())?;
            set_role(&mut entry.mentions, at.index(), role);
        }
        _ => return Err(RefusalKind::NoSuchField),
    }
    Ok(entry)
}

/// Whether the entry has a mention of that place in the list.
fn has_mention(entry: &Entry, at: Position) -> bool
    ensures { result ≡ corrections.has_mention at.number entry.now }
{
    at.number as usize <= entry.mentions.len()
}

/// The role of a word, if it is one of that kind of entry.
fn role_in(kind: EntryKind, word: &str) -> Result<Role, RefusalKind>
    ensures { result ≡ corrections.role_for kind (role_of word.now) }
{
    let Some(role) = Role::from_word(word) else {
        return Err(RefusalKind::NotOfKind);
    };
    if is_role_of(kind, role) {
        Ok(role)
    } else {
        Err(RefusalKind::NotOfKind)
    }
}

/// Another name of the mention at an index, if there is one.
fn set_name(mentions: &mut Vec<Mention>, index: usize, name: Text)
    ensures { mentions.new.items ≡ changed_at index (corrections.mention_named name) mentions.old.items }
{
    if index < mentions.len() {
        mentions[index].name = name;
    }
}

/// Another role of the mention at an index, if there is one.
fn set_role(mentions: &mut Vec<Mention>, index: usize, role: Role)
    ensures { mentions.new.items ≡ changed_at index (corrections.mention_as role) mentions.old.items }
{
    if index < mentions.len() {
        mentions[index].role = role;
    }
}
