//! The mentions of a register entry.

ghost use Rattle.std.specs.Prelude.{◌≡◌, ◌↔◌, IsTrue, true};
ghost use Rattle.std.specs.List.{list_all};
ghost use Rattle.record_kinds.specs.Model as model;
ghost use Rattle.record_shapes.specs.Lists.{EachOf};
ghost use Rattle.record_shapes.specs.Roles as roles;
ghost use Rattle.archive_state.specs.Sound.{HasSoundMentions};

use record_fields::EntryKind;
use record_kinds::{Entry, Mention, Record};
use record_shapes::is_role_of;

/// The most mentions that an entry has.
const MOST_MENTIONS: usize = 100;

/// Whether the entry has 1 to 100 mentions, with roles of its kind.
pub fn has_sound_mentions(record: &Record) -> bool
    ensures { IsTrue result ↔ HasSoundMentions «record».now }
{
    match record {
        Record::Entry(entry) => has_mentions(entry) && has_roles(entry.kind, &entry.mentions),
        _ => true,
    }
}

fn has_mentions(entry: &Entry) -> bool
    ensures { IsTrue result ↔ roles.HasMentions entry.now }
{
    1 <= entry.mentions.len() && entry.mentions.len() <= MOST_MENTIONS
}

/// Whether each mention has a role of the kind.
fn has_roles(kind: EntryKind, mentions: &[Mention]) -> bool
    ensures { IsTrue result ↔ EachOf (λ (x : model.Mention). roles.is_role_of kind x.role ≡ true) mentions.now }
{
    mentions.iter().all(|m| is_role_of(kind, m.role))
}
