//! The rules of register entries.

ghost use Rattle.std.specs.Prelude.{◌≡◌, option_map};
ghost use Rattle.std.specs.List.{list_all};
ghost use Rattle.record_shapes.specs.Entries as entries;
ghost use Rattle.entry_reading.specs.Guess.{fits};

use field_rows::{Known, Named, has_part};
use record_fields::EntryKind;
use record_kinds::{Entry, Link, Mention};
use record_shapes::is_role_of;

/// The most mentions that an entry has.
const MOST_MENTIONS: usize = 100;

/// Whether an entry names a source, has a place that is known, and 1 to 100 mentions with roles of its kind.
pub(crate) fn is_entry<K: Known>(known: &K, entry: &Entry) -> bool
    ensures { result ≡ entries.is_entry (K.known known.now) entry.now }
{
    known.is_of(entry.source, Named::Source)
        && is_said(known, entry.place)
        && 1 <= entry.mentions.len()
        && entry.mentions.len() <= MOST_MENTIONS
        && are_fit(known, entry.kind, entry.mentions.as_slice())
}

/// Whether a place, where there is one, has a path with a part that is not empty.
fn is_said<K: Known>(known: &K, place: Option<u32>) -> bool
    ensures { result ≡ entries.is_said (K.known known.now) place }
{
    match place {
        Some(number) => is_said_path(known.path(number)),
        None => true,
    }
}

fn is_said_path(path: Option<&str>) -> bool
    ensures { result ≡ entries.is_said_path (option_map (λ p. p.now) path.entry) }
{
    match path {
        Some(path) => has_part(path),
        None => false,
    }
}

/// Whether each mention has a role of the kind, and its link names a person.
fn are_fit<K: Known>(known: &K, kind: EntryKind, mentions: &[Mention]) -> bool
    ensures { result ≡ list_all (fits (K.known known.now) kind) mentions.now }
{
    let mut rest = mentions;
    'mentions: while let Some((mention, more)) = rest.split_first() {
        if !is_fit(known, kind, mention) {
            return false;
        }
        rest = more;
    }
    true
}

fn is_fit<K: Known>(known: &K, kind: EntryKind, mention: &Mention) -> bool
    ensures { result ≡ fits (K.known known.now) kind mention.now }
{
    is_role_of(kind, mention.role) && names_person(known, &mention.link)
}

/// Whether a link, where there is one, names a person.
fn names_person<K: Known>(known: &K, link: &Option<Link>) -> bool
    ensures { result ≡ entries.names_person (K.known known.now) link.now }
{
    match link {
        Some(link) => known.is_of(link.person, Named::Person),
        None => true,
    }
}
