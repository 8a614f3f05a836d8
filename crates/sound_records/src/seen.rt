//! What lines can know of the records of a state.

ghost use Rattle.std.specs.Prelude.{◌≡◌, bytes_eq};
ghost use Rattle.std.specs.FinMap.{get};
ghost use Rattle.archive_state.specs.Content.{Records};
ghost use Rattle.archive_state.specs.Known.{tag_at, written_tag};
ghost use Rattle.field_rows.specs.Named.{named_tag};

use crate::paths::Paths;
use archive_state::State;
use field_rows::{Known, Named};
use record_kinds::Record;

/// The records of a state, and the paths of its places.
#[derive(Clone, Copy)]
pub struct Seen<'a> {
    pub state: &'a State,
    pub paths: &'a Paths,
}

impl<'a> Known for Seen<'a> {
    ghost use Rattle.sound_records.specs.Knowing.{known_by};

    ghost known = { λ k. known_by k.state.now.records k.paths.now };

    fn is_of(&self, number: u32, kind: Named) -> bool {
        is_written_as(self.state, number, kind)
    }

    fn path(&self, number: u32) -> Option<&str> {
        self.paths.path(number)
    }
}

/// The same, only with the paths of the places before a number.
#[derive(Clone, Copy)]
pub struct Before<'a> {
    pub state: &'a State,
    pub paths: &'a Paths,
    pub bound: u32,
}

impl<'a> Known for Before<'a> {
    ghost use Rattle.sound_records.specs.Knowing.{known_by_before};

    ghost known = { λ k. known_by_before k.state.now.records k.paths.now k.bound };

    fn is_of(&self, number: u32, kind: Named) -> bool {
        is_written_as(self.state, number, kind)
    }

    fn path(&self, number: u32) -> Option<&str> {
        if number < self.bound {
            self.paths.path(number)
        } else {
            None
        }
    }
}

/// Whether the record of a number is written at level 0 with the tag of that kind.
fn is_written_as(state: &State, number: u32, kind: Named) -> bool
    ensures { result ≡ bytes_eq (tag_at (get state.now.records number)) (named_tag kind) }
{
    match state.record(number) {
        Some(found) => tag_of(found) == word_of(kind),
        None => false,
    }
}

/// The tag of a record at level 0; of an event or a citation none.
fn tag_of(found: &Record) -> &str
    ensures { result.now ≡ written_tag found.now }
{
    match found {
        Record::Place(_) => "_LOC",
        Record::Repo(_) => "REPO",
        Record::Source(_) => "SOUR",
        Record::Person(_) => "INDI",
        Record::Family(_) => "FAM",
        Record::Entry(_) => "_REG",
        Record::Other(other) => other.tag.as_str(),
        Record::Event(_) | Record::Citation(_) => "",
    }
}

fn word_of(kind: Named) -> &'static str
    ensures { result.now ≡ named_tag kind }
{
    match kind {
        Named::Repo => "REPO",
        Named::Source => "SOUR",
        Named::Person => "INDI",
        Named::Family => "FAM",
    }
}
