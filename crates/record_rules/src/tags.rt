//! The tags in a record.

ghost use Rattle.std.specs.Prelude.{◌≡◌, ◌++◌, ◌↔◌, IsTrue, Bool};
ghost use Rattle.std.specs.List.{list_all};
ghost use Rattle.stored_lines.specs.Line.{Line};
ghost use Rattle.record_shapes.specs.Lists.{EachOf};
ghost use Rattle.archive_state.specs.Carried.{carried_tags};
ghost use Rattle.archive_state.specs.Sound.{IsOfRecords, own_tags};
ghost use Rattle.record_rules.specs.Judged as judged;

use crate::lines::{Judge, carried_fit};
use record_kinds::Record;
use record_text::Tag;
use stored_lines::Carried;

/// Whether each tag in the record may be there: none is that of a line that continues a text.
pub fn has_tags(record: &Record) -> bool
    ensures { IsTrue result ↔ EachOf IsOfRecords (own_tags «record».now ++ carried_tags «record».now) }
{
    are_of_records(record)
}

#[tactic(auto, using(crate::proofs::Leaves::tags_all))]
fn are_of_records(record: &Record) -> bool
    ensures { result ≡ judged.has_tags «record».now }
{
    has_own_tags(record) && carried_fit(&OfRecords, record)
}

/// The same of the tags that are fields.
fn has_own_tags(record: &Record) -> bool
    ensures { result ≡ list_all judged.is_of_records (own_tags «record».now) }
{
    match record {
        Record::Event(event) => is_of_records(&event.tag),
        Record::Other(other) => is_of_records(&other.tag),
        _ => true,
    }
}

/// What is asked of the tag of a line.
struct OfRecords;

impl Judge for OfRecords {
    ghost fit = { λ j (l : Line). judged.is_of_records l.tag };

    fn fits(&self, line: &Carried) -> bool {
        is_of_records(&line.tag)
    }
}

/// Whether the tag may be in a record.
fn is_of_records(tag: &Tag) -> bool
    ensures { result ≡ judged.is_of_records tag.now }
{
    let word = tag.as_str();
    word != "CONC" && word != "CONT"
}
