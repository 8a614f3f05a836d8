//! Records of no other kind that would be register entries.

ghost use Rattle.std.specs.Prelude.{◌≡◌, bytes_eq, codes, option_map};
ghost use Rattle.std.specs.List.{list_all};
ghost use Rattle.record_kinds.specs.Model as model;
ghost use Rattle.record_shapes.specs.Entries as entries;
ghost use Rattle.archive_state.specs.Known.{known_of, tag_at, written_tag};
ghost use Rattle.archive_state.specs.Looks.{CountsFailures, Looked};
ghost use Rattle.archive_state.specs.Views.{On};
ghost use Rattle.field_rows.specs.Named.{named_tag};
ghost use Rattle.place_names.specs.Known as known;
ghost use Rattle.place_names.specs.Naming as naming;

use crate::known::OnePath;
use archive_state::View;
use entry_reading::entry_of;
use field_rows::{Named, number_of};
use record_kinds::{Entry, Link, Mention, Other, Record};
use record_text::RefusalKind;
use std::alloc::Global;
use stored_lines::Carried;

/// Whether the record would be a register entry, if the place of a number has this path. The lines are compared first,
/// and then it is looked whether they name a source and persons.
pub(crate) fn is_entry<V: View>(
    alloc: Global,
    view: &mut V,
    number: u32,
    path: &str,
    other: &Other,
) -> Result<bool, RefusalKind>
    ensures shows { On V.View view.old view.new
        (λ c. Looked result (λ is. is ≡ naming.is_entry (naming.known_as c number path.now) other.now)) }
    ensures counts { CountsFailures (V.failed view.old) (V.failed view.new) result }
{
    if !is_register(other) {
        return Ok(false);
    }
    let known = OnePath {
        number,
        path,
        source: source_of(&other.carried),
    };
    match entry_of(alloc, &known, &other.value, &other.carried)? {
        Some(entry) => names_right(alloc, view, &entry),
        None => Ok(false),
    }
}

/// Whether the record has the tag of a register entry.
fn is_register(other: &Other) -> bool
    ensures { result ≡ bytes_eq other.now.tag (codes "_REG") }
{
    other.tag.as_str() == "_REG"
}

/// The number on the first line of a source; 0 if there is none.
fn source_of(lines: &[Carried]) -> u32
    ensures { result ≡ entries.number_on (entries.line_at (codes "SOUR") lines.now) }
{
    match first_source(lines) {
        Some(line) => number_of(line),
        None => 0,
    }
}

fn first_source<'a>(lines: &'a [Carried]) -> Option<&'a Carried>
    ensures { option_map (λ t. t.now) result ≡ entries.line_at (codes "SOUR") lines.now }
{
    let mut rest = lines;
    while let Some((line, more)) = rest.split_first() {
        if line.tag.as_str() == "SOUR" {
            return Some(line);
        }
        rest = more;
    }
    None
}

/// Whether the entry names a source, and persons in its mentions.
fn names_right<V: View>(alloc: Global, view: &mut V, entry: &Entry) -> Result<bool, RefusalKind>
    ensures shows { On V.View view.old view.new
        (λ c. Looked result (λ right. right ≡ known.names_right c entry.now)) }
    ensures counts { CountsFailures (V.failed view.old) (V.failed view.new) result }
{
    if !is_written_as(view.record_at(alloc, entry.source)?, Named::Source) {
        return Ok(false);
    }
    name_persons(alloc, view, &entry.mentions)
}

/// Whether the mentions that have a link are of persons.
fn name_persons<V: View>(
    alloc: Global,
    view: &mut V,
    mentions: &[Mention],
) -> Result<bool, RefusalKind>
    ensures shows { On V.View view.old view.new (λ c. Looked result (λ all. all ≡ list_all
        (λ (m : model.Mention). entries.names_person (known_of c.records) m.link) mentions.now)) }
    ensures counts { CountsFailures (V.failed view.old) (V.failed view.new) result }
{
    'mentions: for mention in mentions {
        if !names_person(alloc, view, &mention.link)? {
            return Ok(false);
        }
    }
    Ok(true)
}

/// Whether there is no link, or one to a person.
fn names_person<V: View>(
    alloc: Global,
    view: &mut V,
    link: &Option<Link>,
) -> Result<bool, RefusalKind>
    ensures shows { On V.View view.old view.new
        (λ c. Looked result (λ is. is ≡ entries.names_person (known_of c.records) link.now)) }
    ensures counts { CountsFailures (V.failed view.old) (V.failed view.new) result }
{
    match link {
        None => Ok(true),
        Some(link) => Ok(is_written_as(view.record_at(alloc, link.person)?, Named::Person)),
    }
}

/// Whether the record is written at level 0 with the tag of that kind.
fn is_written_as(found: Option<Record>, kind: Named) -> bool
    ensures { result ≡ bytes_eq (tag_at found) (named_tag kind) }
{
    let Some(record) = found else {
        return false;
    };
    let is = tag_of(&record) == word_of(kind);
    drop(record);
    is
}

/// The tag of a record at level 0; of an event or a citation none.
fn tag_of(found: &Record) -> &str
    ensures { result.now ≡ written_tag found.now }
{
    match found {
        Record::Place(_) => "_LOC",
        Record::Repo(_) => "REPO",
        Record::Source(_) => "SOUR",
        Record::Person(_) => "INDI",
        Record::Family(_) => "FAM",
        Record::Entry(_) => "_REG",
        Record::Other(other) => other.tag.as_str(),
        Record::Event(_) | Record::Citation(_) => "",
    }
}

fn word_of(kind: Named) -> &'static str
    ensures { result.now ≡ named_tag kind }
{
    match kind {
        Named::Repo => "REPO",
        Named::Source => "SOUR",
        Named::Person => "INDI",
        Named::Family => "FAM",
    }
}
