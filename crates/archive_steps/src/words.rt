//! The words of commands.

ghost use Rattle.commands.specs.Sound.{WhereSome};
ghost use Rattle.record_shapes.specs.Lists.{EachOf};
ghost use Rattle.field_changes.specs.Laws.{IsUtf8Value};
ghost use Rattle.place_names.specs.Laws.{IsUtf8Given};
ghost use Rattle.archive_steps.specs.Words.{IsUtf8Date, IsUtf8Entry, IsUtf8Mention, IsUtf8Row};

use commands::{EntryRow, GivenCorrection, GivenDate, GivenMention, GivenValue, RowCommand};

/// Does nothing: it tells a proof that the words of a row are UTF-8.
pub fn tell_row(row: &RowCommand)
    ensures { IsUtf8Row row.now }
{
    match row {
        RowCommand::Person { name, .. }
        | RowCommand::Name { name, .. }
        | RowCommand::Place { name, .. }
        | RowCommand::Repo { name } => {
            let _ = name.as_str();
        }
        RowCommand::Event {
            tag,
            value,
            date,
            ..
        } => {
            let _ = tag.as_str();
            let _ = value.as_str();
            tell_date(date);
        }
        RowCommand::Amend { value, date, .. } => {
            let _ = value.as_str();
            tell_date(date);
        }
        RowCommand::Participant { role, .. } => {
            let _ = role.as_str();
        }
        RowCommand::Source {
            title,
            author,
            publisher,
            call_number,
            ..
        } => {
            let _ = title.as_str();
            let _ = author.as_str();
            let _ = publisher.as_str();
            let _ = call_number.as_str();
        }
        RowCommand::Citation { page, .. } => {
            let _ = page.as_str();
        }
        RowCommand::Entry { entry, .. } => tell_entry(entry),
        RowCommand::Link { reason, .. } => {
            let _ = reason.as_str();
        }
        RowCommand::Correct { given, .. } => tell_correction(given),
        RowCommand::Sex { .. }
        | RowCommand::Family { .. }
        | RowCommand::Child { .. }
        | RowCommand::Unlink { .. }
        | RowCommand::Merge { .. }
        | RowCommand::Undo { .. }
        | RowCommand::Remove { .. }
        | RowCommand::Partner { .. }
        | RowCommand::Unpartner { .. }
        | RowCommand::Unchild { .. }
        | RowCommand::Unparticipant { .. } => {}
    }
}

/// The same of a register entry as a row gives it, and that it has 1 to 100 mentions.
pub fn tell_entry(entry: &EntryRow)
    ensures { IsUtf8Entry entry.now }
{
    let _ = entry.page.as_str();
    let _ = entry.text.as_str();
    tell_date(&entry.date);
    tell_mentions(entry.mentions.as_slice());
}

/// The same of mentions, which are at most 100, so that the calls are not deep.
fn tell_mentions(mentions: &[GivenMention])
    ensures { EachOf IsUtf8Mention mentions.now }
{
    if let [first, more @ ..] = mentions {
        let _ = first.name.as_str();
        tell_mentions(more);
    }
}

/// The same of a correction.
fn tell_correction(given: &GivenCorrection)
    ensures { IsUtf8Given given.now }
{
    match given {
        GivenCorrection::Tag(words) => {
            let _ = words.as_str();
        }
        GivenCorrection::Value(value) => tell_value(value),
    }
}

/// The same of the value of a field.
fn tell_value(value: &GivenValue)
    ensures { IsUtf8Value value.now }
{
    match value {
        GivenValue::Date(date) => tell_date(date),
        GivenValue::Text(_, words) => {
            let _ = words.as_str();
        }
        GivenValue::Sex(_)
        | GivenValue::Place(_)
        | GivenValue::Repository(_)
        | GivenValue::Quality(_)
        | GivenValue::Item(_) => {}
    }
}

/// The same of a date, if there is one.
fn tell_date(date: &Option<GivenDate>)
    ensures { WhereSome IsUtf8Date date.now }
{
    if let Some(given) = date {
        let _ = given.spelling();
    }
}
