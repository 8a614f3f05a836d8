//! The bytes of a command and their digest.

ghost use Rattle.std.specs.Prelude.{◌≡◌, IfOk, decimal, string_bytes};
ghost use Rattle.record_fields.specs.Words.{quality_word, sex_word};
ghost use Rattle.commands.specs.Bytes.{bytes_of, digest_of, or_empty, spelt};
ghost use Rattle.commands.specs.declared.command.Command.TheVariants as command;
ghost use Rattle.commands.specs.declared.row_command.RowCommand.TheVariants as row_command;

use crate::command::Command;
use crate::correction_bytes::correct_bytes;
use crate::entry_bytes::{entries_bytes, entry_bytes};
use crate::field::Field;
use crate::forest_bytes::{forest_bytes, forest_digest};
use crate::given::GivenDate;
use crate::member_bytes::{partner_bytes, two_numbers};
use crate::row_command::RowCommand;
use crate::rows::verb_row;
use crate::verb::Verb;
use record_fields::{Quality, Sex};
use sha2::{Digest, Sha256};
use std::alloc::{AllocError, Global};

/// The SHA-256 of the command's bytes: FIPS 180-4. Of an import they are not put together: each record is written for
/// itself. Refused only if out of memory.
pub fn command_digest(alloc: Global, command: &Command) -> Result<[u8; 32], AllocError>
    ensures { IfOk result (λ digest. digest ≡ digest_of command.now) }
{
    match command {
        Command::Import(forest) => forest_digest(alloc, forest),
        _ => {
            let bytes = command_bytes(alloc, command)?;
            Ok(Sha256::digest(bytes.as_slice()))
        }
    }
}

/// The bytes of a command: of one row, its verb and its fields as a row of CSV, numbers without leading zeros and
/// dates in canonical spelling; of a batch of entries, `entries,`, the number of its source, LF, and then each row
/// so, without verb and source; of an import, `import`, LF, and then the canonical text of its forest. Refused only for
/// out of memory.
pub fn command_bytes(alloc: Global, command: &Command) -> Result<Vec<u8>, AllocError>
    ensures { IfOk result (λ bytes. bytes.items ≡ bytes_of command.now) }
{
    match command {
        Command::Row(row) => row_command_bytes(alloc, row),
        Command::Entries { source, rows } => entries_bytes(alloc, *source, rows),
        Command::Import(forest) => forest_bytes(alloc, forest),
    }
}

fn row_command_bytes(alloc: Global, row: &RowCommand) -> Result<Vec<u8>, AllocError>
    ensures { IfOk result (λ bytes. bytes.items ≡ bytes_of (command.Row row.now)) }
{
    match row {
        RowCommand::Person { name, sex } => person_bytes(alloc, name, *sex),
        RowCommand::Name { person, name } => name_bytes(alloc, *person, name),
        RowCommand::Sex { person, sex } => sex_bytes(alloc, *person, *sex),
        RowCommand::Family { husband, wife } => family_bytes(alloc, *husband, *wife),
        RowCommand::Child { family, person } => child_bytes(alloc, *family, *person),
        RowCommand::Event {
            owner,
            tag,
            value,
            date,
            place,
        } => event_bytes(alloc, *owner, tag, value, date, *place),
        RowCommand::Amend {
            event,
            value,
            date,
            place,
        } => amend_bytes(alloc, *event, value, date, *place),
        RowCommand::Participant {
            event,
            person,
            role,
        } => participant_bytes(alloc, *event, *person, role),
        RowCommand::Place { name, parent } => place_bytes(alloc, name, *parent),
        RowCommand::Repo { name } => repo_bytes(alloc, name),
        RowCommand::Source {
            title,
            author,
            publisher,
            repo,
            call_number,
        } => source_bytes(alloc, title, author, publisher, *repo, call_number),
        RowCommand::Citation {
            owner,
            source,
            page,
            quality,
        } => citation_bytes(alloc, *owner, *source, page, *quality),
        RowCommand::Entry { source, entry } => entry_bytes(alloc, *source, entry),
        RowCommand::Link {
            entry,
            mention,
            person,
            reason,
        } => link_bytes(alloc, *entry, *mention, *person, reason),
        RowCommand::Unlink { entry, mention } => unlink_bytes(alloc, *entry, *mention),
        RowCommand::Merge { keep, gone } => merge_bytes(alloc, *keep, *gone),
        RowCommand::Undo { slip } => undo_bytes(alloc, *slip),
        RowCommand::Remove { number } => remove_bytes(alloc, *number),
        RowCommand::Partner {
            family,
            partnership,
            person,
        } => partner_bytes(alloc, *family, *partnership, *person),
        RowCommand::Unpartner { family, person } => {
            two_numbers(alloc, Verb::Unpartner, *family, *person)
        }
        RowCommand::Unchild { family, person } => {
            two_numbers(alloc, Verb::Unchild, *family, *person)
        }
        RowCommand::Unparticipant { event, place } => {
            two_numbers(alloc, Verb::Unparticipant, *event, *place)
        }
        RowCommand::Correct { number, given } => correct_bytes(alloc, *number, given),
    }
}

fn person_bytes(alloc: Global, name: &Field, sex: Option<Sex>) -> Result<Vec<u8>, AllocError>
    ensures { IfOk result (λ bytes. bytes.items ≡ bytes_of (command.Row (row_command.Person name.now sex))) }
{
    verb_row(alloc, Verb::Person, &[name.as_str(), letter_or_empty(sex)])
}

fn name_bytes(alloc: Global, person: u32, name: &Field) -> Result<Vec<u8>, AllocError>
    ensures { IfOk result (λ bytes. bytes.items ≡ bytes_of (command.Row (row_command.Name person name.now))) }
{
    let person = person.to_string(alloc)?;
    verb_row(alloc, Verb::Name, &[person.as_str(), name.as_str()])
}

fn sex_bytes(alloc: Global, person: u32, sex: Sex) -> Result<Vec<u8>, AllocError>
    ensures { IfOk result (λ bytes. bytes.items ≡ bytes_of (command.Row (row_command.Sex person sex))) }
{
    let person = person.to_string(alloc)?;
    verb_row(alloc, Verb::Sex, &[person.as_str(), sex.as_str()])
}

fn family_bytes(
    alloc: Global,
    husband: Option<u32>,
    wife: Option<u32>,
) -> Result<Vec<u8>, AllocError>
    ensures { IfOk result (λ bytes. bytes.items ≡ bytes_of (command.Row (row_command.Family husband wife))) }
{
    let husband = number_or_empty(alloc, husband)?;
    let wife = number_or_empty(alloc, wife)?;
    verb_row(alloc, Verb::Family, &[husband.as_str(), wife.as_str()])
}

fn child_bytes(alloc: Global, family: u32, person: u32) -> Result<Vec<u8>, AllocError>
    ensures { IfOk result (λ bytes. bytes.items ≡ bytes_of (command.Row (row_command.Child family person))) }
{
    let family = family.to_string(alloc)?;
    let person = person.to_string(alloc)?;
    verb_row(alloc, Verb::Child, &[family.as_str(), person.as_str()])
}

fn event_bytes<'a>(
    alloc: Global,
    owner: u32,
    tag: &'a Field,
    value: &'a Field,
    date: &'a Option<GivenDate>,
    place: Option<u32>,
) -> Result<Vec<u8>, AllocError>
    ensures { IfOk result
        (λ bytes. bytes.items ≡ bytes_of (command.Row (row_command.Event owner tag.now value.now date.now place))) }
{
    let owner = owner.to_string(alloc)?;
    let place = number_or_empty(alloc, place)?;
    let fields = [
        owner.as_str(),
        tag.as_str(),
        value.as_str(),
        date_or_empty(date),
        place.as_str(),
    ];
    verb_row(alloc, Verb::Event, &fields)
}

fn amend_bytes(
    alloc: Global,
    event: u32,
    value: &Field,
    date: &Option<GivenDate>,
    place: Option<u32>,
) -> Result<Vec<u8>, AllocError>
    ensures { IfOk result
        (λ bytes. bytes.items ≡ bytes_of (command.Row (row_command.Amend event value.now date.now place))) }
{
    let event = event.to_string(alloc)?;
    let place = number_or_empty(alloc, place)?;
    let fields = [
        event.as_str(),
        value.as_str(),
        date_or_empty(date),
        place.as_str(),
    ];
    verb_row(alloc, Verb::Amend, &fields)
}

fn participant_bytes(
    alloc: Global,
    event: u32,
    person: u32,
    role: &Field,
) -> Result<Vec<u8>, AllocError>
    ensures { IfOk result
        (λ bytes. bytes.items ≡ bytes_of (command.Row (row_command.Participant event person role.now))) }
{
    let event = event.to_string(alloc)?;
    let person = person.to_string(alloc)?;
    let fields = [event.as_str(), person.as_str(), role.as_str()];
    verb_row(alloc, Verb::Participant, &fields)
}

fn place_bytes(alloc: Global, name: &Field, parent: Option<u32>) -> Result<Vec<u8>, AllocError>
    ensures { IfOk result (λ bytes. bytes.items ≡ bytes_of (command.Row (row_command.Place name.now parent))) }
{
    let parent = number_or_empty(alloc, parent)?;
    verb_row(alloc, Verb::Place, &[name.as_str(), parent.as_str()])
}

fn repo_bytes(alloc: Global, name: &Field) -> Result<Vec<u8>, AllocError>
    ensures { IfOk result (λ bytes. bytes.items ≡ bytes_of (command.Row (row_command.Repo name.now))) }
{
    verb_row(alloc, Verb::Repo, &[name.as_str()])
}

fn source_bytes<'a>(
    alloc: Global,
    title: &'a Field,
    author: &'a Field,
    publisher: &'a Field,
    repo: Option<u32>,
    call_number: &'a Field,
) -> Result<Vec<u8>, AllocError>
    ensures { IfOk result (λ bytes. bytes.items
        ≡ bytes_of (command.Row (row_command.Source title.now author.now publisher.now repo call_number.now))) }
{
    let repo = number_or_empty(alloc, repo)?;
    let fields = [
        title.as_str(),
        author.as_str(),
        publisher.as_str(),
        repo.as_str(),
        call_number.as_str(),
    ];
    verb_row(alloc, Verb::Source, &fields)
}

fn citation_bytes(
    alloc: Global,
    owner: u32,
    source: u32,
    page: &Field,
    quality: Option<Quality>,
) -> Result<Vec<u8>, AllocError>
    ensures { IfOk result
        (λ bytes. bytes.items ≡ bytes_of (command.Row (row_command.Citation owner source page.now quality))) }
{
    let owner = owner.to_string(alloc)?;
    let source = source.to_string(alloc)?;
    let fields = [
        owner.as_str(),
        source.as_str(),
        page.as_str(),
        digit_or_empty(quality),
    ];
    verb_row(alloc, Verb::Citation, &fields)
}

fn link_bytes(
    alloc: Global,
    entry: u32,
    mention: u32,
    person: u32,
    reason: &Field,
) -> Result<Vec<u8>, AllocError>
    ensures { IfOk result
        (λ bytes. bytes.items ≡ bytes_of (command.Row (row_command.Link entry mention person reason.now))) }
{
    let entry = entry.to_string(alloc)?;
    let mention = mention.to_string(alloc)?;
    let person = person.to_string(alloc)?;
    let fields = [
        entry.as_str(),
        mention.as_str(),
        person.as_str(),
        reason.as_str(),
    ];
    verb_row(alloc, Verb::Link, &fields)
}

fn unlink_bytes(alloc: Global, entry: u32, mention: u32) -> Result<Vec<u8>, AllocError>
    ensures { IfOk result (λ bytes. bytes.items ≡ bytes_of (command.Row (row_command.Unlink entry mention))) }
{
    let entry = entry.to_string(alloc)?;
    let mention = mention.to_string(alloc)?;
    verb_row(alloc, Verb::Unlink, &[entry.as_str(), mention.as_str()])
}

fn merge_bytes(alloc: Global, keep: u32, gone: u32) -> Result<Vec<u8>, AllocError>
    ensures { IfOk result (λ bytes. bytes.items ≡ bytes_of (command.Row (row_command.Merge keep gone))) }
{
    let keep = keep.to_string(alloc)?;
    let gone = gone.to_string(alloc)?;
    verb_row(alloc, Verb::Merge, &[keep.as_str(), gone.as_str()])
}

fn undo_bytes(alloc: Global, slip: u32) -> Result<Vec<u8>, AllocError>
    ensures { IfOk result (λ bytes. bytes.items ≡ bytes_of (command.Row (row_command.Undo slip))) }
{
    let slip = slip.to_string(alloc)?;
    verb_row(alloc, Verb::Undo, &[slip.as_str()])
}

fn remove_bytes(alloc: Global, number: u32) -> Result<Vec<u8>, AllocError>
    ensures { IfOk result (λ bytes. bytes.items ≡ bytes_of (command.Row (row_command.Remove number))) }
{
    let number = number.to_string(alloc)?;
    verb_row(alloc, Verb::Remove, &[number.as_str()])
}

/// A number as digits, or nothing.
pub(crate) fn number_or_empty(alloc: Global, number: Option<u32>) -> Result<String, AllocError>
    ensures { IfOk result (λ digits. string_bytes digits ≡ or_empty decimal number) }
{
    match number {
        Some(number) => Ok(number.to_string(alloc)?),
        None => Ok(String::new(alloc)),
    }
}

/// The letter of a sex, or nothing.
pub(crate) fn letter_or_empty<'a>(sex: Option<Sex>) -> &'a str
    ensures { result.now ≡ or_empty sex_word sex }
{
    match sex {
        Some(sex) => sex.as_str(),
        None => "",
    }
}

/// The digit of a quality, or nothing.
pub(crate) fn digit_or_empty<'a>(quality: Option<Quality>) -> &'a str
    ensures { result.now ≡ or_empty quality_word quality }
{
    match quality {
        Some(quality) => quality.as_str(),
        None => "",
    }
}

/// The canonical spelling of a date, or nothing.
pub(crate) fn date_or_empty(date: &Option<GivenDate>) -> &str
    ensures { result.now ≡ or_empty spelt date.now }
{
    match date {
        Some(date) => date.spelling(),
        None => "",
    }
}
