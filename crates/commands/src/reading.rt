//! Rows of a request read as commands.

ghost use Rattle.std.specs.Prelude.{◌≡◌, ◌∷◌, [], IfOk, map};
ghost use Rattle.std.specs.Char.{is_ascii_digit};
ghost use Rattle.std.specs.List.{list_all};
ghost use Rattle.commands.specs.Dated.{given_of};
ghost use Rattle.commands.specs.Rows.{Decided, Reads, number_in, or_none, quality_in, read_fields, sex_in};
ghost use Rattle.commands.specs.declared.verb.Verb.TheVariants as verb;

use crate::correction_reading::correct;
use crate::entry_reading::entry_of_fields;
use crate::field::Field;
use crate::given::GivenDate;
use crate::member_reading::{partner, unchild, unparticipant, unpartner};
use crate::row_command::RowCommand;
use crate::verb::Verb;
use record_fields::{Quality, Sex};
use record_text::RefusalKind;
use std::alloc::{AllocError, Global};

impl RowCommand {
    /// The command of a row: its verb, and the fields after it. Refused are, in this order, an unknown verb
    /// (`UnknownVerb`), too few or too many fields (`FieldCount`), and a field that is not of its type (`BadRow`).
    /// `OutOfMemory` may come in place of any answer.
    pub fn of_row(alloc: Global, verb: &str, fields: &[&str]) -> Result<RowCommand, RefusalKind>
        ensures { Decided result (Reads (verb.now ∷ map (λ f. f.now) fields.now)) }
    {
        match Verb::from_word(verb) {
            Some(verb) => of_fields(alloc, verb, fields),
            None => Err(RefusalKind::UnknownVerb),
        }
    }
}

/// The command of a verb and its fields.
fn of_fields(alloc: Global, verb: Verb, fields: &[&str]) -> Result<RowCommand, RefusalKind>
    ensures { Decided result (λ r. r ≡ read_fields given_of verb (map (λ f. f.now) fields.now)) }
{
    match (verb, fields) {
        (Verb::Person, [name, sex]) => person(alloc, name, sex),
        (Verb::Name, [person, name]) => further_name(alloc, person, name),
        (Verb::Sex, [person, sex]) => sex_of(person, sex),
        (Verb::Family, [husband, wife]) => family(husband, wife),
        (Verb::Child, [family, person]) => child(family, person),
        (Verb::Event, [owner, tag, value, date, place]) => {
            event(alloc, owner, tag, value, date, place)
        }
        (Verb::Amend, [event, value, date, place]) => amend(alloc, event, value, date, place),
        (Verb::Participant, [event, person, role]) => participant(alloc, event, person, role),
        (Verb::Place, [name, parent]) => place(alloc, name, parent),
        (Verb::Repo, [name]) => repo(alloc, name),
        (Verb::Source, [title, author, publisher, repo, call_number]) => {
            source(alloc, title, author, publisher, repo, call_number)
        }
        (Verb::Citation, [owner, source, page, quality]) => {
            citation(alloc, owner, source, page, quality)
        }
        (Verb::Entry, [source, fields @ ..]) => entry(alloc, source, fields),
        (Verb::Link, [entry, mention, person, reason]) => {
            link(alloc, entry, mention, person, reason)
        }
        (Verb::Unlink, [entry, mention]) => unlink(entry, mention),
        (Verb::Merge, [keep, gone]) => merge(keep, gone),
        (Verb::Undo, [slip]) => undo(slip),
        (Verb::Remove, [number]) => remove(number),
        (Verb::Partner, [family, role, person]) => partner(family, role, person),
        (Verb::Unpartner, [family, person]) => unpartner(family, person),
        (Verb::Unchild, [family, person]) => unchild(family, person),
        (Verb::Unparticipant, [event, place]) => unparticipant(event, place),
        (Verb::Correct, [number, field, value]) => correct(alloc, number, field, value),
        // An arm of their own: `auto` follows no more than sixteen ways into one.
        (Verb::Place | Verb::Repo | Verb::Source | Verb::Citation, _) => Err(
            RefusalKind::FieldCount,
        ),
        (Verb::Entry | Verb::Link | Verb::Unlink, _) => Err(RefusalKind::FieldCount),
        (Verb::Merge | Verb::Undo | Verb::Remove, _) => Err(RefusalKind::FieldCount),
        (Verb::Partner | Verb::Unpartner | Verb::Unchild | Verb::Unparticipant, _) => Err(
            RefusalKind::FieldCount,
        ),
        (Verb::Correct, _) => Err(RefusalKind::FieldCount),
        _ => Err(RefusalKind::FieldCount),
    }
}

fn person(alloc: Global, name: &str, sex: &str) -> Result<RowCommand, RefusalKind>
    ensures { Decided result (λ r. r ≡ read_fields given_of verb.Person (name.now ∷ sex.now ∷ [])) }
{
    let sex = sex_or_none(sex)?;
    let name = words_in(alloc, name)?;
    Ok(RowCommand::Person { name, sex })
}

fn further_name(alloc: Global, person: &str, name: &str) -> Result<RowCommand, RefusalKind>
    ensures { Decided result (λ r. r ≡ read_fields given_of verb.Name (person.now ∷ name.now ∷ [])) }
{
    let person = number_in(person)?;
    let name = words_in(alloc, name)?;
    Ok(RowCommand::Name { person, name })
}

fn sex_of(person: &str, sex: &str) -> Result<RowCommand, RefusalKind>
    ensures { result ≡ read_fields given_of verb.Sex (person.now ∷ sex.now ∷ []) }
{
    let person = number_in(person)?;
    let sex = sex_in(sex)?;
    Ok(RowCommand::Sex { person, sex })
}

fn family(husband: &str, wife: &str) -> Result<RowCommand, RefusalKind>
    ensures { result ≡ read_fields given_of verb.Family (husband.now ∷ wife.now ∷ []) }
{
    let husband = number_or_none(husband)?;
    let wife = number_or_none(wife)?;
    Ok(RowCommand::Family { husband, wife })
}

fn child(family: &str, person: &str) -> Result<RowCommand, RefusalKind>
    ensures { result ≡ read_fields given_of verb.Child (family.now ∷ person.now ∷ []) }
{
    let family = number_in(family)?;
    let person = number_in(person)?;
    Ok(RowCommand::Child { family, person })
}

fn event(
    alloc: Global,
    owner: &str,
    tag: &str,
    value: &str,
    date: &str,
    place: &str,
) -> Result<RowCommand, RefusalKind>
    ensures { Decided result (λ r. r
        ≡ read_fields given_of verb.Event (owner.now ∷ tag.now ∷ value.now ∷ date.now ∷ place.now ∷ [])) }
{
    let owner = number_in(owner)?;
    let place = number_or_none(place)?;
    let tag = words_in(alloc, tag)?;
    let value = words_in(alloc, value)?;
    let date = date_or_none(alloc, date)?;
    Ok(RowCommand::Event {
        owner,
        tag,
        value,
        date,
        place,
    })
}

fn amend(
    alloc: Global,
    event: &str,
    value: &str,
    date: &str,
    place: &str,
) -> Result<RowCommand, RefusalKind>
    ensures { Decided result (λ r. r
        ≡ read_fields given_of verb.Amend (event.now ∷ value.now ∷ date.now ∷ place.now ∷ [])) }
{
    let event = number_in(event)?;
    let place = number_or_none(place)?;
    let value = words_in(alloc, value)?;
    let date = date_or_none(alloc, date)?;
    Ok(RowCommand::Amend {
        event,
        value,
        date,
        place,
    })
}

fn participant(
    alloc: Global,
    event: &str,
    person: &str,
    role: &str,
) -> Result<RowCommand, RefusalKind>
    ensures { Decided result (λ r. r
        ≡ read_fields given_of verb.Participant (event.now ∷ person.now ∷ role.now ∷ [])) }
{
    let event = number_in(event)?;
    let person = number_in(person)?;
    let role = words_in(alloc, role)?;
    Ok(RowCommand::Participant {
        event,
        person,
        role,
    })
}

fn place(alloc: Global, name: &str, parent: &str) -> Result<RowCommand, RefusalKind>
    ensures { Decided result (λ r. r ≡ read_fields given_of verb.Place (name.now ∷ parent.now ∷ [])) }
{
    let parent = number_or_none(parent)?;
    let name = words_in(alloc, name)?;
    Ok(RowCommand::Place { name, parent })
}

fn repo(alloc: Global, name: &str) -> Result<RowCommand, RefusalKind>
    ensures { Decided result (λ r. r ≡ read_fields given_of verb.Repo (name.now ∷ [])) }
{
    let name = words_in(alloc, name)?;
    Ok(RowCommand::Repo { name })
}

fn source(
    alloc: Global,
    title: &str,
    author: &str,
    publisher: &str,
    repo: &str,
    call_number: &str,
) -> Result<RowCommand, RefusalKind>
    ensures { Decided result (λ r. r
        ≡ read_fields given_of verb.Source (title.now ∷ author.now ∷ publisher.now ∷ repo.now ∷ call_number.now ∷ [])) }
{
    let repo = number_or_none(repo)?;
    let title = words_in(alloc, title)?;
    let author = words_in(alloc, author)?;
    let publisher = words_in(alloc, publisher)?;
    let call_number = words_in(alloc, call_number)?;
    Ok(RowCommand::Source {
        title,
        author,
        publisher,
        repo,
        call_number,
    })
}

fn citation(
    alloc: Global,
    owner: &str,
    source: &str,
    page: &str,
    quality: &str,
) -> Result<RowCommand, RefusalKind>
    ensures { Decided result (λ r. r
        ≡ read_fields given_of verb.Citation (owner.now ∷ source.now ∷ page.now ∷ quality.now ∷ [])) }
{
    let owner = number_in(owner)?;
    let source = number_in(source)?;
    let quality = quality_or_none(quality)?;
    let page = words_in(alloc, page)?;
    Ok(RowCommand::Citation {
        owner,
        source,
        page,
        quality,
    })
}

fn entry(alloc: Global, source: &str, fields: &[&str]) -> Result<RowCommand, RefusalKind>
    ensures { Decided result (λ r. r ≡ read_fields given_of verb.Entry (source.now ∷ map (λ f. f.now) fields.now)) }
{
    let entry = entry_of_fields(alloc, fields)?;
    let source = number_in(source)?;
    Ok(RowCommand::Entry { source, entry })
}

fn link(
    alloc: Global,
    entry: &str,
    mention: &str,
    person: &str,
    reason: &str,
) -> Result<RowCommand, RefusalKind>
    ensures { Decided result (λ r. r
        ≡ read_fields given_of verb.Link (entry.now ∷ mention.now ∷ person.now ∷ reason.now ∷ [])) }
{
    let entry = number_in(entry)?;
    let mention = number_in(mention)?;
    let person = number_in(person)?;
    let reason = words_in(alloc, reason)?;
    Ok(RowCommand::Link {
        entry,
        mention,
        person,
        reason,
    })
}

fn unlink(entry: &str, mention: &str) -> Result<RowCommand, RefusalKind>
    ensures { result ≡ read_fields given_of verb.Unlink (entry.now ∷ mention.now ∷ []) }
{
    let entry = number_in(entry)?;
    let mention = number_in(mention)?;
    Ok(RowCommand::Unlink { entry, mention })
}

fn merge(keep: &str, gone: &str) -> Result<RowCommand, RefusalKind>
    ensures { result ≡ read_fields given_of verb.Merge (keep.now ∷ gone.now ∷ []) }
{
    let keep = number_in(keep)?;
    let gone = number_in(gone)?;
    Ok(RowCommand::Merge { keep, gone })
}

fn undo(slip: &str) -> Result<RowCommand, RefusalKind>
    ensures { result ≡ read_fields given_of verb.Undo (slip.now ∷ []) }
{
    let slip = number_in(slip)?;
    Ok(RowCommand::Undo { slip })
}

fn remove(number: &str) -> Result<RowCommand, RefusalKind>
    ensures { result ≡ read_fields given_of verb.Remove (number.now ∷ []) }
{
    let number = number_in(number)?;
    Ok(RowCommand::Remove { number })
}

/// The number of a field: 1 to 10 digits, of value 1 to 4,294,967,295.
pub(crate) fn number_in(field: &str) -> Result<u32, RefusalKind>
    ensures { result ≡ number_in field.now }
{
    if field.len() > 10 || !is_digits(field) {
        return Err(RefusalKind::BadRow);
    }
    match field.parse::<u32>() {
        Ok(number) if number != 0 => Ok(number),
        _ => Err(RefusalKind::BadRow),
    }
}

/// Whether there are only digits.
fn is_digits(field: &str) -> bool
    ensures { result ≡ list_all is_ascii_digit field.now }
{
    field.as_bytes().iter().all(|b| b.is_ascii_digit())
}

/// The number of a field, or none where it is empty.
pub(crate) fn number_or_none(field: &str) -> Result<Option<u32>, RefusalKind>
    ensures { result ≡ or_none number_in field.now }
{
    if field.is_empty() {
        return Ok(None);
    }
    Ok(Some(number_in(field)?))
}

/// The sex of a letter.
fn sex_in(field: &str) -> Result<Sex, RefusalKind>
    ensures { result ≡ sex_in field.now }
{
    match Sex::from_word(field) {
        Some(sex) => Ok(sex),
        None => Err(RefusalKind::BadRow),
    }
}

/// The sex of a letter, or none where the field is empty.
pub(crate) fn sex_or_none(field: &str) -> Result<Option<Sex>, RefusalKind>
    ensures { result ≡ or_none sex_in field.now }
{
    if field.is_empty() {
        return Ok(None);
    }
    Ok(Some(sex_in(field)?))
}

/// The quality of a digit.
fn quality_in(field: &str) -> Result<Quality, RefusalKind>
    ensures { result ≡ quality_in field.now }
{
    match Quality::from_word(field) {
        Some(quality) => Ok(quality),
        None => Err(RefusalKind::BadRow),
    }
}

/// The quality of a digit, or none where the field is empty.
pub(crate) fn quality_or_none(field: &str) -> Result<Option<Quality>, RefusalKind>
    ensures { result ≡ or_none quality_in field.now }
{
    if field.is_empty() {
        return Ok(None);
    }
    Ok(Some(quality_in(field)?))
}

/// The words of a field in memory of their own.
pub(crate) fn words_in(alloc: Global, field: &str) -> Result<Field, AllocError>
    ensures { IfOk result (λ words. words ≡ field.now) }
{
    let words = String::from_str(alloc, field)?;
    Ok(Field::new(words))
}

/// The date that the words of a field give, or none where it is empty.
pub(crate) fn date_or_none(alloc: Global, field: &str) -> Result<Option<GivenDate>, AllocError>
    ensures { IfOk result (λ found. found ≡ given_of field.now) }
{
    GivenDate::of_words(alloc, field)
}
