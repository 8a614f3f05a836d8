//! The words that a command is given.

ghost use Rattle.std.specs.Prelude.{◌≡◌, IfOk, [], codes, map, option_map, unwrap_or};
ghost use Rattle.std.specs.Int.{IsInRange};
ghost use Rattle.std.specs.Str.{bytes_eq};
ghost use Rattle.clap.specs.Words.{all_of, first_of, found_of, rows_of};
ghost use Rattle.command_line.specs.Meanings.{
  generations_of,
  kind_named,
  list_named,
  number_of,
  number_up_to,
  number_word,
  order_named,
  records_named,
  set_named,
};
ghost use Rattle.command_line.specs.Meanings as meanings;
ghost use Rattle.command_line.specs.declared.tasks.ListKind.TheVariants.{Records};

use crate::tasks::{ListKind, OrderName, RecordKind, SetName, SheetKind};
use clap::ArgMatches;
use row_references::{NumberWord, token_in};
use std::alloc::{AllocError, Global};

/// The generations of a pedigree where none are given.
const GENERATIONS: u32 = 4;

/// The word that a command is given for its FILE or for an option. `None`: it is given none.
pub(crate) fn given_word<'a>(given: &ArgMatches<'a>, id: &str) -> Option<&'a str>
    ensures { option_map (λ w. w.now) result ≡ first_of id.now (rows_of (found_of given.now)) }
{
    given.get_str(id)
}

/// The word that a command is given for its FILE or for an option. `clap` takes no words that lack one that has to be
/// there.
pub(crate) fn word_of<'a>(given: &ArgMatches<'a>, id: &str) -> &'a str
    ensures { result.now ≡ unwrap_or (first_of id.now (rows_of (found_of given.now))) [] }
{
    match given_word(given, id) {
        Some(word) => word,
        None => "",
    }
}

/// The words that a command is given for its last word.
pub(crate) fn words_of<'a>(
    alloc: Global,
    given: &ArgMatches<'a>,
    id: &str,
) -> Result<Vec<&'a str>, AllocError>
    ensures { IfOk result (λ words. map (λ w. w.now) words.items
        ≡ unwrap_or (all_of id.now (rows_of (found_of given.now))) []) }
{
    match given.get_strs(id) {
        Some(words) => Ok(collected(alloc, words)?),
        None => Ok(Vec::new(alloc)),
    }
}

fn collected<'a>(alloc: Global, words: &[&'a str]) -> Result<Vec<&'a str>, AllocError>
    ensures { IfOk result (λ all. all.items ≡ words.now) }
{
    let mut all = Vec::new(alloc);
    all.extend_from_slice(words)?;
    Ok(all)
}

/// The number of a record as a word gives it: a number from 1, or `@` and a token. `None`: it gives none.
pub(crate) fn number_word(alloc: Global, word: &str) -> Result<Option<NumberWord>, AllocError>
    ensures { IfOk result (λ given. given ≡ number_word word.now) }
{
    match token_in(alloc, word.as_bytes())? {
        Some(token) => Ok(Some(NumberWord::Reference(token))),
        None => Ok(plain_number(number_of(word))),
    }
}

/// A number that is given as such. `None`: it is 0.
fn plain_number(number: u32) -> Option<NumberWord>
    ensures { result ≡ meanings.plain_number number }
{
    if number == 0 {
        None
    } else {
        Some(NumberWord::Number(number))
    }
}

/// The number that a command is given for an option. `None`: it is given none.
pub(crate) fn given_number(given: &ArgMatches<'_>, id: &str) -> Option<u32>
    ensures { result ≡ option_map number_of (first_of id.now (rows_of (found_of given.now))) }
{
    match given_word(given, id) {
        Some(word) => Some(number_of(word)),
        None => None,
    }
}

/// The number of a word. `clap` takes no words that have another than a number of 32 bits where one has to be.
pub(crate) fn number_of(word: &str) -> u32
    ensures { result ≡ number_of word.now }
{
    match word.parse::<u32>() {
        Ok(number) => number,
        Err(_) => 0,
    }
}

/// The port of a word. `clap` takes no words that have another than 1 to 65,535 where one has to be.
pub(crate) fn port_of(word: &str) -> u16
    ensures { result ≡ number_up_to 65535 word.now }
{
    match word.parse::<u16>() {
        Ok(port) => port,
        Err(_) => 0,
    }
}

/// The generations of a pedigree that a word tells: those of a number from 1 to 12, and else 4.
pub(crate) fn generations_of(word: &str) -> u32
    ensures told { result ≡ generations_of word.now }
    ensures few { IsInRange 1 12 result }
{
    let count = number_of(word);
    if 1 <= count && count <= 12 {
        count
    } else {
        GENERATIONS
    }
}

/// Whether a flag is given: `clap` has the word `true` for one that is, and else `false`.
pub(crate) fn is_yes(word: &str) -> bool
    ensures { result ≡ bytes_eq word.now (codes "true") }
{
    word == "true"
}

/// The kind of sheet of a word. `None`: it is none.
pub(crate) fn kind_named(word: &str) -> Option<SheetKind>
    ensures { result ≡ kind_named word.now }
{
    match word {
        "person" => Some(SheetKind::Person),
        "family" => Some(SheetKind::Family),
        "pedigree" => Some(SheetKind::Pedigree),
        "register" => Some(SheetKind::Register),
        _ => None,
    }
}

/// The kind of records of a word. `None`: it is none.
pub(crate) fn records_named(word: &str) -> Option<RecordKind>
    ensures { result ≡ records_named word.now }
{
    match word {
        "persons" => Some(RecordKind::Persons),
        "families" => Some(RecordKind::Families),
        "events" => Some(RecordKind::Events),
        "places" => Some(RecordKind::Places),
        "repositories" => Some(RecordKind::Repositories),
        "sources" => Some(RecordKind::Sources),
        "citations" => Some(RecordKind::Citations),
        "entries" => Some(RecordKind::Entries),
        "others" => Some(RecordKind::Others),
        _ => None,
    }
}

/// What a word has listed. `None`: nothing.
pub(crate) fn list_named(word: &str) -> Option<ListKind>
    ensures { result ≡ list_named word.now }
{
    match word {
        "slips" => Some(ListKind::Slips),
        _ => records_listed(word),
    }
}

fn records_listed(word: &str) -> Option<ListKind>
    ensures { result ≡ option_map Records (records_named word.now) }
{
    match records_named(word) {
        Some(kind) => Some(ListKind::Records(kind)),
        None => None,
    }
}

/// The character set of a word. `None`: it is none.
pub(crate) fn set_named(word: &str) -> Option<SetName>
    ensures { result ≡ set_named word.now }
{
    match word {
        "utf-8" => Some(SetName::Utf8),
        "utf-16le" => Some(SetName::Utf16Le),
        "utf-16be" => Some(SetName::Utf16Be),
        "1252" => Some(SetName::Windows1252),
        "437" => Some(SetName::CodePage437),
        "850" => Some(SetName::CodePage850),
        "macintosh" => Some(SetName::Macintosh),
        "ansel" => Some(SetName::Ansel),
        _ => None,
    }
}

/// The order of dates of a word. `None`: it is none.
pub(crate) fn order_named(word: &str) -> Option<OrderName>
    ensures { result ≡ order_named word.now }
{
    match word {
        "dmy" => Some(OrderName::DayFirst),
        "mdy" => Some(OrderName::MonthFirst),
        _ => None,
    }
}
