//! The commands that are given a kind of records, numbers of records or a character set.

ghost use Rattle.std.specs.Prelude.{
  ◌≡◌,
  ◌++◌,
  IfOk,
  MatchResult,
  OnOk,
  Some,
  ⊤,
  codes,
  flat_map,
  is_some,
  map,
  option_map,
  true,
};
ghost use Rattle.std.specs.List.{list_all};
ghost use Rattle.clap.specs.Words.{found_of, rows_of};
ghost use Rattle.command_line.specs.Asking.{
  AsksForWork,
  HasWords,
  IsMeant,
  is_fit,
  is_listed,
  is_meant,
  is_of_source,
  name_of,
};
ghost use Rattle.command_line.specs.Meanings.{
  is_number,
  is_searched,
  number_word,
  numbers_in,
  records_named,
  search_words,
  set_named,
};
ghost use Rattle.command_line.specs.declared.tasks.Refused.TheVariants.{OutOfMemory};

use crate::refusing::{no_entries, no_number, no_value, no_word};
use crate::shells::completions_of;
use crate::tasks::{Asked, ListKind, RecordKind, Refused, SetName};
use crate::words::{
    given_number, given_word, is_yes, list_named, number_of, number_word, records_named, set_named,
    word_of, words_of,
};
use clap::ArgMatches;
use row_references::NumberWord;
use searching::SearchWords;
use std::alloc::{AllocError, Global};

/// `convert`: a file in UTF-8. Refused where the character set is none.
pub(crate) fn convert_asked<'a>(alloc: Global, given: &ArgMatches<'a>) -> Result<Asked<'a>, Refused>
    ensures asked { IfOk result (λ a. name_of a ≡ Some (codes "convert")) }
    ensures words { IfOk result (HasWords (Some (codes "convert", rows_of (found_of given.now)))) }
    ensures taken { is_fit (Some (codes "convert", rows_of (found_of given.now))) ≡ true → AsksForWork result }
{
    let from = set_given(alloc, given_word(given, "from"))?;
    Ok(Asked::Convert { from })
}

/// The character set of an option. Refused where its word is none.
pub(crate) fn set_given(alloc: Global, word: Option<&str>) -> Result<Option<SetName>, Refused>
    ensures set { IfOk result (IsMeant set_named (option_map (λ w. w.now) word.entry)) }
    ensures taken { is_meant set_named (option_map (λ w. w.now) word.entry) ≡ true
        → MatchResult result (λ _. ⊤) (λ refused. refused ≡ OutOfMemory) }
{
    let Some(word) = word else {
        return Ok(None);
    };
    match set_named(word) {
        Some(set) => Ok(Some(set)),
        None => Err(no_value(alloc, word, "--from <SET>", SETS)),
    }
}

/// `list`: the records of a kind, or the slips. Refused where the kind is none, or a source is given and it is not that
/// of entries, or its word gives no number.
pub(crate) fn list_asked<'a>(alloc: Global, given: &ArgMatches<'a>) -> Result<Asked<'a>, Refused>
    ensures asked { IfOk result (λ a. name_of a ≡ Some (codes "list")) }
    ensures words { IfOk result (HasWords (Some (codes "list", rows_of (found_of given.now)))) }
    ensures taken { is_fit (Some (codes "list", rows_of (found_of given.now))) ≡ true → AsksForWork result }
{
    let word = word_of(given, "KIND");
    let Some(kind) = list_named(word) else {
        return Err(no_value(alloc, word, "<KIND>", LISTED));
    };
    let source = given_word(given, "source");
    if !is_listed(kind, is_there(source)) {
        return Err(no_entries(alloc, word));
    }
    Ok(Asked::List {
        file: word_of(given, "FILE"),
        kind,
        source: source_given(alloc, source)?,
        after: number_of(word_of(given, "after")),
        limit: given_number(given, "limit"),
        csv: is_yes(word_of(given, "csv")),
    })
}

/// Whether a word is given.
fn is_there(word: Option<&str>) -> bool
    ensures { result ≡ is_some (option_map (λ w. w.now) word.entry) }
{
    match word {
        Some(_) => true,
        None => false,
    }
}

/// Whether a list of that kind may be given a source, if it is given one.
fn is_listed(kind: ListKind, has_source: bool) -> bool
    ensures { result ≡ is_listed kind has_source }
{
    match kind {
        ListKind::Records(kind) => is_of_source(kind, has_source),
        ListKind::Slips => !has_source,
    }
}

/// The same of a list of records.
fn is_of_source(kind: RecordKind, has_source: bool) -> bool
    ensures { result ≡ is_of_source kind has_source }
{
    match kind {
        RecordKind::Entries => true,
        _ => !has_source,
    }
}

/// The number of the source as the word of an option gives it. Refused if it gives none.
fn source_given(alloc: Global, word: Option<&str>) -> Result<Option<NumberWord>, Refused>
    ensures source { IfOk result (IsMeant number_word (option_map (λ w. w.now) word.entry)) }
    ensures taken { is_meant number_word (option_map (λ w. w.now) word.entry) ≡ true
        → MatchResult result (λ _. ⊤) (λ refused. refused ≡ OutOfMemory) }
{
    let Some(word) = word else {
        return Ok(None);
    };
    match number_word(alloc, word)? {
        Some(number) => Ok(Some(number)),
        None => Err(no_number(alloc, word, "--source <N>")),
    }
}

/// The number of a source that has to be given, as its word gives it. Refused if it gives none.
pub(crate) fn source_of(alloc: Global, word: &str) -> Result<NumberWord, Refused>
    ensures source { IfOk result (λ number. number_word word.now ≡ Some number) }
    ensures taken { is_number word.now ≡ true → MatchResult result (λ _. ⊤) (λ refused. refused ≡ OutOfMemory) }
{
    match number_word(alloc, word)? {
        Some(number) => Ok(number),
        None => Err(no_number(alloc, word, "--source <N>")),
    }
}

/// `find`: the records with a name that has the words. Refused where a word has no letter and no digit, or the kind is
/// none.
pub(crate) fn find_asked<'a>(alloc: Global, given: &ArgMatches<'a>) -> Result<Asked<'a>, Refused>
    ensures asked { IfOk result (λ a. name_of a ≡ Some (codes "find")) }
    ensures words { IfOk result (HasWords (Some (codes "find", rows_of (found_of given.now)))) }
    ensures taken { is_fit (Some (codes "find", rows_of (found_of given.now))) ≡ true → AsksForWork result }
{
    let kind = kind_given(alloc, given_word(given, "kind"))?;
    Ok(Asked::Find {
        file: word_of(given, "FILE"),
        words: search_of(alloc, &words_of(alloc, given, "WORD")?)?,
        kind,
        limit: given_number(given, "limit"),
        csv: is_yes(word_of(given, "csv")),
    })
}

/// The words of a search. Refused where one of them has none.
fn search_of(alloc: Global, words: &[&str]) -> Result<SearchWords, Refused>
    ensures words { IfOk result (λ search. search ≡ flat_map search_words (map (λ w. w.now) words.now)) }
    ensures searched { OnOk result (list_all is_searched (map (λ w. w.now) words.now) ≡ true) }
    ensures taken { list_all is_searched (map (λ w. w.now) words.now) ≡ true
        → MatchResult result (λ _. ⊤) (λ refused. refused ≡ OutOfMemory) }
{
    let mut search = SearchWords::new(alloc);
    for word in words {
        if !added(alloc, &mut search, word)? {
            return Err(no_word(alloc, word));
        }
    }
    Ok(search)
}

/// Puts what is searched for of a word after the rest, and answers whether it has some.
fn added(alloc: Global, search: &mut SearchWords, word: &str) -> Result<bool, AllocError>
    ensures words { OnOk result (search.new ≡ search.old ++ search_words word.now) }
    ensures some { IfOk result (λ some. some ≡ is_searched word.now) }
{
    search.add(alloc, word)
}

/// The kind of records of an option. Refused where its word is none.
fn kind_given(alloc: Global, word: Option<&str>) -> Result<Option<RecordKind>, Refused>
    ensures kind { IfOk result (IsMeant records_named (option_map (λ w. w.now) word.entry)) }
    ensures taken { is_meant records_named (option_map (λ w. w.now) word.entry) ≡ true
        → MatchResult result (λ _. ⊤) (λ refused. refused ≡ OutOfMemory) }
{
    let Some(word) = word else {
        return Ok(None);
    };
    match records_named(word) {
        Some(kind) => Ok(Some(kind)),
        None => Err(no_value(alloc, word, "--kind <KIND>", KINDS)),
    }
}

/// `show`: records of some numbers. Refused if a word gives none.
pub(crate) fn show_asked<'a>(alloc: Global, given: &ArgMatches<'a>) -> Result<Asked<'a>, Refused>
    ensures asked { IfOk result (λ a. name_of a ≡ Some (codes "show")) }
    ensures words { IfOk result (HasWords (Some (codes "show", rows_of (found_of given.now)))) }
    ensures taken { is_fit (Some (codes "show", rows_of (found_of given.now))) ≡ true → AsksForWork result }
{
    Ok(Asked::Show {
        file: word_of(given, "FILE"),
        numbers: numbers_of(alloc, &words_of(alloc, given, "NO")?)?,
    })
}

/// The numbers of records as words give them. Refused if one of them gives none.
fn numbers_of(alloc: Global, words: &[&str]) -> Result<Vec<NumberWord>, Refused>
    ensures numbers { IfOk result (λ numbers. numbers.items ≡ flat_map numbers_in (map (λ w. w.now) words.now)) }
    ensures given { OnOk result (list_all is_number (map (λ w. w.now) words.now) ≡ true) }
    ensures taken { list_all is_number (map (λ w. w.now) words.now) ≡ true
        → MatchResult result (λ _. ⊤) (λ refused. refused ≡ OutOfMemory) }
{
    let mut numbers = Vec::new(alloc);
    for word in words {
        if !is_put(alloc, &mut numbers, word)? {
            return Err(no_number(alloc, word, "<NO>..."));
        }
    }
    Ok(numbers)
}

/// Puts the number that a word gives after those before it, and answers whether it gives one.
fn is_put(alloc: Global, numbers: &mut Vec<NumberWord>, word: &str) -> Result<bool, AllocError>
    ensures numbers { OnOk result (numbers.new.items ≡ numbers.old.items ++ numbers_in word.now) }
    ensures given { IfOk result (λ given. given ≡ is_number word.now) }
{
    match number_word(alloc, word)? {
        Some(number) => {
            numbers.push(number)?;
            Ok(true)
        }
        None => Ok(false),
    }
}

/// `completions`: what a shell reads. Refused where the word is no shell.
pub(crate) fn completions_asked<'a>(
    alloc: Global,
    given: &ArgMatches<'a>,
) -> Result<Asked<'a>, Refused>
    ensures asked { IfOk result (λ a. name_of a ≡ Some (codes "completions")) }
    ensures words { IfOk result (HasWords (Some (codes "completions", rows_of (found_of given.now)))) }
    ensures taken { is_fit (Some (codes "completions", rows_of (found_of given.now))) ≡ true → AsksForWork result }
{
    let word = word_of(given, "SHELL");
    match completions_of(word) {
        Some(text) => Ok(Asked::Completions { text }),
        None => Err(no_value(alloc, word, "<SHELL>", SHELLS)),
    }
}

const SHELLS: &str = "bash, zsh";

const KINDS: &str =
    "persons, families, events, places, repositories, sources, citations, entries, others";

const LISTED: &str =
    "persons, families, events, places, repositories, sources, citations, entries, others, slips";

const SETS: &str = "utf-8, utf-16le, utf-16be, 1252, 437, 850, macintosh, ansel";
