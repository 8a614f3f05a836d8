//! Which records are wanted.

ghost use Rattle.std.specs.Prelude.{◌≡◌, ◌∷◌, [], IfOk, Some, map, chars};
ghost use Rattle.std.specs.List.{list_any};
ghost use Rattle.record_kinds.specs.Model as model;
ghost use Rattle.searching.specs.Folding.{folded_name, folded_text};
ghost use Rattle.searching.specs.Words.{all_occur};
ghost use Rattle.searching.specs.Wanted as wants;

use crate::search::{SearchText, SearchWords};
use record_kinds::{Mention, Name, Record};
use record_text::Text;
use std::alloc::{AllocError, Global};

/// A kind of records.
#[derive(Clone, Copy, Debug, PartialEq, Eq)]
pub enum Kind {
    Persons,
    Families,
    Events,
    Places,
    Repositories,
    Sources,
    Citations,
    Entries,
    Others,
}

/// Which records are wanted.
#[derive(Debug, Drop)]
pub struct Wanted {
    /// Those of a kind. `None`: of each.
    pub kind: Option<Kind>,
    /// The register entries of a source. `None`: also others.
    pub source: Option<u32>,
    /// Those in one of whose names all these words occur. Without words: each.
    pub words: SearchWords,
}

/// What is listed.
#[derive(Debug, Drop)]
pub struct Listing {
    pub wanted: Wanted,
    /// Only records with a greater number than this.
    pub after: u32,
    /// So many at most.
    pub limit: usize,
    /// Whether a last line says how many more there are.
    pub counts_others: bool,
}

/// Whether the record is wanted. Refused only if out of memory.
pub(crate) fn is_wanted(alloc: Global, wanted: &Wanted, record: &Record) -> Result<bool, AllocError>
    ensures { IfOk result (λ b. b ≡ wants.is_wanted «wanted».now «record».now) }
{
    if !is_of(wanted.kind, record) || !is_from(wanted.source, record) {
        return Ok(false);
    }
    is_meant(alloc, &wanted.words, record)
}

fn is_of(kind: Option<Kind>, record: &Record) -> bool
    ensures { result ≡ wants.is_of kind «record».now }
{
    match kind {
        None => true,
        Some(kind) => is_kind(kind, record),
    }
}

fn is_kind(kind: Kind, record: &Record) -> bool
    ensures { result ≡ wants.is_kind kind «record».now }
{
    match kind {
        Kind::Persons => matches!(record, Record::Person(_)),
        Kind::Families => matches!(record, Record::Family(_)),
        Kind::Events => matches!(record, Record::Event(_)),
        Kind::Places => matches!(record, Record::Place(_)),
        Kind::Repositories => matches!(record, Record::Repo(_)),
        Kind::Sources => matches!(record, Record::Source(_)),
        Kind::Citations => matches!(record, Record::Citation(_)),
        Kind::Entries => matches!(record, Record::Entry(_)),
        Kind::Others => matches!(record, Record::Other(_)),
    }
}

fn is_from(source: Option<u32>, record: &Record) -> bool
    ensures { result ≡ wants.is_from source «record».now }
{
    match source {
        None => true,
        Some(source) => is_from_source(source, record),
    }
}

fn is_from_source(source: u32, record: &Record) -> bool
    ensures { result ≡ wants.is_from (Some source) «record».now }
{
    match record {
        Record::Entry(entry) => entry.source == source,
        _ => false,
    }
}

fn is_meant(alloc: Global, words: &SearchWords, record: &Record) -> Result<bool, AllocError>
    ensures { IfOk result (λ b. b ≡ wants.is_meant words.now «record».now) }
{
    if words.is_empty() {
        return Ok(true);
    }
    is_named(alloc, words, record)
}

fn is_named(alloc: Global, words: &SearchWords, record: &Record) -> Result<bool, AllocError>
    ensures { IfOk result (λ b. b ≡ wants.is_named words.now «record».now) }
{
    match record {
        Record::Person(person) => is_in_names(alloc, words, &person.names),
        Record::Entry(entry) => is_in_mentions(alloc, words, &entry.mentions),
        Record::Place(place) => is_in_text(alloc, words, place.name.as_str()),
        Record::Repo(repo) => is_in_option(alloc, words, &repo.name),
        Record::Source(source) => is_in_option(alloc, words, &source.title),
        _ => Ok(false),
    }
}

fn is_in_names(alloc: Global, words: &SearchWords, names: &[Name]) -> Result<bool, AllocError>
    ensures { IfOk result (λ b. b ≡ list_any (all_occur words.now)
        (map (λ (x : model.Name). folded_name (chars x.text)) names.now)) }
{
    'each: for name in names {
        if is_in_name(alloc, words, name.text.as_str())? {
            return Ok(true);
        }
    }
    Ok(false)
}

fn is_in_mentions(
    alloc: Global,
    words: &SearchWords,
    mentions: &[Mention],
) -> Result<bool, AllocError>
    ensures { IfOk result (λ b. b ≡ list_any (all_occur words.now)
        (map (λ (x : model.Mention). folded_name (chars x.name)) mentions.now)) }
{
    'each: for mention in mentions {
        if is_in_name(alloc, words, mention.name.as_str())? {
            return Ok(true);
        }
    }
    Ok(false)
}

fn is_in_name(alloc: Global, words: &SearchWords, name: &str) -> Result<bool, AllocError>
    ensures { IfOk result (λ b. b ≡ all_occur words.now (folded_name (chars name.now))) }
{
    let text = SearchText::of_name(alloc, name)?;
    Ok(words.occur_in(&text))
}

fn is_in_text(alloc: Global, words: &SearchWords, text: &str) -> Result<bool, AllocError>
    ensures { IfOk result (λ b. b ≡ list_any (all_occur words.now) (folded_text (chars text.now) ∷ [])) }
{
    let text = SearchText::of_text(alloc, text)?;
    Ok(words.occur_in(&text))
}

fn is_in_option(alloc: Global, words: &SearchWords, text: &Option<Text>) -> Result<bool, AllocError>
    ensures { IfOk result (λ b. b ≡ list_any (all_occur words.now) (wants.folded_option text.now)) }
{
    match text {
        None => Ok(false),
        Some(text) => is_in_text(alloc, words, text.as_str()),
    }
}
