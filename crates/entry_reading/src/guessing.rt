//! The one entry whose lines some lines may be.

ghost use Rattle.std.specs.Prelude.{◌≡◌, IfOk, codes, map, option_map};
ghost use Rattle.std.specs.List.{filter};
ghost use Rattle.std.specs.Option.{unwrap_or};
ghost use Rattle.record_fields.specs.Dated.{date_from};
ghost use Rattle.record_fields.specs.Items.{item_of, first_item};
ghost use Rattle.record_fields.specs.Words.{role_of};
ghost use Rattle.record_fields.specs.declared.entry_words.Role.TheVariants.{Child};
ghost use Rattle.record_shapes.specs.Forms as forms;
ghost use Rattle.record_shapes.specs.Entries as entries;
ghost use Rattle.entry_reading.specs.Guess.{guess};

use crate::lines::{below, first_of, is_tagged, number_at, text_at};
use field_rows::{number_of, text_of};
use record_fields::{Date, EntryKind, Item, Role};
use record_kinds::{Entry, Link, Mention};
use record_text::Text;
use std::alloc::{AllocError, Global};
use stored_lines::Carried;

/// The entry of a kind whose fields are the first lines of each tag.
pub(crate) fn guessed(
    alloc: Global,
    kind: EntryKind,
    lines: &[Carried],
) -> Result<Entry, AllocError>
    ensures { IfOk result (λ e. e ≡ guess kind lines.now) }
{
    Ok(Entry {
        source: number_at(lines, "SOUR"),
        kind,
        page: Text::of_words(alloc, text_at(lines, "PAGE"))?,
        item: item_at(alloc, lines)?,
        date: date_at(alloc, lines)?,
        place: place_at(lines),
        text: Text::of_words(alloc, text_at(lines, "TEXT"))?,
        mentions: mentions_of(alloc, lines)?,
    })
}

/// The item that the line of one tells, and else the first.
fn item_at(alloc: Global, lines: &[Carried]) -> Result<Item, AllocError>
    ensures { IfOk result (λ i. i
        ≡ unwrap_or (item_of (entries.text_on (entries.line_at (codes "_ITEM") lines.now))) first_item) }
{
    match item_of_words(alloc, text_at(lines, "_ITEM"))? {
        Some(item) => Ok(item),
        None => Ok(Item::first()),
    }
}

#[tactic(auto, using(record_fields::proofs::Items::item_read))]
fn item_of_words(alloc: Global, words: &str) -> Result<Option<Item>, AllocError>
    ensures { IfOk result (λ found. found ≡ item_of words.now) }
{
    let found = Item::of_words(alloc, words)?;
    Ok(found)
}

/// The date whose canonical spelling the line of one tells.
fn date_at(alloc: Global, lines: &[Carried]) -> Result<Option<Date>, AllocError>
    ensures { IfOk result
        (λ d. d ≡ date_from (option_map forms.text_of (entries.line_at (codes "DATE") lines.now))) }
{
    match first_of(lines, "DATE") {
        Some(line) => date_on(alloc, line),
        None => Ok(None),
    }
}

fn date_on(alloc: Global, line: &Carried) -> Result<Option<Date>, AllocError>
    ensures { IfOk result (λ d. d ≡ date_from (Some (forms.text_of line.now))) }
{
    let text = Text::of_words(alloc, text_of(line))?;
    Date::of_text(alloc, &text)
}

/// The number of the place that the line of one names.
fn place_at(lines: &[Carried]) -> Option<u32>
    ensures { result ≡ option_map forms.number_of
        (entries.line_at (codes "_LOC") (entries.below_on (entries.line_at (codes "PLAC") lines.now))) }
{
    match first_of(lines, "PLAC") {
        Some(line) => loc_on(line),
        None => None,
    }
}

fn loc_on(line: &Carried) -> Option<u32>
    ensures { result ≡ option_map forms.number_of (entries.line_at (codes "_LOC") (forms.below line.now)) }
{
    match first_of(below(line), "_LOC") {
        Some(loc) => Some(number_of(loc)),
        None => None,
    }
}

/// The mentions of the lines of some.
fn mentions_of(alloc: Global, lines: &[Carried]) -> Result<Vec<Mention>, AllocError>
    ensures { IfOk result
        (λ ms. ms.items ≡ map entries.mention_on (filter (forms.tagged (codes "_MENT")) lines.now)) }
{
    let mut mentions = Vec::new(alloc);
    let mut rest = lines;
    'lines: while let Some((line, more)) = rest.split_first() {
        if is_tagged(line, "_MENT") {
            mentions.push(mention_of(alloc, line)?)?;
        }
        rest = more;
    }
    Ok(mentions)
}

/// The mention that a line may be.
fn mention_of(alloc: Global, line: &Carried) -> Result<Mention, AllocError>
    ensures { IfOk result (λ m. m ≡ entries.mention_on line.now) }
{
    let lines = below(line);
    Ok(Mention {
        role: role_at(lines),
        name: Text::of_words(alloc, text_of(line))?,
        link: link_at(alloc, lines)?,
    })
}

fn role_at(lines: &[Carried]) -> Role
    ensures { result ≡ unwrap_or (role_of (entries.text_on (entries.line_at (codes "_ROLE") lines.now))) Child }
{
    match role_of_word(text_at(lines, "_ROLE")) {
        Some(role) => role,
        None => Role::Child,
    }
}

#[tactic(auto, using(record_fields::proofs::Worded::role_read))]
fn role_of_word(word: &str) -> Option<Role>
    ensures { result ≡ role_of word.now }
{
    Role::from_word(word)
}

fn link_at(alloc: Global, lines: &[Carried]) -> Result<Option<Link>, AllocError>
    ensures { IfOk result (λ l. l ≡ entries.link_on (entries.line_at (codes "_LINK") lines.now)) }
{
    match first_of(lines, "_LINK") {
        Some(line) => link_of(alloc, line),
        None => Ok(None),
    }
}

fn link_of(alloc: Global, line: &Carried) -> Result<Option<Link>, AllocError>
    ensures { IfOk result (λ l. l ≡ entries.link_on (Some line.now)) }
{
    let reason = Text::of_words(alloc, text_at(below(line), "_WHY"))?;
    Ok(Some(Link {
        person: number_of(line),
        reason,
    }))
}
