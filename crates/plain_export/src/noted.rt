//! Mentions in words, and what cites their entry.

ghost use Rattle.std.specs.Prelude.{◌≡◌, ◌==◌, ◌++◌, ◌∷◌, [], IfErr, IfOk, OnOk, map, option_map};
ghost use Rattle.std.specs.BTreeMap.{get_by_text};
ghost use Rattle.std.specs.List.{list_any};
ghost use Rattle.plain_export.specs.Added as adding;
ghost use Rattle.record_text.specs.Text.{IsText};
ghost use Rattle.plain_export.specs.Firsts as marking;
ghost use Rattle.plain_export.specs.Fitting.{AreTexts, Fails};
ghost use Rattle.plain_export.specs.Words as words;

use crate::firsts::{Firsts, cited_by};
use crate::lines::{text_line, text_of};
use crate::words::mention_words;
use record_fields::{Date, Role};
use record_kinds::{Entry, Link, Mention};
use record_text::{RefusalKind, Text};
use std::alloc::{AllocError, Global};
use stored_lines::Carried;

/// A mention in words.
pub struct Noted {
    /// The number of the person or event that cites its entry, if it is linked.
    pub at: Option<u32>,
    pub words: Text,
}

// It is written out, so that no function above proves again how each part is dropped.
impl Drop for Noted {
    fn drop(self) {
        let Noted { at: _, words: _ } = self;
    }
}

/// What cites an entry for a mention, if it is linked.
fn place_of(
    alloc: Global,
    firsts: &Firsts,
    date: &Option<Date>,
    role: Role,
    link: &Option<Link>,
) -> Result<Option<u32>, AllocError>
    ensures { IfOk result (λ o. o
        ≡ option_map (marking.cited_by (get_by_text firsts.now.numbers) date.now role) link.now) }
{
    match link {
        None => Ok(None),
        Some(link) => Ok(Some(cited_by(alloc, firsts, date, role, link)?)),
    }
}

fn noted_of(
    alloc: Global,
    firsts: &Firsts,
    entry: &Entry,
    mention: &Mention,
) -> Result<Noted, RefusalKind>
    ensures made { IfOk result (λ x. x
        ≡ adding.noted_of (get_by_text firsts.now.numbers) entry.now mention.now) }
    ensures refused { IfErr result (λ e. Fails e (IsText (words.mention_words mention.now))) }
{
    let at = place_of(alloc, firsts, &entry.date, mention.role, &mention.link)?;
    let words = text_of(mention_words(alloc, mention)?)?;
    Ok(Noted { at, words })
}

/// Puts a mention last.
fn put_noted(noted: &mut Vec<Noted>, x: Noted) -> Result<(), AllocError>
    ensures { OnOk result (noted.new.items ≡ noted.old.items ++ x ∷ []) }
{
    noted.push(x)?;
    Ok(())
}

/// The mentions of an entry in words.
pub(crate) fn noted_all(
    alloc: Global,
    firsts: &Firsts,
    entry: &Entry,
) -> Result<Vec<Noted>, RefusalKind>
    ensures made { IfOk result (λ made. made.items ≡ adding.noted (get_by_text firsts.now.numbers) entry.now) }
    ensures refused { IfErr result (λ e. Fails e (AreTexts (map words.mention_words entry.now.mentions))) }
{
    let mut made = Vec::new(alloc);
    'mentions: for mention in &entry.mentions {
        put_noted(&mut made, noted_of(alloc, firsts, entry, mention)?)?;
    }
    Ok(made)
}

/// Puts a number last, if it is not there.
fn put_number(numbers: &mut Vec<u32>, number: u32) -> Result<(), AllocError>
    ensures { OnOk result (numbers.new.items ≡ adding.with_number numbers.old.items number) }
{
    if !has_number(numbers, number) {
        numbers.push(number)?;
    }
    Ok(())
}

fn has_number(numbers: &[u32], number: u32) -> bool
    ensures { result ≡ list_any (λ k. k == number) numbers.now }
{
    numbers.iter().any(|k| *k == number)
}

/// Puts what cites an entry for a mention, if it is not there.
fn put_place(numbers: &mut Vec<u32>, at: Option<u32>) -> Result<(), AllocError>
    ensures { OnOk result (numbers.new.items ≡ adding.with_place numbers.old.items at) }
{
    match at {
        None => Ok(()),
        Some(number) => put_number(numbers, number),
    }
}

/// What cites an entry, each once, in the order of the mentions.
pub(crate) fn cited(alloc: Global, noted: &[Noted]) -> Result<Vec<u32>, AllocError>
    ensures { IfOk result (λ ns. ns.items ≡ adding.cited noted.now) }
{
    let mut numbers = Vec::new(alloc);
    'noted: for x in noted {
        put_place(&mut numbers, x.at)?;
    }
    Ok(numbers)
}

/// Whether a citation speaks of a mention for which that cites the entry.
pub(crate) fn is_of(at: Option<u32>, number: u32) -> bool
    ensures { result ≡ adding.is_of number at }
{
    match at {
        None => true,
        Some(k) => k == number,
    }
}

/// The note of a mention.
pub(crate) fn note_line(alloc: Global, noted: &Noted) -> Result<Carried, AllocError>
    ensures { IfOk result (λ c. c ≡ adding.note_line noted.now) }
{
    text_line(alloc, "NOTE", noted.words.copy(alloc)?)
}
