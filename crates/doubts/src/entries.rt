//! What is doubtful of a register entry.

ghost use Rattle.std.specs.Prelude.{◌≡◌, ◌∷◌, ◌++◌, ◌==◌, [], IfOk, OnOk, codes, decimal, string_bytes};
ghost use Rattle.std.specs.List.{list_any};
ghost use Rattle.record_kinds.specs.declared.record.Record.TheVariants as kind;
ghost use Rattle.doubts.specs.Doubts as doubts;
ghost use Rattle.doubts.specs.Gathered.{seen};

use crate::doubt::{Doubt, Kind, push_doubt};
use crate::fact::name_key;
use crate::known::Known;
use crate::single::push_date;
use record_kinds::{Entry, Link, Mention};
use std::alloc::{AllocError, Global};

/// Adds what is doubtful of a register entry.
pub(crate) fn push_entry(
    alloc: Global,
    found: &mut Vec<Doubt>,
    number: u32,
    known: &Known,
    entry: &Entry,
) -> Result<(), AllocError>
    ensures { OnOk result (found.new.items
        ≡ found.old.items ++ doubts.doubts_of (seen known.now) number (kind.Entry entry.now)) }
{
    push_date(alloc, found, number, &entry.date)?;
    push_missed(alloc, found, number, known, entry)?;
    push_mentions(alloc, found, number, &entry.mentions)
}

// ---- mentions that are linked to nobody, although one of that name on that page is linked

fn push_missed(
    alloc: Global,
    found: &mut Vec<Doubt>,
    number: u32,
    known: &Known,
    entry: &Entry,
) -> Result<(), AllocError>
    ensures { OnOk result (found.new.items
        ≡ found.old.items ++ doubts.missed_doubts (seen known.now) number entry.now) }
{
    'each: for mention in &entry.mentions {
        push_if_missed(alloc, found, number, known, entry, mention)?;
    }
    Ok(())
}

fn push_if_missed(
    alloc: Global,
    found: &mut Vec<Doubt>,
    number: u32,
    known: &Known,
    entry: &Entry,
    mention: &Mention,
) -> Result<(), AllocError>
    ensures { OnOk result (found.new.items
        ≡ found.old.items ++ doubts.mention_doubts (seen known.now) number entry.now mention.now) }
{
    if is_missed(alloc, known, entry, mention)? {
        let words = missed_words(alloc, mention.name.as_str())?;
        push_doubt(found, Kind::Missed, number, words)?;
    }
    Ok(())
}

fn is_missed(
    alloc: Global,
    known: &Known,
    entry: &Entry,
    mention: &Mention,
) -> Result<bool, AllocError>
    ensures { IfOk result (λ b. b ≡ doubts.is_missed (seen known.now) entry.now mention.now) }
{
    if !is_open(mention) {
        return Ok(false);
    }
    let key = name_key(alloc, entry, mention)?;
    Ok(known.is_linked(&key))
}

/// Whether it has a name and no link.
fn is_open(mention: &Mention) -> bool
    ensures { result ≡ doubts.is_open mention.now }
{
    is_free(&mention.link) && !mention.name.as_str().is_empty()
}

fn is_free(link: &Option<Link>) -> bool
    ensures { result ≡ doubts.is_free link.now }
{
    match link {
        None => true,
        Some(_) => false,
    }
}

fn missed_words(alloc: Global, name: &str) -> Result<String, AllocError>
    ensures { IfOk result (λ s. string_bytes s ≡ codes "not linked: " ++ name.now) }
{
    format!(in alloc; "not linked: {name}")
}

// ---- mentions of one person

fn push_mentions(
    alloc: Global,
    found: &mut Vec<Doubt>,
    number: u32,
    mentions: &[Mention],
) -> Result<(), AllocError>
    ensures { OnOk result (found.new.items ≡ found.old.items ++ doubts.twice_doubts number [] mentions.now) }
{
    // Those to whom the mentions so far are linked: an entry has at most 100.
    let mut before = Vec::new(alloc);
    'each: for mention in mentions {
        push_mention(alloc, found, number, &mut before, mention)?;
    }
    Ok(())
}

fn push_mention(
    alloc: Global,
    found: &mut Vec<Doubt>,
    number: u32,
    before: &mut Vec<u32>,
    mention: &Mention,
) -> Result<(), AllocError>
    ensures found { OnOk result (found.new.items
        ≡ found.old.items ++ doubts.link_doubts number before.old.items mention.now.link) }
    ensures before { OnOk result (before.new.items ≡ before.old.items ++ doubts.linked mention.now.link) }
{
    push_link(alloc, found, number, before, &mention.link)
}

fn push_link(
    alloc: Global,
    found: &mut Vec<Doubt>,
    number: u32,
    before: &mut Vec<u32>,
    link: &Option<Link>,
) -> Result<(), AllocError>
    ensures found { OnOk result (found.new.items
        ≡ found.old.items ++ doubts.link_doubts number before.old.items link.now) }
    ensures before { OnOk result (before.new.items ≡ before.old.items ++ doubts.linked link.now) }
{
    match link {
        None => Ok(()),
        Some(link) => push_linked(alloc, found, number, before, link.person),
    }
}

fn push_linked(
    alloc: Global,
    found: &mut Vec<Doubt>,
    number: u32,
    before: &mut Vec<u32>,
    person: u32,
) -> Result<(), AllocError>
    ensures found { OnOk result (found.new.items
        ≡ found.old.items ++ doubts.person_doubts number before.old.items person) }
    ensures before { OnOk result (before.new.items ≡ before.old.items ++ person ∷ []) }
{
    push_if_there(alloc, found, number, before, person)?;
    before.push(person)?;
    Ok(())
}

fn push_if_there(
    alloc: Global,
    found: &mut Vec<Doubt>,
    number: u32,
    before: &[u32],
    person: u32,
) -> Result<(), AllocError>
    ensures { OnOk result (found.new.items ≡ found.old.items ++ doubts.person_doubts number before.now person) }
{
    if is_among(before, person) {
        let words = twice_words(alloc, person)?;
        push_doubt(found, Kind::Twice, number, words)?;
    }
    Ok(())
}

fn is_among(before: &[u32], person: u32) -> bool
    ensures { result ≡ list_any (λ k. k == person) before.now }
{
    before.iter().any(|k| *k == person)
}

fn twice_words(alloc: Global, person: u32) -> Result<String, AllocError>
    ensures { IfOk result (λ s. string_bytes s ≡ codes "twice: " ++ decimal person) }
{
    format!(in alloc; "twice: {person}")
}
