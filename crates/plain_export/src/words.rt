//! The words of notes and pages.

ghost use Rattle.std.specs.Prelude.{◌≡◌, ◌++◌, IfOk, OnOk, Some, string_bytes};
ghost use Rattle.std.specs.List.{flat_map};
ghost use Rattle.plain_export.specs.Words as words;

use record_fields::Date;
use record_kinds::{Entry, Event, Link, Mention};
use std::alloc::{AllocError, Global};

/// Appends a text after a mark; nothing of an empty one.
fn push_after(out: &mut String, mark: &str, text: &str) -> Result<(), AllocError>
    ensures { OnOk result (string_bytes out.new ≡ string_bytes out.old ++ words.after mark.now text.now) }
{
    if text.is_empty() {
        return Ok(());
    }
    out.push_str(mark)?;
    out.push_str(text)
}

/// Appends a text before a mark; nothing of an empty one.
fn push_before(out: &mut String, mark: &str, text: &str) -> Result<(), AllocError>
    ensures { OnOk result (string_bytes out.new ≡ string_bytes out.old ++ words.before mark.now text.now) }
{
    if text.is_empty() {
        return Ok(());
    }
    out.push_str(text)?;
    out.push_str(mark)
}

/// The words of a date; none of no date.
pub(crate) fn date_words(date: &Option<Date>) -> &str
    ensures { result.now ≡ words.date_words date.now }
{
    match date {
        None => "",
        Some(date) => date.as_str(),
    }
}

/// Appends as what somebody took part, in brackets.
fn push_role(out: &mut String, role: &str) -> Result<(), AllocError>
    ensures { OnOk result (string_bytes out.new ≡ string_bytes out.old ++ words.role_words role.now) }
{
    if role.is_empty() {
        return Ok(());
    }
    out.push_str(" (")?;
    out.push_str(role)?;
    out.push_str(")")
}

/// Who took part in an event, by the name that is displayed, and as what.
pub(crate) fn with_words(alloc: Global, shown: &str, role: &str) -> Result<String, AllocError>
    ensures { IfOk result (λ s. string_bytes s ≡ words.with_words shown.now role.now) }
{
    let mut out = String::from_str(alloc, "with ")?;
    out.push_str(shown)?;
    push_role(&mut out, role)?;
    Ok(out)
}

/// The tag and the date of an event.
pub(crate) fn event_words(alloc: Global, event: &Event) -> Result<String, AllocError>
    ensures { IfOk result (λ s. string_bytes s ≡ words.event_words event.now) }
{
    let mut out = String::from_str(alloc, event.tag.as_str())?;
    push_after(&mut out, ", ", date_words(&event.date))?;
    Ok(out)
}

/// As what somebody took part; `participant` where it is not said.
pub(crate) fn relation_words(alloc: Global, role: &str) -> Result<String, AllocError>
    ensures { IfOk result (λ s. string_bytes s ≡ words.relation_words role.now) }
{
    if role.is_empty() {
        String::from_str(alloc, "participant")
    } else {
        String::from_str(alloc, role)
    }
}

/// Appends where an entry stands in its register.
fn push_page(out: &mut String, entry: &Entry) -> Result<(), AllocError>
    ensures { OnOk result (string_bytes out.new ≡ string_bytes out.old ++ words.page_words entry.now) }
{
    let item = entry.item.number;
    push_before(out, ", ", entry.page.as_str())?;
    write!(out, "no. {item}")
}

/// Where an entry stands in its register.
pub(crate) fn page_words(alloc: Global, entry: &Entry) -> Result<String, AllocError>
    ensures { IfOk result (λ s. string_bytes s ≡ words.page_words entry.now) }
{
    let mut out = String::new(alloc);
    push_page(&mut out, entry)?;
    Ok(out)
}

/// Appends why a mention is linked.
fn push_reason(out: &mut String, link: &Option<Link>) -> Result<(), AllocError>
    ensures { OnOk result (string_bytes out.new ≡ string_bytes out.old ++ words.reason_words link.now) }
{
    match link {
        None => Ok(()),
        Some(link) => push_after(out, ": ", link.reason.as_str()),
    }
}

/// Appends who is named, as what, and why this is a person of the archive.
fn push_mention(out: &mut String, mention: &Mention) -> Result<(), AllocError>
    ensures { OnOk result (string_bytes out.new ≡ string_bytes out.old ++ words.mention_words mention.now) }
{
    out.push_str(mention.role.as_str())?;
    out.push_str(" ")?;
    out.push_str(mention.name.as_str())?;
    push_reason(out, &mention.link)
}

/// Who is named, as what, and why this is a person of the archive.
pub(crate) fn mention_words(alloc: Global, mention: &Mention) -> Result<String, AllocError>
    ensures { IfOk result (λ s. string_bytes s ≡ words.mention_words mention.now) }
{
    let mut out = String::new(alloc);
    push_mention(&mut out, mention)?;
    Ok(out)
}

fn push_mention_line(out: &mut String, mention: &Mention) -> Result<(), AllocError>
    ensures { OnOk result (string_bytes out.new ≡ string_bytes out.old ++ words.mention_line mention.now) }
{
    out.push_str("\n")?;
    push_mention(out, mention)
}

/// Appends the mentions, each on a line of its own.
fn push_mentions(out: &mut String, mentions: &[Mention]) -> Result<(), AllocError>
    ensures { OnOk result (string_bytes out.new ≡ string_bytes out.old
        ++ flat_map words.mention_line mentions.now) }
{
    'mentions: for mention in mentions {
        push_mention_line(out, mention)?;
    }
    Ok(())
}

/// A whole entry, at a place with that path.
pub(crate) fn entry_words(alloc: Global, path: &str, entry: &Entry) -> Result<String, AllocError>
    ensures { IfOk result (λ s. string_bytes s ≡ words.entry_words path.now entry.now) }
{
    let mut out = String::new(alloc);
    push_page(&mut out, entry)?;
    out.push_str(": ")?;
    out.push_str(entry.kind.as_str())?;
    push_after(&mut out, ", ", date_words(&entry.date))?;
    push_after(&mut out, ", ", path)?;
    push_mentions(&mut out, &entry.mentions)?;
    push_after(&mut out, "\n", entry.text.as_str())?;
    Ok(out)
}
