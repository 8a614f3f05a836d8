//! The lines of registers.

ghost use Rattle.std.specs.Prelude.{◌≡◌, ◌++◌, OnOk, Some, string_bytes};
ghost use Rattle.std.specs.List.{flat_map};
ghost use Rattle.sheet_lines.specs.Lines as lines;

use crate::words::{push_dated, push_printed, push_right};
use record_kinds::{Entry, Link, Mention};
use record_text::Text;
use std::alloc::AllocError;

/// Appends the first line of a register.
pub fn push_register_head(
    out: &mut String,
    number: u32,
    title: &Option<Text>,
) -> Result<(), AllocError>
    ensures { OnOk result (string_bytes out.new ≡ string_bytes out.old ++ lines.register_head number title.now) }
{
    write!(out, "Register {number}: ")?;
    push_title(out, title)?;
    out.push_str("\n")
}

/// Appends a title; `?` without one.
fn push_title(out: &mut String, title: &Option<Text>) -> Result<(), AllocError>
    ensures { OnOk result (string_bytes out.new ≡ string_bytes out.old ++ lines.title_words title.now) }
{
    match title {
        Some(title) => push_printed(out, title.as_str()),
        None => out.push_str("?"),
    }
}

/// Appends an entry, with a line for each mention.
pub fn push_entry(out: &mut String, entry: &Entry) -> Result<(), AllocError>
    ensures { OnOk result (string_bytes out.new ≡ string_bytes out.old ++ lines.entry_lines entry.now) }
{
    push_entry_line(out, entry)?;
    push_mentions(out, &entry.mentions)
}

fn push_entry_line(out: &mut String, entry: &Entry) -> Result<(), AllocError>
    ensures { OnOk result (string_bytes out.new ≡ string_bytes out.old ++ lines.entry_line entry.now) }
{
    let item = entry.item.number;
    let kind = entry.kind.as_str();
    push_right(out, 6, item)?;
    out.push_str("  ")?;
    push_printed(out, entry.page.as_str())?;
    write!(out, "  {kind}")?;
    push_dated(out, "  ", entry.date.as_ref())?;
    out.push_str("\n")
}

fn push_mentions(out: &mut String, mentions: &[Mention]) -> Result<(), AllocError>
    ensures { OnOk result (string_bytes out.new ≡ string_bytes out.old
        ++ flat_map lines.mention_line mentions.now) }
{
    'mentions: for mention in mentions {
        push_mention(out, mention)?;
    }
    Ok(())
}

/// Appends a mention, and where it is linked, to whom and why.
fn push_mention(out: &mut String, mention: &Mention) -> Result<(), AllocError>
    ensures { OnOk result (string_bytes out.new ≡ string_bytes out.old ++ lines.mention_line mention.now) }
{
    let role = mention.role.as_str();
    write!(out, "        {role}: ")?;
    push_printed(out, mention.name.as_str())?;
    push_link(out, &mention.link)?;
    out.push_str("\n")
}

fn push_link(out: &mut String, link: &Option<Link>) -> Result<(), AllocError>
    ensures { OnOk result (string_bytes out.new ≡ string_bytes out.old ++ lines.link_words link.now) }
{
    match link {
        None => Ok(()),
        Some(link) => push_link_words(out, link),
    }
}

fn push_link_words(out: &mut String, link: &Link) -> Result<(), AllocError>
    ensures { OnOk result (string_bytes out.new ≡ string_bytes out.old ++ lines.link_words (Some link.now)) }
{
    let person = link.person;
    write!(out, " = {person}, ")?;
    push_printed(out, link.reason.as_str())
}
