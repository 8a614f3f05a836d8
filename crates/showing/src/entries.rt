//! The fields of register entries, and of records of no other kind.

ghost use Rattle.std.specs.Prelude.{◌≡◌, ◌++◌, OnOk, Some, string_bytes};
ghost use Rattle.std.specs.List.{flat_map};
ghost use Rattle.showing.specs.Fields as fields;

use crate::fields::{push_below, push_date, push_maybe_number, push_number, push_text};
use record_kinds::{Entry, Link, Mention, Other};
use std::alloc::{AllocError, Global};
use stored_lines::Value;

pub(crate) fn push_entry(out: &mut String, entry: &Entry) -> Result<(), AllocError>
    ensures { OnOk result (string_bytes out.new ≡ string_bytes out.old ++ fields.entry_fields entry.now) }
{
    push_key(out, entry)?;
    push_date(out, &entry.date)?;
    push_maybe_number(out, "place", entry.place)?;
    push_text(out, "text", entry.text.as_str())?;
    push_mentions(out, &entry.mentions)
}

/// The source, the kind, the page and the item.
fn push_key(out: &mut String, entry: &Entry) -> Result<(), AllocError>
    ensures { OnOk result (string_bytes out.new ≡ string_bytes out.old ++ fields.key_fields entry.now) }
{
    push_number(out, "source", entry.source)?;
    push_text(out, "kind", entry.kind.as_str())?;
    push_text(out, "page", entry.page.as_str())?;
    push_number(out, "item", entry.item.number)
}

fn push_mentions(out: &mut String, mentions: &[Mention]) -> Result<(), AllocError>
    ensures { OnOk result (string_bytes out.new ≡ string_bytes out.old ++ flat_map fields.mention_fields mentions.now) }
{
    'each: for mention in mentions {
        push_mention(out, mention)?;
    }
    Ok(())
}

fn push_mention(out: &mut String, mention: &Mention) -> Result<(), AllocError>
    ensures { OnOk result (string_bytes out.new ≡ string_bytes out.old ++ fields.mention_fields mention.now) }
{
    push_text(out, mention.role.as_str(), mention.name.as_str())?;
    push_link(out, &mention.link)
}

fn push_link(out: &mut String, link: &Option<Link>) -> Result<(), AllocError>
    ensures { OnOk result (string_bytes out.new ≡ string_bytes out.old ++ fields.link_fields link.now) }
{
    match link {
        None => Ok(()),
        Some(link) => push_person(out, link),
    }
}

fn push_person(out: &mut String, link: &Link) -> Result<(), AllocError>
    ensures { OnOk result (string_bytes out.new ≡ string_bytes out.old ++ fields.link_fields (Some link.now)) }
{
    push_number(out, "person", link.person)?;
    push_text(out, "reason", link.reason.as_str())
}

pub(crate) fn push_other(alloc: Global, out: &mut String, other: &Other) -> Result<(), AllocError>
    ensures { OnOk result (string_bytes out.new ≡ string_bytes out.old ++ fields.other_fields other.now) }
{
    push_text(out, "tag", other.tag.as_str())?;
    push_value(out, &other.value)?;
    push_below(alloc, out, 1, &other.carried)
}

fn push_value(out: &mut String, value: &Value) -> Result<(), AllocError>
    ensures { OnOk result (string_bytes out.new ≡ string_bytes out.old ++ fields.value_field value.now) }
{
    match value {
        Value::Text(text) => push_text(out, "value", text.as_str()),
        Value::Ref(number) => push_number(out, "value", *number),
    }
}
