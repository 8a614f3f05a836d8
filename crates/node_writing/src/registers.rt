//! Register entries.

ghost use Rattle.std.specs.Prelude.{◌≡◌, ◌++◌, ◌∷◌, [], map, codes, decimal, OnOk, Some, string_bytes};
ghost use Rattle.record_shapes.specs.Shapes.{
  entry_lines,
  entry_place_lines,
  link_lines,
  mention_line,
  text_line,
};
ghost use Rattle.node_writing.specs.Pages.{page};

use crate::events::{push_date, push_place_line};
use crate::lines::{push_pointer, push_words};
use crate::named::Named;
use record_fields::Item;
use record_kinds::{Entry, Link, Mention};
use std::alloc::{AllocError, Global};

/// Appends the number of an entry on its page.
fn push_item<N: Named>(
    alloc: Global,
    out: &mut String,
    index: &N,
    item: Item,
) -> Result<(), AllocError>
    ensures { OnOk result (string_bytes out.new ≡ string_bytes out.old
        ++ page (N.names index.now) 1 (text_line (codes "_ITEM") (decimal item.number) ∷ [])) }
{
    let words = item.text(alloc)?;
    push_words(alloc, out, index, 1, "_ITEM", words.as_str())
}

/// Appends the place of an entry, where there is one.
fn push_entry_place<N: Named>(
    alloc: Global,
    out: &mut String,
    index: &N,
    place: Option<u32>,
) -> Result<(), AllocError>
    ensures { OnOk result (string_bytes out.new ≡ string_bytes out.old
        ++ page (N.names index.now) 1 (entry_place_lines (N.around index.now) place)) }
{
    match place {
        Some(place) => push_place_line(alloc, out, index, 1, place),
        None => Ok(()),
    }
}

/// Appends which person a mention is of, and why.
fn push_link_line<N: Named>(
    alloc: Global,
    out: &mut String,
    index: &N,
    link: &Link,
) -> Result<(), AllocError>
    ensures { OnOk result (string_bytes out.new ≡ string_bytes out.old
        ++ page (N.names index.now) 2 (link_lines (Some link.now))) }
{
    push_pointer(alloc, out, index, 2, "_LINK", link.person)?;
    push_words(alloc, out, index, 3, "_WHY", link.reason.as_str())
}

/// Appends which person a mention is of, where it is linked.
fn push_link<N: Named>(
    alloc: Global,
    out: &mut String,
    index: &N,
    link: &Option<Link>,
) -> Result<(), AllocError>
    ensures { OnOk result (string_bytes out.new ≡ string_bytes out.old
        ++ page (N.names index.now) 2 (link_lines link.now)) }
{
    match link {
        Some(link) => push_link_line(alloc, out, index, link),
        None => Ok(()),
    }
}

/// Appends a mention, linked or not.
fn push_mention<N: Named>(
    alloc: Global,
    out: &mut String,
    index: &N,
    mention: &Mention,
) -> Result<(), AllocError>
    ensures { OnOk result (string_bytes out.new ≡ string_bytes out.old
        ++ page (N.names index.now) 1 (mention_line mention.now ∷ [])) }
{
    push_words(alloc, out, index, 1, "_MENT", mention.name.as_str())?;
    push_words(alloc, out, index, 2, "_ROLE", mention.role.as_str())?;
    push_link(alloc, out, index, &mention.link)
}

/// Appends the mentions, in their order.
fn push_mentions<N: Named>(
    alloc: Global,
    out: &mut String,
    index: &N,
    mentions: &[Mention],
) -> Result<(), AllocError>
    ensures { OnOk result (string_bytes out.new ≡ string_bytes out.old
        ++ page (N.names index.now) 1 (map mention_line mentions.now)) }
{
    'mentions: for mention in mentions {
        push_mention(alloc, out, index, mention)?;
    }
    Ok(())
}

/// Appends what is below a register entry: a record of our own. Its lines are exactly these, in this order.
pub fn push_entry<N: Named>(
    alloc: Global,
    out: &mut String,
    index: &N,
    entry: &Entry,
) -> Result<(), AllocError>
    ensures { OnOk result (string_bytes out.new ≡ string_bytes out.old
        ++ page (N.names index.now) 1 (entry_lines (N.around index.now) entry.now)) }
{
    push_pointer(alloc, out, index, 1, "SOUR", entry.source)?;
    push_words(alloc, out, index, 1, "PAGE", entry.page.as_str())?;
    push_item(alloc, out, index, entry.item)?;
    push_date(alloc, out, index, 1, &entry.date)?;
    push_entry_place(alloc, out, index, entry.place)?;
    push_words(alloc, out, index, 1, "TEXT", entry.text.as_str())?;
    push_mentions(alloc, out, index, &entry.mentions)
}
