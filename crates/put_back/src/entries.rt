//! What is put back of a register entry.

ghost use Rattle.std.specs.Prelude.{◌≡◌, ◌<◌, ◌∷◌, ◌++◌, ◌+◌, [], OnOk, slice_get};
ghost use Rattle.put_back.specs.Entries as entries;

use crate::row::{Row, date_cell, push_cells, put, put_at, put_number};
use record_kinds::{Entry, Link, Mention};
use std::alloc::{AllocError, Global};

pub(crate) fn push_entry(
    alloc: Global,
    out: &mut Vec<Row>,
    number: u32,
    old: &Entry,
    now: &Entry,
) -> Result<(), AllocError>
    ensures { OnOk result (out.new.items ≡ out.old.items ++ entries.entry_back number old.now now.now) }
{
    push_key(alloc, out, number, old, now)?;
    put(
        alloc,
        out,
        number,
        "date",
        date_cell(&old.date),
        date_cell(&now.date),
    )?;
    put_number(alloc, out, number, "place", old.place, now.place)?;
    put(
        alloc,
        out,
        number,
        "text",
        old.text.as_str(),
        now.text.as_str(),
    )?;
    push_mentions(alloc, out, number, &old.mentions, &now.mentions)
}

/// The page and the item.
fn push_key(
    alloc: Global,
    out: &mut Vec<Row>,
    number: u32,
    old: &Entry,
    now: &Entry,
) -> Result<(), AllocError>
    ensures { OnOk result (out.new.items ≡ out.old.items ++ entries.key_back number old.now now.now) }
{
    put(
        alloc,
        out,
        number,
        "page",
        old.page.as_str(),
        now.page.as_str(),
    )?;
    put_number(
        alloc,
        out,
        number,
        "item",
        Some(old.item.number),
        Some(now.item.number),
    )
}

fn push_mentions(
    alloc: Global,
    out: &mut Vec<Row>,
    number: u32,
    old: &[Mention],
    now: &[Mention],
) -> Result<(), AllocError>
    ensures { OnOk result (out.new.items ≡ out.old.items ++ entries.mentions_back number 0 old.now now.now) }
{
    'each: for place in 0..old.len() {
        push_mention_at(alloc, out, number, place, &old[place], now)?;
    }
    Ok(())
}

/// The mention at a place in the list, from 0.
fn push_mention_at(
    alloc: Global,
    out: &mut Vec<Row>,
    number: u32,
    place: usize,
    old: &Mention,
    now: &[Mention],
) -> Result<(), AllocError>
    requires { place < 18446744073709551615 }
    ensures { OnOk result (out.new.items
        ≡ out.old.items ++ entries.mention_at number (place + 1) old.now (slice_get now.now place)) }
{
    match now.get(place) {
        Some(now) => push_mention(alloc, out, number, place + 1, old, now),
        None => Ok(()),
    }
}

fn push_mention(
    alloc: Global,
    out: &mut Vec<Row>,
    number: u32,
    place: usize,
    old: &Mention,
    now: &Mention,
) -> Result<(), AllocError>
    ensures { OnOk result (out.new.items ≡ out.old.items ++ entries.mention_back number place old.now now.now) }
{
    put_at(
        alloc,
        out,
        number,
        "name ",
        place,
        old.name.as_str(),
        now.name.as_str(),
    )?;
    put_at(
        alloc,
        out,
        number,
        "role ",
        place,
        old.role.as_str(),
        now.role.as_str(),
    )?;
    push_link(alloc, out, number, place, &old.link, &now.link)
}

fn push_link(
    alloc: Global,
    out: &mut Vec<Row>,
    number: u32,
    place: usize,
    old: &Option<Link>,
    now: &Option<Link>,
) -> Result<(), AllocError>
    ensures { OnOk result (out.new.items ≡ out.old.items ++ entries.link_back number place old.now now.now) }
{
    match (old, now) {
        (None, None) => Ok(()),
        (None, Some(_)) => push_unlink(alloc, out, number, place),
        (Some(old), None) => push_linked(alloc, out, number, place, old),
        (Some(old), Some(now)) => push_link_put(alloc, out, number, place, old, now),
    }
}

fn push_link_put(
    alloc: Global,
    out: &mut Vec<Row>,
    number: u32,
    place: usize,
    old: &Link,
    now: &Link,
) -> Result<(), AllocError>
    ensures { OnOk result (out.new.items ≡ out.old.items ++ entries.link_put number place old.now now.now) }
{
    if old.person == now.person && old.reason.as_str() == now.reason.as_str() {
        return Ok(());
    }
    push_linked(alloc, out, number, place, old)
}

fn push_linked(
    alloc: Global,
    out: &mut Vec<Row>,
    number: u32,
    place: usize,
    link: &Link,
) -> Result<(), AllocError>
    ensures { OnOk result (out.new.items ≡ out.old.items ++ entries.linked number place link.now ∷ []) }
{
    let entry = number.to_string(alloc)?;
    let mention = place.to_string(alloc)?;
    let person = link.person.to_string(alloc)?;
    let reason = link.reason.as_str();
    push_cells(
        alloc,
        out,
        &[
            "link",
            entry.as_str(),
            mention.as_str(),
            person.as_str(),
            reason,
        ],
    )
}

fn push_unlink(
    alloc: Global,
    out: &mut Vec<Row>,
    number: u32,
    place: usize,
) -> Result<(), AllocError>
    ensures { OnOk result (out.new.items ≡ out.old.items ++ entries.unlinked number place ∷ []) }
{
    let entry = number.to_string(alloc)?;
    let mention = place.to_string(alloc)?;
    push_cells(alloc, out, &["unlink", entry.as_str(), mention.as_str()])
}
