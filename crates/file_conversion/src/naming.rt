//! What the lines CHAR of a file name, and the file with a line CHAR that says UTF-8.

ghost use Rattle.std.specs.Prelude.{◌≡◌, ◌+◌, ◌<◌, ◌≤◌, ◌++◌, ◌∷◌, [], IfOk, None, OnOk};
ghost use Rattle.character_sets.specs.Lines.{lines};
ghost use Rattle.file_conversion.specs.Charsets.{
  added as added_of,
  line_end as line_end_of,
  Reads,
  Says,
  named_by as named_by_of,
  said_in,
  said_line,
};
ghost use Rattle.file_conversion.specs.declared.charsets.Place.TheVariants.{Start, Below};

use crate::charsets::{
    NamedSet, Place, Reading, is_beyond, is_char, is_head, named_with, next_place,
};
use character_sets::{Cut, first_line, is_blank, line_head};
use std::alloc::{AllocError, Global};

/// What the lines CHAR of a file name, if its first line is a HEAD. `None`: there is no such line.
pub fn named_by(alloc: Global, units: &[u16]) -> Result<Option<NamedSet>, AllocError>
    ensures { IfOk result (λ named. named ≡ named_by_of (lines units.now)) }
{
    let mut rest = units;
    let mut reading = Reading {
        place: Place::Start,
        named: None,
        line: 1,
    };
    'lines: while !rest.is_empty() {
        if is_beyond(reading.place) {
            return Ok(reading.named);
        }
        let cut = first_line(rest);
        reading = after_line(alloc, reading, cut.body)?;
        rest = cut.rest;
    }
    Ok(reading.named)
}

/// What is known after one more line.
fn after_line(alloc: Global, reading: Reading, body: &[u16]) -> Result<Reading, AllocError>
    requires { reading.line < 0xFFFF_FFFF_FFFF_FFFF }
    ensures reads { IfOk result (λ now. Reads reading.place reading.named reading.line body.now now) }
    ensures line { IfOk result (λ now. now.line ≤ reading.line + 1) }
{
    if is_blank(body) {
        return Ok(reading);
    }
    let named = named_with(alloc, reading.place, reading.named, reading.line, body)?;
    let place = next_place(reading.place, line_head(body));
    Ok(Reading {
        place,
        named,
        line: reading.line + 1,
    })
}

/// The units of a file whose first HEAD says UTF-8; `named` is what it names.
pub fn said(alloc: Global, units: &[u16], named: Option<NamedSet>) -> Result<Vec<u16>, AllocError>
    ensures { IfOk result (λ all. all.items ≡ said_in named Start (lines units.now)) }
{
    let mut all = Vec::with_capacity(alloc, units.len())?;
    let mut rest = units;
    let mut place = Place::Start;
    'lines: while !rest.is_empty() {
        if is_beyond(place) {
            all.extend_from_slice(rest)?;
            return Ok(all);
        }
        let cut = first_line(rest);
        place = push_next(&mut all, named, place, cut)?;
        rest = cut.rest;
    }
    Ok(all)
}

/// Adds the first line of units with what ends it: where the next one stands.
fn push_next(
    all: &mut Vec<u16>,
    named: Option<NamedSet>,
    place: Place,
    cut: Cut<'_>,
) -> Result<Place, AllocError>
    ensures { IfOk result (λ next. Says named place cut.entry.body.now cut.entry.ending.now cut.entry.more.now
        all.old.items next all.new.items) }
{
    if is_blank(cut.body) {
        all.extend_from_slice(cut.body)?;
        all.extend_from_slice(cut.ending)?;
        return Ok(place);
    }
    push_line(all, named, place, cut.body, cut.more)?;
    all.extend_from_slice(cut.ending)?;
    Ok(next_place(place, line_head(cut.body)))
}

/// Adds a line, which the units `more` come after.
fn push_line(
    all: &mut Vec<u16>,
    named: Option<NamedSet>,
    place: Place,
    body: &[u16],
    more: &[u16],
) -> Result<(), AllocError>
    ensures { OnOk result (all.new.items ≡ all.old.items ++ said_line named place body.now more.now) }
{
    match place {
        Place::Start => push_head(all, named, body, more),
        Place::Below => push_below(all, body),
        Place::Beyond => all.extend_from_slice(body),
    }
}

/// Adds the first line, and a line CHAR where it is a HEAD that has none.
fn push_head(
    all: &mut Vec<u16>,
    named: Option<NamedSet>,
    body: &[u16],
    more: &[u16],
) -> Result<(), AllocError>
    ensures { OnOk result (all.new.items ≡ all.old.items ++ said_line named Start body.now more.now) }
{
    if !is_head(line_head(body)) {
        return all.extend_from_slice(body);
    }
    all.extend_from_slice(body)?;
    push_added(all, named, more)
}

/// Adds a line CHAR, where there is none.
fn push_added(all: &mut Vec<u16>, named: Option<NamedSet>, more: &[u16]) -> Result<(), AllocError>
    ensures { OnOk result (all.new.items ≡ all.old.items ++ added_of named more.now) }
{
    match named {
        Some(_) => Ok(()),
        None => {
            push_end(all, more)?;
            push_ascii(all, b"1 CHAR UTF-8")
        }
    }
}

/// Adds a line below the HEAD.
fn push_below(all: &mut Vec<u16>, body: &[u16]) -> Result<(), AllocError>
    ensures { OnOk result (all.new.items ≡ all.old.items ++ said_line None Below body.now []) }
{
    let head = line_head(body);
    match head {
        Some(found) if is_char(head) => {
            all.extend_from_slice(&body[..found.tag_at])?;
            push_ascii(all, b"CHAR UTF-8")
        }
        _ => all.extend_from_slice(body),
    }
}

/// Adds what ends a line that these units come after.
fn push_end(all: &mut Vec<u16>, more: &[u16]) -> Result<(), AllocError>
    ensures { OnOk result (all.new.items ≡ all.old.items ++ line_end_of more.now) }
{
    match more {
        [] => push(all, 10),
        [13, 10, ..] | [10, 13, ..] => all.extend_from_slice(&more[..2]),
        [first, ..] => push(all, *first),
    }
}

fn push(all: &mut Vec<u16>, unit: u16) -> Result<(), AllocError>
    ensures { OnOk result (all.new.items ≡ all.old.items ++ (unit ∷ [])) }
{
    all.push(unit)?;
    Ok(())
}

fn push_ascii(all: &mut Vec<u16>, bytes: &[u8]) -> Result<(), AllocError>
    ensures { OnOk result (all.new.items ≡ all.old.items ++ bytes.now) }
{
    for byte in bytes {
        push(all, u16::from(*byte))?;
    }
    Ok(())
}
