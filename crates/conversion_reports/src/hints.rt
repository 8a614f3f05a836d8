//! The hint of a file whose set is not known.

ghost use Rattle.std.specs.Prelude.{◌≡◌, ◌++◌, ◌∷◌, IfOk, OnOk, length, ◌≤◌};
ghost use Rattle.std.specs.List.{prefix_len};
ghost use Rattle.character_sets.specs.CodePages.{is_alike};
ghost use Rattle.character_sets.specs.Lines.{lines};
ghost use Rattle.conversion_reports.specs.Hints.{
  both_readings,
  char_hint as char_hint_of,
  hint_text,
  near_unlike as near_unlike_of,
  no_char,
  of_named,
  reading,
  say_from,
  unlike_line as unlike_line_of,
};

use crate::kinds::line_text;
use crate::pushes::{push, push_cut, push_shown};
use character_sets::{CharacterSet, first_line, is_read_alike};
use file_conversion::{NamedSet, char_lines, file_units, named_by};
use std::alloc::{AllocError, Global};

/// The hint of a file whose set is not known: one or two lines that begin with two spaces.
#[tactic(auto, unfolding(crate::specs::Hints::hint_text))]
pub(crate) fn hint(alloc: Global, bytes: &[u8]) -> Result<Vec<u8>, AllocError>
    ensures { IfOk result (λ text. text.items ≡ hint_text bytes.now) }
{
    let units = file_units(alloc, CharacterSet::Utf8, bytes)?;
    let named = named_by(alloc, &units)?;
    let mut out = Vec::new(alloc);
    push_named(alloc, &mut out, named, &units)?;
    Ok(out)
}

/// What the lines CHAR of the first HEAD say, and what to do: the hint of a file that is refused since it names another
/// set than UTF-8. `start` is what the file begins with; a line CHAR that stands later is not found.
///
/// A line that begins with two spaces, with at most 60 characters of the file. An error comes only where memory is
/// refused.
pub fn char_hint(alloc: Global, start: &[u8]) -> Result<Vec<u8>, AllocError>
    ensures { IfOk result (λ text. text.items ≡ char_hint_of start.now) }
{
    let units = file_units(alloc, CharacterSet::Utf8, start)?;
    let chars = char_lines(alloc, &units)?;
    let mut out = Vec::new(alloc);
    push(&mut out, "  CHAR is")?;
    push_cut(&mut out, &chars.words)?;
    push(&mut out, ": parish convert makes the file UTF-8\n")?;
    Ok(out)
}

/// Adds what leaves the set open, and what to do.
fn push_named(
    alloc: Global,
    out: &mut Vec<u8>,
    named: Option<NamedSet>,
    units: &[u16],
) -> Result<(), AllocError>
    ensures { OnOk result (out.new.items ≡ out.old.items ++ of_named named (lines units.now)) }
{
    match named {
        None => {
            push_no_char(out)?;
            push_say_from(out)
        }
        Some(NamedSet { line: _, set: None }) => {
            let chars = char_lines(alloc, units)?;
            push(out, "  CHAR says")?;
            push_shown(out, &chars.words)?;
            push_say_from(out)
        }
        Some(
            NamedSet {
                line: _,
                set: Some(_),
            },
        ) => push_readings(alloc, out, near_unlike(unlike_line(units))),
    }
}

fn push_no_char(out: &mut Vec<u8>) -> Result<(), AllocError>
    ensures { OnOk result (out.new.items ≡ out.old.items ++ no_char) }
{
    push(
        out,
        "  no line CHAR of its HEAD says the set, and it is not UTF-8\n",
    )
}

fn push_say_from(out: &mut Vec<u8>) -> Result<(), AllocError>
    ensures { OnOk result (out.new.items ≡ out.old.items ++ say_from) }
{
    push(
        out,
        "  say which set it is: --from 1252, 437, 850, macintosh, ansel or utf-8\n",
    )
}

/// The first line in which code pages 437 and 850 differ.
fn unlike_line(units: &[u16]) -> &[u16]
    ensures { result.now ≡ unlike_line_of (lines units.now) }
{
    let mut rest = units;
    'lines: while !rest.is_empty() {
        let cut = first_line(rest);
        if !is_read_alike(cut.body) {
            return cut.body;
        }
        rest = cut.rest;
    }
    rest
}

/// How many units of a line are shown at most before the first in which they differ.
const BEFORE: usize = 30;

/// What begins near the first unit in which they differ.
fn near_unlike(body: &[u16]) -> &[u16]
    ensures { result.now ≡ near_unlike_of body.now }
{
    &body[alike_len(body).saturating_sub(BEFORE)..]
}

/// How many units at the front they read alike.
fn alike_len(body: &[u16]) -> usize
    ensures count { result ≡ prefix_len is_alike body.now }
    ensures within { result ≤ length body.now }
{
    body.iter()
        .take_while(|unit| is_alike_in_both(**unit))
        .count()
}

fn is_alike_in_both(unit: u16) -> bool
    ensures { result ≡ is_alike unit }
{
    is_read_alike(&[unit])
}

/// Adds a line as both of them read it.
fn push_readings(alloc: Global, out: &mut Vec<u8>, units: &[u16]) -> Result<(), AllocError>
    ensures { OnOk result (out.new.items ≡ out.old.items ++ both_readings units.now) }
{
    push_reading(
        alloc,
        out,
        "  --from 437 reads: ",
        CharacterSet::CodePage437,
        units,
    )?;
    push_reading(
        alloc,
        out,
        "  --from 850 reads: ",
        CharacterSet::CodePage850,
        units,
    )
}

fn push_reading(
    alloc: Global,
    out: &mut Vec<u8>,
    label: &str,
    set: CharacterSet,
    units: &[u16],
) -> Result<(), AllocError>
    ensures { OnOk result (out.new.items ≡ out.old.items ++ reading label.now set units.now) }
{
    let text = line_text(alloc, set, units)?;
    push(out, label)?;
    push_shown(out, text.as_bytes())
}
