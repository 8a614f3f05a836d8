//! The report of a file that was converted.

ghost use Rattle.std.specs.Prelude.{◌≡◌, ◌++◌, IfOk, OnOk, take};
ghost use Rattle.character_sets.specs.Lines.{lines};
ghost use Rattle.file_conversion.specs.Charsets.{said as said_of};
ghost use Rattle.file_conversion.specs.Conversion.{file_units as file_units_of};
ghost use Rattle.conversion_reports.specs.Report.{
  char_line,
  is_added as is_added_of,
  is_set as is_set_of,
  left_lines,
  mark_count as mark_count_of,
  of_said,
  of_units,
  reason_text as reason_text_of,
  report_by,
  said_lines,
  set_line,
  set_name as set_name_of,
  set_said as set_said_of,
};

use crate::kinds::one_if;
use crate::pushes::{push, push_count, push_line_end, push_shown};
use crate::written::push_written;
use character_sets::CharacterSet;
use file_conversion::{
    LeftOut, NamedSet, Reason, char_lines, file_units_and_left_out, named_by, said, set_number,
};
use std::alloc::{AllocError, Global};

/// How many lines are named.
const MAX_LINES: usize = 5;

/// The report of a file that was read in a set, and the units of the file whose first HEAD says UTF-8.
pub(crate) fn report(
    alloc: Global,
    set: CharacterSet,
    why: Reason,
    bytes: &[u8],
) -> Result<(Vec<u8>, Vec<u16>), AllocError>
    ensures report { IfOk result (λ made. made.0.items ≡ report_by why set bytes.now) }
    ensures told { IfOk result (λ made. made.1.items ≡ said_of (lines (file_units_of set bytes.now))) }
{
    let mut out = Vec::new(alloc);
    push_set(&mut out, set, why)?;
    let (units, left) = file_units_and_left_out(alloc, set, bytes)?;
    let told = push_units(alloc, &mut out, set, left, &units)?;
    Ok((out, told))
}

/// Adds the set, and what said so.
fn push_set(out: &mut Vec<u8>, set: CharacterSet, why: Reason) -> Result<(), AllocError>
    ensures { OnOk result (out.new.items ≡ out.old.items ++ set_line set why) }
{
    push(out, "read as ")?;
    push(out, set_name(set))?;
    push(out, ": ")?;
    push(out, reason_text(why))?;
    push_line_end(out)
}

fn set_name(set: CharacterSet) -> &'static str
    ensures { result.now ≡ set_name_of set }
{
    match set {
        CharacterSet::Utf8 => "UTF-8",
        CharacterSet::Utf16Le => "UTF-16, low byte first",
        CharacterSet::Utf16Be => "UTF-16, high byte first",
        CharacterSet::Windows1252 => "Windows-1252",
        CharacterSet::CodePage437 => "code page 437",
        CharacterSet::CodePage850 => "code page 850",
        CharacterSet::Macintosh => "MacRoman",
        CharacterSet::Ansel => "ANSEL",
    }
}

fn reason_text(why: Reason) -> &'static str
    ensures { result.now ≡ reason_text_of why }
{
    match why {
        Reason::Mark => "the mark at its beginning says so",
        Reason::Nul => "a NUL is one of its first two bytes",
        Reason::Asked => "--from says so",
        Reason::Ascii => "no byte is above 7F",
        Reason::Whole => "all of it is UTF-8",
        Reason::Named => "CHAR says so",
    }
}

/// Adds what is reported of a file of these units: those of the file whose first HEAD says UTF-8.
fn push_units(
    alloc: Global,
    out: &mut Vec<u8>,
    set: CharacterSet,
    left: LeftOut,
    units: &[u16],
) -> Result<Vec<u16>, AllocError>
    ensures report { OnOk result (out.new.items ≡ out.old.items ++ of_units set left units.now) }
    ensures told { IfOk result (λ told. told.items ≡ said_of (lines units.now)) }
{
    let named = named_by(alloc, units)?;
    let chars = char_lines(alloc, units)?;
    push_char(out, set, named, &chars.words)?;
    push_left(alloc, out, set, left)?;
    let told = said(alloc, units, named)?;
    push_said(alloc, out, set, named, &chars.changed, units, &told)?;
    Ok(told)
}

/// Adds what the lines CHAR say, where it is another set than this.
fn push_char(
    out: &mut Vec<u8>,
    set: CharacterSet,
    named: Option<NamedSet>,
    words: &[u8],
) -> Result<(), AllocError>
    ensures { OnOk result (out.new.items ≡ out.old.items ++ char_line set named words.now) }
{
    let Some(named) = named else {
        return Ok(());
    };
    if is_set(set, named.set) {
        return Ok(());
    }
    push(out, "CHAR says")?;
    push_shown(out, words)
}

fn is_set(set: CharacterSet, named: Option<CharacterSet>) -> bool
    ensures { result ≡ is_set_of set named }
{
    match named {
        Some(named) => set_number(set_said(set)) == set_number(named),
        None => false,
    }
}

/// The set by whose words CHAR names a set: UTF-16 has none of its own.
fn set_said(set: CharacterSet) -> CharacterSet
    ensures { result ≡ set_said_of set }
{
    match set {
        CharacterSet::Utf16Le | CharacterSet::Utf16Be => CharacterSet::Utf8,
        _ => set,
    }
}

/// Adds what was left out at the ends of the file.
fn push_left(
    alloc: Global,
    out: &mut Vec<u8>,
    set: CharacterSet,
    left: LeftOut,
) -> Result<(), AllocError>
    ensures { OnOk result (out.new.items ≡ out.old.items ++ left_lines set left) }
{
    let marks = mark_count(set, left.marks);
    push_count(alloc, out, "marks at the beginning, left out", marks, &[])?;
    push_count(
        alloc,
        out,
        "NUL and Ctrl-Z at the end, left out",
        left.filling,
        &[],
    )?;
    Ok(())
}

/// How many marks have so many units.
fn mark_count(set: CharacterSet, units: usize) -> usize
    ensures { result ≡ mark_count_of set units }
{
    match set {
        CharacterSet::Utf16Le | CharacterSet::Utf16Be => units,
        _ => units / 3,
    }
}

/// Adds what became of the lines CHAR, and what is reported of the lines that are written.
fn push_said(
    alloc: Global,
    out: &mut Vec<u8>,
    set: CharacterSet,
    named: Option<NamedSet>,
    changed: &[usize],
    units: &[u16],
    told: &[u16],
) -> Result<(), AllocError>
    ensures { OnOk result (out.new.items ≡ out.old.items ++ of_said set named changed.now units.now told.now) }
{
    let is_added = is_added(named, units, told);
    push_changed(alloc, out, changed, is_added)?;
    push_written(alloc, out, set, is_added, told)?;
    Ok(())
}

fn is_added(named: Option<NamedSet>, units: &[u16], told: &[u16]) -> bool
    ensures { result ≡ is_added_of named units.now told.now }
{
    match named {
        Some(_) => false,
        None => units.len() < told.len(),
    }
}

/// Adds which lines CHAR got another value, and whether one was added.
fn push_changed(
    alloc: Global,
    out: &mut Vec<u8>,
    changed: &[usize],
    is_added: bool,
) -> Result<(), AllocError>
    ensures { OnOk result (out.new.items ≡ out.old.items ++ said_lines changed.now is_added) }
{
    let first = first_of(changed);
    push_count(
        alloc,
        out,
        "lines CHAR that now say UTF-8",
        changed.len(),
        first,
    )?;
    push_count(alloc, out, "lines CHAR added", one_if(is_added), &[])
}

fn first_of(numbers: &[usize]) -> &[usize]
    ensures { result.now ≡ take 5 numbers.now }
{
    if numbers.len() < MAX_LINES {
        numbers
    } else {
        &numbers[..MAX_LINES]
    }
}
