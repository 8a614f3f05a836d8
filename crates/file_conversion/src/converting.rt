//! A file read in its own set, and written in UTF-8.

ghost use Rattle.std.specs.Prelude.{
  ◌≡◌,
  ◌⊎◌,
  ◌++◌,
  ◌≤◌,
  ◌<◌,
  IfErr,
  IfOk,
  IfSome,
  OnErr,
  OnOk,
  encode_utf8_all,
  length,
  string_bytes,
};
ghost use Rattle.std.specs.Io.KnownBytes.{Appends, Keeps};
ghost use Rattle.devices.specs.Devices.{AppendsBeginning, Rose};
ghost use Rattle.character_sets.specs.Sets.{characters};
ghost use Rattle.character_sets.specs.Lines.{lines};
ghost use Rattle.file_conversion.specs.Charsets.{said as said_of};
ghost use Rattle.file_conversion.specs.Conversion.{
  file_units as file_units_of,
  text_of_file as text_of_file_of,
  text_of_lines,
  text_of_units as text_of_units_of,
};
ghost use Rattle.file_conversion.specs.Streams.{
  Begun,
  Converted,
  HasText,
  NoFileText,
  NoText,
  NotConverted,
  NotRead,
  NotWritten,
};

use crate::ascii::{is_plain, push_units};
use crate::deciding::set_of_file;
use crate::fault::ConversionError;
use crate::naming::{named_by, said};
use crate::units::file_units;
use character_sets::{CharacterSet, Moved, first_line, moved_line, push_text};
use devices::{Device, TransferError, read_up_to, write_flushed};
use std::alloc::{AllocError, Global};
use std::io::{Read, Write};

/// The most bytes that are read.
const MAX_READ: usize = 134_217_728;

/// The most bytes that are written: a file of lines has no more.
const MAX_WRITTEN: usize = 67_108_864;

/// The text of units in a set, line by line. `TooLarge`: it would have more than 67,108,864 bytes.
pub fn text_of_units(
    alloc: Global,
    set: CharacterSet,
    units: &[u16],
) -> Result<String, ConversionError>
    ensures text { IfOk result (λ t. string_bytes t ≡ text_of_units_of set units.now) }
    ensures small { IfOk result (λ t. length (string_bytes t) ≤ 67_108_864) }
    ensures error { IfErr result (NoText (text_of_units_of set units.now)) }
{
    let mut text = String::new(alloc);
    let mut rest = units;
    let mut carry: Vec<u16> = Vec::new(alloc);
    'lines: while !rest.is_empty() {
        match push_next(alloc, &mut text, set, carry, rest) {
            Ok((next, more)) => {
                carry = next;
                rest = more;
            }
            Err(error) => return Err(error),
        }
    }
    Ok(text)
}

/// Adds the first line of units, whose value has `carry` in front: what is in front of the next one's, and the units
/// after it. `TooLarge`: the text has too many bytes with it. A line of ASCII alone is not copied before.
fn push_next<'a>(
    alloc: Global,
    text: &mut String,
    set: CharacterSet,
    carry: Vec<u16>,
    units: &'a [u16],
) -> Result<(Vec<u16>, &'a [u16]), ConversionError>
    requires { 0 < length units.now }
    ensures text { IfOk result (λ next. string_bytes text.new ++ text_of_lines set next.0.items (lines next.1.now)
        ≡ string_bytes text.old ++ text_of_lines set carry.items (lines units.now)) }
    ensures small { OnOk result (length (string_bytes text.new) ≤ 67_108_864) }
    ensures shorter { IfOk result (λ next. length next.1.now < length units.now) }
    ensures error { IfErr result (NoText (string_bytes text.old ++ text_of_lines set carry.items (lines units.now))) }
{
    let cut = first_line(units);
    if !is_plain(&carry, cut.body) {
        return push_moved(alloc, text, set, carry, units);
    }
    match push_line(alloc, text, set, cut.body, cut.ending) {
        Ok(()) => Ok((carry, cut.rest)),
        Err(error) => Err(error),
    }
}

/// Adds the first line of units as `push_next` does, whatever it has.
fn push_moved<'a>(
    alloc: Global,
    text: &mut String,
    set: CharacterSet,
    carry: Vec<u16>,
    units: &'a [u16],
) -> Result<(Vec<u16>, &'a [u16]), ConversionError>
    requires { 0 < length units.now }
    ensures text { IfOk result (λ next. string_bytes text.new ++ text_of_lines set next.0.items (lines next.1.now)
        ≡ string_bytes text.old ++ text_of_lines set carry.items (lines units.now)) }
    ensures small { OnOk result (length (string_bytes text.new) ≤ 67_108_864) }
    ensures shorter { IfOk result (λ next. length next.1.now < length units.now) }
    ensures error { IfErr result (NoText (string_bytes text.old ++ text_of_lines set carry.items (lines units.now))) }
{
    let Moved {
        body,
        ending,
        carry: next,
        rest: more,
    } = moved_line(alloc, set, carry, units)?;
    match push_line(alloc, text, set, &body, ending) {
        Ok(()) => Ok((next, more)),
        Err(error) => Err(error),
    }
}

/// Adds a line. `TooLarge`: the text has too many bytes with it.
fn push_line(
    alloc: Global,
    text: &mut String,
    set: CharacterSet,
    body: &[u16],
    ending: &[u16],
) -> Result<(), ConversionError>
    ensures ok { OnOk result (string_bytes text.new
        ≡ string_bytes text.old ++ encode_utf8_all (characters set body.now ++ characters set ending.now)) }
    ensures small { OnOk result (length (string_bytes text.new) ≤ 67_108_864) }
    ensures error { IfErr result (NoText (string_bytes text.old
        ++ encode_utf8_all (characters set body.now ++ characters set ending.now))) }
{
    push_both(alloc, text, set, body, ending)?;
    if text.len() > MAX_WRITTEN {
        return Err(ConversionError::TooLarge);
    }
    Ok(())
}

/// Adds the characters of a line and of what ends it.
fn push_both(
    alloc: Global,
    text: &mut String,
    set: CharacterSet,
    body: &[u16],
    ending: &[u16],
) -> Result<(), AllocError>
    ensures { OnOk result (string_bytes text.new
        ≡ string_bytes text.old ++ encode_utf8_all (characters set body.now ++ characters set ending.now)) }
{
    push_units(alloc, text, set, body)?;
    push_text(alloc, text, set, ending)?;
    Ok(())
}

/// The set of a file, and its text.
pub fn text_of_file(
    alloc: Global,
    asked: Option<CharacterSet>,
    bytes: &[u8],
) -> Result<(CharacterSet, String), ConversionError>
    ensures text { IfOk result (λ made. HasText asked bytes.now made.0 (string_bytes made.1)) }
    ensures error { IfErr result (NoFileText asked bytes.now) }
{
    match set_of_file(alloc, asked, bytes)? {
        Ok(set) => {
            let text = text_in(alloc, set, bytes)?;
            Ok((set, text))
        }
        Err(line) => Err(ConversionError::UnknownSet(line)),
    }
}

/// The text of a file in a set.
#[tactic(auto, unfolding(crate::specs::Conversion::text_of_file))]
fn text_in(alloc: Global, set: CharacterSet, bytes: &[u8]) -> Result<String, ConversionError>
    ensures text { IfOk result (λ t. string_bytes t ≡ text_of_file_of set bytes.now) }
    ensures small { IfOk result (λ t. length (string_bytes t) ≤ 67_108_864) }
    ensures error { IfErr result (NoText (text_of_file_of set bytes.now)) }
{
    let told = said_units(alloc, set, bytes)?;
    text_of_units(alloc, set, &told)
}

/// The units of a file whose first HEAD says UTF-8.
fn said_units(alloc: Global, set: CharacterSet, bytes: &[u8]) -> Result<Vec<u16>, AllocError>
    ensures { IfOk result (λ told. told.items ≡ said_of (lines (file_units_of set bytes.now))) }
{
    let units = file_units(alloc, set, bytes)?;
    let named = named_by(alloc, &units)?;
    said(alloc, &units, named)
}

/// All bytes of a file. `TooLarge`: it has more than 134,217,728.
pub fn read_file<R: Read + Device>(
    alloc: Global,
    reader: &mut R,
) -> Result<Vec<u8>, ConversionError>
    ensures bytes { IfOk result (λ all. IfSome (R.remaining reader.old) (λ known. known ≡ all.items)) }
    ensures error { IfErr result (NotRead (R.remaining reader.old)
        (Rose (R.failed reader.old) (R.failed reader.new))) }
{
    let before = reader.failures();
    let all = match read_up_to(alloc, reader, before, MAX_READ + 1) {
        Ok(all) => all,
        Err(TransferError::OutOfMemory) => return Err(ConversionError::OutOfMemory),
        Err(TransferError::Failed) => return Err(ConversionError::ReadFailed),
    };
    if all.len() > MAX_READ {
        return Err(ConversionError::TooLarge);
    }
    Ok(all)
}

/// Writes all of a text.
pub fn write_text<W: Write + Device>(writer: &mut W, text: &str) -> Result<(), ConversionError>
    ensures ok { OnOk result (Appends (W.contents writer.old) (W.contents writer.new) text.now) }
    ensures begun { OnErr result (AppendsBeginning (W.contents writer.old) (W.contents writer.new) text.now) }
    ensures error { IfErr result (NotWritten (Rose (W.failed writer.old) (W.failed writer.new))) }
{
    let before = writer.failures();
    match write_flushed(writer, before, text.as_bytes()) {
        Ok(()) => Ok(()),
        Err(TransferError::OutOfMemory) => Err(ConversionError::OutOfMemory),
        Err(TransferError::Failed) => Err(ConversionError::WriteFailed),
    }
}

/// Reads a whole file in the set that it says, or that is asked for where it is not UTF-16 by its first bytes, and
/// writes its lines in UTF-8: the set that it was read in.
///
/// Nothing is written before the text is whole, at most 67,108,864 bytes; it is held in memory, and so is the file.
/// `ReadFailed` and `WriteFailed` come only where the count of failures of the reader or the writer has risen in this
/// call. At `WriteFailed` a beginning was written, at any other error but out of memory nothing.
pub fn convert<R: Read + Device, W: Write + Device>(
    alloc: Global,
    asked: Option<CharacterSet>,
    reader: &mut R,
    writer: &mut W,
) -> Result<CharacterSet, ConversionError>
    ensures done { IfOk result (λ set. Converted asked set (R.remaining reader.old)
        (W.contents writer.old) (W.contents writer.new)) }

    // Either there is no text and nothing is written, or a beginning of it is.
    ensures error { IfErr result (λ e. (NotConverted asked (R.remaining reader.old)
        (Rose (R.failed reader.old) (R.failed reader.new)) e
        × Keeps (W.contents writer.old) (W.contents writer.new))
        ⊎ Begun asked (R.remaining reader.old) (W.contents writer.old) (W.contents writer.new)
        (Rose (W.failed writer.old) (W.failed writer.new)) e) }
{
    let bytes = match read_file(alloc, reader) {
        Ok(bytes) => bytes,
        Err(error) => return Err(error),
    };
    let (set, text) = match text_of_file(alloc, asked, &bytes) {
        Ok(made) => made,
        Err(error) => return Err(error),
    };
    match write_text(writer, &text) {
        Ok(()) => Ok(set),
        Err(error) => Err(error),
    }
}
