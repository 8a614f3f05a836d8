//! A file read in its own set and written in UTF-8, while standard error says what was done.

ghost use Rattle.std.specs.Prelude.{◌≡◌, [], IfErr, IfOk, IfSome, OnOk, Option, string_bytes};
ghost use Rattle.std.specs.Io.KnownBytes.{Appends};
ghost use Rattle.devices.specs.Devices.{AppendsBeginning, Rose};
ghost use Rattle.character_sets.specs.declared.set.CharacterSet.{CharacterSet};
ghost use Rattle.file_conversion.specs.declared.fault.ConversionError.TheVariants.{OutOfMemory};
ghost use Rattle.file_conversion.specs.Streams.{NoFileText};
ghost use Rattle.conversion_reports.specs.Hints.{hint_of};
ghost use Rattle.conversion_reports.specs.Streams.{
  ConvertedAloud,
  IsMade,
  IsReported,
  NotConvertedAloud,
  NotMade,
};

use crate::hints::hint;
use crate::report::report;
use character_sets::CharacterSet;
use devices::{Device, TransferError, write_flushed};
use file_conversion::{ConversionError, read_file, set_and_reason, text_of_units, write_text};
use std::alloc::Global;
use std::io::{Read, Write};

/// Why a file was not converted, and the lines that come after the refusal on standard error.
#[derive(Drop)]
pub struct Unconverted {
    pub error: ConversionError,
    /// At `UnknownSet` one or two lines that begin with two spaces, what was found and what to do; else nothing.
    pub hint: Vec<u8>,
}

/// A file as it is to be written, and what is to be reported.
#[derive(Drop)]
struct Made {
    set: CharacterSet,
    text: String,
    report: Vec<u8>,
}

/// An error without a hint.
fn plain(alloc: Global, error: ConversionError) -> Unconverted
    ensures error { result.error ≡ error }
    ensures hint { result.hint.items ≡ [] }
{
    Unconverted {
        error,
        hint: Vec::new(alloc),
    }
}

/// An error over a file, with its hint. `OutOfMemory`: there was no memory for that.
fn hinted(alloc: Global, error: ConversionError, bytes: &[u8]) -> Unconverted
    ensures why { (asked : Option CharacterSet) → NoFileText asked bytes.now error
        → NoFileText asked bytes.now result.error }
    ensures hint { result.hint.items ≡ hint_of result.error bytes.now }
{
    match error {
        ConversionError::UnknownSet(_) => match hint(alloc, bytes) {
            Ok(hint) => Unconverted { error, hint },
            Err(_) => plain(alloc, ConversionError::OutOfMemory),
        },
        _ => plain(alloc, error),
    }
}

/// The set of a file, its text and its report.
fn make(alloc: Global, asked: Option<CharacterSet>, bytes: &[u8]) -> Result<Made, ConversionError>
    ensures made { IfOk result (λ m. IsMade asked bytes.now m.set (string_bytes m.text) m.report.items) }
    ensures error { IfErr result (NoFileText asked bytes.now) }
{
    let (set, why) = match set_and_reason(alloc, asked, bytes)? {
        Ok(found) => found,
        Err(line) => return Err(ConversionError::UnknownSet(line)),
    };
    let (report, told) = report(alloc, set, why, bytes)?;
    match text_of_units(alloc, set, &told) {
        Ok(text) => Ok(Made { set, text, report }),
        Err(error) => Err(error),
    }
}

/// Writes the report. `OutOfMemory`: standard error found no memory, and counted no failure. Where it counts one, less
/// is reported, and all else is the same.
fn write_report<F: Write + Device>(faults: &mut F, report: &[u8]) -> Result<(), ConversionError>
    ensures done { OnOk result (IsReported (Rose (F.failed faults.old) (F.failed faults.new))
        (F.contents faults.old) (F.contents faults.new) report.now) }
    ensures error { IfErr result (λ e. (e ≡ OutOfMemory)
        × AppendsBeginning (F.contents faults.old) (F.contents faults.new) report.now) }
{
    let before = faults.failures();
    match write_flushed(faults, before, report) {
        Ok(()) => Ok(()),
        Err(TransferError::Failed) => Ok(()),
        Err(TransferError::OutOfMemory) => Err(ConversionError::OutOfMemory),
    }
}

/// Writes a file and then its report.
fn write_made<W: Write + Device, F: Write + Device>(
    writer: &mut W,
    faults: &mut F,
    text: &str,
    report: &[u8],
) -> Result<(), ConversionError>
    ensures done { OnOk result (Appends (W.contents writer.old) (W.contents writer.new) text.now
        × IsReported (Rose (F.failed faults.old) (F.failed faults.new))
        (F.contents faults.old) (F.contents faults.new) report.now) }
    ensures error { IfErr result (NotMade (W.contents writer.old) (W.contents writer.new)
        (F.contents faults.old) (F.contents faults.new) (Rose (W.failed writer.old) (W.failed writer.new))
        text.now report.now) }
{
    match write_text(writer, text) {
        Ok(()) => write_report(faults, report),
        Err(error) => Err(error),
    }
}

/// Reads a whole file in the set that it says, or that is asked for where it is not UTF-16 by its first bytes, writes
/// its lines in UTF-8 as `convert` does, and then reports on `faults` what was found and what was changed: the set that
/// it was read in.
///
/// Nothing is reported before all of the text is written. `OutOfMemory` comes also where there is no memory for the
/// report: before anything is written, or, where `faults` itself finds none and counts no failure, after that. Where
/// `faults` counts a failure, a beginning of the report is there, and the file is converted all the same.
pub fn convert_aloud<R: Read + Device, W: Write + Device, F: Write + Device>(
    alloc: Global,
    asked: Option<CharacterSet>,
    reader: &mut R,
    writer: &mut W,
    faults: &mut F,
) -> Result<CharacterSet, Unconverted>
    ensures done { IfOk result (λ set. ConvertedAloud asked set (R.remaining reader.old)
        (W.contents writer.old) (W.contents writer.new) (F.contents faults.old) (F.contents faults.new)
        (Rose (F.failed faults.old) (F.failed faults.new))) }
    ensures error { IfErr result (λ e. NotConvertedAloud asked (R.remaining reader.old)
        (W.contents writer.old) (W.contents writer.new) (F.contents faults.old) (F.contents faults.new)
        (Rose (R.failed reader.old) (R.failed reader.new)) (Rose (W.failed writer.old) (W.failed writer.new)) e.error) }
    ensures hint { IfErr result (λ e. IfSome (R.remaining reader.old)
        (λ bytes. e.hint.items ≡ hint_of e.error bytes)) }
{
    let bytes = match read_file(alloc, reader) {
        Ok(bytes) => bytes,
        Err(error) => return Err(plain(alloc, error)),
    };
    let made = match make(alloc, asked, &bytes) {
        Ok(made) => made,
        Err(error) => return Err(hinted(alloc, error, &bytes)),
    };
    match write_made(writer, faults, &made.text, &made.report) {
        Ok(()) => Ok(made.set),
        Err(error) => Err(plain(alloc, error)),
    }
}
