//! `convert`: a GEDCOM file that is the input, in UTF-8.

ghost use Rattle.std.specs.Prelude.{◌≡◌, option_map};
ghost use Rattle.devices.specs.Devices.{Rose};
ghost use Rattle.parish.specs.Converting as converting;

use character_sets::CharacterSet;
use command_line::SetName;
use conversion_reports::{Unconverted, convert_aloud};
use devices::Device;
use file_conversion::ConversionError;
use record_text::{Refusal, RefusalKind, RefusalText, Unit};
use std::alloc::Global;
use std::io::{Read, Write};
use tasks::{FaultStream, advice, placeless};

/// The file was converted.
const DONE: u8 = 0;

/// Writes the lines of the file of the input in UTF-8 on the output, and reports on the faults; gives the exit status.
/// 29, with a hint: the character set is not known. 27, 94, 95 and 1 as of `conversion_reports::convert_aloud`.
pub(crate) fn convert<R: Read + Device, W: Write + Device, F: FaultStream>(
    alloc: Global,
    from: Option<SetName>,
    input: &mut R,
    output: &mut W,
    faults: &mut F,
) -> u8
    ensures { converting.Converts F.contents F.failed (option_map converting.set_of from) (R.remaining input.old)
        (W.contents output.old) (W.contents output.new) faults.old faults.new
        (Rose (R.failed input.old) (R.failed input.new)) (Rose (W.failed output.old) (W.failed output.new)) result }
{
    match convert_aloud(alloc, asked(from), input, output, faults) {
        Ok(_) => DONE,
        Err(refused) => refuse(&refused, faults),
    }
}

/// Prints a refusal and its hint, and gives the exit status.
fn refuse<F: FaultStream>(refused: &Unconverted, faults: &mut F) -> u8
    ensures status { result ≡ 1 }
    ensures printed { converting.Refuses F.contents F.failed refused.now.error refused.now.hint.items
        faults.old faults.new }
{
    tasks::refuse(text_of(refused.error), hint_of(refused), faults)
}

/// The hint of a refusal: of a set that is not known that of the file.
fn hint_of(refused: &Unconverted) -> &[u8]
    ensures { result.now ≡ converting.hint_by refused.now.error refused.now.hint.items }
{
    match refused.error {
        ConversionError::OutOfMemory => advice(RefusalKind::OutOfMemory).as_bytes(),
        ConversionError::ReadFailed => advice(RefusalKind::ReadFailed).as_bytes(),
        ConversionError::WriteFailed => advice(RefusalKind::WriteFailed).as_bytes(),
        ConversionError::TooLarge => advice(RefusalKind::FileTooLarge).as_bytes(),
        ConversionError::UnknownSet(_) => &refused.hint,
    }
}

/// Why a file was not converted, as it is printed.
fn text_of(error: ConversionError) -> RefusalText
    ensures { result ≡ converting.refusal_of error }
{
    match error {
        ConversionError::OutOfMemory => placeless(RefusalKind::OutOfMemory),
        ConversionError::ReadFailed => placeless(RefusalKind::ReadFailed),
        ConversionError::WriteFailed => placeless(RefusalKind::WriteFailed),
        ConversionError::TooLarge => placeless(RefusalKind::FileTooLarge),
        ConversionError::UnknownSet(line) => Refusal {
            kind: RefusalKind::Charset,
            at: line_at(line),
        }
        .text(Unit::Line),
    }
}

/// A line as a refusal has it. `None`: it is above the greatest number.
fn line_at(line: usize) -> Option<u32>
    ensures { result ≡ converting.line_at line }
{
    if line <= u32::MAX as usize {
        Some(line as u32)
    } else {
        None
    }
}

/// The character set that is asked for.
pub(crate) fn asked(from: Option<SetName>) -> Option<CharacterSet>
    ensures { result ≡ option_map converting.set_of from }
{
    match from {
        Some(name) => Some(set_of(name)),
        None => None,
    }
}

fn set_of(name: SetName) -> CharacterSet
    ensures { result ≡ converting.set_of name }
{
    match name {
        SetName::Utf8 => CharacterSet::Utf8,
        SetName::Utf16Le => CharacterSet::Utf16Le,
        SetName::Utf16Be => CharacterSet::Utf16Be,
        SetName::Windows1252 => CharacterSet::Windows1252,
        SetName::CodePage437 => CharacterSet::CodePage437,
        SetName::CodePage850 => CharacterSet::CodePage850,
        SetName::Macintosh => CharacterSet::Macintosh,
        SetName::Ansel => CharacterSet::Ansel,
    }
}
