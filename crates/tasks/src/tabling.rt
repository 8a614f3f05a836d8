//! A table of register entries, entered on an archive that is open.

ghost use Rattle.std.specs.Prelude.{◌≡◌, IfErr, IfOk, OnOk, false, string_bytes};
ghost use Rattle.std.specs.List.{flat_map};
ghost use Rattle.std.specs.Io.KnownBytes.{Appends};
ghost use Rattle.devices.specs.Devices.{Rose};
ghost use Rattle.record_text.specs.declared.refusal.RefusalKind.{RefusalKind as SpecKind};
ghost use Rattle.tasks.specs.Ends.{EntersTable};
ghost use Rattle.tasks.specs.Faults.{IsReported};
ghost use Rattle.tasks.specs.Parts.{IsPrintedPart};
ghost use Rattle.tasks.specs.Status.{placeless_text};
ghost use Rattle.tasks.specs.Tables.{SaysFault, SaysPage, SaysPlaces, place_line, words_text};
ghost use Rattle.tasks.specs.Texts.{made_text};

use crate::checking::read_table;
use crate::entering::print_made;
use crate::faults::FaultStream;
use crate::status::placeless;
use crate::task::TableForm;
use archive_tables::{MadePlace, PageEnd, enter_page, enter_with_places};
use arrayvec::ArrayString;
use devices::Device;
use itoa::Buffer;
use page_batches::BatchRefusal;
use page_checks::page_lines;
use receipts::{Answer, Token};
use record_text::{RefusalKind, RefusalText, Unit};
use row_references::NumberWord;
use searching::shown;
use sqlite::Alter;
use std::alloc::{AllocError, Global};
use std::io::{Read, Write};
use store::Archive;
use table_pages::PageFault;

/// More bytes than the line of how many dates are words has: at most 51.
const LINE: usize = 64;

/// Reads the table of the input, and enters its rows as a batch of a source, under a token; prints how many entries
/// were made, with the number of the first, and the faults get how many dates have no days but words.
///
/// Where that is asked for, the places that it lacks are made first, and the faults get a line for each of them.
///
/// Refusals as of `archive_tables::enter_page`, with the row, after a line of the cell where one is to blame; nothing
/// is printed then. 90: the page has a fault, whose lines the faults have got. 94: the input failed. 27: it has more
/// than 67,108,864 bytes. 95: the output failed. 1: memory was refused. At 95, and at 1 if it is for the line, the
/// batch was entered, and of the line a prefix may be printed.
pub(crate) fn enter_table<S: Alter, R: Read + Device, W: Write + Device, F: FaultStream>(
    alloc: Global,
    archive: &mut Archive<S>,
    token: Token,
    source: &NumberWord,
    form: TableForm,
    input: &mut R,
    output: &mut W,
    faults: &mut F,
) -> Result<(), RefusalText>
    requires kept { archive.old.is_lost ≡ false }
    ensures { EntersTable S.Store R.Read R.Device W.Write W.Device F.Write F.Device
        (record { archive = archive.old; input = input.old; output = output.old; faults = faults.old })
        (record { archive = archive.new; input = input.new; output = output.new; faults = faults.new })
        token source.now form result }
{
    match read_table(alloc, form.set, input) {
        Ok(text) => {
            if form.makes {
                let mut made = Vec::new(alloc);
                let end = enter_with_places(
                    alloc, archive, token, source, form.order, &text, &mut made,
                );
                say_places(alloc, &made, faults);
                return say_page(alloc, end, output, faults);
            }
            let end = enter_page(alloc, archive, token, source, form.order, &text);
            say_page(alloc, end, output, faults)
        }
        Err(kind) => Err(placeless(kind)),
    }
}

/// Reports the places that were made, a line each; nothing where memory for that is refused.
fn say_places<F: FaultStream>(alloc: Global, made: &[MadePlace], faults: &mut F)
    ensures { SaysPlaces F.contents F.failed faults.old faults.new made.now }
{
    match places_text(alloc, made) {
        Ok(text) => faults.report(text.as_bytes()),
        Err(_) => {}
    }
}

/// A line for each place that was made.
fn places_text(alloc: Global, made: &[MadePlace]) -> Result<String, AllocError>
    ensures { IfOk result (λ text. string_bytes text ≡ flat_map place_line made.now) }
{
    let mut text = String::new(alloc);
    for place in made {
        text.push_str(place_text(alloc, place)?.as_str())?;
    }
    Ok(text)
}

fn place_text(alloc: Global, place: &MadePlace) -> Result<String, AllocError>
    ensures { IfOk result (λ text. string_bytes text ≡ place_line place.now) }
{
    let number = place.number;
    let path = shown(alloc, place.path.as_str())?;
    format!(in alloc; "place {number} is new: {path}\n")
}

/// Prints what entering a page has come to, or says why it was refused.
fn say_page<W: Write + Device, F: FaultStream>(
    alloc: Global,
    end: Result<PageEnd, BatchRefusal>,
    output: &mut W,
    faults: &mut F,
) -> Result<(), RefusalText>
    ensures { SaysPage W.contents W.failed F.contents F.failed result output.old output.new faults.old faults.new end }
{
    match end {
        Ok(PageEnd::Entered { answer, words }) => {
            say_words(words, faults);
            say_made(alloc, answer, output)
        }
        Ok(PageEnd::Unread { fault }) => say_fault(alloc, &fault, faults),
        Err(BatchRefusal { refusal, line }) => {
            faults.report(line.as_str().as_bytes());
            Err(refusal.text(Unit::Row))
        }
    }
}

/// Prints how many entries were made, with the number of the first.
fn say_made<W: Write + Device>(
    alloc: Global,
    answer: Answer,
    output: &mut W,
) -> Result<(), RefusalText>
    ensures printed { OnOk result (Appends (W.contents output.old) (W.contents output.new) (made_text answer)) }
    ensures part { IfErr result (λ t. (kind : SpecKind) × (t ≡ placeless_text kind)
        × IsPrintedPart (made_text answer) kind (W.contents output.old) (W.contents output.new)
        (Rose (W.failed output.old) (W.failed output.new))) }
{
    match print_made(alloc, answer, output) {
        Ok(()) => Ok(()),
        Err(kind) => Err(placeless(kind)),
    }
}

/// Says the first fault of a page.
fn say_fault<F: FaultStream>(
    alloc: Global,
    fault: &PageFault,
    faults: &mut F,
) -> Result<(), RefusalText>
    ensures { SaysFault F.contents F.failed result faults.old faults.new fault.now }
{
    match page_lines(alloc, fault) {
        Ok(lines) => {
            faults.report(lines.as_bytes());
            Err(placeless(RefusalKind::BadRow))
        }
        Err(_) => Err(placeless(RefusalKind::OutOfMemory)),
    }
}

/// Says how many dates of a page have no days but words. Takes no memory.
fn say_words<F: FaultStream>(words: usize, faults: &mut F)
    ensures { IsReported F.contents F.failed faults.old faults.new (words_text words) }
{
    let line = words_line(words);
    faults.report(line.as_str().as_bytes());
}

fn words_line(words: usize) -> ArrayString<LINE>
    ensures { result.bytes ≡ words_text words }
{
    let mut line = ArrayString::new();
    if words > 0 {
        line.push_str(Buffer::new().format(words));
        line.push_str(" dates have no days but words");
        line.push_str("\n");
    }
    line
}
