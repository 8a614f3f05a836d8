//! What follows the line of a refusal: what to do, or what was found.

ghost use Rattle.std.specs.Prelude.{◌≡◌, Err};
ghost use Rattle.tasks.specs.Hints.{advice as advice_of};
ghost use Rattle.tasks.specs.Status.{Finishes};

use crate::faults::FaultStream;
use crate::status::{refuse, status_of};
use conversion_reports::char_hint;
use record_text::{RefusalKind, RefusalText};
use std::alloc::Global;

/// What to do about a refusal, by its kind: a line that begins with two spaces, or nothing.
pub fn advice(kind: RefusalKind) -> &'static str
    ensures { result.now ≡ advice_of kind }
{
    match kind {
        RefusalKind::OutOfMemory => "  run it again with more memory free\n",
        RefusalKind::NotUtf8 => "  parish convert makes the file UTF-8\n",
        RefusalKind::BadLevel =>
            "  the line has no level: was a text broken over two lines, or is it no GEDCOM file?\n",
        RefusalKind::BadXref =>
            "  after the level an @ begins a cross reference, as in @I1@, and a tag follows\n",
        RefusalKind::BadTag =>
            "  a tag has letters, digits and _ only, with one space before and after it\n",
        RefusalKind::TooLong => "  have the line ends been lost? CONC and CONT break a long text\n",
        RefusalKind::Nul =>
            "  the file is damaged, or in UTF-16: parish convert makes that UTF-8\n",
        RefusalKind::LevelJump => "  a line is missing before it, or its level is wrong\n",
        RefusalKind::NoHead =>
            "  the file has to begin with 0 HEAD: is it the right one, and whole?\n",
        RefusalKind::NoTrailer => "  the file has to end with 0 TRLR: it was cut off\n",
        RefusalKind::AfterTrailer => "  two files were joined: separate them\n",
        RefusalKind::BadContinuation =>
            "  CONC and CONT stand one level below the text that they continue\n",
        RefusalKind::ContinuationHasChildren =>
            "  nothing stands below CONC and CONT: all continuations of a text have one level\n",
        RefusalKind::DuplicateXref =>
            "  an earlier line has this cross reference: give one of the two another\n",
        RefusalKind::FileTooLarge =>
            "  a file has at most 67,108,864 bytes: have its program write several\n",
        RefusalKind::TextTooLong => "  a text has at most 1,048,576 bytes: is a picture in it?\n",
        RefusalKind::Charset =>
            "  CHAR names another character set: parish convert makes the file UTF-8\n",
        RefusalKind::Version => "  have the file written as GEDCOM 5.5.1\n",
        RefusalKind::BadStored =>
            "  another program has written the file: go back to the last good copy\n",
        RefusalKind::NoSuch => "  parish list and parish find show which numbers there are\n",
        RefusalKind::WrongKind => "  the number is that of a record of another kind\n",
        RefusalKind::TokenReused =>
            "  the token was used for something else: give each page, file and request its own\n",
        RefusalKind::BadText =>
            "  a text is too long, or has U+0000 or CR, or a name or place is empty\n",
        RefusalKind::DuplicateEntry =>
            "  an entry of this source, kind, page and item is there already, or twice in the file\n",
        RefusalKind::NotOfKind =>
            "  a role is none of the kind, or empty: remove commas that a spreadsheet adds\n",
        RefusalKind::ExportTooLarge =>
            "  keep copies of the archive's file instead, which may be larger\n",
        RefusalKind::Storage =>
            "  the archive could not be read or written: run it again, nothing is done twice\n",
        RefusalKind::NotAnArchive =>
            "  name the file of an archive, or for init a file that does not exist yet\n",
        RefusalKind::NewerSchema => "  a later version of parish has written it: use that one\n",
        RefusalKind::DaysReversed => "  the day of --from is after that of --to: swap them\n",
        RefusalKind::BadRow =>
            "  a field is not UTF-8, or its kind, item, date or place is not of its type\n",
        RefusalKind::FieldCount =>
            "  a row has 1 to 100 mentions, each with a role: count its commas\n",
        RefusalKind::BadToken =>
            "  a token is 1 to 64 characters from ! to ~, none of them a space\n",
        RefusalKind::ReadFailed =>
            "  it could not be read, or for serve another program has the port: run it again\n",
        RefusalKind::WriteFailed =>
            "  it could not be written: is the disk full, or has its reader left?\n",
        _ => "",
    }
}

/// The exit status of what was done, as `status_of`; of a file that names another character set than UTF-8 with what it
/// says of its set, if that is among its first bytes, `start`.
pub fn status_of_file<F: FaultStream>(
    alloc: Global,
    outcome: Result<(), RefusalText>,
    start: &[u8],
    faults: &mut F,
) -> u8
    ensures { Finishes F.contents F.failed outcome result faults.old faults.new }
{
    match outcome {
        Ok(()) => status_of(Ok(()), faults),
        Err(refusal) => refuse_file(alloc, refusal, start, faults),
    }
}

/// The same of a refusal.
fn refuse_file<F: FaultStream>(
    alloc: Global,
    refusal: RefusalText,
    start: &[u8],
    faults: &mut F,
) -> u8
    ensures { Finishes F.contents F.failed (Err refusal) result faults.old faults.new }
{
    if start.is_empty() {
        return status_of(Err(refusal), faults);
    }
    match refusal.refusal.kind {
        RefusalKind::Charset => match char_hint(alloc, start) {
            Ok(hint) => refuse(refusal, &hint, faults),
            Err(_) => status_of(Err(refusal), faults),
        },
        _ => status_of(Err(refusal), faults),
    }
}
