//! A table of register entries, read and looked over against an archive that is open.

ghost use Rattle.std.specs.Prelude.{◌≡◌, false, IfErr, IfOk};
ghost use Rattle.devices.specs.Devices.{Rose};
ghost use Rattle.page_texts.specs.Texts.{page_text as text_of_page};
ghost use Rattle.record_text.specs.declared.refusal.RefusalKind.TheVariants.{OutOfMemory};
ghost use Rattle.tasks.specs.Checking.{AreRead, IsText, IsUnread, SaysFound, as_checked};
ghost use Rattle.tasks.specs.Ends.{ChecksTable};

use crate::faults::FaultStream;
use crate::status::placeless;
use crate::task::TableForm;
use archive_tables::{PageFound, write_check};
use character_sets::CharacterSet;
use devices::{Device, TransferError, read_up_to};
use page_texts::page_text;
use record_text::{RefusalKind, RefusalText};
use row_references::NumberWord;
use sqlite::Alter;
use std::alloc::Global;
use std::io::{Read, Write};
use store::Archive;

/// The most bytes that a table may have.
const MOST: usize = 67_108_864;

/// Reads the table of the input, whose rows would be register entries of a source, and prints a line for all that is
/// wrong or doubtful. Of a table that cannot be read the faults get why.
///
/// 90: a row is wrong, or the table cannot be read; the lines of that are printed. 94: the input failed. 27: it has
/// more than 67,108,864 bytes. 1: memory was refused. Else refusals as of `write_check`.
pub(crate) fn check_table<S: Alter, R: Read + Device, W: Write + Device, F: FaultStream>(
    alloc: Global,
    archive: &mut Archive<S>,
    source: &NumberWord,
    form: TableForm,
    input: &mut R,
    output: &mut W,
    faults: &mut F,
) -> Result<(), RefusalText>
    requires kept { archive.old.is_lost ≡ false }
    ensures { ChecksTable S.Store R.Read R.Device W.Write W.Device F.Write F.Device
        (record { archive = archive.old; input = input.old; output = output.old; faults = faults.old })
        (record { archive = archive.new; input = input.new; output = output.new; faults = faults.new })
        source.now form result }
{
    match read_table(alloc, form.set, input) {
        Ok(text) => {
            let TableForm { order, makes, .. } = form;
            let found = write_check(alloc, archive, source, order, makes, &text, output);
            conclude_check(found, faults)
        }
        Err(kind) => Err(placeless(kind)),
    }
}

/// The text of the input, which is in that character set where one is given. 94: the input failed. 27: it has more than
/// 67,108,864 bytes. 1: memory was refused.
#[tactic(auto, using(crate::proofs::Whole::is_text))]
pub(crate) fn read_table<R: Read + Device>(
    alloc: Global,
    set: Option<CharacterSet>,
    input: &mut R,
) -> Result<Vec<u8>, RefusalKind>
    ensures text { IfOk result (λ text. IsText set (R.remaining input.old) text.items) }
    ensures error { IfErr result (IsUnread (R.remaining input.old) (Rose (R.failed input.old) (R.failed input.new))) }
{
    match read_bytes(alloc, input) {
        Ok(bytes) => converted(alloc, set, bytes),
        Err(kind) => Err(kind),
    }
}

/// The text of bytes. 1: memory was refused.
fn converted(
    alloc: Global,
    set: Option<CharacterSet>,
    bytes: Vec<u8>,
) -> Result<Vec<u8>, RefusalKind>
    ensures text { IfOk result (λ text. text.items ≡ text_of_page set bytes.items) }
    ensures error { IfErr result (λ kind. kind ≡ OutOfMemory) }
{
    Ok(page_text(alloc, set, bytes)?)
}

/// The bytes of the input. Refusals as of `read_table`.
fn read_bytes<R: Read + Device>(alloc: Global, input: &mut R) -> Result<Vec<u8>, RefusalKind>
    ensures bytes { IfOk result (λ all. AreRead (R.remaining input.old) all.items) }
    ensures error { IfErr result (IsUnread (R.remaining input.old) (Rose (R.failed input.old) (R.failed input.new))) }
{
    let before = input.failures();
    match read_up_to(alloc, input, before, MOST + 1) {
        Ok(all) => {
            if all.len() > MOST {
                return Err(RefusalKind::FileTooLarge);
            }
            Ok(all)
        }
        Err(TransferError::OutOfMemory) => Err(RefusalKind::OutOfMemory),
        Err(TransferError::Failed) => Err(RefusalKind::ReadFailed),
    }
}

/// The outcome of a check, after the lines of a table that cannot be read.
fn conclude_check<F: FaultStream>(
    found: Result<PageFound, RefusalKind>,
    faults: &mut F,
) -> Result<(), RefusalText>
    ensures outcome { result ≡ as_checked found }
    ensures said { SaysFound F.contents F.failed found faults.old faults.new }
{
    match found {
        Ok(PageFound::Checked { is_wrong: false }) => Ok(()),
        Ok(PageFound::Checked { is_wrong: true }) => Err(placeless(RefusalKind::BadRow)),
        Ok(PageFound::Unread { text }) => {
            faults.report(text.as_bytes());
            Err(placeless(RefusalKind::BadRow))
        }
        Err(kind) => Err(placeless(kind)),
    }
}
