//! A page of register entries, looked over against an archive that is open.

ghost use Rattle.std.specs.Prelude.{◌≡◌, ◌≢◌, Err, Ok, false, true, IfErr, IfOk};
ghost use Rattle.std.specs.Io.KnownBytes.{Keeps};
ghost use Rattle.sqlite.specs.Held.{state};
ghost use Rattle.archive_output.specs.Reading.{OnlyReads};
ghost use Rattle.archive_state.specs.Looks.{Agrees, CountsFailures, is_failure, is_stop};
ghost use Rattle.archive_state.specs.Views.{On};
ghost use Rattle.devices.specs.Devices.{Rose};
ghost use Rattle.record_text.specs.declared.refusal.RefusalKind.TheVariants.{OutOfMemory, WriteFailed};
ghost use Rattle.store.specs.Histories.{has_broken, is_storage};
ghost use Rattle.table_pages.specs.Sheets.{sheet_of};
ghost use Rattle.archive_tables.specs.Checks.{EndsChecking, Right, check_by, unsourced};
ghost use Rattle.archive_tables.specs.Ends.{OnRead};

use archive_output::write_text;
use archive_state::View;
use devices::Device;
use page_checks::{PageCheck, check_page, fault_lines};
use page_entries::DateOrder;
use record_text::RefusalKind;
use row_references::{NumberWord, number_in};
use sqlite::Alter;
use std::alloc::{AllocError, Global};
use std::io::Write;
use store::Archive;
use store::laws::looks_are_a_call;
use table_pages::{PageFault, read_sheet};

/// What the check of a page has come to.
#[derive(Debug, Drop)]
pub enum PageFound {
    /// What is found is written, and whether something would be refused.
    Checked { is_wrong: bool },
    /// It is no sheet: the lines that say why, of which nothing is written.
    Unread { text: String },
}

/// Looks a page over, whose entries would be of a source, and writes a line for all that is wrong or doubtful. The
/// archive is not changed; an import that is open stays open, and nothing of it is seen.
///
/// 50, 51: the word gives no number, or that of no record, or of another than a source. 80: the database failed, and
/// the archive has to be opened again. 40: somebody else has spoilt what is stored. At these nothing is written. 95:
/// the output failed. 1: memory was refused. At these a beginning of the lines may have been written.
pub fn write_check<S: Alter, W: Write + Device>(
    alloc: Global,
    archive: &mut Archive<S>,
    source: &NumberWord,
    order: Option<DateOrder>,
    makes: bool,
    bytes: &[u8],
    writer: &mut W,
) -> Result<PageFound, RefusalKind>
    requires kept { archive.old.is_lost ≡ false }
    ensures ended { OnRead (state S.Store archive.old.conn) (state S.Store archive.new.conn)
        (λ c. EndsChecking result (W.contents writer.old) (W.contents writer.new)
        (check_by c source.now order makes bytes.now)) }
    ensures unread { IfErr result
        (λ kind. is_failure kind ≡ true → Keeps (W.contents writer.old) (W.contents writer.new)) }
    ensures writer { IfErr result (λ kind. kind ≡ WriteFailed → Rose (W.failed writer.old) (W.failed writer.new)) }
    ensures lost { archive.new.is_lost ≡ has_broken result }
    ensures reads { OnlyReads S.Store archive.old archive.new }
{
    looks_are_a_call::<S>();
    let import = archive.set_aside();
    let found = check_sourced(alloc, archive, source, order, makes, bytes);
    archive.put_back(import);
    write_checked(alloc, archive.is_lost(), found, writer)
}

/// Looks a page over, whose entries would be of the source of the number that a word gives. 50: it gives none, and the
/// page is a sheet.
fn check_sourced<V: View>(
    alloc: Global,
    view: &mut V,
    source: &NumberWord,
    order: Option<DateOrder>,
    makes: bool,
    bytes: &[u8],
) -> Result<Result<PageCheck, PageFault>, RefusalKind>
    ensures decides { On V.View view.old view.new
        (λ c. Agrees is_stop result (check_by c source.now order makes bytes.now)) }
    ensures counts { CountsFailures (V.failed view.old) (V.failed view.new) result }
{
    match number_in(alloc, view, source)? {
        Some(number) => check_page(alloc, view, number, order, makes, bytes),
        None => check_unsourced(alloc, bytes),
    }
}

/// Why a page is no sheet. 50: it is one.
fn check_unsourced(alloc: Global, bytes: &[u8]) -> Result<Result<PageCheck, PageFault>, RefusalKind>
    ensures decides { Agrees is_stop result (unsourced (sheet_of bytes.now)) }
    ensures unfailed { IfErr result (λ kind. is_failure kind ≡ false) }
{
    match read_sheet(alloc, bytes)? {
        Ok(_) => Err(RefusalKind::NoSuch),
        Err(fault) => Ok(Err(fault)),
    }
}

/// Writes what a check has found, unless its looks lost the archive: then it is 80.
fn write_checked<W: Write + Device>(
    alloc: Global,
    is_lost: bool,
    found: Result<Result<PageCheck, PageFault>, RefusalKind>,
    writer: &mut W,
) -> Result<PageFound, RefusalKind>
    ensures ended { (right : Right) → (is_lost ≡ false → IfErr found (λ kind. is_failure kind ≡ false))
        → Agrees is_stop found right → IfErr right (λ kind. kind ≢ WriteFailed)
        → EndsChecking result (W.contents writer.old) (W.contents writer.new) right }
    ensures unread { IfErr result
        (λ kind. is_failure kind ≡ true → Keeps (W.contents writer.old) (W.contents writer.new)) }
    ensures writer { IfErr result (λ kind. kind ≡ WriteFailed → Rose (W.failed writer.old) (W.failed writer.new)) }
    ensures lost { has_broken result ≡ is_lost }
{
    if is_lost {
        return Err(RefusalKind::Storage);
    }
    write_answer(alloc, found, writer)
}

/// Writes what a check has found, whose looks did not lose the archive.
fn write_answer<W: Write + Device>(
    alloc: Global,
    found: Result<Result<PageCheck, PageFault>, RefusalKind>,
    writer: &mut W,
) -> Result<PageFound, RefusalKind>
    ensures ended { (right : Right) → IfErr found (λ kind. is_failure kind ≡ false) → Agrees is_stop found right
        → IfErr right (λ kind. kind ≢ WriteFailed)
        → EndsChecking result (W.contents writer.old) (W.contents writer.new) right }
    ensures unread { IfErr result
        (λ kind. is_failure kind ≡ true → Keeps (W.contents writer.old) (W.contents writer.new)) }
    ensures writer { IfErr result (λ kind. kind ≡ WriteFailed → Rose (W.failed writer.old) (W.failed writer.new)) }
    ensures kept { has_broken result ≡ false }
{
    match found {
        Ok(Ok(check)) => write_found(&check, writer),
        Ok(Err(fault)) => Ok(unread_page(alloc, &fault)?),
        Err(kind) => Err(unbroken(kind)),
    }
}

/// Writes the lines of what is found.
fn write_found<W: Write + Device>(
    check: &PageCheck,
    writer: &mut W,
) -> Result<PageFound, RefusalKind>
    ensures ended { EndsChecking result (W.contents writer.old) (W.contents writer.new) (Ok (Ok check.now)) }
    ensures unread { IfErr result (λ kind. is_failure kind ≡ false) }
    ensures writer { IfErr result (λ kind. kind ≡ WriteFailed → Rose (W.failed writer.old) (W.failed writer.new)) }
    ensures kept { has_broken result ≡ false }
{
    match write_text(check.text.as_str(), writer) {
        Ok(()) => Ok(PageFound::Checked {
            is_wrong: check.is_wrong,
        }),
        Err(kind) => Err(kind),
    }
}

/// The lines of why a page is no sheet.
fn unread_page(alloc: Global, fault: &PageFault) -> Result<PageFound, AllocError>
    ensures { IfOk result (λ found. (before : _) → EndsChecking (Ok found) before before (Ok (Err fault.now))) }
{
    Ok(PageFound::Unread {
        text: fault_lines(alloc, fault)?,
    })
}

/// What looks that did not lose the archive are refused with: never 80, and never 95, since they write nothing.
fn unbroken(kind: RefusalKind) -> RefusalKind
    ensures stops { is_stop kind ≡ true → is_failure kind ≡ false → result ≡ OutOfMemory }
    ensures same { is_stop kind ≡ false → kind ≢ WriteFailed → result ≡ kind }
    ensures kept { is_storage result ≡ false }
    ensures unblamed { result ≢ WriteFailed }
{
    match kind {
        RefusalKind::Storage | RefusalKind::WriteFailed => RefusalKind::BadStored,
        kind => kind,
    }
}
