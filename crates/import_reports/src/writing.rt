//! The report of an import into an archive that is open, written before it is done.

ghost use Rattle.std.specs.Prelude.{◌≡◌, ◌⊎◌, ℕ, IfErr, List, Ok, OnErr, OnOk, false, option_map, string_bytes, true};
ghost use Rattle.std.specs.Io.KnownBytes.{Appends, Keeps};
ghost use Rattle.sqlite.specs.Held.{state};
ghost use Rattle.archive_output.specs.Reading.{OnlyReads};
ghost use Rattle.archive_state.specs.Content.{Content};
ghost use Rattle.archive_state.specs.Looks.{Looked, is_failure, is_stop as stop_test};
ghost use Rattle.archive_tables.specs.Ends.{OnRead};
ghost use Rattle.devices.specs.Devices.{AppendsBeginning, Rose};
ghost use Rattle.gedcom_tree.specs.Forest.{Item};
ghost use Rattle.record_text.specs.declared.refusal.RefusalKind.TheVariants.{BadStored, OutOfMemory, WriteFailed};
ghost use Rattle.store.specs.Histories.{has_broken};
ghost use Rattle.import_reports.specs.Reports.{IsForeseen};
ghost use Rattle.import_reports.specs.Writing.{EndsReport, EndsText};

use crate::reports::report_on;
use devices::{Device, TransferError, write_flushed};
use gedcom_tree::Forest;
use receipts::Token;
use record_text::RefusalKind;
use sqlite::Alter;
use std::alloc::Global;
use std::io::Write;
use store::Archive;
use store::laws::looks_are_a_call;

/// Writes the report of the import of a forest under a token, and flushes it, before the import is done: with the
/// numbers that it gives as long as nothing else changes the archive. `false`, and nothing is written: the token has an
/// answer, or the archive does not take the forest. The archive is not changed; an import that is open stays open, and
/// nothing of it is seen.
///
/// 80: the database failed, and the archive has to be opened again. 40: somebody else has spoilt what is stored. At
/// these nothing is written. 95: the writer failed. 1: memory was refused. At these a prefix may have been written.
pub fn write_report<S: Alter, W: Write + Device>(
    alloc: Global,
    archive: &mut Archive<S>,
    token: &Token,
    forest: &Forest,
    out: &mut W,
) -> Result<bool, RefusalKind>
    requires kept { archive.old.is_lost ≡ false }
    ensures ended { OnRead (state S.Store archive.old.conn) (state S.Store archive.new.conn)
        (EndsReport result (W.contents out.old) (W.contents out.new) token.now forest.now) }
    ensures none { result ≡ Ok false → out.new ≡ out.old }
    ensures unread { IfErr result (λ kind. is_failure kind ≡ true → Keeps (W.contents out.old) (W.contents out.new)) }
    ensures blamed { IfErr result (λ kind. kind ≡ WriteFailed → Rose (W.failed out.old) (W.failed out.new)) }
    ensures lost { archive.new.is_lost ≡ has_broken result }
    ensures reads { OnlyReads S.Store archive.old archive.new }
{
    looks_are_a_call::<S>();
    let import = archive.set_aside();
    let found = report_on(alloc, archive, token, forest);
    archive.put_back(import);
    write_found(archive.is_lost(), found, out)
}

/// Writes what looks have found, unless they lost the archive: then it is 80.
fn write_found<W: Write + Device>(
    is_lost: bool,
    found: Result<Option<String>, RefusalKind>,
    out: &mut W,
) -> Result<bool, RefusalKind>
    ensures ended { (c : Content) (token : List ℕ) (f : List Item)
        → (is_lost ≡ false → IfErr found (λ kind. is_failure kind ≡ false))
        → Looked found (λ text. IsForeseen c token f (option_map string_bytes text))
        → EndsReport result (W.contents out.old) (W.contents out.new) token f c }
    ensures none { result ≡ Ok false → out.new ≡ out.old }
    ensures unread { IfErr result (λ kind. is_failure kind ≡ true → Keeps (W.contents out.old) (W.contents out.new)) }
    ensures blamed { IfErr result (λ kind. kind ≡ WriteFailed → Rose (W.failed out.old) (W.failed out.new)) }
    ensures lost { has_broken result ≡ is_lost }
{
    if is_lost {
        return Err(RefusalKind::Storage);
    }
    match found {
        Ok(text) => write_some(&text, out),
        Err(kind) => Err(kept_refusal(kind)),
    }
}

/// Writes a text, if there is one.
fn write_some<W: Write + Device>(text: &Option<String>, out: &mut W) -> Result<bool, RefusalKind>
    ensures ended { EndsText result (W.contents out.old) (W.contents out.new) (option_map string_bytes text.now) }
    ensures none { result ≡ Ok false → out.new ≡ out.old }
    ensures kept { IfErr result (λ kind. is_failure kind ≡ false) }
    ensures blamed { IfErr result (λ kind. kind ≡ WriteFailed → Rose (W.failed out.old) (W.failed out.new)) }
{
    match text {
        Some(text) => {
            write_all(text.as_str(), out)?;
            Ok(true)
        }
        None => Ok(false),
    }
}

/// Writes a text, and flushes it. 95: the writer failed. 1: memory was refused. Then a prefix is written.
fn write_all<W: Write + Device>(text: &str, out: &mut W) -> Result<(), RefusalKind>
    ensures written { OnOk result (Appends (W.contents out.old) (W.contents out.new) text.now) }
    ensures begun { OnErr result (AppendsBeginning (W.contents out.old) (W.contents out.new) text.now) }
    ensures why { IfErr result (λ kind. (kind ≡ WriteFailed) ⊎ (kind ≡ OutOfMemory)) }
    ensures blamed { IfErr result (λ kind. kind ≡ WriteFailed → Rose (W.failed out.old) (W.failed out.new)) }
{
    let before = out.failures();
    match write_flushed(out, before, text.as_bytes()) {
        Ok(()) => Ok(()),
        Err(TransferError::OutOfMemory) => Err(RefusalKind::OutOfMemory),
        Err(TransferError::Failed) => Err(RefusalKind::WriteFailed),
    }
}

/// What looks that did not lose the archive are refused with: 1 or 40.
fn kept_refusal(kind: RefusalKind) -> RefusalKind
    ensures want { stop_test kind ≡ true → is_failure kind ≡ false → result ≡ OutOfMemory }
    ensures either { (result ≡ OutOfMemory) ⊎ (result ≡ BadStored) }
{
    match kind {
        RefusalKind::OutOfMemory => RefusalKind::OutOfMemory,
        _ => RefusalKind::BadStored,
    }
}
