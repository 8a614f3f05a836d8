//! An archive that is open, audited, and what is printed of that.

ghost use Rattle.std.specs.Prelude.{◌≡◌, false, IfErr, IfOk, OnOk, string_bytes};
ghost use Rattle.std.specs.Io.KnownBytes.{Appends};
ghost use Rattle.sqlite.specs.Held.{state};
ghost use Rattle.sqlite.specs.State.{HasCleanDisk};
ghost use Rattle.table_looks.specs.Judging.{Audit, without_fault};
ghost use Rattle.archive_output.specs.Reading.{OnlyReadsAny};
ghost use Rattle.devices.specs.Devices.{Rose};
ghost use Rattle.store.specs.Histories.{has_broken};
ghost use Rattle.tasks.specs.Ends.{IsAudit};
ghost use Rattle.tasks.specs.Parts.{IsPrintedPart, PrintsAudit};
ghost use Rattle.tasks.specs.Texts.{sound_text};

use crate::status::placeless;
use archive_output::write_text;
use devices::{Device, write_bytes};
use record_text::{RefusalKind, RefusalText};
use sqlite::Alter;
use std::alloc::{AllocError, Global};
use std::io::{Cursor, Write};
use store::Archive;
use table_looks::Flaw;

/// More bytes than the longest line of what breaks a rule has.
const LINE: usize = 256;

/// Audits the archive: prints how many records it has where it is sound, and names on the faults what breaks a rule
/// where that is known. 40: it is not sound. 80: the database failed. 1: memory was refused. 95: the output failed.
pub(crate) fn audit_archive<S: Alter, W: Write + Device, F: Write + Device>(
    alloc: Global,
    archive: &mut Archive<S>,
    output: &mut W,
    faults: &mut F,
) -> Result<(), RefusalText>
    requires kept { archive.old.is_lost ≡ false }
    ensures audits { (audit : Audit) × (archive.new.is_lost ≡ has_broken (without_fault audit))
        × (HasCleanDisk (state S.Store archive.new.conn)
        → IsAudit (state S.Store archive.old.conn) audit (state S.Store archive.new.conn))
        × PrintsAudit W.contents W.failed output.old output.new audit result }
    ensures quiet { OnOk result (faults.new ≡ faults.old) }
    ensures reads { OnlyReadsAny S.Store archive.old archive.new }
{
    match archive.audit_with_fault(alloc) {
        Ok(records) => match print_sound(alloc, records, output) {
            Ok(()) => Ok(()),
            Err(kind) => Err(placeless(kind)),
        },
        Err((kind, flaw)) => {
            print_flaw(flaw, faults);
            Err(placeless(kind))
        }
    }
}

/// Prints that an archive is sound, and how many records it has.
fn print_sound<W: Write + Device>(
    alloc: Global,
    records: u32,
    output: &mut W,
) -> Result<(), RefusalKind>
    ensures printed { OnOk result (Appends (W.contents output.old) (W.contents output.new) (sound_text records)) }
    ensures part { IfErr result (λ kind. IsPrintedPart (sound_text records) kind (W.contents output.old)
        (W.contents output.new) (Rose (W.failed output.old) (W.failed output.new))) }
{
    let line = sound_line(alloc, records)?;
    write_text(&line, output)
}

/// How many records a sound archive has. Refused only if memory is.
fn sound_line(alloc: Global, records: u32) -> Result<String, AllocError>
    ensures { IfOk result (λ line. string_bytes line ≡ sound_text records) }
{
    format!(in alloc; "sound: {records} records\n")
}

/// Names what breaks a rule, in one line and one write. It takes no memory.
fn print_flaw<F: Write + Device>(flaw: Option<Flaw>, faults: &mut F) {
    let Some(flaw) = flaw else {
        return;
    };
    let mut line = Cursor::new([0u8; LINE]);
    let _ = writeln!(line, "{flaw}");
    let bytes = line.get_ref().as_slice();
    let length = bytes.len().min(line.position() as usize);
    let before = faults.failures();
    let _ = write_bytes(faults, before, &bytes[..length]);
}
