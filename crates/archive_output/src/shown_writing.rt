//! A sheet of an archive that is open, written.

ghost use Rattle.std.specs.Prelude.{◌≡◌, ◌⊎◌, false, true, IfErr, OnOk};
ghost use Rattle.std.specs.Io.KnownBytes.{Keeps};
ghost use Rattle.sqlite.specs.Held.{state};
ghost use Rattle.archive_state.specs.Sound.{IsSound};
ghost use Rattle.archive_state.specs.Looks.{is_failure};
ghost use Rattle.devices.specs.Devices.{Rose};
ghost use Rattle.record_text.specs.declared.refusal.RefusalKind.TheVariants.{WriteFailed};
ghost use Rattle.store.specs.Histories.{has_broken};
ghost use Rattle.archive_output.specs.Reading.{OnOpen, OnlyReadsAny};
ghost use Rattle.archive_output.specs.Sheets.{sheet_text};
ghost use Rattle.archive_output.specs.Showing.{OfSound};
ghost use Rattle.archive_output.specs.Writing.{GotNoText, GotText, IsNotBegun, IsSheetRefused, IsSheetWritten};

use crate::sheet::{Sheet, sheet_of};
use crate::showing::shown_of;
use crate::texts::write_text;
use devices::Device;
use masking::Shown;
use record_text::RefusalKind;
use sqlite::Alter;
use std::alloc::Global;
use std::io::Write;
use store::Archive;

/// Writes a sheet of what is shown of an archive on a day. The archive is read whole, and not changed; an import that
/// is open stays open.
///
/// 1: memory was refused. 40: somebody else has spoilt what is stored, which cannot be read or is not sound. 80: the
/// database failed, and the archive has to be opened again. 50: no record that is shown has the number. 51: it is of
/// another kind. 95: the writer failed. Nothing is written but at 95 and at 1, where a beginning of the text may be.
pub fn write_sheet<S: Alter, W: Write + Device>(
    alloc: Global,
    archive: &mut Archive<S>,
    sheet: &Sheet,
    today: i32,
    writer: &mut W,
) -> Result<(), RefusalKind>
    requires kept { archive.old.is_lost ≡ false }
    ensures written { OnOk result (OnOpen (state S.Store archive.old.conn) (state S.Store archive.new.conn)
        (λ _ c. IsSheetWritten (W.contents writer.old) (W.contents writer.new) sheet.now today c)) }
    ensures refused { IfErr result (λ kind. OnOpen (state S.Store archive.old.conn) (state S.Store archive.new.conn)
        (λ _ c. IsSheetRefused kind (W.contents writer.old) (W.contents writer.new) sheet.now today c)) }
    ensures unread { IfErr result
        (λ kind. is_failure kind ≡ true → Keeps (W.contents writer.old) (W.contents writer.new)) }
    ensures writer { IfErr result (λ kind. kind ≡ WriteFailed → Rose (W.failed writer.old) (W.failed writer.new)) }
    ensures lost { archive.new.is_lost ≡ has_broken result }
    // Whether the tables are good or not.
    ensures sound { OnOk result (OfSound (state S.Store archive.old.conn) (state S.Store archive.new.conn)
        (λ c. IsSheetWritten (W.contents writer.old) (W.contents writer.new) sheet.now today c)) }
    ensures reads { OnlyReadsAny S.Store archive.old archive.new }
{
    match shown_of(alloc, archive, today) {
        Ok(shown) => write_shown(alloc, &shown, sheet, writer),
        Err(kind) => Err(kind),
    }
}

/// Writes a sheet of what is shown.
fn write_shown<W: Write + Device>(
    alloc: Global,
    shown: &Shown,
    sheet: &Sheet,
    writer: &mut W,
) -> Result<(), RefusalKind>
    ensures written { IsSound shown.now → OnOk result
        (GotText (W.contents writer.old) (W.contents writer.new) (sheet_text shown.now.records sheet.now)) }
    ensures refused { IsSound shown.now → IfErr result (λ kind.
        IsNotBegun kind (W.contents writer.old) (W.contents writer.new)
        ⊎ GotNoText kind (W.contents writer.old) (W.contents writer.new) (sheet_text shown.now.records sheet.now)) }
    ensures own { IfErr result (λ kind. is_failure kind ≡ false) }
    ensures writer { IfErr result (λ kind. kind ≡ WriteFailed → Rose (W.failed writer.old) (W.failed writer.new)) }
{
    match sheet_of(alloc, shown, sheet) {
        Ok(text) => write_text(text.as_str(), writer),
        Err(kind) => Err(kind),
    }
}
