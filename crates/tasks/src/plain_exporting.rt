//! A plain export of an archive that is open, and what it leaves out.

ghost use Rattle.std.specs.Prelude.{◌≡◌, ℕ, List, false, true, IfErr, OnErr, OnOk};
ghost use Rattle.std.specs.Io.KnownBytes.{Keeps};
ghost use Rattle.sqlite.specs.Held.{state};
ghost use Rattle.archive_state.specs.Looks.{is_failure};
ghost use Rattle.archive_output.specs.Plain.{IsPartPlainPublished, IsPlainPart, IsPlainPublished, IsPlainWhole};
ghost use Rattle.archive_output.specs.Reading.{OnOpen, OnlyReadsAny};
ghost use Rattle.archive_output.specs.Showing.{OfSound};
ghost use Rattle.devices.specs.Devices.{Rose};
ghost use Rattle.record_text.specs.declared.refusal.RefusalKind.TheVariants.{WriteFailed};
ghost use Rattle.store.specs.Histories.{has_broken};
ghost use Rattle.tasks.specs.Faults.{IsReported};

use crate::faults::FaultStream;
use archive_output::{write_plain, write_public_plain};
use devices::Device;
use record_text::RefusalKind;
use sqlite::Alter;
use std::alloc::Global;
use std::io::Write;
use store::Archive;

/// Writes the plain archive of an archive as a GEDCOM file, and then what it leaves out on the faults. Refusals as of
/// `archive_output::write_plain`; then nothing is said on the faults.
pub(crate) fn export_plain<S: Alter, W: Write + Device, F: FaultStream>(
    alloc: Global,
    archive: &mut Archive<S>,
    output: &mut W,
    faults: &mut F,
) -> Result<(), RefusalKind>
    requires kept { archive.old.is_lost ≡ false }
    ensures written { OnOk result ((left_out : List ℕ)
        × IsReported F.contents F.failed faults.old faults.new left_out
        × OnOpen (state S.Store archive.old.conn) (state S.Store archive.new.conn)
        (λ society c. IsPlainWhole (W.contents output.old) (W.contents output.new) left_out society c)) }
    ensures quiet { OnErr result (faults.new ≡ faults.old) }
    ensures begun { IfErr result (λ kind. OnOpen (state S.Store archive.old.conn) (state S.Store archive.new.conn)
        (λ society c. IsPlainPart kind (W.contents output.old) (W.contents output.new) society c)) }
    ensures unread { IfErr result
        (λ kind. is_failure kind ≡ true → Keeps (W.contents output.old) (W.contents output.new)) }
    ensures writer { IfErr result (λ kind. kind ≡ WriteFailed → Rose (W.failed output.old) (W.failed output.new)) }
    ensures lost { archive.new.is_lost ≡ has_broken result }
    ensures reads { OnlyReadsAny S.Store archive.old archive.new }
{
    match write_plain(alloc, archive, output) {
        Ok(left_out) => {
            faults.report(left_out.as_str().as_bytes());
            Ok(())
        }
        Err(kind) => Err(kind),
    }
}

/// The same of what is shown of an archive on a day. Refusals as of `archive_output::write_public_plain`.
pub(crate) fn export_public_plain<S: Alter, W: Write + Device, F: FaultStream>(
    alloc: Global,
    archive: &mut Archive<S>,
    today: i32,
    output: &mut W,
    faults: &mut F,
) -> Result<(), RefusalKind>
    requires kept { archive.old.is_lost ≡ false }
    ensures written { OnOk result ((left_out : List ℕ)
        × IsReported F.contents F.failed faults.old faults.new left_out
        × OnOpen (state S.Store archive.old.conn) (state S.Store archive.new.conn)
        (λ society c. IsPlainPublished (W.contents output.old) (W.contents output.new) left_out today society c)
        × OfSound (state S.Store archive.old.conn) (state S.Store archive.new.conn) (λ c. (society : List ℕ)
        × IsPlainPublished (W.contents output.old) (W.contents output.new) left_out today society c)) }
    ensures quiet { OnErr result (faults.new ≡ faults.old) }
    ensures begun { IfErr result (λ kind. OnOpen (state S.Store archive.old.conn) (state S.Store archive.new.conn)
        (λ society c. IsPartPlainPublished kind (W.contents output.old) (W.contents output.new) today society c)) }
    ensures unread { IfErr result
        (λ kind. is_failure kind ≡ true → Keeps (W.contents output.old) (W.contents output.new)) }
    ensures writer { IfErr result (λ kind. kind ≡ WriteFailed → Rose (W.failed output.old) (W.failed output.new)) }
    ensures lost { archive.new.is_lost ≡ has_broken result }
    ensures reads { OnlyReadsAny S.Store archive.old archive.new }
{
    match write_public_plain(alloc, archive, today, output) {
        Ok(left_out) => {
            faults.report(left_out.as_str().as_bytes());
            Ok(())
        }
        Err(kind) => Err(kind),
    }
}
