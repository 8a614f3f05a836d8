//! A GEDCOM file, imported into an archive, and what is printed of it.

ghost use Rattle.std.specs.Prelude.{◌≡◌, ◌⊎◌, ℕ, Err, IfErr, IfOk, List, Ok, OnOk, Option, false, true};
ghost use Rattle.std.specs.Io.KnownBytes.{Appends, Keeps};
ghost use Rattle.devices.specs.Devices.{Rose};
ghost use Rattle.store.specs.Telling.{TellsImport};
ghost use Rattle.archive_input.specs.Importing.{
  Imports,
  ImportsAll,
  ImportsSilently,
  IsFileOf,
  IsNoFile,
  TellsImported,
};
ghost use Rattle.archive_input.specs.Telling as telling;
ghost use Rattle.receipts.specs.declared.answer.Answer.{Answer as SpecAnswer};
ghost use Rattle.receipts.specs.declared.report.ReportLine.{ReportLine as SpecLine};
ghost use Rattle.record_text.specs.declared.refusal.RefusalKind.{RefusalKind as SpecKind};
ghost use Rattle.tasks.specs.Counts.{SaysCount, SaysPart};
ghost use Rattle.tasks.specs.Parts.{IsPrintedPart};
ghost use Rattle.tasks.specs.Status.{placeless_text};

use crate::progress::ProgressLines;
use crate::status::placeless;
use archive_input::{import_forest, import_text, read_file};
use archive_output::write_text;
use devices::Device;
use gedcom_tree::Forest;
use receipts::{Answer, Report, Token};
use record_text::{Refusal, RefusalKind, RefusalText, Unit};
use sqlite::Alter;
use staging::Silent;
use std::alloc::Global;
use std::io::{Read, Write};
use std::time::Clock;
use store::Archive;

/// Imports the file of the input under a token, and prints how many records were made, with the report of the file.
/// With `progress` the faults get how far it is.
///
/// Refusals as of `archive_input::read_file`, which may leave the first bytes of the file in `start`, and
/// `import_forest`, with the line; nothing is printed then. 95: the output failed. 1: no memory was found for what is
/// printed, or by the faults for a line of `progress`. At these two the file was imported, and a prefix may be
/// printed.
pub(crate) fn import_file<
    S: Alter,
    C: Clock,
    R: Read + Device,
    W: Write + Device,
    F: Write + Device,
>(
    alloc: Global,
    clock: &C,
    archive: &mut Archive<S>,
    token: Token,
    progress: bool,
    input: &mut R,
    start: &mut Vec<u8>,
    output: &mut W,
    faults: &mut F,
) -> Result<(), RefusalText>
    ensures imported { OnOk result ((answer : SpecAnswer) × (report : List SpecLine)
        × ImportsAll S.Store token (R.remaining input.old) archive.old answer report archive.new
        × Appends (W.contents output.old) (W.contents output.new) (telling.import_text answer report)) }
    ensures refused { IfErr result (λ t.
        ((Imports S.Store token (R.remaining input.old) archive.old (Err t.refusal) archive.new
        ⊎ (ImportsSilently S.Store token (R.remaining input.old) archive.old t.refusal archive.new
        ⊎ ((archive.new ≡ archive.old) × IsNoFile (R.remaining input.old) t.refusal
        (Rose (R.failed input.old) (R.failed input.new))))) × Keeps (W.contents output.old) (W.contents output.new))
        ⊎ ((answer : SpecAnswer) × (report : List SpecLine) × (kind : SpecKind) × (t ≡ placeless_text kind)
        × ImportsAll S.Store token (R.remaining input.old) archive.old answer report archive.new
        × IsPrintedPart (telling.import_text answer report) kind (W.contents output.old) (W.contents output.new)
        (Rose (W.failed output.old) (W.failed output.new)))) }
    ensures silent { progress ≡ false → faults.new ≡ faults.old }
    ensures told { progress ≡ true → TellsImport (SaysPart F.contents F.failed) faults.old faults.new }
    ensures told_done { progress ≡ true → OnOk result (TellsImported S.Store (SaysCount F.contents F.failed) token
        (R.remaining input.old) archive.old archive.new faults.old faults.new) }
{
    match read_file(alloc, input, start) {
        Ok(forest) => import_read(
            alloc, clock, archive, token, progress, forest, output, faults,
        ),
        Err(why) => Err(why.text(Unit::Line)),
    }
}

/// Imports a file that was read, as `import_file`.
pub(crate) fn import_read<S: Alter, C: Clock, W: Write + Device, F: Write + Device>(
    alloc: Global,
    clock: &C,
    archive: &mut Archive<S>,
    token: Token,
    progress: bool,
    forest: Forest,
    output: &mut W,
    faults: &mut F,
) -> Result<(), RefusalText>
    ensures imported { (file : Option (List ℕ)) → IsFileOf file forest → OnOk result ((answer : SpecAnswer)
        × (report : List SpecLine) × ImportsAll S.Store token file archive.old answer report archive.new
        × Appends (W.contents output.old) (W.contents output.new) (telling.import_text answer report)) }
    ensures refused { (file : Option (List ℕ)) → IsFileOf file forest → IfErr result (λ t.
        ((Imports S.Store token file archive.old (Err t.refusal) archive.new
        ⊎ ImportsSilently S.Store token file archive.old t.refusal archive.new)
        × Keeps (W.contents output.old) (W.contents output.new))
        ⊎ ((answer : SpecAnswer) × (report : List SpecLine) × (kind : SpecKind) × (t ≡ placeless_text kind)
        × ImportsAll S.Store token file archive.old answer report archive.new
        × IsPrintedPart (telling.import_text answer report) kind (W.contents output.old) (W.contents output.new)
        (Rose (W.failed output.old) (W.failed output.new)))) }
    ensures silent { progress ≡ false → faults.new ≡ faults.old }
    ensures told { progress ≡ true → TellsImport (SaysPart F.contents F.failed) faults.old faults.new }
    ensures told_done { (file : Option (List ℕ)) → IsFileOf file forest → progress ≡ true → OnOk result
        (TellsImported S.Store (SaysCount F.contents F.failed) token file archive.old archive.new faults.old
        faults.new) }
{
    match take_in(alloc, clock, archive, token, progress, forest, faults) {
        Ok((answer, report)) => match print_imported(alloc, answer, &report, output) {
            Ok(()) => Ok(()),
            Err(kind) => Err(placeless(kind)),
        },
        Err(why) => Err(why.text(Unit::Line)),
    }
}

/// Imports a forest.
fn take_in<S: Alter, C: Clock, F: Write + Device>(
    alloc: Global,
    clock: &C,
    archive: &mut Archive<S>,
    token: Token,
    progress: bool,
    forest: Forest,
    faults: &mut F,
) -> Result<(Answer, Report), Refusal>
    ensures imported { (file : Option (List ℕ)) → IsFileOf file forest → IfOk result (λ done. ImportsAll S.Store token
        file archive.old done.0 done.1 archive.new) }
    ensures refused { (file : Option (List ℕ)) → IsFileOf file forest → IfErr result (λ e.
        Imports S.Store token file archive.old (Err e) archive.new
        ⊎ ImportsSilently S.Store token file archive.old e archive.new) }
    ensures silent { progress ≡ false → faults.new ≡ faults.old }
    ensures told { progress ≡ true → TellsImport (SaysPart F.contents F.failed) faults.old faults.new }
    ensures told_done { (file : Option (List ℕ)) → IsFileOf file forest → progress ≡ true → OnOk result
        (TellsImported S.Store (SaysCount F.contents F.failed) token file archive.old archive.new faults.old
        faults.new) }
{
    if progress {
        take_in_aloud(alloc, clock, archive, token, forest, faults)
    } else {
        import_forest(alloc, archive, token, forest, &mut Silent)
    }
}

/// Imports a forest, and reports how far it is.
///
/// 1 also where the faults found no memory for a line: the file was imported.
fn take_in_aloud<S: Alter, C: Clock, F: Write + Device>(
    alloc: Global,
    clock: &C,
    archive: &mut Archive<S>,
    token: Token,
    forest: Forest,
    faults: &mut F,
) -> Result<(Answer, Report), Refusal>
    ensures imported { (file : Option (List ℕ)) → IsFileOf file forest → IfOk result (λ done. ImportsAll S.Store token
        file archive.old done.0 done.1 archive.new) }
    ensures refused { (file : Option (List ℕ)) → IsFileOf file forest → IfErr result (λ e.
        Imports S.Store token file archive.old (Err e) archive.new
        ⊎ ImportsSilently S.Store token file archive.old e archive.new) }
    ensures told { TellsImport (SaysPart F.contents F.failed) faults.old faults.new }
    ensures told_done { (file : Option (List ℕ)) → IsFileOf file forest → OnOk result (TellsImported S.Store
        (SaysCount F.contents F.failed) token file archive.old archive.new faults.old faults.new) }
{
    let mut lines = ProgressLines {
        clock,
        faults,
        last: None,
        starved: false,
    };
    let outcome = import_aloud(alloc, archive, token, forest, &mut lines);
    let starved = lines.starved;
    match outcome {
        Ok(done) => {
            if starved {
                drop(done);
                return Err(RefusalKind::OutOfMemory.into());
            }
            Ok(done)
        }
        Err(why) => Err(why),
    }
}

/// Imports a forest, with lines on the faults.
fn import_aloud<S: Alter, C: Clock, F: Write + Device>(
    alloc: Global,
    archive: &mut Archive<S>,
    token: Token,
    forest: Forest,
    lines: &mut ProgressLines<'_, C, F>,
) -> Result<(Answer, Report), Refusal>
    ensures same_reference { lines.new.faults.ghost_name ≡ lines.old.faults.ghost_name }
    ensures imported { (file : Option (List ℕ)) → IsFileOf file forest → IfOk result (λ done. ImportsAll S.Store token
        file archive.old done.0 done.1 archive.new) }
    ensures refused { (file : Option (List ℕ)) → IsFileOf file forest → IfErr result (λ e.
        Imports S.Store token file archive.old (Err e) archive.new
        ⊎ ImportsSilently S.Store token file archive.old e archive.new) }
    ensures told { TellsImport (SaysPart F.contents F.failed) lines.old.faults.now lines.new.faults.now }
    ensures told_done { (file : Option (List ℕ)) → IsFileOf file forest → lines.new.starved ≡ false → OnOk result
        (TellsImported S.Store (SaysCount F.contents F.failed) token file archive.old archive.new
        lines.old.faults.now lines.new.faults.now) }
{
    import_forest(alloc, archive, token, forest, lines)
}

/// Prints how many records were made, and the report.
fn print_imported<W: Write + Device>(
    alloc: Global,
    answer: Answer,
    report: &Report,
    output: &mut W,
) -> Result<(), RefusalKind>
    ensures printed { OnOk result (Appends (W.contents output.old) (W.contents output.new)
        (telling.import_text answer report.now)) }
    ensures part { IfErr result (λ kind. IsPrintedPart (telling.import_text answer report.now) kind
        (W.contents output.old) (W.contents output.new) (Rose (W.failed output.old) (W.failed output.new))) }
{
    let text = import_text(alloc, answer, report)?;
    write_text(&text, output)
}
