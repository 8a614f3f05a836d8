//! The commands on a GEDCOM file that is the input: `norm`, `check` and `check --all`.

ghost use Rattle.std.specs.Prelude.{◌≡◌, IfErr, OnErr, OnOk};
ghost use Rattle.std.specs.Io.KnownBytes.{Appends};
ghost use Rattle.devices.specs.Devices.{AppendsBeginning, Rose};
ghost use Rattle.gedcom_rules.specs.Views.{fault_view};
ghost use Rattle.gedcom_tree.specs.Streams.{Normalised, NotWritten};
ghost use Rattle.parish.specs.Ends as ends;
ghost use Rattle.tasks.specs.Status.{Finishes, Outcome};

use archive_input::refusal_of;
use devices::{Device, TransferError, write_bytes};
use file_faults::{Checked, read_forest_from, write_faults};
use gedcom_rules::{TreeFault, TreeKind};
use gedcom_tree::write_forest;
use record_text::{RefusalText, Unit};
use std::alloc::Global;
use std::io::{Read, Write};
use tasks::{FaultStream, status_of_file};

const OUT_OF_MEMORY: TreeFault = TreeFault {
    kind: TreeKind::OutOfMemory,
    at: None,
};

const WRITE_FAILED: TreeFault = TreeFault {
    kind: TreeKind::WriteFailed,
    at: None,
};

/// `norm`: writes the file of the input, canonical, on the output, and gives the exit status. Refusals as of
/// `gedcom_tree::normalise`.
pub(crate) fn norm<R: Read + Device, W: Write + Device, F: FaultStream>(
    alloc: Global,
    input: &mut R,
    output: &mut W,
    faults: &mut F,
) -> u8
    ensures { (outcome : Outcome)
        × ends.Normalises (R.remaining input.old) (W.contents output.old) (W.contents output.new)
        (Rose (R.failed input.old) (R.failed input.new)) (Rose (W.failed output.old) (W.failed output.new)) outcome
        × Finishes F.contents F.failed outcome result faults.old faults.new }
{
    let mut start = Vec::new(alloc);
    let outcome = match normalise_from(alloc, input, &mut start, output) {
        Ok(()) => Ok(()),
        Err(fault) => Err(text_of(fault)),
    };
    status_of_file(alloc, outcome, &start, faults)
}

/// `check`: reads the file of the input, prints on the output how many records it has, and gives the exit status.
/// Refusals as of `gedcom_tree::read_forest`. 95: the output failed.
pub(crate) fn check<R: Read + Device, W: Write + Device, F: FaultStream>(
    alloc: Global,
    input: &mut R,
    output: &mut W,
    faults: &mut F,
) -> u8
    ensures { (outcome : Outcome)
        × ends.Checks (R.remaining input.old) (W.contents output.old) (W.contents output.new)
        (Rose (R.failed input.old) (R.failed input.new)) (Rose (W.failed output.old) (W.failed output.new)) outcome
        × Finishes F.contents F.failed outcome result faults.old faults.new }
{
    let mut start = Vec::new(alloc);
    let outcome = match count_records(alloc, input, &mut start, output) {
        Ok(()) => Ok(()),
        Err(fault) => Err(text_of(fault)),
    };
    status_of_file(alloc, outcome, &start, faults)
}

/// `check --all`: the same; where the file has faults, the list of its faulty lines goes to the output. Refusals as of
/// `check`.
pub(crate) fn check_all<R: Read + Device, W: Write + Device>(
    alloc: Global,
    input: &mut R,
    output: &mut W,
) -> Result<(), RefusalText>
    ensures { ends.ChecksAll (R.remaining input.old) (W.contents output.old) (W.contents output.new)
        (Rose (R.failed input.old) (R.failed input.new)) (Rose (W.failed output.old) (W.failed output.new)) result }
{
    match list_or_count(alloc, input, output) {
        Ok(()) => Ok(()),
        Err(fault) => Err(text_of(fault)),
    }
}

/// A fault of a file as it is printed.
fn text_of(fault: TreeFault) -> RefusalText
    ensures { result ≡ ends.fault_text (fault_view fault) }
{
    refusal_of(fault).text(Unit::Line)
}

/// Reads a whole file, and writes its canonical text: `gedcom_tree::normalise`, but for the first bytes, which a fault
/// may leave in `start`.
#[tactic(auto, using(list_laws::proofs::Outcomes::keeps))]
fn normalise_from<R: Read + Device, W: Write + Device>(
    alloc: Global,
    input: &mut R,
    start: &mut Vec<u8>,
    output: &mut W,
) -> Result<(), TreeFault>
    ensures ok { OnOk result (Normalised (R.remaining input.old) (W.contents output.old) (W.contents output.new)) }
    ensures err { IfErr result (λ f. ends.Unfinished (R.remaining input.old)
        (W.contents output.old) (W.contents output.new)
        (Rose (R.failed input.old) (R.failed input.new)) (Rose (W.failed output.old) (W.failed output.new))
        (fault_view f)) }
{
    let forest = match read_forest_from(alloc, input, start) {
        Ok(forest) => forest,
        Err(fault) => return Err(fault),
    };
    write_forest(alloc, &forest, output)
}

/// Reads a whole file, and writes how many records it has. A fault may leave the first bytes in `start`.
#[tactic(auto, using(list_laws::proofs::Outcomes::keeps))]
fn count_records<R: Read + Device, W: Write + Device>(
    alloc: Global,
    input: &mut R,
    start: &mut Vec<u8>,
    output: &mut W,
) -> Result<(), TreeFault>
    ensures ok { OnOk result (ends.Told (R.remaining input.old)
        (W.contents output.old) (W.contents output.new)) }
    ensures err { IfErr result (λ f. ends.Untold (R.remaining input.old)
        (W.contents output.old) (W.contents output.new)
        (Rose (R.failed input.old) (R.failed input.new)) (Rose (W.failed output.old) (W.failed output.new))
        (fault_view f)) }
{
    let before = output.failures();
    let forest = match read_forest_from(alloc, input, start) {
        Ok(forest) => forest,
        Err(fault) => return Err(fault),
    };
    match print_count(alloc, forest.record_count(), before, output) {
        Ok(()) => Ok(()),
        Err(fault) => Err(fault),
    }
}

/// Reads a whole file, and writes the list of its faulty lines; where it has none, how many records it has.
fn list_or_count<R: Read + Device, W: Write + Device>(
    alloc: Global,
    input: &mut R,
    output: &mut W,
) -> Result<(), TreeFault>
    ensures ok { OnOk result (ends.Counted (R.remaining input.old)
        (W.contents output.old) (W.contents output.new)) }
    ensures err { IfErr result (λ f. ends.UntoldAll (R.remaining input.old)
        (W.contents output.old) (W.contents output.new)
        (Rose (R.failed input.old) (R.failed input.new)) (Rose (W.failed output.old) (W.failed output.new))
        (fault_view f)) }
{
    let before = output.failures();
    match write_faults(alloc, input, output) {
        Ok(Checked::Sound(records)) => match print_count(alloc, records, before, output) {
            Ok(()) => Ok(()),
            Err(fault) => Err(fault),
        },
        Ok(Checked::Faulty(fault)) => Err(fault),
        Err(fault) => Err(fault),
    }
}

/// Writes how many records a file has. At an error a prefix of that was written. `before` is the count of failures at
/// the start of the call that asks.
#[tactic(auto, using(list_laws::proofs::Outcomes::keeps))]
fn print_count<W: Write + Device>(
    alloc: Global,
    records: usize,
    before: u64,
    output: &mut W,
) -> Result<(), TreeFault>
    ensures ok { OnOk result
        (Appends (W.contents output.old) (W.contents output.new) (ends.records_text records)) }
    ensures err { OnErr result
        (AppendsBeginning (W.contents output.old) (W.contents output.new) (ends.records_text records)) }
    ensures why { IfErr result (λ f. NotWritten (Rose before (W.failed output.new)) (fault_view f)) }
{
    let line = format!(in alloc; "ok: {records} records\n")?;
    print(&line, before, output)
}

/// Writes a text. At an error a prefix of it was written.
fn print<W: Write + Device>(text: &str, before: u64, output: &mut W) -> Result<(), TreeFault>
    ensures ok { OnOk result
        (Appends (W.contents output.old) (W.contents output.new) text.now) }
    ensures err { OnErr result
        (AppendsBeginning (W.contents output.old) (W.contents output.new) text.now) }
    ensures why { IfErr result (λ f. NotWritten (Rose before (W.failed output.new)) (fault_view f)) }
{
    match write_bytes(output, before, text.as_bytes()) {
        Ok(()) => Ok(()),
        Err(TransferError::OutOfMemory) => Err(OUT_OF_MEMORY),
        Err(TransferError::Failed) => Err(WRITE_FAILED),
    }
}
