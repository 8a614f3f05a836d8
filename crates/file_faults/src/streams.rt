//! All faulty lines of a file that comes from a reader, as a list on a writer.

ghost use Rattle.std.specs.Prelude.{◌≡◌, ◌⊎◌, IfErr, IfOk, IfSome, List, OnErr, OnOk, ℕ, take};
ghost use Rattle.std.specs.Io.KnownBytes.{Appends};
ghost use Rattle.devices.specs.Devices.{AppendsBeginning, Rose};
ghost use Rattle.gedcom_rules.specs.Faults.{FaultOf, IsLineless};
ghost use Rattle.gedcom_rules.specs.Views.{fault_view};
ghost use Rattle.gedcom_tree.specs.Streams.{NotWritten};
ghost use Rattle.file_faults.specs.Faults.{faults};
ghost use Rattle.file_faults.specs.Shown.{listing};
ghost use Rattle.file_faults.specs.Streams.{Begins, IsFirst, Lists, Unread};

use crate::walking::list_faults;
use devices::{Device, TransferError, read_up_to, write_bytes};
use gedcom_rules::{MAX_FILE, TreeFault, TreeKind};
use gedcom_tree::TreeReader;
use std::alloc::{AllocError, Global};
use std::io::{Read, Write};

pub(crate) const OUT_OF_MEMORY: TreeFault = TreeFault {
    kind: TreeKind::OutOfMemory,
    at: None,
};

/// What a file is.
#[derive(Clone, Copy, Debug)]
pub enum Checked {
    /// It has no fault, and so many records.
    Sound(usize),
    /// It has this fault first.
    Faulty(TreeFault),
}

/// The bytes of a file, at most so many.
fn read_all<R: Read + Device>(
    alloc: Global,
    reader: &mut R,
    most: usize,
) -> Result<Vec<u8>, TreeFault>
    ensures front { IfOk result (λ all. IfSome (R.remaining reader.old) (λ known. all.items ≡ take most known)) }
    ensures fault { IfErr result (λ f. IsLineless TreeKind.OutOfMemory (fault_view f)
        ⊎ (IsLineless TreeKind.ReadFailed (fault_view f) × Rose (R.failed reader.old) (R.failed reader.new))) }
{
    let before = reader.failures();
    match read_up_to(alloc, reader, before, most) {
        Ok(bytes) => Ok(bytes),
        Err(TransferError::OutOfMemory) => Err(OUT_OF_MEMORY),
        Err(TransferError::Failed) => Err(TreeFault {
            kind: TreeKind::ReadFailed,
            at: None,
        }),
    }
}

/// What a file is by its fault. `None`: out of memory.
fn of_fault(fault: TreeFault) -> Option<Checked>
    ensures { (b : List ℕ) → IsLineless TreeKind.OutOfMemory (fault_view fault) ⊎ FaultOf b (fault_view fault)
        → IfSome result (IsFirst b) }
{
    match fault.at {
        Some(_) => Some(Checked::Faulty(fault)),
        None => None,
    }
}

/// What the bytes of a file are. `None`: out of memory.
fn first_of(alloc: Global, bytes: &[u8]) -> Option<Checked>
    ensures { IfSome result (IsFirst bytes.now) }
{
    let mut lines = TreeReader::new(alloc);
    match lines.feed(bytes) {
        Ok(()) => {}
        Err(fault) => return of_fault(fault),
    }
    match lines.finish() {
        Ok(forest) => Some(Checked::Sound(forest.record_count())),
        Err(fault) => of_fault(fault),
    }
}

/// The list of the faulty lines of bytes that are this.
fn list_of(alloc: Global, bytes: &[u8], checked: Checked) -> Result<Vec<u8>, AllocError>
    requires { IsFirst bytes.now checked }
    ensures { IfOk result (λ text. text.items ≡ listing (faults bytes.now)) }
{
    match checked {
        Checked::Sound(_) => Ok(Vec::new(alloc)),
        Checked::Faulty(_) => list_faults(alloc, bytes),
    }
}

/// What the bytes of a file are, and the list of its faulty lines. `None`: out of memory.
fn check(alloc: Global, bytes: &[u8]) -> Option<(Checked, Vec<u8>)>
    ensures first { IfSome result (λ x. IsFirst bytes.now x.0) }
    ensures list { IfSome result (λ x. x.1.items ≡ listing (faults bytes.now)) }
{
    let checked = first_of(alloc, bytes)?;
    match list_of(alloc, bytes, checked) {
        Ok(text) => Some((checked, text)),
        Err(_) => None,
    }
}

fn write_text<W: Write + Device>(writer: &mut W, text: &[u8]) -> Result<(), TreeFault>
    ensures ok { OnOk result (Appends (W.contents writer.old) (W.contents writer.new) text.now) }
    ensures err { OnErr result (AppendsBeginning (W.contents writer.old) (W.contents writer.new) text.now) }
    ensures why { IfErr result (λ f. NotWritten (Rose (W.failed writer.old) (W.failed writer.new)) (fault_view f)) }
{
    let before = writer.failures();
    match write_bytes(writer, before, text) {
        Ok(()) => Ok(()),
        Err(TransferError::OutOfMemory) => Err(OUT_OF_MEMORY),
        Err(TransferError::Failed) => Err(TreeFault {
            kind: TreeKind::WriteFailed,
            at: None,
        }),
    }
}

/// Reads a whole file, writes the list of all its faulty lines, and answers what the file is: how many records it
/// has, and nothing is written; or its one fault, which is that of `gedcom_tree::read_forest` and the first listed.
///
/// `OutOfMemory` comes where memory is refused, `ReadFailed` and `WriteFailed` only where the device's count of
/// failures has risen in this call. One byte more than a file may have is read at the most.
pub fn write_faults<R: Read + Device, W: Write + Device>(
    alloc: Global,
    reader: &mut R,
    writer: &mut W,
) -> Result<Checked, TreeFault>
    ensures checked { IfOk result (λ c. Lists (R.remaining reader.old)
        (W.contents writer.old) (W.contents writer.new) c) }

    // Either the file was not read and nothing is written, or a beginning of the list is.
    ensures fault { IfErr result (λ f. Unread (W.contents writer.old) (W.contents writer.new)
        (Rose (R.failed reader.old) (R.failed reader.new)) (fault_view f)
        ⊎ Begins (R.remaining reader.old) (W.contents writer.old) (W.contents writer.new)
        (Rose (W.failed writer.old) (W.failed writer.new)) (fault_view f)) }
{
    let bytes = match read_all(alloc, reader, MAX_FILE + 1) {
        Ok(bytes) => bytes,
        Err(fault) => return Err(fault),
    };
    let Some((checked, text)) = check(alloc, &bytes) else {
        return Err(OUT_OF_MEMORY);
    };
    match write_text(writer, &text) {
        Ok(()) => Ok(checked),
        Err(fault) => Err(fault),
    }
}
