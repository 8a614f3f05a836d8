//! A file read from a stream, and brought to its canonical text.

ghost use Rattle.std.specs.Prelude.{◌≡◌, ◌⊎◌, [], take, IfOk, IfErr, OnOk, IfSome};
ghost use Rattle.std.specs.Io.KnownBytes.{Keeps, Consumes};
ghost use Rattle.gedcom_rules.specs.Faults.{IsLineless};
ghost use Rattle.gedcom_tree.specs.File.{ReadsFile};
ghost use Rattle.gedcom_tree.specs.Text.{IsForest};
ghost use Rattle.devices.specs.Devices.{Rose};
ghost use Rattle.gedcom_tree.specs.State.{Holds};
ghost use Rattle.gedcom_tree.specs.Streams.{NotRead, Normalised, Begun, HasFed};
ghost use Rattle.gedcom_rules.specs.Views.{fault_view};

use crate::forest::Forest;
use crate::reader::TreeReader;
use crate::writing::write_forest;
use devices::{Device, TransferError, read_up_to};
use gedcom_rules::{MAX_FILE, TreeFault, TreeKind};
use std::alloc::Global;
use std::io::{Read, Write};

/// The most bytes of a piece that is read.
const PIECE: usize = 65_536;

/// The next piece of a file, of at most so many bytes: an empty one only where `most` is 0 or no byte is left.
fn read_piece<R: Read + Device>(
    alloc: Global,
    reader: &mut R,
    before: u64,
    most: usize,
) -> Result<Vec<u8>, TreeFault>
    ensures front { IfOk result (λ piece. IfSome (R.remaining reader.old) (λ known. piece.items ≡ take most known)) }
    ensures read { IfOk result (λ piece. Consumes (R.remaining reader.old) (R.remaining reader.new) piece.items) }
    ensures fault { IfErr result (λ f. IsLineless TreeKind.OutOfMemory (fault_view f)
        ⊎ (IsLineless TreeKind.ReadFailed (fault_view f) × Rose before (R.failed reader.new))) }
{
    match read_up_to(alloc, reader, before, most) {
        Ok(bytes) => Ok(bytes),
        Err(TransferError::OutOfMemory) => Err(TreeFault {
            kind: TreeKind::OutOfMemory,
            at: None,
        }),
        Err(TransferError::Failed) => Err(TreeFault {
            kind: TreeKind::ReadFailed,
            at: None,
        }),
    }
}

/// Feeds all bytes that are left, in pieces, up to the first fault.
fn feed_all<R: Read + Device>(
    alloc: Global,
    reader: &mut R,
    before: u64,
    lines: &mut TreeReader,
) -> Result<(), TreeFault>
    requires { Holds lines.old [] }
    ensures fed { OnOk result (HasFed (R.remaining reader.old) lines.new) }
    ensures fault { IfErr result (λ f. NotRead (R.remaining reader.old) (Rose before (R.failed reader.new))
        (fault_view f)) }
{
    let mut total = 0usize;
    'pieces: loop {
        let piece = match read_piece(alloc, reader, before, PIECE.min(MAX_FILE + 1 - total)) {
            Ok(piece) => piece,
            Err(fault) => return Err(fault),
        };
        if piece.is_empty() {
            return Ok(());
        }
        match lines.feed(&piece) {
            Ok(()) => {}
            Err(fault) => return Err(fault),
        }
        total += piece.len();
    }
}

/// Reads a whole file: its forest, or the fault of its bytes. `OutOfMemory` comes where memory is refused.
///
/// `ReadFailed` comes only where the reader's count of failures has risen in this call. One byte more than
/// a file may have is read at the most, so an endless input ends (tested, not in the contract).
pub fn read_forest<R: Read + Device>(alloc: Global, reader: &mut R) -> Result<Forest, TreeFault>
    ensures forest { IfOk result (λ f. IsForest f) }
    ensures read { IfOk result (λ f. IfSome (R.remaining reader.old) (λ b. ReadsFile b f)) }
    ensures fault { IfErr result (λ f. NotRead (R.remaining reader.old)
        (Rose (R.failed reader.old) (R.failed reader.new)) (fault_view f)) }
{
    let before = reader.failures();
    let mut lines = TreeReader::new(alloc);
    match feed_all(alloc, reader, before, &mut lines) {
        Ok(()) => {}
        Err(fault) => return Err(fault),
    }
    lines.finish()
}

/// Reads a whole file, and writes its forest in canonical form. Nothing is written before the forest is
/// whole: at a fault of `read_forest` nothing was, at one of `write_forest` a beginning.
pub fn normalise<R: Read + Device, W: Write + Device>(
    alloc: Global,
    reader: &mut R,
    writer: &mut W,
) -> Result<(), TreeFault>
    ensures done { OnOk result (Normalised (R.remaining reader.old)
        (W.contents writer.old) (W.contents writer.new)) }

    // Either no forest was read and nothing is written, or a beginning of its text is.
    ensures fault { IfErr result (λ f. (NotRead (R.remaining reader.old)
        (Rose (R.failed reader.old) (R.failed reader.new)) (fault_view f)
        × Keeps (W.contents writer.old) (W.contents writer.new))
        ⊎ Begun (R.remaining reader.old) (W.contents writer.old) (W.contents writer.new)
        (Rose (W.failed writer.old) (W.failed writer.new)) (fault_view f)) }
{
    let forest = match read_forest(alloc, reader) {
        Ok(forest) => forest,
        Err(fault) => return Err(fault),
    };
    write_forest(alloc, &forest, writer)
}
