//! A file read as its forest, of which a fault that comes soon leaves the first bytes.

ghost use Rattle.std.specs.Prelude.{◌≡◌, ◌⊎◌, [], IfErr, IfOk, IfSome, OnOk, take};
ghost use Rattle.std.specs.Io.KnownBytes.{Consumes};
ghost use Rattle.devices.specs.Devices.{Rose};
ghost use Rattle.gedcom_rules.specs.Faults.{IsLineless};
ghost use Rattle.gedcom_rules.specs.Views.{fault_view};
ghost use Rattle.gedcom_tree.specs.File.{ReadsFile};
ghost use Rattle.gedcom_tree.specs.State.{Holds};
ghost use Rattle.gedcom_tree.specs.Streams.{HasFed, NotRead};
ghost use Rattle.gedcom_tree.specs.Text.{IsForest};

use crate::streams::OUT_OF_MEMORY;
use devices::{Device, TransferError, read_up_to};
use gedcom_rules::{MAX_FILE, TreeFault, TreeKind};
use gedcom_tree::{Forest, TreeReader};
use std::alloc::Global;
use std::io::Read;

/// The most bytes of a piece that is read.
const PIECE: usize = 65_536;

/// Reads a whole file, as `gedcom_tree::read_forest`. A fault among its first 65,536 bytes leaves these in `start`, for
/// what is said of the fault; any other leaves it as it was (both tested, not in the contract).
pub fn read_forest_from<R: Read + Device>(
    alloc: Global,
    reader: &mut R,
    start: &mut Vec<u8>,
) -> Result<Forest, TreeFault>
    ensures forest { IfOk result (λ f. IsForest f) }
    ensures read { IfOk result (λ f. IfSome (R.remaining reader.old) (λ b. ReadsFile b f)) }
    ensures fault { IfErr result (λ f. NotRead (R.remaining reader.old)
        (Rose (R.failed reader.old) (R.failed reader.new)) (fault_view f)) }
{
    let before = reader.failures();
    let mut lines = TreeReader::new(alloc);
    match feed_all(alloc, reader, before, &mut lines, start) {
        Ok(()) => {}
        Err(fault) => return Err(fault),
    }
    lines.finish()
}

/// Feeds all bytes that are left, in pieces, up to the first fault. One of the first piece leaves that in `start`.
fn feed_all<R: Read + Device>(
    alloc: Global,
    reader: &mut R,
    before: u64,
    lines: &mut TreeReader,
    start: &mut Vec<u8>,
) -> Result<(), TreeFault>
    requires { Holds lines.old [] }
    ensures fed { OnOk result (HasFed (R.remaining reader.old) lines.new) }
    ensures fault { IfErr result (λ f. NotRead (R.remaining reader.old) (Rose before (R.failed reader.new))
        (fault_view f)) }
{
    let mut total = 0usize;
    'pieces: loop {
        let piece = match read_piece(alloc, reader, before, PIECE.min(MAX_FILE + 1 - total)) {
            Ok(piece) => piece,
            Err(fault) => return Err(fault),
        };
        if piece.is_empty() {
            return Ok(());
        }
        match lines.feed(&piece) {
            Ok(()) => {}
            Err(fault) => {
                keep_first(total, piece, start);
                return Err(fault);
            }
        }
        total += piece.len();
    }
}

/// Keeps a piece that is the first.
fn keep_first(before: usize, piece: Vec<u8>, start: &mut Vec<u8>) {
    if before == 0 {
        *start = piece;
    }
}

/// The next piece of a file, of at most so many bytes: an empty one only where `most` is 0 or no byte is left.
fn read_piece<R: Read + Device>(
    alloc: Global,
    reader: &mut R,
    before: u64,
    most: usize,
) -> Result<Vec<u8>, TreeFault>
    ensures front { IfOk result (λ piece. IfSome (R.remaining reader.old) (λ known. piece.items ≡ take most known)) }
    ensures read { IfOk result (λ piece. Consumes (R.remaining reader.old) (R.remaining reader.new) piece.items) }
    ensures fault { IfErr result (λ f. IsLineless TreeKind.OutOfMemory (fault_view f)
        ⊎ (IsLineless TreeKind.ReadFailed (fault_view f) × Rose before (R.failed reader.new))) }
{
    match read_up_to(alloc, reader, before, most) {
        Ok(bytes) => Ok(bytes),
        Err(TransferError::OutOfMemory) => Err(OUT_OF_MEMORY),
        Err(TransferError::Failed) => Err(TreeFault {
            kind: TreeKind::ReadFailed,
            at: None,
        }),
    }
}
