//! One request, and its answer.

ghost use Rattle.std.specs.Prelude.{◌≡◌, Err, OnOk};
ghost use Rattle.std.specs.Io.KnownBytes.{Keeps};
ghost use Rattle.devices.specs.Counts.{failures_of, inner_of};
ghost use Rattle.devices.specs.Devices.{Rose};
ghost use Rattle.room_requests.specs.Visits.{Served, BeginsToServe};

use devices::{Counted, Device};
use room_requests::{Answering, VisitError, answer_one};
use std::alloc::Global;
use std::io::{Read, Write};

/// Reads one request and writes what the room answers. Where the input ends before its first byte nothing is written.
pub fn serve_one<A: Answering, R: Read + Device, W: Write>(
    alloc: Global,
    room: &A,
    reader: &mut R,
    writer: &mut Counted<W>,
) -> Result<(), VisitError>
    ensures ok { A.is_honest room.now → OnOk result (Served (A.answers room.now)
        (R.remaining reader.old) (W.contents (inner_of writer.old)) (W.contents (inner_of writer.new))) }
    ensures want { result ≡ Err VisitError.OutOfMemory
        → Keeps (W.contents (inner_of writer.old)) (W.contents (inner_of writer.new)) }
    ensures read { result ≡ Err VisitError.ReadFailed
        → Keeps (W.contents (inner_of writer.old)) (W.contents (inner_of writer.new)) }
    ensures blamed { result ≡ Err VisitError.ReadFailed → Rose (R.failed reader.old) (R.failed reader.new) }
    ensures write { A.is_honest room.now → result ≡ Err VisitError.WriteFailed
        → BeginsToServe (A.answers room.now) (R.remaining reader.old)
        (W.contents (inner_of writer.old)) (W.contents (inner_of writer.new)) }
    ensures counted { result ≡ Err VisitError.WriteFailed → Rose (failures_of writer.old) (failures_of writer.new) }
{
    answer_one(alloc, room, reader, writer)
}
