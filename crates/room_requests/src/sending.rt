//! An answer on its way to a visitor.

ghost use Rattle.std.specs.Prelude.{◌≡◌, OnErr, OnOk};
ghost use Rattle.std.specs.Io.KnownBytes.{Appends};
ghost use Rattle.devices.specs.Counts.{failures_of, inner_of};
ghost use Rattle.devices.specs.Devices.{Rose, AppendsBeginning};

use devices::Counted;
use std::io;
use std::io::Write;

/// Writes an answer. Takes no memory. With an error, which is that of the writer, it has taken a beginning of the
/// answer.
pub fn send<W: Write>(writer: &mut Counted<W>, bytes: &[u8]) -> io::Result<()>
    ensures ok { OnOk result
        (Appends (W.contents (inner_of writer.old)) (W.contents (inner_of writer.new)) bytes.now) }
    ensures err { OnErr result
        (AppendsBeginning (W.contents (inner_of writer.old)) (W.contents (inner_of writer.new)) bytes.now) }
    ensures failed { OnErr result (Rose (failures_of writer.old) (failures_of writer.new)) }
{
    let mut at = 0usize;
    'pieces: while at < bytes.len() {
        match writer.write(&bytes[at..]) {
            Ok(n) => at += n,
            Err(e) => return Err(e),
        }
    }
    Ok(())
}
