//! The end of what is written to a visitor.

ghost use Rattle.std.specs.Io.KnownBytes.{Keeps};

use mio::net::TcpStream;
use std::io;
use std::io::Write;
use std::net::Shutdown;

/// A writer that can say that nothing more comes.
pub(crate) trait Ending: Write {
    /// Says so. It writes no byte.
    fn end(&mut self) -> io::Result<()>
        ensures { Keeps (Self.contents self.old) (Self.contents self.new) };
}

impl Ending for &TcpStream {
    fn end(&mut self) -> io::Result<()> {
        self.shutdown(Shutdown::Write)
    }
}
