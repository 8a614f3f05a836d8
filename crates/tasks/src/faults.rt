//! The stream of faults, which says what it could not be given by its count of failures.

ghost use Rattle.tasks.specs.Faults.{IsReported};

use devices::{Counted, Device};
use std::io::Write;

/// Where refusals and reports go. A text stops short of its end only where the count of failures has risen: so no call
/// is left without a line, unless the stream itself has failed.
pub trait FaultStream: Write + Device {
    /// Writes a text, in one write where the stream takes it whole. It takes no memory.
    fn report(&mut self, text: &[u8])
        ensures { IsReported Self.contents Self.failed self.old self.new text.now };
}

impl<W: Write> FaultStream for Counted<W> {
    fn report(&mut self, text: &[u8]) {
        let mut at = 0usize;
        'pieces: while at < text.len() {
            match self.write(&text[at..]) {
                Ok(n) => at += n,
                Err(_) => return,
            }
        }
    }
}
