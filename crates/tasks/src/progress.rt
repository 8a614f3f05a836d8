//! How far an import is, reported on the stream of faults.

ghost use Rattle.std.specs.Prelude.{◌≡◌, ◌≢◌, IfSome, false, true};
ghost use Rattle.tasks.specs.Counts.{SaysAloud, SaysOrStarves, count_line};

use arrayvec::ArrayString;
use devices::{Device, TransferError, write_bytes};
use itoa::Buffer;
use staging::{Progress, RowCount};
use std::io::Write;
use std::time::{Clock, Instant};

/// More bytes than the longest line has: that of two numbers of 64 bits has 57.
const LINE: usize = 64;

/// Reports how far an import is: a line on the stream of faults, at most one a second, and one at its end.
#[derive(Drop)]
pub(crate) struct ProgressLines<'a, C: Clock, F: Write + Device> {
    pub(crate) clock: &'a C,
    pub(crate) faults: &'a mut F,
    /// When the last line was written, or the import was begun.
    pub(crate) last: Option<Instant>,
    /// A line was cut, and the faults have counted no failure: no memory was found for it.
    pub(crate) starved: bool,
}

impl<'a, C: Clock, F: Write + Device> ProgressLines<'a, C, F> {
    /// Writes the line of a count, where it is due or all rows are written.
    #[tactic(auto, using(crate::proofs::Aloud::left_out, crate::proofs::Aloud::said_now, crate::proofs::Aloud::said_starved))]
    fn tell(&mut self, rows: RowCount, is_due: bool)
        ensures same_reference { self.new.faults.ghost_name ≡ self.old.faults.ghost_name }
        ensures said { SaysOrStarves F.contents F.failed self.old.faults.now self.old.starved rows
            self.new.faults.now self.new.starved }
    {
        if is_left_out(rows, is_due) {
            return;
        }
        if write_line(rows, self.faults) {
            self.starved = true;
        }
    }
}

impl<'a, C: Clock, F: Write + Device> Progress for ProgressLines<'a, C, F> {
    ghost Tells = { SaysAloud F.Write F.Device };

    fn begun(&mut self, rows: RowCount) {
        self.last = Instant::now(self.clock).ok();
        self.tell(rows, false);
    }

    fn staged(&mut self, rows: RowCount) {
        let is_due = is_time(self.clock, &mut self.last);
        self.tell(rows, is_due);
    }
}

/// Whether a second has gone by since the last line. Where the clock fails none has.
fn is_time<C: Clock>(clock: &C, last: &mut Option<Instant>) -> bool {
    let Ok(now) = Instant::now(clock) else {
        return false;
    };
    if let Some(before) = *last {
        if now.duration_since(before).as_secs() == 0 {
            return false;
        }
    }
    *last = Some(now);
    true
}

/// Whether a count is not reported: it is not due, and rows are left to be written.
fn is_left_out(rows: RowCount, is_due: bool) -> bool
    ensures { result ≡ true → rows.written ≢ rows.all }
{
    if is_due {
        return false;
    }
    rows.written != rows.all
}

/// Writes the line of a count. It takes no memory, and the writer is given the line whole. Answers whether it found no
/// memory for it.
#[tactic(auto, using(crate::proofs::Aloud::said_whole, crate::proofs::Aloud::said_part, crate::proofs::Aloud::said_starved))]
fn write_line<F: Write + Device>(rows: RowCount, faults: &mut F) -> bool
    ensures { SaysOrStarves F.contents F.failed faults.old false rows faults.new result }
{
    let Some(line) = line_of(rows) else {
        return true;
    };
    let before = faults.failures();
    match write_bytes(faults, before, line.as_str().as_bytes()) {
        Ok(()) => false,
        Err(why) => match why {
            TransferError::Failed => false,
            TransferError::OutOfMemory => true,
        },
    }
}

/// The line of a count. There is room for it.
fn line_of(rows: RowCount) -> Option<ArrayString<LINE>>
    ensures { IfSome result (λ line. line.bytes ≡ count_line rows) }
{
    let mut line = ArrayString::new();
    line.try_push_str("staged ").ok()?;
    line.try_push_str(Buffer::new().format(rows.written)).ok()?;
    line.try_push_str(" of ").ok()?;
    line.try_push_str(Buffer::new().format(rows.all)).ok()?;
    line.try_push_str(" rows\n").ok()?;
    Some(line)
}
