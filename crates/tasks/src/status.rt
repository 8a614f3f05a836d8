//! The exit status of what was done, and the line of a refusal with its hint.

ghost use Rattle.std.specs.Prelude.{◌≡◌, ◌≤◌, ◌+◌, ◌++◌, [], length};
ghost use Rattle.tasks.specs.Status.{
  Finishes,
  IsRefused,
  as_text,
  kind_text,
  place_text,
  placeless_text,
  refusal_line,
};

use crate::faults::FaultStream;
use crate::hints::advice;
use arrayvec::ArrayString;
use itoa::Buffer;
use record_text::{Refusal, RefusalKind, RefusalText, Unit};

/// The work is done.
const DONE: u8 = 0;

/// It was refused.
pub(crate) const REFUSED: u8 = 1;

/// More bytes than the longest line of a refusal has: that of 25 at line 4,294,967,295 has 54.
const LINE: usize = 64;

/// A refusal without a place, as it is printed.
pub fn placeless(kind: RefusalKind) -> RefusalText
    ensures { result ≡ placeless_text kind }
{
    Refusal::from(kind).text(Unit::Line)
}

/// What is refused without a place, as it is printed.
pub fn plain(outcome: Result<(), RefusalKind>) -> Result<(), RefusalText>
    ensures { result ≡ as_text outcome }
{
    match outcome {
        Ok(()) => Ok(()),
        Err(kind) => Err(placeless(kind)),
    }
}

/// The exit status of what was done: 0; or 1, after the line of the refusal on the faults:
/// `parish: <number> <Name>`, with ` at line <n>` or ` at row <n>` where it has a place, and a line of what to do, if
/// its kind has one. It takes no memory, and each line is given to the stream whole. Where that fails, by its count,
/// only the status says that it was refused.
pub fn status_of<F: FaultStream>(outcome: Result<(), RefusalText>, faults: &mut F) -> u8
    ensures { Finishes F.contents F.failed outcome result faults.old faults.new }
{
    match outcome {
        Ok(()) => DONE,
        Err(refusal) => refuse(refusal, advice(refusal.refusal.kind).as_bytes(), faults),
    }
}

/// The same of what was refused, with another hint: lines that begin with two spaces, or nothing.
pub fn refuse<F: FaultStream>(refusal: RefusalText, hint: &[u8], faults: &mut F) -> u8
    ensures status { result ≡ 1 }
    ensures told { IsRefused F.contents F.failed refusal hint.now faults.old faults.new }
{
    let line = line_of(refusal);
    faults.report(line.as_str().as_bytes());
    faults.report(hint);
    REFUSED
}

/// The line of a refusal. There is room for it.
fn line_of(refusal: RefusalText) -> ArrayString<LINE>
    ensures { result.bytes ≡ refusal_line refusal }
{
    let RefusalText {
        refusal: Refusal { kind, at },
        unit,
    } = refusal;
    let mut line = ArrayString::new();
    push_kind(&mut line, kind);
    push_place(&mut line, unit, at);
    line.push_str("\n");
    line
}

/// Appends `parish: `, and the number and the name of a refusal: at most 35 bytes.
fn push_kind(line: &mut ArrayString<LINE>, kind: RefusalKind)
    requires { line.old.bytes ≡ [] }
    ensures text { line.new.bytes ≡ kind_text kind }
    ensures short { length line.new.bytes ≤ 35 }
{
    line.push_str("parish: ");
    line.push_str(Buffer::new().format(kind.number()));
    line.push_str(" ");
    line.push_str(kind.name());
}

/// Appends the place of a refusal, where it has one: at most 19 bytes.
fn push_place(line: &mut ArrayString<LINE>, unit: Unit, at: Option<u32>)
    requires { length line.old.bytes ≤ 35 }
    ensures text { line.new.bytes ≡ line.old.bytes ++ place_text unit at }
    ensures short { length line.new.bytes ≤ length line.old.bytes + 19 }
{
    if let Some(place) = at {
        line.push_str(" at ");
        line.push_str(unit.name());
        line.push_str(" ");
        line.push_str(Buffer::new().format(place));
    }
}
