//! Rows that are applied as long as each is answered as is expected.

ghost use Rattle.std.specs.Prelude.{◌≡◌, ◌≤◌, [], length};
ghost use Rattle.tasks.specs.Ends.{AppliesAsExpected};
ghost use Rattle.tasks.specs.Faults.{IsReported};
ghost use Rattle.tasks.specs.Expecting.{Expecting, as_expected, unexpected, unexpected_line, unexpected_text};

use crate::faults::FaultStream;
use crate::status::placeless;
use arrayvec::ArrayString;
use devices::Device;
use expected_answers::Expected;
use expected_rows::{Ending, apply_as_expected};
use itoa::Buffer;
use record_text::{Refusal, RefusalKind, RefusalText, Unit};
use sqlite::Alter;
use std::alloc::Global;
use std::io::{Read, Write};
use store::Archive;

/// As many bytes as the longest text has: that of row 4,294,967,295.
const TEXT: usize = 128;

/// What is said after that line.
const HINT: &str = "  the rows came in another order, or the copy is another: it was not done\n";

/// The rows of the input, with their answers on the output, as long as each is answered as is expected. Before which
/// row they end goes to the faults: `parish: 96 NotAsExpected at row <n>`, with a hint.
pub(crate) fn apply_expected<S: Alter, R: Read + Device, W: Write + Device, F: FaultStream>(
    alloc: Global,
    archive: &mut Archive<S>,
    expected: Expected,
    stops: bool,
    input: &mut R,
    output: &mut W,
    faults: &mut F,
) -> Result<(), RefusalText>
    ensures { (r : Expecting) × (result ≡ as_expected r)
        × AppliesAsExpected S.Store R.Read R.Device W.Write W.Device F.Write F.Device
        (record { archive = archive.old; input = input.old; output = output.old; faults = faults.old })
        (record { archive = archive.new; input = input.new; output = output.new; faults = faults.new })
        expected stops r }
{
    match apply_as_expected(alloc, archive, expected, stops, input, output, faults) {
        Ok(Ending::All) => Ok(()),
        Ok(Ending::Refused(refusal)) => Err(refusal.text(Unit::Row)),
        Ok(Ending::Unexpected(row)) => {
            say_unexpected(row, faults);
            Err(unexpected(row))
        }
        Err(kind) => Err(placeless(kind)),
    }
}

/// Says which row would be answered otherwise than is expected.
fn say_unexpected<F: FaultStream>(row: u32, faults: &mut F)
    ensures { IsReported F.contents F.failed faults.old faults.new (unexpected_text row) }
{
    let text = text_of(row);
    faults.report(text.as_str().as_bytes());
}

/// The outcome of rows that ended before the one of this number, which is said already.
fn unexpected(row: u32) -> RefusalText
    ensures { result ≡ unexpected row }
{
    Refusal {
        kind: RefusalKind::BadRow,
        at: Some(row),
    }
    .text(Unit::Row)
}

/// What is said of a row that would be answered otherwise than is expected. There is room for it.
fn text_of(row: u32) -> ArrayString<TEXT>
    ensures { result.bytes ≡ unexpected_text row }
{
    let mut text = ArrayString::new();
    push_line(&mut text, row);
    text.push_str(HINT);
    text
}

/// Appends the line of a row that would be answered otherwise: at most 43 bytes.
fn push_line(text: &mut ArrayString<TEXT>, row: u32)
    requires { text.old.bytes ≡ [] }
    ensures line { text.new.bytes ≡ unexpected_line row }
    ensures short { length text.new.bytes ≤ 43 }
{
    text.push_str("parish: 96 NotAsExpected at row ");
    text.push_str(Buffer::new().format(row));
    text.push_str("\n");
}
