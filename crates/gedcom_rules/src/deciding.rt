//! What the bytes of a file so far decide.

ghost use Rattle.std.specs.Prelude.{◌≡◌, true, false, ◌+◌, ◌<◌, Some, None, Ok, MatchResult, option_map, ◌^◌};
ghost use Rattle.gedcom_rules.specs.Faults.{overflows as overflow_test};
ghost use Rattle.gedcom_rules.specs.Judging.{unended, open_fault as fault_of_open, fault_behind};
ghost use Rattle.gedcom_rules.specs.Rules.{Progress};
ghost use Rattle.gedcom_rules.specs.Views.{fault_view, progress};

use crate::cutting::is_end;
use crate::fault::{TreeFault, TreeKind};
use crate::judging::MAX_LINE;
use crate::seen::Seen;

/// The most bytes of a file, a byte order mark counted.
pub const MAX_FILE: usize = 67_108_864;

/// Whether the line that has not ended is too long, or the next byte makes it so.
fn overflows(rest: &[u8], next: Option<u8>) -> bool
    ensures { result ≡ overflow_test rest.now next }
{
    let goes_on = match next {
        Some(byte) => !is_end(byte),
        None => false,
    };
    rest.len() > MAX_LINE || (rest.len() == MAX_LINE && goes_on)
}

/// What is decided where no piece that has ended is faulty, after so many lines.
fn open_fault(count: u32, rest: &[u8], next: Option<u8>) -> Option<TreeFault>
    requires { count + 1 < 2 ^ 32 }
    ensures { (p : Progress) → p.count ≡ count → option_map fault_view result ≡ fault_of_open rest.now next (Ok p) }
{
    let kind = if overflows(rest, next) {
        TreeKind::TooLong
    } else if next.is_some() {
        TreeKind::FileTooLarge
    } else {
        return None;
    };
    Some(TreeFault {
        kind,
        at: Some(count + 1),
    })
}

/// Judges a line that has not ended after the lines so far, where `next` is the first byte that is more than a
/// file may have. `TooLong`: the line is too long, or `next` makes it so. `FileTooLarge`: there is such a byte.
pub fn judge_open(seen: &Seen, rest: &[u8], next: Option<u8>) -> Result<(), TreeFault>
    requires { (progress seen.now).count + 1 < 2 ^ 32 }
    ensures { MatchResult result (λ _. fault_of_open rest.now next (Ok (progress seen.now)) ≡ None)
        (λ f. fault_of_open rest.now next (Ok (progress seen.now)) ≡ Some (fault_view f)) }
{
    match open_fault(seen.count, rest, next) {
        Some(fault) => Err(fault),
        None => Ok(()),
    }
}

/// The fault of a line after those so far that is longer than a line may be.
pub fn too_long(seen: &Seen) -> TreeFault
    requires { (progress seen.now).count + 1 < 2 ^ 32 }
    ensures { fault_view result ≡ fault_behind (progress seen.now).count TreeKind.TooLong }
{
    TreeFault {
        kind: TreeKind::TooLong,
        at: Some(seen.count + 1),
    }
}

/// The end of the input after the lines so far. `NoHead`: there is no line. `NoTrailer`: there are some, and
/// the last is not the trailer.
pub fn judge_end(seen: &Seen) -> Result<(), TreeFault>
    requires { (progress seen.now).count + 1 < 2 ^ 32 }
    ensures { MatchResult result (λ _. (progress seen.now).done ≡ true)
        (λ f. ((progress seen.now).done ≡ false) × (fault_view f ≡ unended (progress seen.now))) }
{
    if seen.is_done {
        return Ok(());
    }
    let kind = if seen.count == 0 {
        TreeKind::NoHead
    } else {
        TreeKind::NoTrailer
    };
    Err(TreeFault {
        kind,
        at: Some(seen.count + 1),
    })
}
