//! Judging the pieces of a file one after another.

ghost use Rattle.std.specs.Prelude.{
  ◌≡◌,
  ◌⊎◌,
  ◌+◌,
  ◌<◌,
  ◌≤◌,
  ◌^◌,
  false,
  Ok,
  Err,
  IfOk,
  IfErr,
  IfSome,
  OnOk,
  option_map,
  nat_lt,
  length,
};
ghost use Rattle.std.specs.Option.{option_map_or};
ghost use Rattle.gedcom_line.specs.Line.{IsPiece};
ghost use Rattle.gedcom_line.specs.Value.{value_of};
ghost use Rattle.gedcom_line.specs.Reading.{parts, is_continuation as continuation_test};
ghost use Rattle.gedcom_rules.specs.Continuing.{adds};
ghost use Rattle.gedcom_rules.specs.Rules.{
  of_line as kind_of_line,
  is_head as head_test,
  is_trailer as trailer_test,
  first_broken as broken_first,
  parent as parent_of,
  names_set as set_test,
  names_version as version_test,
  may_go_on as goes_on,
  is_continued,
  is_version_value,
  role_of as role_of_tag,
};
ghost use Rattle.gedcom_rules.specs.Judging.{judge as judged, next as next_of, advance};
ghost use Rattle.gedcom_rules.specs.Faults.{IsLineless, max_line};
ghost use Rattle.gedcom_rules.specs.Views.{progress, standing_view, line_of, Gives, IsStacked, fault_view};

use crate::fault::{TreeFault, TreeKind};
use crate::header::{is_charset, is_version};
use crate::seen::{Seen, is_continuation};
use crate::standing::{Role, Standing, added_len, role_of};
use gedcom_line::{LineKind, LineRef, read_line};
use std::alloc::Global;

/// The most bytes between two line ends, a byte order mark not counted.
pub const MAX_LINE: usize = 65_536;

/// The same refusal in the table of files.
pub fn of_line(kind: LineKind) -> TreeKind
    ensures { result ≡ kind_of_line kind }
{
    match kind {
        LineKind::NotUtf8 => TreeKind::NotUtf8,
        LineKind::BadLevel => TreeKind::BadLevel,
        LineKind::BadXref => TreeKind::BadXref,
        LineKind::BadTag => TreeKind::BadTag,
        LineKind::Nul => TreeKind::Nul,
    }
}

fn is_head(line: &LineRef<'_>) -> bool
    ensures { result ≡ head_test (parts line.now) }
{
    line.level == 0 && line.tag == "HEAD"
}

/// Whether a continuation stands there.
fn is_continued(above: Option<Standing>) -> bool
    ensures { result ≡ option_map_or (λ s. is_continued s.role) (option_map standing_view above) false }
{
    match above {
        Some(standing) => standing.role == Role::Continuation,
        None => false,
    }
}

/// The first rule that the line breaks, after the lines so far. Nothing is added to them.
pub fn first_broken(seen: &Seen, line: &LineRef<'_>) -> Option<TreeKind>
    ensures { result ≡ broken_first (progress seen.now) (parts line.now) }
{
    let above = seen.parent(line.level);
    let role = role_of(line.tag);
    let goes_on = is_continuation(line);
    if seen.is_done {
        Some(TreeKind::AfterTrailer)
    } else if seen.count == 0 && !is_head(line) {
        Some(TreeKind::NoHead)
    } else if u32::from(line.level) > u32::from(seen.last) + 1 {
        Some(TreeKind::LevelJump)
    } else if is_continued(above) {
        Some(TreeKind::ContinuationHasChildren)
    } else if goes_on && (line.xref.is_some() || !seen.may_go_on(above, line.level)) {
        Some(TreeKind::BadContinuation)
    } else if seen.is_named(line.xref) {
        Some(TreeKind::DuplicateXref)
    } else if goes_on && has_no_room(above, line) {
        Some(TreeKind::TextTooLong)
    } else if seen.names_set(line.level, role) && !is_charset(line.raw) {
        Some(TreeKind::Charset)
    } else if seen.names_version(line.level, role) && !is_version(line) {
        Some(TreeKind::Version)
    } else {
        None
    }
}

/// Whether the text above gets longer by the line than a text may be.
fn has_no_room(above: Option<Standing>, line: &LineRef<'_>) -> bool
    ensures { result ≡ option_map_or (λ s. nat_lt s.room (length (adds (parts line.now))))
        (option_map standing_view above) false }
{
    match above {
        Some(standing) => standing.room < added_len(line),
        None => false,
    }
}

/// Whether the piece is longer than a line may be.
fn is_too_long(piece: &[u8]) -> bool
    ensures { result ≡ nat_lt max_line (length piece.now) }
{
    piece.len() > MAX_LINE
}

/// Judges a piece after the lines so far: nothing where it is blank, else its line.
#[tactic(auto, unfolding(crate::specs::Judging::judge))]
fn judge<'a>(seen: &Seen, piece: &'a [u8]) -> Result<Option<LineRef<'a>>, TreeKind>
    requires { IsPiece piece.now }
    ensures { Gives (option_map parts) result (judged (progress seen.now) piece.now) }
{
    if is_too_long(piece) {
        return Err(TreeKind::TooLong);
    }
    let line = match read_line(piece) {
        Ok(Some(line)) => line,
        Ok(None) => return Ok(None),
        Err(fault) => return Err(of_line(fault.kind)),
    };
    match first_broken(seen, &line) {
        Some(kind) => Err(kind),
        None => Ok(Some(line)),
    }
}

/// Judges a piece after the lines so far, and adds its line to them: the line with its number, counted from 1,
/// or none where the piece is blank.
///
/// A fault of the piece is the first of its rules that it breaks, and has its line. `OutOfMemory`, without a
/// line, comes only where memory to remember the line is refused. A caller stops at an error, since no clause
/// says what `seen` is then.
pub fn judge_piece<'a>(
    alloc: Global,
    seen: &mut Seen,
    piece: &'a [u8],
) -> Result<Option<(u32, LineRef<'a>)>, TreeFault>
    requires piece { IsPiece piece.now }
    requires count { (progress seen.old).count + 1 < 2 ^ 32 }
    requires stacked { IsStacked seen.old }
    ensures line { IfOk result (λ l. judged (progress seen.old) piece.now ≡ Ok (option_map line_of l)) }
    ensures seen { IfOk result (λ l. progress seen.new ≡ next_of (progress seen.old) (option_map line_of l)) }
    ensures number { IfOk result (λ l. IfSome l (λ x. x.0 ≡ (progress seen.new).count)) }
    ensures fault { IfErr result (λ f. IsLineless TreeKind.OutOfMemory (fault_view f)
        ⊎ (advance (progress seen.old) (judged (progress seen.old) piece.now) ≡ Err (fault_view f))) }
    ensures stacked { OnOk result (IsStacked seen.new) }
    ensures count { OnOk result ((progress seen.new).count ≤ (progress seen.old).count + 1) }
{
    match judge(seen, piece) {
        Ok(None) => Ok(None),
        Ok(Some(line)) => {
            seen.add(alloc, &line)?;
            Ok(Some((seen.count, line)))
        }
        Err(kind) => Err(TreeFault {
            kind,
            at: Some(seen.count + 1),
        }),
    }
}
