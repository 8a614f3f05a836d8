//! All faulty lines of bytes.

ghost use Rattle.std.specs.Prelude.{
  ◌≡◌,
  ◌+◌,
  ◌*◌,
  ◌<◌,
  ◌≤◌,
  ◌^◌,
  ◌∷◌,
  [],
  IfOk,
  IfSome,
  List,
  ℕ,
  MatchOption,
  OnOk,
  Some,
  if◌then◌else◌,
  length,
  slice_get,
  take,
};
ghost use Rattle.gedcom_line.specs.Line.{IsPiece};
ghost use Rattle.gedcom_rules.specs.Faults.{extra, overflows as overflow_test, within};
ghost use Rattle.gedcom_rules.specs.Pieces.{pieces, skip_mark as unmarked};
ghost use Rattle.file_faults.specs.Faults.{
  Faulty,
  at_end,
  cut_off,
  faults,
  faults_in,
  is_last as last_test,
  last_of,
};
ghost use Rattle.file_faults.specs.Reading.{Course as State};
ghost use Rattle.file_faults.specs.Shown.{listing};
ghost use Rattle.file_faults.specs.Views.{IsGoing, IsSound, course as state};

use crate::listing::Listing;
use crate::reading::Course;
use gedcom_rules::{MAX_FILE, TreeKind, cut, judge_end, judge_open};
use std::alloc::{AllocError, Global};

/// Whether what is wrong ends the list.
fn is_last(kind: TreeKind) -> bool
    ensures { result ≡ last_test kind }
{
    match kind {
        TreeKind::AfterTrailer => true,
        _ => false,
    }
}

/// Reads on by a piece, and lists it where it is faulty. `false`: that ends the list.
fn list_piece(
    alloc: Global,
    course: &mut Course,
    list: &mut Listing,
    piece: &[u8],
) -> Result<bool, AllocError>
    requires piece { IsPiece piece.now }
    requires count { 2 * course.old.number + 2 < 2 ^ 32 }
    requires few { list.old.total + 1 < 2 ^ 32 }
    requires sound { IsSound course.old }
    ensures going { IfOk result (λ goes_on. (all : List Faulty) (ps : List (List ℕ)) (rest : State → List Faulty)
        → IsGoing list.old all (faults_in (state course.old) (piece.now ∷ ps) rest)
        → IsGoing list.new all (if goes_on then faults_in (state course.new) ps rest else [])) }
    ensures sound { OnOk result (IsSound course.new) }
    ensures number { OnOk result (course.new.number ≤ course.old.number + 1) }
    ensures few { OnOk result (list.new.total ≤ list.old.total + 1) }
{
    let line = course.number + 1;
    match course.take(alloc, piece)? {
        None => Ok(true),
        Some(kind) => {
            list.add(alloc, line, kind, piece)?;
            Ok(!is_last(kind))
        }
    }
}

/// Reads on by each piece that a line end ends. What follows the last line end is answered; `None`: the list has ended.
fn list_pieces<'a>(
    alloc: Global,
    course: &mut Course,
    list: &mut Listing,
    bytes: &'a [u8],
) -> Result<Option<&'a [u8]>, AllocError>
    requires count { course.old.number + length bytes.now ≤ 67_108_864 }
    requires few { list.old.total + length bytes.now ≤ 67_108_864 }
    requires sound { IsSound course.old }
    ensures going { IfOk result (λ left. (all : List Faulty) (rest : State → List Faulty)
        → IsGoing list.old all (faults_in (state course.old) (pieces bytes.now).ended rest)
        → MatchOption left (IsGoing list.new all []) (λ _. IsGoing list.new all (rest (state course.new)))) }
    ensures open_ { IfOk result (λ left. IfSome left (λ rest. rest.now ≡ (pieces bytes.now).open_)) }
    ensures piece { IfOk result (λ left. IfSome left (λ rest. IsPiece rest.now)) }
    ensures sound { OnOk result (IsSound course.new) }
    ensures number { OnOk result (course.new.number ≤ 67_108_864) }
    ensures few { OnOk result (list.new.total ≤ 67_108_864) }
{
    let mut rest = bytes;
    while let Some((piece, after)) = cut(rest) {
        if !list_piece(alloc, course, list, piece)? {
            return Ok(None);
        }
        rest = after;
    }
    Ok(Some(rest))
}

/// Lists the end of a file without a trailer.
fn list_end(alloc: Global, course: &Course, list: &mut Listing) -> Result<(), AllocError>
    requires count { 2 * course.now.number + 2 < 2 ^ 32 }
    requires few { list.old.total + 1 < 2 ^ 32 }
    requires sound { IsSound course.now }
    ensures { OnOk result ((all : List Faulty) → IsGoing list.old all (at_end (state course.now))
        → IsGoing list.new all []) }
{
    match judge_end(&course.seen) {
        Ok(()) => Ok(()),
        Err(fault) => list.add(alloc, course.number + 1, fault.kind, b""),
    }
}

/// Lists the line within which the file gets too large by the byte `next`.
fn list_cut_off(
    alloc: Global,
    course: &Course,
    list: &mut Listing,
    last: &[u8],
    next: u8,
) -> Result<(), AllocError>
    requires count { 2 * course.now.number + 2 < 2 ^ 32 }
    requires few { list.old.total + 1 < 2 ^ 32 }
    requires sound { IsSound course.now }
    ensures { OnOk result ((all : List Faulty) → IsGoing list.old all (cut_off last.now next (state course.now))
        → IsGoing list.new all []) }
{
    let kind = match judge_open(&course.seen, last, Some(next)) {
        Ok(()) => TreeKind::FileTooLarge,
        Err(fault) => fault.kind,
    };
    list.add(alloc, course.number + 1, kind, last)
}

/// Lists what is faulty after the last line end.
fn list_last(
    alloc: Global,
    course: &mut Course,
    list: &mut Listing,
    last: &[u8],
    next: Option<u8>,
) -> Result<(), AllocError>
    requires piece { IsPiece last.now }
    requires count { course.old.number ≤ 67_108_864 }
    requires few { list.old.total ≤ 67_108_864 }
    requires sound { IsSound course.old }
    ensures { OnOk result ((all : List Faulty) → IsGoing list.old all (last_of last.now next (state course.old))
        → IsGoing list.new all []) }
{
    if let Some(next) = next {
        return list_cut_off(alloc, course, list, last, next);
    }
    if list_piece(alloc, course, list, last)? {
        list_end(alloc, course, list)?;
    }
    Ok(())
}

/// So many of the bytes, and the byte after them.
fn limited(bytes: &[u8], most: usize) -> (&[u8], Option<u8>)
    ensures front { result.0.now ≡ take most bytes.now }
    ensures next { result.1 ≡ slice_get bytes.now most }
    ensures small { length result.0.now ≤ most }
{
    (&bytes[..most.min(bytes.len())], bytes.get(most).copied())
}

/// The bytes without a byte order mark of UTF-8 at their start.
fn skip_mark(bytes: &[u8]) -> &[u8]
    ensures value { result.now ≡ unmarked bytes.now }
    ensures small { length result.now ≤ length bytes.now }
{
    match bytes {
        [0xEF, 0xBB, 0xBF, behind @ ..] => behind,
        _ => bytes,
    }
}

/// Lists all that is faulty.
fn list_all(
    alloc: Global,
    course: &mut Course,
    list: &mut Listing,
    bytes: &[u8],
    next: Option<u8>,
) -> Result<(), AllocError>
    requires count { course.old.number + length bytes.now ≤ 67_108_864 }
    requires few { list.old.total + length bytes.now ≤ 67_108_864 }
    requires sound { IsSound course.old }
    ensures { OnOk result ((all : List Faulty) → IsGoing list.old all
        (faults_in (state course.old) (pieces bytes.now).ended (last_of (pieces bytes.now).open_ next))
        → IsGoing list.new all []) }
{
    match list_pieces(alloc, course, list, bytes)? {
        Some(last) => list_last(alloc, course, list, last, next),
        None => Ok(()),
    }
}

/// The list of all faulty lines of a file, as it is written: the first 1,000 of them, and how many more there are.
/// An error comes only where memory is refused.
///
/// Of the bytes nothing is kept but cross references; each is looked at a fixed number of times.
pub fn list_faults(alloc: Global, bytes: &[u8]) -> Result<Vec<u8>, AllocError>
    ensures { IfOk result (λ text. text.items ≡ listing (faults bytes.now)) }
{
    let (front, next) = limited(bytes, MAX_FILE);
    let mut course = Course::new(alloc);
    let mut list = Listing::new(alloc);
    list_all(alloc, &mut course, &mut list, skip_mark(front), next)?;
    list.finish(alloc)
}
