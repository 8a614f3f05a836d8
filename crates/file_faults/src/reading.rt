//! Reading on after a faulty line.

ghost use Rattle.std.specs.Prelude.{
  ◌≡◌,
  ◌+◌,
  ◌*◌,
  ◌<◌,
  ◌≤◌,
  ◌^◌,
  [],
  IfOk,
  OnOk,
  codes,
  if◌then◌else◌,
  nat_le,
};
ghost use Rattle.gedcom_line.specs.Line.{IsPiece};
ghost use Rattle.gedcom_line.specs.Reading.{parts, reading};
ghost use Rattle.gedcom_rules.specs.Rules.{first_broken as broken_first};
ghost use Rattle.gedcom_rules.specs.Views.{progress, IsStacked};
ghost use Rattle.file_faults.specs.Marks.{level_of as level_spelled};
ghost use Rattle.file_faults.specs.Reading.{
  at_level as line_at_level,
  at_most as number_at_most,
  at_start,
  bare as bare_line,
  behind as stands_behind,
  counted as counts_as,
  fault_of,
  fault_read,
  is_charset as charset_test,
  judged,
  kept_level as level_kept,
  left_by,
  left_read,
  lines_judged,
  lines_passed,
  names_other as other_test,
  passed,
  placed,
};
ghost use Rattle.file_faults.specs.Views.{course, IsSound};

use crate::marks::{is_text, level_of, spread};
use gedcom_line::{LineKind, LineRef, read_line};
use gedcom_rules::{MAX_LINE, Seen, TreeKind, first_broken, of_line};
use std::alloc::{AllocError, Global};

/// A line of a level with a tag, and no more.
fn bare(level: u8, tag: &'static str) -> LineRef<'static>
    ensures { parts result ≡ bare_line level tag.now }
{
    LineRef {
        level,
        xref: None,
        tag,
        raw: "",
    }
}

/// The line at another level.
fn at_level<'a>(line: &LineRef<'a>, level: u8) -> LineRef<'a>
    ensures { parts result ≡ line_at_level level (parts line.now) }
{
    LineRef {
        level,
        xref: line.xref,
        tag: line.tag,
        raw: line.raw,
    }
}

fn at_most(level: u8, most: usize) -> u8
    ensures value { result ≡ number_at_most level most }
    ensures bound { result ≤ most }
{
    if usize::from(level) <= most {
        level
    } else {
        most as u8
    }
}

/// Adds a line after those so far, no deeper than one below the last of them.
fn behind(alloc: Global, seen: &mut Seen, line: &LineRef<'_>) -> Result<(), AllocError>
    requires count { (progress seen.old).count + 1 < 2 ^ 32 }
    requires stacked { IsStacked seen.old }
    ensures value { OnOk result (progress seen.new ≡ stands_behind (progress seen.old) (parts line.now)) }
    ensures stacked { OnOk result (IsStacked seen.new) }
    ensures count { OnOk result ((progress seen.new).count ≡ (progress seen.old).count + 1) }
{
    let level = at_most(line.level, seen.depth());
    seen.count_line(alloc, &at_level(line, level))
}

/// The same, where a header is taken to stand before a first line that is deeper than level 0.
fn place(alloc: Global, seen: &mut Seen, line: &LineRef<'_>) -> Result<(), AllocError>
    requires count { (progress seen.old).count + 2 < 2 ^ 32 }
    requires stacked { IsStacked seen.old }
    ensures value { OnOk result (progress seen.new ≡ placed (progress seen.old) (parts line.now)) }
    ensures stacked { OnOk result (IsStacked seen.new) }
    ensures count { OnOk result ((progress seen.new).count ≤ (progress seen.old).count + 2) }
{
    if seen.depth() == 0 && line.level > 0 {
        behind(alloc, seen, &bare(0, "HEAD"))?;
    }
    behind(alloc, seen, line)
}

/// What a line that breaks this rule first counts as.
fn counted<'a>(kind: TreeKind, line: &LineRef<'a>) -> LineRef<'a>
    ensures { parts result ≡ counts_as kind (parts line.now) }
{
    match kind {
        TreeKind::ContinuationHasChildren => at_level(line, line.level.saturating_sub(1)),
        _ => *line,
    }
}

/// Adds a line, by what it breaks first.
fn count(
    alloc: Global,
    seen: &mut Seen,
    line: &LineRef<'_>,
    broken: Option<TreeKind>,
) -> Result<(), AllocError>
    requires broken { broken ≡ broken_first (progress seen.old) (parts line.now) }
    requires count { (progress seen.old).count + 2 < 2 ^ 32 }
    requires stacked { IsStacked seen.old }
    ensures value { OnOk result (progress seen.new ≡ lines_judged (progress seen.old) (parts line.now) broken) }
    ensures stacked { OnOk result (IsStacked seen.new) }
    ensures count { OnOk result ((progress seen.new).count ≤ (progress seen.old).count + 2) }
{
    match broken {
        None => seen.count_line(alloc, line),
        Some(kind) => place(alloc, seen, &counted(kind, line)),
    }
}

/// The level with which bytes count that are no line.
fn kept_level(kind: LineKind, level: Option<u8>) -> Option<u8>
    ensures { result ≡ level_kept kind level }
{
    match kind {
        LineKind::BadLevel => None,
        LineKind::NotUtf8 | LineKind::BadXref | LineKind::BadTag | LineKind::Nul => level,
    }
}

fn is_charset(kind: TreeKind) -> bool
    ensures { result ≡ charset_test kind }
{
    match kind {
        TreeKind::Charset => true,
        _ => false,
    }
}

/// Whether a line names a character set that is not read, by what it breaks first.
fn names_other(broken: Option<TreeKind>) -> bool
    ensures { result ≡ other_test broken }
{
    match broken {
        Some(kind) => is_charset(kind),
        None => false,
    }
}

/// What the lines so far leave. Contracts see it as `course` of specs/Views.
#[derive(Drop)]
pub(crate) struct Course {
    pub(crate) seen: Seen,
    /// How many lines there were that are not blank.
    pub(crate) number: u32,
    /// Whether one of them named a character set that is not read.
    pub(crate) other: bool,
}

impl Course {
    /// No lines yet.
    pub(crate) fn new(alloc: Global) -> Self
        ensures value { course result ≡ at_start }
        ensures sound { IsSound result }
    {
        Course {
            seen: Seen::new(alloc),
            number: 0,
            other: false,
        }
    }

    /// Reads on by a piece: what is wrong with it first. `None`: it is blank, or a line that breaks no rule.
    #[tactic(auto, unfolding(crate::specs::Reading::fault_of, crate::specs::Reading::left_by))]
    pub(crate) fn take(
        &mut self,
        alloc: Global,
        piece: &[u8],
    ) -> Result<Option<TreeKind>, AllocError>
        requires piece { IsPiece piece.now }
        requires count { 2 * self.old.number + 2 < 2 ^ 32 }
        requires sound { IsSound self.old }
        ensures fault { IfOk result (λ k. k ≡ fault_of (course self.old) piece.now) }
        ensures left { OnOk result (course self.new ≡ left_by (course self.old) piece.now) }
        ensures sound { OnOk result (IsSound self.new) }
        ensures number { OnOk result (self.new.number ≤ self.old.number + 1) }
    {
        let level = level_of(piece);
        if piece.len() > MAX_LINE {
            self.pass(alloc, level)?;
            return Ok(Some(TreeKind::TooLong));
        }
        if self.other && !is_text(piece) {
            let text = spread(alloc, piece)?;
            return self.read(alloc, text.as_bytes(), level);
        }
        self.read(alloc, piece, level)
    }

    /// Reads on by a piece as it is read, which is not too long.
    fn read(
        &mut self,
        alloc: Global,
        text: &[u8],
        level: Option<u8>,
    ) -> Result<Option<TreeKind>, AllocError>
        requires piece { IsPiece text.now }
        requires count { 2 * self.old.number + 2 < 2 ^ 32 }
        requires sound { IsSound self.old }
        ensures fault { IfOk result (λ k. k ≡ fault_read (course self.old).lines (reading text.now)) }
        ensures left { OnOk result (course self.new ≡ left_read (course self.old) level (reading text.now)) }
        ensures sound { OnOk result (IsSound self.new) }
        ensures number { OnOk result (self.new.number ≤ self.old.number + 1) }
    {
        match read_line(text) {
            Ok(None) => Ok(None),
            Ok(Some(line)) => self.judge(alloc, &line),
            Err(fault) => {
                self.pass(alloc, kept_level(fault.kind, level))?;
                Ok(Some(of_line(fault.kind)))
            }
        }
    }

    /// Reads on by a line.
    fn judge(&mut self, alloc: Global, line: &LineRef<'_>) -> Result<Option<TreeKind>, AllocError>
        requires count { 2 * self.old.number + 2 < 2 ^ 32 }
        requires sound { IsSound self.old }
        ensures fault { IfOk result (λ k. k ≡ broken_first (course self.old).lines (parts line.now)) }
        ensures left { OnOk result (course self.new ≡ judged (course self.old) (parts line.now)
            (broken_first (course self.old).lines (parts line.now))) }
        ensures sound { OnOk result (IsSound self.new) }
        ensures number { OnOk result (self.new.number ≡ self.old.number + 1) }
    {
        let broken = first_broken(&self.seen, line);
        count(alloc, &mut self.seen, line, broken)?;
        self.number += 1;
        self.other = self.other || names_other(broken);
        Ok(broken)
    }

    /// Reads on by bytes that are no line and have this level.
    fn pass(&mut self, alloc: Global, level: Option<u8>) -> Result<(), AllocError>
        requires count { 2 * self.old.number + 2 < 2 ^ 32 }
        requires sound { IsSound self.old }
        ensures left { OnOk result (course self.new ≡ passed (course self.old) level) }
        ensures sound { OnOk result (IsSound self.new) }
        ensures number { OnOk result (self.new.number ≡ self.old.number + 1) }
    {
        add_level(alloc, &mut self.seen, level)?;
        self.number += 1;
        Ok(())
    }
}

/// Adds a line of the level, where there is one.
fn add_level(alloc: Global, seen: &mut Seen, level: Option<u8>) -> Result<(), AllocError>
    requires count { (progress seen.old).count + 2 < 2 ^ 32 }
    requires stacked { IsStacked seen.old }
    ensures value { OnOk result (progress seen.new ≡ lines_passed (progress seen.old) level) }
    ensures stacked { OnOk result (IsStacked seen.new) }
    ensures count { OnOk result ((progress seen.new).count ≤ (progress seen.old).count + 2) }
{
    match level {
        Some(level) => place(alloc, seen, &bare(level, "")),
        None => Ok(()),
    }
}
