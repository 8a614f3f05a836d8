//! The lines of a file that have ended, one after another.

ghost use Rattle.std.specs.Prelude.{
  ◌≡◌,
  ◌⊎◌,
  ℕ,
  ◌+◌,
  ◌<◌,
  ◌≤◌,
  ◌^◌,
  ◌∷◌,
  [],
  true,
  false,
  None,
  Ok,
  Err,
  MatchResult,
  IfOk,
  IfErr,
  OnOk,
  option_map,
  length,
  string_bytes,
  if◌then◌else◌,
};
ghost use Rattle.gedcom_line.specs.Line.{IsPiece};
ghost use Rattle.gedcom_line.specs.Reading.{is_continuation, parts};
ghost use Rattle.gedcom_rules.specs.Pieces.{pieces};
ghost use Rattle.gedcom_rules.specs.Rules.{is_trailer as trailer_test};
ghost use Rattle.gedcom_rules.specs.Judging.{judge as judged, advance};
ghost use Rattle.gedcom_rules.specs.Views.{progress, fault_view, IsStacked};
ghost use Rattle.gedcom_rules.specs.Faults.{IsLineless};
ghost use Rattle.gedcom_rules.specs.declared.fault.TreeKind.TheVariants.{OutOfMemory};
ghost use Rattle.gedcom_tree.specs.Flat.{flats, built};
ghost use Rattle.gedcom_tree.specs.Reading.{grow_line, grow, finished, reader_of};
ghost use Rattle.gedcom_tree.specs.Views.{nodes_view};
ghost use Rattle.gedcom_tree.specs.Depth.{IsDeep};
ghost use Rattle.gedcom_tree.specs.Lines.{Names, names_view, IsSound, Leads, Refuses, reader_view};

use crate::growing::Growing;
use crate::node::{Node, node_of, xref_of};
use gedcom_line::LineRef;
use gedcom_rules::{
    Seen, TreeFault, cut, is_continuation as goes_on, is_trailer, judge_end, judge_piece,
};
use std::alloc::{AllocError, Global};

/// What the lines that have ended leave: by what the next one is judged, and their nodes.
#[derive(Drop)]
pub(crate) struct Lines {
    pub(crate) seen: Seen,
    pub(crate) growing: Growing,
    /// The cross reference of the trailer, which is no node.
    pub(crate) trailer: Option<String>,
}

/// Adds the node of a line, or makes a text longer by it. The trailer is no node: its cross reference is kept.
fn add_line(
    alloc: Global,
    growing: &mut Growing,
    trailer: &mut Option<String>,
    number: u32,
    line: &LineRef<'_>,
) -> Result<(), AllocError>
    requires level { line.now.level ≤ length growing.old.path.items }
    requires above { is_continuation line.now.tag.now ≡ true → 0 < line.now.level }
    ensures added { OnOk result (built growing.new.roots.items growing.new.path.items
        ≡ grow_line number (built growing.old.roots.items growing.old.path.items) (parts line.now)) }
    ensures depth { OnOk result (trailer_test (parts line.now) ≡ false
        → length growing.new.path.items
        ≡ (if is_continuation line.now.tag.now then line.now.level else line.now.level + 1)) }
    ensures trailer { OnOk result (option_map string_bytes trailer.new
        ≡ (if trailer_test (parts line.now) then (parts line.now).xref else option_map string_bytes trailer.old)) }
{
    let level = usize::from(line.level);
    if is_trailer(line) {
        *trailer = xref_of(alloc, line.xref)?;
        Ok(())
    } else if goes_on(line) {
        growing.join(alloc, level, line)
    } else {
        let node = node_of(alloc, line, number)?;
        growing.add(level, node)
    }
}

/// Judges a piece after the lines so far, and adds its node.
fn add_piece(
    alloc: Global,
    growing: &mut Growing,
    trailer: &mut Option<String>,
    seen: &mut Seen,
    piece: &[u8],
) -> Result<(), TreeFault>
    requires piece { IsPiece piece.now }
    requires count { (progress seen.old).count + 1 < 2 ^ 32 }
    requires stacked { IsStacked seen.old }
    requires deep { IsDeep (progress seen.old) (length growing.old.path.items) }
    requires plain { (progress seen.old).done ≡ false → option_map string_bytes trailer.old ≡ None }
    ensures seen { MatchResult result
        (λ _. advance (progress seen.old) (judged (progress seen.old) piece.now) ≡ Ok (progress seen.new))
        (λ f. IsLineless OutOfMemory (fault_view f)
        ⊎ (advance (progress seen.old) (judged (progress seen.old) piece.now) ≡ Err (fault_view f))) }
    ensures grown { OnOk result (nodes_view seen.new growing.new ≡ grow (nodes_view seen.old growing.old) piece.now) }
    ensures named { OnOk result (Names (judged (progress seen.old) piece.now)
        (names_view (built growing.old.roots.items growing.old.path.items) (option_map string_bytes trailer.old))
        (names_view (built growing.new.roots.items growing.new.path.items) (option_map string_bytes trailer.new))) }
    ensures plain { OnOk result ((progress seen.new).done ≡ false → option_map string_bytes trailer.new ≡ None) }
    ensures stacked { OnOk result (IsStacked seen.new) }
    ensures deep { OnOk result (IsDeep (progress seen.new) (length growing.new.path.items)) }
    ensures count { OnOk result ((progress seen.new).count ≤ (progress seen.old).count + 1) }
{
    if let Some((number, line)) = judge_piece(alloc, seen, piece)? {
        add_line(alloc, growing, trailer, number, &line)?;
    }
    Ok(())
}

impl Lines {
    /// No lines yet.
    pub(crate) fn new(alloc: Global) -> Self
        ensures empty { reader_view result [] 0 None ≡ reader_of [] }
        ensures sound { IsSound result }
        ensures count { (progress result.seen).count ≡ 0 }
    {
        Lines {
            seen: Seen::new(alloc),
            growing: Growing::new(alloc),
            trailer: None,
        }
    }

    /// Judges a piece after the lines so far, and adds its line.
    pub(crate) fn add(&mut self, alloc: Global, piece: &[u8]) -> Result<(), TreeFault>
        requires piece { IsPiece piece.now }
        requires count { (progress self.old.seen).count + 1 < 2 ^ 32 }
        requires sound { IsSound self.old }
        ensures led { OnOk result (Leads self.old self.new (piece.now ∷ [])) }
        ensures count { OnOk result ((progress self.new.seen).count ≤ (progress self.old.seen).count + 1) }
        ensures fault { IfErr result (λ f. Refuses self.old (piece.now ∷ []) (fault_view f)) }
    {
        match add_piece(
            alloc,
            &mut self.growing,
            &mut self.trailer,
            &mut self.seen,
            piece,
        ) {
            Ok(()) => Ok(()),
            Err(fault) => Err(fault),
        }
    }

    /// Adds each line that a terminator ends. What follows the last terminator is answered.
    pub(crate) fn add_all<'a>(
        &mut self,
        alloc: Global,
        bytes: &'a [u8],
    ) -> Result<&'a [u8], TreeFault>
        requires count { (progress self.old.seen).count + length bytes.now + 1 < 2 ^ 32 }
        requires sound { IsSound self.old }
        ensures led { IfOk result (λ _. Leads self.old self.new (pieces bytes.now).ended) }
        ensures open_ { IfOk result (λ rest. rest.now ≡ (pieces bytes.now).open_) }
        ensures count { IfOk result (λ rest. (progress self.new.seen).count + length rest.now
            ≤ (progress self.old.seen).count + length bytes.now) }
        ensures fault { IfErr result (λ f. Refuses self.old (pieces bytes.now).ended (fault_view f)) }
    {
        let mut rest = bytes;
        while let Some((piece, after)) = cut(rest) {
            match self.add(alloc, piece) {
                Ok(()) => {}
                Err(fault) => return Err(fault),
            }
            rest = after;
        }
        Ok(rest)
    }

    /// The nodes of level 0 once the line that has not ended is added, or the fault of the whole file.
    pub(crate) fn finish(mut self, alloc: Global, rest: &[u8]) -> Result<Vec<Node>, TreeFault>
        requires piece { IsPiece rest.now }
        requires count { (progress self.seen).count + 2 < 2 ^ 32 }
        requires sound { IsSound self }
        ensures { (total : ℕ) → MatchResult result
            (λ nodes. finished (reader_view self rest.now total None) ≡ Ok (flats 0 nodes.items))
            (λ f. IsLineless OutOfMemory (fault_view f)
            ⊎ (finished (reader_view self rest.now total None) ≡ Err (fault_view f))) }
    {
        match self.add(alloc, rest) {
            Ok(()) => {}
            Err(fault) => return Err(fault),
        }
        match judge_end(&self.seen) {
            Ok(()) => Ok(self.growing.finish()?),
            Err(fault) => Err(fault),
        }
    }
}
