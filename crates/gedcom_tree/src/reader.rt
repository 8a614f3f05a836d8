//! The reader of a file in pieces.

ghost use Rattle.std.specs.Prelude.{
  ◌≡◌,
  ◌⊎◌,
  ◌+◌,
  ◌-◌,
  ◌<◌,
  ◌≤◌,
  ◌^◌,
  ◌++◌,
  ◌∷◌,
  ℕ,
  List,
  [],
  Option,
  None,
  Some,
  Ok,
  Err,
  true,
  ◌==◌,
  MatchOption,
  IfOk,
  IfErr,
  OnOk,
  length,
  take,
  slice_get,
  option_map,
};
ghost use Rattle.gedcom_line.specs.Line.{IsPiece};
ghost use Rattle.gedcom_rules.specs.Pieces.{pieces, skip_mark as unmarked, from_start};
ghost use Rattle.gedcom_rules.specs.Faults.{IsLineless, max_line};
ghost use Rattle.gedcom_rules.specs.Judging.{decided, fault_behind};
ghost use Rattle.gedcom_rules.specs.Views.{progress, fault_view};
ghost use Rattle.gedcom_tree.specs.Reading.{reader_of};
ghost use Rattle.gedcom_tree.specs.Lines.{IsSound, IsReading, Leads, Blames, reader_view};

use crate::ended::Lines;
use crate::forest::Forest;
use gedcom_rules::{MAX_FILE, MAX_LINE, Seen, TreeFault, TreeKind, cut, judge_open, too_long};
use std::alloc::{AllocError, Global};
use std::marker::Model;

/// How many bytes a byte order mark has.
const MARK: usize = 3;

/// Takes a byte order mark off the front.
fn drop_mark(alloc: Global, rest: &mut Vec<u8>) -> Result<(), AllocError>
    ensures { OnOk result (rest.new.items ≡ unmarked rest.old.items) }
{
    if let [0xEF, 0xBB, 0xBF, behind @ ..] = rest.as_slice() {
        let mut line = Vec::new(alloc);
        line.extend_from_slice(behind)?;
        *rest = line;
    }
    Ok(())
}

/// Adds bytes to the line that has not ended, without a byte order mark where they begin the file. Nothing is
/// added where it would be too long.
fn hold(
    alloc: Global,
    seen: &Seen,
    rest: &mut Vec<u8>,
    is_start: bool,
    more: &[u8],
) -> Result<(), TreeFault>
    requires count { (progress seen.now).count + 1 < 2 ^ 32 }
    requires short { length rest.old.items ≤ 65_536 }
    ensures held { OnOk result (rest.new.items ≡ from_start is_start (rest.old.items ++ more.now)) }
    ensures fault { IfErr result (λ f. IsLineless TreeKind.OutOfMemory (fault_view f)
        ⊎ ((fault_view f ≡ fault_behind (progress seen.now).count TreeKind.TooLong)
        × (max_line < length (from_start is_start (rest.old.items ++ more.now))))) }
{
    if more.len() > MAX_LINE + MARK - rest.len() {
        return Err(too_long(seen));
    }
    rest.extend_from_slice(more)?;
    if is_start {
        drop_mark(alloc, rest)?;
    }
    Ok(())
}

/// Ends the line with `head`, adds it and each line that ends in `bytes`, and keeps what follows.
fn go_on(
    alloc: Global,
    lines: &mut Lines,
    rest: &mut Vec<u8>,
    is_start: bool,
    head: &[u8],
    bytes: &[u8],
) -> Result<(), TreeFault>
    requires count { (progress lines.old.seen).count + length bytes.now + 2 < 2 ^ 32 }
    requires sound { IsSound lines.old }
    requires short { length rest.old.items ≤ 65_536 }
    requires piece { IsPiece (from_start is_start (rest.old.items ++ head.now)) }
    ensures led { OnOk result (Leads lines.old lines.new
        (from_start is_start (rest.old.items ++ head.now) ∷ (pieces bytes.now).ended)) }
    ensures open_ { OnOk result (rest.new.items ≡ (pieces bytes.now).open_) }
    ensures count { OnOk result ((progress lines.new.seen).count
        ≤ (progress lines.old.seen).count + 1 + length bytes.now) }
    ensures fault { IfErr result (λ f. Blames lines.old
        (from_start is_start (rest.old.items ++ head.now) ∷ (pieces bytes.now).ended)
        (pieces bytes.now).open_ (fault_view f)) }
{
    match hold(alloc, &lines.seen, rest, is_start, head) {
        Ok(()) => {}
        Err(fault) => return Err(fault),
    }
    match lines.add(alloc, rest) {
        Ok(()) => {}
        Err(fault) => return Err(fault),
    }
    rest.clear();
    match lines.add_all(alloc, bytes) {
        Ok(behind) => hold(alloc, &lines.seen, rest, false, behind),
        Err(fault) => Err(fault),
    }
}

/// Adds the bytes after those so far: each line that ends, and what follows.
fn take_bytes(
    alloc: Global,
    lines: &mut Lines,
    rest: &mut Vec<u8>,
    is_start: bool,
    bytes: &[u8],
) -> Result<(), TreeFault>
    requires count { (progress lines.old.seen).count + length bytes.now + 1 < 2 ^ 32 }
    requires sound { IsSound lines.old }
    requires short { length rest.old.items ≤ 65_536 }
    requires piece { IsPiece rest.old.items }
    ensures led { OnOk result (Leads lines.old lines.new
        (pieces (from_start is_start (rest.old.items ++ bytes.now))).ended) }
    ensures open_ { OnOk result (rest.new.items
        ≡ (pieces (from_start is_start (rest.old.items ++ bytes.now))).open_) }
    ensures count { OnOk result ((progress lines.new.seen).count
        ≤ (progress lines.old.seen).count + length bytes.now) }
    ensures fault { IfErr result (λ f. Blames lines.old
        (pieces (from_start is_start (rest.old.items ++ bytes.now))).ended
        (pieces (from_start is_start (rest.old.items ++ bytes.now))).open_ (fault_view f)) }
{
    match cut(bytes) {
        None => hold(alloc, &lines.seen, rest, is_start, bytes),
        Some((head, behind)) => go_on(alloc, lines, rest, is_start, head, behind),
    }
}

/// So many of the bytes, and the byte after them.
fn limited(bytes: &[u8], room: usize) -> (&[u8], Option<u8>)
    ensures front { result.0.now ≡ take room bytes.now }
    ensures next { result.1 ≡ slice_get bytes.now room }
    ensures small { length result.0.now ≤ room }
{
    (&bytes[..room.min(bytes.len())], bytes.get(room).copied())
}

/// Adds the piece after the bytes so far.
fn add(
    alloc: Global,
    lines: &mut Lines,
    rest: &mut Vec<u8>,
    total: &mut usize,
    piece: &[u8],
) -> Result<(), TreeFault>
    requires reading { IsReading lines.old rest.old.items total.old }
    requires short { length rest.old.items ≤ 65_536 }
    ensures ok { OnOk result ((b : List ℕ) → reader_view lines.old rest.old.items total.old None ≡ reader_of b
        → (reader_view lines.new rest.new.items total.new None ≡ reader_of (b ++ piece.now))
        × (decided (b ++ piece.now) ≡ None)) }
    ensures reading { OnOk result (IsReading lines.new rest.new.items total.new) }
    ensures short { OnOk result (length rest.new.items ≤ 65_536) }
    ensures fault { IfErr result (λ f. IsLineless TreeKind.OutOfMemory (fault_view f)
        ⊎ ((b : List ℕ) → reader_view lines.old rest.old.items total.old None ≡ reader_of b
        → decided (b ++ piece.now) ≡ Some (fault_view f))) }
{
    let (front, next) = limited(piece, MAX_FILE - *total);
    let is_start = *total == rest.len();
    match take_bytes(alloc, lines, rest, is_start, front) {
        Ok(()) => {}
        Err(fault) => return Err(fault),
    }
    *total += front.len();
    match judge_open(&lines.seen, rest, next) {
        Ok(()) => Ok(()),
        Err(fault) => Err(fault),
    }
}

/// Reads a file in pieces. Of the bytes fed it keeps no more than the line that has not ended, of at most 65,536
/// bytes; each line is judged once, where it ends, and becomes a node of the forest.
///
/// Contracts see what the bytes fed left: see `Reader` in specs/Reading.antt.
#[derive(Drop)]
pub struct TreeReader {
    /// The lines that have ended.
    lines: Lines,
    /// The line that has not ended.
    rest: Vec<u8>,
    /// How many bytes were fed.
    total: usize,
    fault: Option<TreeFault>,
    alloc: Global,
}

impl Model for TreeReader {
    ghost use Rattle.std.specs.Prelude.{◌≡◌, ◌≤◌, None, length, option_map};
    ghost use Rattle.gedcom_rules.specs.Views.{fault_view};
    ghost use Rattle.gedcom_tree.specs.Reading.{Reader};
    ghost use Rattle.gedcom_tree.specs.Lines.{reader_view, IsReading};

    ghost Value = { Reader };

    ghost view = { λ r. reader_view r.lines r.rest.items r.total (option_map fault_view r.fault) };

    ghost invariant = { λ r. (length r.rest.items ≤ 65_536)
        × (r.fault ≡ None → IsReading r.lines r.rest.items r.total) };
}

impl TreeReader {
    ghost use Rattle.gedcom_tree.specs.State.{Holds, Takes, Finishes};
    ghost use Rattle.gedcom_rules.specs.Views.{fault_of, outcome};

    /// A reader of nothing yet.
    pub fn new(alloc: Global) -> Self
        ensures { Holds result [] }
    {
        TreeReader {
            lines: Lines::new(alloc),
            rest: Vec::new(alloc),
            total: 0,
            fault: None,
            alloc,
        }
    }

    /// Takes the next piece of the file, of any length. A fault is answered as soon as the bytes fed
    /// decide it, and again at each later call. `OutOfMemory` comes where memory is refused, and again then too.
    pub fn feed(&mut self, piece: &[u8]) -> Result<(), TreeFault>
        ensures fed { (b : List ℕ) → Holds self.old b → Takes self.new (b ++ piece.now) (fault_of result) }
        ensures again { MatchOption self.old.answer (Unit {0})
            (λ f. (fault_of result ≡ Some f) × (self.new ≡ self.old)) }
    {
        if let Some(fault) = self.fault {
            return Err(fault);
        }
        match add(
            self.alloc,
            &mut self.lines,
            &mut self.rest,
            &mut self.total,
            piece,
        ) {
            Ok(()) => Ok(()),
            Err(fault) => {
                self.rest.clear();
                self.fault = Some(fault);
                Err(fault)
            }
        }
    }

    /// Ends the file: its forest, or its fault, which is that of `feed`, or of a last line that has not ended,
    /// or that no trailer stands. `OutOfMemory` comes where memory is refused.
    pub fn finish(self) -> Result<Forest, TreeFault>
        ensures finished { (b : List ℕ) → Holds self b → Finishes b (outcome result) }
        ensures again { MatchOption self.answer (Unit {0}) (λ f. fault_of result ≡ Some f) }
    {
        let TreeReader {
            lines,
            rest,
            total: _,
            fault,
            alloc,
        } = self;
        if let Some(fault) = fault {
            return Err(fault);
        }
        match lines.finish(alloc, &rest) {
            Ok(nodes) => Ok(Forest::of_nodes(nodes)),
            Err(fault) => Err(fault),
        }
    }
}
