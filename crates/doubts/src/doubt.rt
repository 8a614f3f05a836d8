//! What is doubtful of a record.

ghost use Rattle.std.specs.Prelude.{◌≡◌, ◌∷◌, ◌++◌, [], IfOk, OnOk, string_bytes};
ghost use Rattle.doubts.specs.Doubts as doubts;

use searching::{Line, shown};
use std::alloc::{AllocError, Global};
use std::marker::Model;

/// A kind of doubt.
#[derive(Clone, Copy, Debug)]
pub(crate) enum Kind {
    /// A date that is words only.
    Words,
    /// A person without a name or a surname.
    Nameless,
    /// A family of nobody.
    Empty,
    /// A mention that is linked to nobody, although one of that name on that page is linked.
    Missed,
    /// A child who is older than a parent.
    Older,
    /// An event before the birth or after the burial of its owner.
    Outside,
    /// A register entry with two mentions that are linked to one person.
    Twice,
}

/// What is doubtful of a record. Contracts see the kind, the number and the bytes.
#[derive(Debug, Drop)]
pub(crate) struct Doubt {
    pub(crate) kind: Kind,
    /// The number of the record.
    pub(crate) number: u32,
    /// What is said of it.
    pub(crate) words: String,
}

impl Model for Doubt {
    ghost use Rattle.std.specs.Prelude.{List, ℕ, string_bytes};
    ghost use Rattle.doubts.specs.declared.doubt.Kind.{Kind};

    ghost Value = { Kind × (ℕ × List ℕ) };

    ghost view = { λ a. (a.kind, (a.number, string_bytes a.words)) };
}

/// Adds a doubt.
pub(crate) fn push_doubt(
    doubts: &mut Vec<Doubt>,
    kind: Kind,
    number: u32,
    words: String,
) -> Result<(), AllocError>
    ensures { OnOk result (doubts.new.items ≡ doubts.old.items ++ (kind, (number, string_bytes words)) ∷ []) }
{
    doubts.push(Doubt {
        kind,
        number,
        words,
    })?;
    Ok(())
}

/// The lines of doubts, by their kinds.
pub(crate) fn lines_of(alloc: Global, found: &[Doubt]) -> Result<Vec<Line>, AllocError>
    ensures { IfOk result (λ lines. lines.items ≡ doubts.by_kind found.now) }
{
    let mut lines = Vec::new(alloc);
    push_kind(alloc, &mut lines, Kind::Words, found)?;
    push_kind(alloc, &mut lines, Kind::Nameless, found)?;
    push_kind(alloc, &mut lines, Kind::Empty, found)?;
    push_kind(alloc, &mut lines, Kind::Missed, found)?;
    push_kind(alloc, &mut lines, Kind::Older, found)?;
    push_kind(alloc, &mut lines, Kind::Outside, found)?;
    push_kind(alloc, &mut lines, Kind::Twice, found)?;
    Ok(lines)
}

/// Adds the lines of the doubts of a kind.
fn push_kind(
    alloc: Global,
    lines: &mut Vec<Line>,
    kind: Kind,
    found: &[Doubt],
) -> Result<(), AllocError>
    ensures { OnOk result (lines.new.items ≡ lines.old.items ++ doubts.of_kind kind found.now) }
{
    'each: for doubt in found {
        push_if(alloc, lines, kind, doubt)?;
    }
    Ok(())
}

/// Adds the line of a doubt, if it is of the kind.
fn push_if(
    alloc: Global,
    lines: &mut Vec<Line>,
    kind: Kind,
    doubt: &Doubt,
) -> Result<(), AllocError>
    ensures { OnOk result (lines.new.items ≡ lines.old.items ++ doubts.line_if kind doubt.now) }
{
    if is_same(doubt.kind, kind) {
        push_line(alloc, lines, doubt.number, &doubt.words)?;
    }
    Ok(())
}

fn push_line(
    alloc: Global,
    lines: &mut Vec<Line>,
    number: u32,
    words: &str,
) -> Result<(), AllocError>
    ensures { OnOk result (lines.new.items ≡ lines.old.items ++ (number, doubts.line number words.now) ∷ []) }
{
    let text = line_of(alloc, number, words)?;
    lines.push(Line { number, text })?;
    Ok(())
}

/// The line of a doubt, without a line end.
fn line_of(alloc: Global, number: u32, words: &str) -> Result<String, AllocError>
    ensures { IfOk result (λ s. string_bytes s ≡ doubts.line number words.now) }
{
    let mut out = String::new(alloc);
    write!(out, "{number}  ")?;
    out.push_str(words)?;
    shown(alloc, &out)
}

fn is_same(a: Kind, b: Kind) -> bool
    ensures { result ≡ doubts.is_same a b }
{
    rank(a) == rank(b)
}

/// The place of a kind in the order of the kinds.
fn rank(kind: Kind) -> u8
    ensures { result ≡ doubts.rank kind }
{
    match kind {
        Kind::Words => 0,
        Kind::Nameless => 1,
        Kind::Empty => 2,
        Kind::Missed => 3,
        Kind::Older => 4,
        Kind::Outside => 5,
        Kind::Twice => 6,
    }
}
