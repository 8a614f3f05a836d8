//! Lines read of one text.

ghost use Rattle.std.specs.Prelude.{◌≡◌, ◌++◌, ◌∷◌, [], IfErr, IfOk, IfSome, OnOk, ℕ, option_copied};
ghost use Rattle.stored_lines.specs.Line.{Label};
ghost use Rattle.record_text.specs.Text.{IsTag};
ghost use Rattle.packed_rows.specs.Packed.{ArePackedAs, StoredLines, FailsUnless, HaveText};
ghost use Rattle.packed_rows.specs.Pieces.{HasPieces, IsFirstLine, IsLineOf, Lacks};

use crate::cutting::{cut, parted};
use crate::numbers::{number_of, target_if_any};
use crate::typing::tell_types;
use crate::words::text_if_any;
use record_text::{RefusalKind, Tag};
use std::alloc::{AllocError, Global};
use stored_lines::StoredLine;

/// The lines that have this packed text, of which the first one, at depth 0, has this tag and names this number or,
/// where none is given, no number.
///
/// 40: no lines have it, as where a number has a leading zero or a tag has another character. 1: memory was refused.
pub fn unpack(
    alloc: Global,
    tag: Tag,
    target: Option<u32>,
    text: &str,
) -> Result<Vec<StoredLine>, RefusalKind>
    ensures read { IfOk result (λ lines. ArePackedAs tag target text.now lines.items) }
    ensures refused { IfErr result (FailsUnless ((lines : StoredLines) × ArePackedAs tag target text.now lines)) }
{
    let Some((head, below)) = cut(text, '\n') else {
        return Err(RefusalKind::BadStored);
    };
    let first = first_line(alloc, tag, target, head)?;
    let mut lines = Vec::new(alloc);
    push(&mut lines, first)?;
    push_lines(alloc, &mut lines, below)?;
    Ok(lines)
}

/// The lines that have this text, the first one too; none of an empty text.
///
/// 40: no lines have it. 1: memory was refused.
pub fn unpack_whole(alloc: Global, text: &str) -> Result<Vec<StoredLine>, RefusalKind>
    ensures read { IfOk result (λ lines. HaveText text.now lines.items) }
    ensures refused { IfErr result (FailsUnless ((lines : StoredLines) × HaveText text.now lines)) }
{
    let mut lines = Vec::new(alloc);
    push_lines(alloc, &mut lines, text)?;
    Ok(lines)
}

/// The first line: its tag, the number that it names, and the rest of it from the text. 40: no line has this rest.
fn first_line(
    alloc: Global,
    tag: Tag,
    target: Option<u32>,
    rest: &str,
) -> Result<StoredLine, RefusalKind>
    requires { Lacks 10 rest.now }
    ensures ok { IfOk result (λ l. IsFirstLine tag target rest.now l) }
    ensures err { IfErr result (FailsUnless ((l : ℕ × Label) × IsFirstLine tag target rest.now l)) }
{
    let (front, words) = parted(rest, ' ');
    if !front.is_empty() {
        return Err(RefusalKind::BadStored);
    }
    let text = text_if_any(alloc, words)?;
    let line = StoredLine {
        depth: 0,
        tag,
        text,
        target,
    };
    tell_types(&line);
    Ok(line)
}

/// Adds the lines of a text, each of which has LF after it. 40: no lines have it.
fn push_lines(alloc: Global, lines: &mut Vec<StoredLine>, text: &str) -> Result<(), RefusalKind>
    ensures ok { OnOk result ((more : StoredLines) × (lines.new.items ≡ lines.old.items ++ more)
        × HaveText text.now more) }
    ensures err { IfErr result (FailsUnless ((more : StoredLines) × HaveText text.now more)) }
{
    let mut rest = text;
    'lines: while let Some((line, after)) = cut(rest, '\n') {
        push(lines, line_of(alloc, line)?)?;
        rest = after;
    }
    if rest.is_empty() {
        Ok(())
    } else {
        Err(RefusalKind::BadStored)
    }
}

/// Adds a line after the others.
fn push(lines: &mut Vec<StoredLine>, line: StoredLine) -> Result<(), AllocError>
    ensures { OnOk result (lines.new.items ≡ lines.old.items ++ (line ∷ [])) }
{
    lines.push(line)?;
    Ok(())
}

/// The line of a text. 40: no line has it.
fn line_of(alloc: Global, text: &str) -> Result<StoredLine, RefusalKind>
    requires { Lacks 10 text.now }
    ensures ok { IfOk result (λ l. IsLineOf text.now l) }
    ensures err { IfErr result (FailsUnless ((l : ℕ × Label) × IsLineOf text.now l)) }
{
    let Some((depth, rest)) = cut(text, ' ') else {
        return Err(RefusalKind::BadStored);
    };
    let (head, words) = parted(rest, ' ');
    let (tag, number) = parted(head, '>');
    line_of_pieces(alloc, depth, tag, number, words)
}

/// The line that has these pieces. 40: none has.
fn line_of_pieces(
    alloc: Global,
    depth: &str,
    tag: &str,
    number: Option<&str>,
    words: Option<&str>,
) -> Result<StoredLine, RefusalKind>
    requires { IfSome (option_copied words) (Lacks 10) }
    ensures ok { IfOk result (λ l. HasPieces depth.now tag.now (option_copied number.entry)
        (option_copied words.entry) l) }
    ensures err { IfErr result (FailsUnless ((l : ℕ × Label)
        × HasPieces depth.now tag.now (option_copied number.entry) (option_copied words.entry) l)) }
{
    let depth = number_of(depth)?;
    let target = target_if_any(number)?;
    let tag = tag_of(alloc, tag)?;
    let text = text_if_any(alloc, words)?;
    Ok(StoredLine {
        depth,
        tag,
        text,
        target,
    })
}

/// The tag that a word is. 40: it is none.
fn tag_of(alloc: Global, word: &str) -> Result<Tag, RefusalKind>
    ensures ok { IfOk result (λ t. (word.now ≡ t) × IsTag t) }
    ensures err { IfErr result (FailsUnless (IsTag word.now)) }
{
    let Some(tag) = Tag::try_new(String::from_str(alloc, word)?) else {
        return Err(RefusalKind::BadStored);
    };
    let _ = tag.as_str();
    Ok(tag)
}
