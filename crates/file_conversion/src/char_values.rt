//! The lines CHAR of a file: what they say, and which of them get another value.

ghost use Rattle.std.specs.Prelude.{◌≡◌, ◌≤◌, ◌++◌, ◌∷◌, IfOk, IfSome, OnOk, codes, length};
ghost use Rattle.std.specs.Str.{bytes_eq};
ghost use Rattle.character_sets.specs.Lines.{lines};
ghost use Rattle.file_conversion.specs.Charsets.{word_at};
ghost use Rattle.file_conversion.specs.CharLines.{
  numbers_at,
  numbers_of,
  says_utf8 as says_utf8_of,
  words_at,
  words_of,
};

use crate::charsets::{Place, is_beyond, is_told, next_place, trimmed, word_of};
use character_sets::{LineHead, first_line, is_blank, line_head};
use std::alloc::{AllocError, Global};

/// The lines CHAR of the first HEAD.
#[derive(Drop)]
pub struct CharLines {
    /// The numbers of those that say something else than `CHAR UTF-8`.
    pub changed: Vec<usize>,
    /// What they all say in upper case, each with a space before it; 0 stands for what is not ASCII.
    pub words: Vec<u8>,
}

/// The lines CHAR of a file, if its first line is a HEAD.
pub fn char_lines(alloc: Global, units: &[u16]) -> Result<CharLines, AllocError>
    ensures changed { IfOk result (λ found. found.changed.items ≡ numbers_of (lines units.now)) }
    ensures words { IfOk result (λ found. found.words.items ≡ words_of (lines units.now)) }
{
    let mut found = CharLines {
        changed: Vec::new(alloc),
        words: Vec::new(alloc),
    };
    let mut rest = units;
    let mut place = Place::Start;
    let mut line = 1usize;
    'lines: while !rest.is_empty() {
        if is_beyond(place) {
            return Ok(found);
        }
        let cut = first_line(rest);
        if !is_blank(cut.body) {
            push_line(alloc, &mut found, place, line, cut.body)?;
            place = next_place(place, line_head(cut.body));
            line += 1;
        }
        rest = cut.rest;
    }
    Ok(found)
}

/// Adds one more line, if it is a CHAR of the first HEAD.
fn push_line(
    alloc: Global,
    found: &mut CharLines,
    place: Place,
    line: usize,
    body: &[u16],
) -> Result<(), AllocError>
    ensures changed { OnOk result (found.new.changed.items
        ≡ found.old.changed.items ++ numbers_at place line body.now) }
    ensures words { OnOk result (found.new.words.items ≡ found.old.words.items ++ words_at place body.now) }
{
    let head = line_head(body);
    if !is_told(place, head) {
        return Ok(());
    }
    push_word(alloc, &mut found.words, body, head)?;
    if !says_utf8(body, head) {
        found.changed.push(line)?;
    }
    Ok(())
}

/// Adds what a line says.
fn push_word(
    alloc: Global,
    words: &mut Vec<u8>,
    body: &[u16],
    head: Option<LineHead>,
) -> Result<(), AllocError>
    requires { IfSome head (λ h. h.value_at ≤ length body.now) }
    ensures { OnOk result (words.new.items ≡ words.old.items ++ (32 ∷ word_at body.now head)) }
{
    words.push(32)?;
    if let Some(head) = head {
        let word = word_of(alloc, trimmed(&body[head.value_at..]))?;
        words.extend_from_slice(word.as_bytes())?;
    }
    Ok(())
}

/// `CHAR UTF-8`, as units.
const SAID: [u16; 10] = [67, 72, 65, 82, 32, 85, 84, 70, 45, 56];

/// Whether a line says `CHAR UTF-8`.
fn says_utf8(body: &[u16], head: Option<LineHead>) -> bool
    requires { IfSome head (λ h. h.tag_at ≤ length body.now) }
    ensures { result ≡ says_utf8_of body.now head }
{
    match head {
        Some(head) => is_said(&body[head.tag_at..]),
        None => false,
    }
}

fn is_said(units: &[u16]) -> bool
    ensures { result ≡ bytes_eq units.now (codes "CHAR UTF-8") }
{
    units == SAID.as_slice()
}
