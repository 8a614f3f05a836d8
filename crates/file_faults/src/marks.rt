//! What is known of a line that is no line of the grammar.

ghost use Rattle.std.specs.Prelude.{◌≡◌, ◌≤◌, IfOk, IfSome, encode_utf8_all, length, string_bytes};
ghost use Rattle.std.specs.List.{prefix_len};
ghost use Rattle.std.specs.Str.{is_utf8};
ghost use Rattle.gedcom_line.specs.Line.{IsPiece};
ghost use Rattle.gedcom_line.specs.Reading.{skip};
ghost use Rattle.gedcom_line.specs.Words.{is_white};
ghost use Rattle.file_faults.specs.Marks.{
  begins_with_space as space_begins,
  digit_at as digit_found,
  level_in as level_found,
  level_of as level_spelled,
};

use std::alloc::{AllocError, Global};

/// The level that a line begins with: one or two digits and a space, after white space.
#[tactic(auto, unfolding(crate::specs::Marks::level_of))]
pub(crate) fn level_of(piece: &[u8]) -> Option<u8>
    ensures { result ≡ level_spelled piece.now }
{
    level_in(&piece[white_len(piece)..])
}

/// How much white space stands at the front.
fn white_len(piece: &[u8]) -> usize
    ensures value { result ≡ prefix_len is_white piece.now }
    ensures bound { result ≤ length piece.now }
{
    piece
        .iter()
        .take_while(|b| **b == b' ' || **b == b'\t')
        .count()
}

/// The level at the front: one or two digits and a space.
fn level_in(text: &[u8]) -> Option<u8>
    ensures { result ≡ level_found text.now }
{
    let [a, b, more @ ..] = text else {
        return None;
    };
    let tens = digit_at(*a)?;
    if *b == b' ' {
        return Some(tens);
    }
    let ones = digit_at(*b)?;
    if begins_with_space(more) {
        Some(10 * tens + ones)
    } else {
        None
    }
}

fn digit_at(byte: u8) -> Option<u8>
    ensures value { result ≡ digit_found byte }
    ensures bound { IfSome result (λ d. d ≤ 9) }
{
    if b'0' <= byte && byte <= b'9' {
        Some(byte - b'0')
    } else {
        None
    }
}

fn begins_with_space(text: &[u8]) -> bool
    ensures { result ≡ space_begins text.now }
{
    match text {
        [first, ..] => *first == b' ',
        [] => false,
    }
}

/// Whether the bytes are UTF-8.
pub(crate) fn is_text(bytes: &[u8]) -> bool
    ensures { result ≡ is_utf8 bytes.now }
{
    match str::from_utf8(bytes) {
        Ok(_) => true,
        Err(_) => false,
    }
}

/// Each byte as a character, U+0000 to U+00FF.
pub(crate) fn spread(alloc: Global, piece: &[u8]) -> Result<String, AllocError>
    ensures { IfOk result (λ t. string_bytes t ≡ encode_utf8_all piece.now) }
{
    let mut text = String::new(alloc);
    for byte in piece {
        text.push(char::from(*byte))?;
    }
    Ok(text)
}
