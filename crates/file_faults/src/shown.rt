//! A line as it is displayed.

ghost use Rattle.std.specs.Prelude.{◌≡◌, ◌<◌, ◌≤◌, ◌++◌, IfOk, IsTrue, OnOk, length};
ghost use Rattle.file_faults.specs.Shown.{
  first_shown,
  front_len as len_of_front,
  hex_digit as digit_of,
  is_control as control_test,
  is_front as front_test,
  max_shown,
  past_first,
  shown,
  stray,
  character as character_shown,
};

use crate::marks::is_text;
use std::alloc::AllocError;

/// The most characters of a line that are displayed.
const MAX_SHOWN: usize = 60;

/// Appends the first characters of a line, as they are displayed.
pub(crate) fn push_shown(out: &mut Vec<u8>, line: &[u8]) -> Result<(), AllocError>
    ensures { OnOk result (out.new.items ≡ out.old.items ++ shown max_shown line.now) }
{
    let mut rest = line;
    let mut left = MAX_SHOWN;
    'characters: while left > 0 && !rest.is_empty() {
        rest = push_first(out, rest)?;
        left -= 1;
    }
    Ok(())
}

/// Appends the first character of bytes, or the first byte where it begins none, and answers what follows.
fn push_first<'a>(out: &mut Vec<u8>, bytes: &'a [u8]) -> Result<&'a [u8], AllocError>
    requires { 0 < length bytes.now }
    ensures pushed { OnOk result (out.new.items ≡ out.old.items ++ first_shown bytes.now) }
    ensures past { IfOk result (λ rest. rest.now ≡ past_first bytes.now) }
{
    let len = front_len(bytes);
    if len == 0 {
        push_stray(out, bytes[0])?;
        return Ok(&bytes[1..]);
    }
    push_character(out, &bytes[..len])?;
    Ok(&bytes[len..])
}

/// How many bytes the character has that bytes begin with; 0: they begin with none.
#[tactic(auto, unfolding(crate::specs::Shown::front_len))]
fn front_len(bytes: &[u8]) -> usize
    ensures value { result ≡ len_of_front bytes.now }
    ensures bound { result ≤ length bytes.now }
{
    if is_front(1, bytes) {
        1
    } else if is_front(2, bytes) {
        2
    } else if is_front(3, bytes) {
        3
    } else if is_front(4, bytes) {
        4
    } else {
        0
    }
}

/// Whether there are so many bytes, and the first of that number are UTF-8.
fn is_front(count: usize, bytes: &[u8]) -> bool
    ensures value { result ≡ front_test count bytes.now }
    ensures bound { IsTrue result → count ≤ length bytes.now }
{
    count <= bytes.len() && is_text(&bytes[..count])
}

/// Appends a character, and a space for one that controls.
fn push_character(out: &mut Vec<u8>, character: &[u8]) -> Result<(), AllocError>
    ensures { OnOk result (out.new.items ≡ out.old.items ++ character_shown character.now) }
{
    if is_control(character) {
        out.extend_from_slice(b" ")
    } else {
        out.extend_from_slice(character)
    }
}

fn is_control(character: &[u8]) -> bool
    ensures { result ≡ control_test character.now }
{
    match character {
        [a] => *a < 32 || *a == 127,
        [a, b] => *a == 194 && *b < 160,
        _ => false,
    }
}

/// Appends a byte that begins no character, in hexadecimal digits.
fn push_stray(out: &mut Vec<u8>, byte: u8) -> Result<(), AllocError>
    ensures { OnOk result (out.new.items ≡ out.old.items ++ stray byte) }
{
    out.extend_from_slice(&[b'\\', b'x', hex_digit(byte / 16), hex_digit(byte % 16)])
}

fn hex_digit(value: u8) -> u8
    requires { value < 16 }
    ensures { result ≡ digit_of value }
{
    if value < 10 {
        b'0' + value
    } else {
        b'A' - 10 + value
    }
}
