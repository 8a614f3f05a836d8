//! Texts that are added to a report.

ghost use Rattle.std.specs.Prelude.{◌≡◌, ◌++◌, ◌∷◌, [], OnOk};
ghost use Rattle.std.specs.Fmt.{decimal};
ghost use Rattle.std.specs.List.{flat_map};
ghost use Rattle.conversion_reports.specs.Report.{
  count_line,
  is_first as is_first_of,
  left_after as left_after_of,
  max_shown,
  place_text,
  shown as shown_of,
  shown_byte as shown_byte_of,
};

use std::alloc::{AllocError, Global};

/// The most characters of a text of the file that are shown.
const MAX_SHOWN: usize = 60;

pub(crate) fn push(out: &mut Vec<u8>, text: &str) -> Result<(), AllocError>
    ensures { OnOk result (out.new.items ≡ out.old.items ++ text.now) }
{
    out.extend_from_slice(text.as_bytes())
}

pub(crate) fn push_line_end(out: &mut Vec<u8>) -> Result<(), AllocError>
    ensures { OnOk result (out.new.items ≡ out.old.items ++ (10 ∷ [])) }
{
    out.push(10)?;
    Ok(())
}

pub(crate) fn push_number(alloc: Global, out: &mut Vec<u8>, number: usize) -> Result<(), AllocError>
    ensures { OnOk result (out.new.items ≡ out.old.items ++ decimal number) }
{
    let text = format!(in alloc; "{number}")?;
    out.extend_from_slice(text.as_bytes())
}

/// Adds the first characters of a text in UTF-8, with spaces for control characters, and ends the line.
pub(crate) fn push_shown(out: &mut Vec<u8>, text: &[u8]) -> Result<(), AllocError>
    ensures { OnOk result (out.new.items ≡ out.old.items ++ (shown_of max_shown text.now ++ 10 ∷ [])) }
{
    push_cut(out, text)?;
    push_line_end(out)
}

/// Adds the first characters of a text in UTF-8, with spaces for control characters.
pub(crate) fn push_cut(out: &mut Vec<u8>, text: &[u8]) -> Result<(), AllocError>
    ensures { OnOk result (out.new.items ≡ out.old.items ++ shown_of max_shown text.now) }
{
    let mut before = 0u8;
    let mut left = MAX_SHOWN;
    for byte in text {
        if is_first(*byte) && left == 0 {
            return Ok(());
        }
        out.push(shown_byte(before, *byte))?;
        left = left_after(left, *byte);
        before = *byte;
    }
    Ok(())
}

/// The first byte of a character.
fn is_first(byte: u8) -> bool
    ensures { result ≡ is_first_of byte }
{
    !(0x80 <= byte && byte < 0xC0)
}

fn left_after(left: usize, byte: u8) -> usize
    ensures { result ≡ left_after_of left byte }
{
    if is_first(byte) {
        left.saturating_sub(1)
    } else {
        left
    }
}

fn shown_byte(before: u8, byte: u8) -> u8
    ensures { result ≡ shown_byte_of before byte }
{
    if byte < 32 || byte == 127 {
        32
    } else if before == 0xC2 && byte < 0xA0 {
        0xA0
    } else {
        byte
    }
}

/// Adds how often something is in a file, and in which lines first; nothing where it is not there.
pub(crate) fn push_count(
    alloc: Global,
    out: &mut Vec<u8>,
    label: &str,
    count: usize,
    first: &[usize],
) -> Result<(), AllocError>
    ensures { OnOk result (out.new.items ≡ out.old.items ++ count_line label.now count first.now) }
{
    if count == 0 {
        return Ok(());
    }
    push(out, label)?;
    push(out, ": ")?;
    push_number(alloc, out, count)?;
    push_places(alloc, out, first)?;
    push_line_end(out)
}

fn push_places(alloc: Global, out: &mut Vec<u8>, lines: &[usize]) -> Result<(), AllocError>
    ensures { OnOk result (out.new.items ≡ out.old.items ++ flat_map place_text lines.now) }
{
    for line in lines {
        push(out, ", line ")?;
        push_number(alloc, out, *line)?;
    }
    Ok(())
}
