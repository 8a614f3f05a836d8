//! Numbers in decimal, without a leading zero.

ghost use Rattle.std.specs.Prelude.{
  ◌≡◌,
  ◌==◌,
  ◌&&◌,
  ◌++◌,
  IfErr,
  IfOk,
  OnOk,
  IfSome,
  ℕ,
  Option,
  decimal,
  get_or,
  length,
  nat_lt,
  option_copied,
  option_map,
  string_bytes,
};
ghost use Rattle.std.specs.Char.{is_ascii_digit};
ghost use Rattle.std.specs.List.{list_all};
ghost use Rattle.packed_rows.specs.Packed.{IsU32, number_part, FailsUnless};
ghost use Rattle.packed_rows.specs.Pieces.{is_plain as plain_test};

use record_text::RefusalKind;
use std::alloc::{AllocError, Global};

/// Adds a number.
pub(crate) fn push_number(alloc: Global, out: &mut String, number: u32) -> Result<(), AllocError>
    ensures { OnOk result (string_bytes out.new ≡ string_bytes out.old ++ decimal number) }
{
    let digits = number.to_string(alloc)?;
    out.push_str(&digits)
}

/// Adds what stands for the number that a line names.
pub(crate) fn push_target(
    alloc: Global,
    out: &mut String,
    target: Option<u32>,
) -> Result<(), AllocError>
    ensures { OnOk result (string_bytes out.new ≡ string_bytes out.old ++ number_part target) }
{
    match target {
        Some(number) => {
            out.push_str(">")?;
            push_number(alloc, out, number)
        }
        None => Ok(()),
    }
}

/// The number that a line names, where digits stand for one. 40: no number is written so.
pub(crate) fn target_if_any(digits: Option<&str>) -> Result<Option<u32>, RefusalKind>
    ensures ok { IfOk result (λ n. (option_copied digits.entry ≡ option_map decimal n) × IfSome n IsU32) }
    ensures err { IfErr result (FailsUnless ((n : Option ℕ)
        × (option_copied digits.entry ≡ option_map decimal n) × IfSome n IsU32)) }
{
    let Some(digits) = digits else {
        return Ok(None);
    };
    let number = number_of(digits)?;
    Ok(Some(number))
}

/// The number that is written so. 40: none is.
pub(crate) fn number_of(digits: &str) -> Result<u32, RefusalKind>
    ensures ok { IfOk result (λ n. (digits.now ≡ decimal n) × IsU32 n) }
    ensures err { IfErr result (FailsUnless ((n : ℕ) × (digits.now ≡ decimal n) × IsU32 n)) }
{
    if !is_plain(digits.as_bytes()) {
        return Err(RefusalKind::BadStored);
    }
    match digits.parse::<u32>() {
        Ok(number) => Ok(number),
        Err(_) => Err(RefusalKind::BadStored),
    }
}

/// Whether there are only digits, and no zero stands before others.
fn is_plain(bytes: &[u8]) -> bool
    ensures { result ≡ plain_test bytes.now }
{
    has_digits_alone(bytes) && !has_leading_zero(bytes)
}

/// Whether each byte is a digit.
fn has_digits_alone(bytes: &[u8]) -> bool
    ensures { result ≡ list_all is_ascii_digit bytes.now }
{
    bytes.iter().all(|b| b.is_ascii_digit())
}

/// Whether a zero stands before others.
fn has_leading_zero(bytes: &[u8]) -> bool
    ensures { result ≡ (nat_lt 1 (length bytes.now) && (get_or bytes.now 0 0 == 48)) }
{
    bytes.len() > 1 && bytes[0] == b'0'
}
