//! Pages that look like something else.

ghost use Rattle.std.specs.Prelude.{◌≡◌, IfOk, map};
ghost use Rattle.page_entries.specs.Pages as pages;

use crate::dates::{is_between, is_short, marks_of, only_letters, parts_of};
use crate::digits::{are_digits, is_digits, whole};
use std::alloc::{AllocError, Global};

/// Whether the page of a cell looks like a day, or like a number with `.0` or `,0` after it: a spreadsheet may have
/// made that of it.
pub fn is_doubtful_page(alloc: Global, cell: &str) -> Result<bool, AllocError>
    ensures { IfOk result (λ b. b ≡ pages.is_doubtful cell.now) }
{
    let parts = parts_of(alloc, cell.as_bytes())?;
    let marks = marks_of(alloc, cell.as_bytes())?;
    Ok(is_decimal(cell) || is_day(&parts, &marks))
}

/// A number with `.0` or `,0` after it.
fn is_decimal(cell: &str) -> bool
    ensures { result ≡ pages.is_decimal cell.now }
{
    let digits = whole(cell);
    digits.len() < cell.len() && !digits.is_empty() && is_digits(digits)
}

/// A day, by its parts and the marks between them.
fn is_day(parts: &[&[u8]], marks: &[u8]) -> bool
    ensures { result ≡ pages.is_day (map (λ p. p.now) parts.now) marks.now }
{
    match parts {
        [a, b] => is_day_of_two(a, b, marks),
        [a, b, c] => is_day_of_three(a, b, c, marks),
        [] | [_] => false,
        [_, _, _, _, ..] => false,
    }
}

/// `5-Mar` or `Mar-5`.
fn is_day_of_two(a: &[u8], b: &[u8], marks: &[u8]) -> bool
    ensures { result ≡ pages.is_day_of_two a.now b.now marks.now }
{
    match marks {
        [m] => is_month_after(a, *m, b) || is_month_before(a, *m, b),
        _ => false,
    }
}

/// `5/3/61` or `1761-03-05`.
fn is_day_of_three(a: &[u8], b: &[u8], c: &[u8], marks: &[u8]) -> bool
    ensures { result ≡ pages.is_day_of_three a.now b.now c.now marks.now }
{
    match marks {
        [m, n] => is_numbers(a, *m, b, *n, c) || is_year_first(a, *m, b, *n, c),
        _ => false,
    }
}

/// `5-Mar` or `5.Sept`.
fn is_month_after(a: &[u8], m: u8, b: &[u8]) -> bool
    ensures { result ≡ pages.is_month_after a.now m b.now }
{
    is_short(a) && (m == b'-' || m == b'.') && are_letters(b, 4)
}

/// `Mar-5`.
fn is_month_before(a: &[u8], m: u8, b: &[u8]) -> bool
    ensures { result ≡ pages.is_month_before a.now m b.now }
{
    are_letters(a, 3) && m == b'-' && is_short(b)
}

/// `5/3/61` or `5.3.1761`.
fn is_numbers(a: &[u8], m: u8, b: &[u8], n: u8, c: &[u8]) -> bool
    ensures { result ≡ pages.is_numbers a.now m b.now n c.now }
{
    is_short(a) && is_between(m) && is_short(b) && is_between(n) && are_digits(c, 2, 4)
}

/// `1761-03-05`.
fn is_year_first(a: &[u8], m: u8, b: &[u8], n: u8, c: &[u8]) -> bool
    ensures { result ≡ pages.is_year_first a.now m b.now n c.now }
{
    are_digits(a, 4, 4) && m == b'-' && are_digits(b, 2, 2) && n == b'-' && are_digits(c, 2, 2)
}

/// Three letters, or at most so many.
fn are_letters(part: &[u8], most: usize) -> bool
    ensures { result ≡ pages.are_letters most part.now }
{
    3 <= part.len() && part.len() <= most && only_letters(part)
}
