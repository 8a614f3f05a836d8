//! The date that a cell means.

ghost use Rattle.std.specs.Prelude.{◌≡◌, IfOk, false, map, string_bytes};
ghost use Rattle.gedcom_date.specs.View.{view};
ghost use Rattle.page_entries.specs.Dates as dates;

use crate::digits::{are_digits, is_point};
use crate::months::{month_word, with_months};
use commands::GivenDate;
use gedcom_date::{DateValue, read_date};
use std::alloc::{AllocError, Global};

/// Which of the first two numbers of a date is the day.
#[derive(Clone, Copy, Debug, PartialEq, Eq)]
pub enum DateOrder {
    DayFirst,
    MonthFirst,
}

/// The date of a cell, none where it is empty, and whether it has no days but words.
#[derive(Drop)]
pub struct PageDate {
    pub given: Option<GivenDate>,
    pub is_words: bool,
}

/// The date that a cell means. `None`: it is refused.
#[tactic(auto, unfolding(crate::specs::Dates::date_in))]
pub fn date_in(
    alloc: Global,
    order: Option<DateOrder>,
    cell: &str,
) -> Result<Option<PageDate>, AllocError>
    ensures { IfOk result (λ date. date ≡ dates.date_in order cell.now) }
{
    if cell.is_empty() {
        return dated(alloc, false, cell);
    }
    if is_said(alloc, cell)? {
        return dated(alloc, false, cell);
    }
    let parts = parts_of(alloc, cell.as_bytes())?;
    let marks = marks_of(alloc, cell.as_bytes())?;
    by_parts(alloc, order, cell, &parts, &marks)
}

/// The parts of a cell between marks.
pub(crate) fn parts_of(alloc: Global, cell: &[u8]) -> Result<Vec<&[u8]>, AllocError>
    ensures { IfOk result (λ parts. map (λ p. p.now) parts.items ≡ dates.parts cell.now) }
{
    cell.split(|b| is_mark(*b)).collect(alloc)
}

/// The marks between them.
pub(crate) fn marks_of(alloc: Global, cell: &[u8]) -> Result<Vec<u8>, AllocError>
    ensures { IfOk result (λ marks. marks.items ≡ dates.marks cell.now) }
{
    cell.iter().copied().filter(|b| is_mark(*b)).collect(alloc)
}

/// What stands between the parts of a date.
fn is_mark(byte: u8) -> bool
    ensures { result ≡ dates.is_mark byte }
{
    byte == b' ' || byte == b'/' || byte == b'.' || byte == b'-' || byte == b','
}

/// Whether a text is in the grammar of dates.
fn is_said(alloc: Global, text: &str) -> Result<bool, AllocError>
    ensures { IfOk result (λ b. b ≡ dates.is_said text.now) }
{
    match read_date(alloc, text) {
        Ok(value) => Ok(is_form(&value)),
        Err(_) => Err(AllocError),
    }
}

/// Whether a value is one of the forms of the grammar.
fn is_form(value: &DateValue) -> bool
    ensures { result ≡ dates.is_form (view value.now) }
{
    match value {
        DateValue::Verbatim(_) => false,
        _ => true,
    }
}

/// The date of words.
fn dated(alloc: Global, is_words: bool, words: &str) -> Result<Option<PageDate>, AllocError>
    ensures { IfOk result (λ date. date ≡ dates.dated is_words words.now) }
{
    let given = given(alloc, words)?;
    Ok(Some(PageDate { given, is_words }))
}

fn given(alloc: Global, words: &str) -> Result<Option<GivenDate>, AllocError>
    ensures { IfOk result (λ found. found ≡ dates.given_of words.now) }
{
    GivenDate::of_words(alloc, words)
}

/// The date that bytes say. `None`: they are not in the grammar.
fn said(alloc: Global, bytes: &[u8]) -> Result<Option<PageDate>, AllocError>
    ensures { IfOk result (λ date. date ≡ dates.said bytes.now) }
{
    match str::from_utf8(bytes) {
        Ok(text) => {
            let date = said_text(alloc, text)?;
            Ok(date)
        }
        Err(_) => Ok(None),
    }
}

fn said_text(alloc: Global, text: &str) -> Result<Option<PageDate>, AllocError>
    ensures { IfOk result (λ date. date ≡ dates.said_text text.now) }
{
    if is_said(alloc, text)? {
        dated(alloc, false, text)
    } else {
        Ok(None)
    }
}

/// A day by its numbers. `None`: there is none.
fn by_day(
    alloc: Global,
    day: &[u8],
    month: &[u8],
    year: &[u8],
) -> Result<Option<PageDate>, AllocError>
    ensures { IfOk result (λ date. date ≡ dates.by_day day.now month.now year.now) }
{
    let month = small(month);
    if 1 <= month && month <= 12 {
        let text = day_text(alloc, day, month, year)?;
        said(alloc, &text)
    } else {
        Ok(None)
    }
}

/// A day in words of the grammar.
fn day_text(alloc: Global, day: &[u8], month: u8, year: &[u8]) -> Result<Vec<u8>, AllocError>
    ensures { IfOk result (λ text. text.items ≡ dates.day_text day.now month year.now) }
{
    let mut text: Vec<u8> = Vec::new(alloc);
    text.extend_from_slice(day)?;
    text.push(b' ')?;
    text.extend_from_slice(month_word(month).as_bytes())?;
    text.push(b' ')?;
    text.extend_from_slice(year)?;
    Ok(text)
}

/// The number of one or two digits; 0 for other bytes.
fn small(digits: &[u8]) -> u8
    ensures { result ≡ dates.small digits.now }
{
    match digits {
        [b] if b.is_ascii_digit() => *b - b'0',
        [a, b] if a.is_ascii_digit() && b.is_ascii_digit() => 10 * (*a - b'0') + (*b - b'0'),
        _ => 0,
    }
}

/// The date of a cell by its names of months, and else its words.
fn by_words(alloc: Global, cell: &str) -> Result<Option<PageDate>, AllocError>
    ensures { IfOk result (λ date. date ≡ dates.by_words cell.now) }
{
    let text = with_months(alloc, cell.as_bytes())?;
    match said(alloc, &text)? {
        Some(date) => Ok(Some(date)),
        None => dated(alloc, true, cell),
    }
}

/// The date of a cell by its parts and the marks between them.
fn by_parts(
    alloc: Global,
    order: Option<DateOrder>,
    cell: &str,
    parts: &[&[u8]],
    marks: &[u8],
) -> Result<Option<PageDate>, AllocError>
    ensures { IfOk result
        (λ date. date ≡ dates.by_parts order cell.now (map (λ p. p.now) parts.now) marks.now) }
{
    match parts {
        [a, b] => by_two(alloc, cell, a, b, marks),
        [a, b, c] => by_three(alloc, order, cell, a, b, c, marks),
        [a, b, c, d] => by_four(alloc, cell, a, b, c, d, marks),
        [] | [_] => by_words(alloc, cell),
        [_, _, _, _, _, ..] => by_words(alloc, cell),
    }
}

/// A year with `.0` after it, or a month and a year of two digits.
fn by_two(
    alloc: Global,
    cell: &str,
    a: &[u8],
    b: &[u8],
    marks: &[u8],
) -> Result<Option<PageDate>, AllocError>
    ensures { IfOk result (λ date. date ≡ dates.by_two cell.now a.now b.now marks.now) }
{
    match marks {
        [m] if is_point(*m) && are_digits(a, 4, 4) && is_zero(b) => said(alloc, a),
        [m] if *m == b'-' && are_letters(a) && is_short(b) => Ok(None),
        _ => by_words(alloc, cell),
    }
}

/// Three numbers, or a month with a day or a full stop and a year of two digits.
fn by_three(
    alloc: Global,
    order: Option<DateOrder>,
    cell: &str,
    a: &[u8],
    b: &[u8],
    c: &[u8],
    marks: &[u8],
) -> Result<Option<PageDate>, AllocError>
    ensures { IfOk result (λ date. date ≡ dates.by_three order cell.now a.now b.now c.now marks.now) }
{
    match marks {
        [m, n] if is_iso(a, *m, b, *n, c) => by_day(alloc, c, b, a),
        [m, n] if is_numeric(a, *m, b, *n, c) => by_order(alloc, order, a, b, c),
        [m, n] if is_doubtful(a, *m, b, *n, c) => Ok(None),
        _ => by_words(alloc, cell),
    }
}

/// A day, a month with a full stop and a year of two digits.
fn by_four(
    alloc: Global,
    cell: &str,
    a: &[u8],
    b: &[u8],
    c: &[u8],
    d: &[u8],
    marks: &[u8],
) -> Result<Option<PageDate>, AllocError>
    ensures { IfOk result (λ date. date ≡ dates.by_four cell.now a.now b.now c.now d.now marks.now) }
{
    match marks {
        [m, n, o]
            if is_day_month(a, *m, b) && *n == b'.' && c.is_empty() && *o == b'-' && is_short(d) =>
            Ok(None),
        _ => by_words(alloc, cell),
    }
}

/// Two numbers and a year, as the order of days and months says.
fn by_order(
    alloc: Global,
    order: Option<DateOrder>,
    a: &[u8],
    b: &[u8],
    year: &[u8],
) -> Result<Option<PageDate>, AllocError>
    ensures { IfOk result (λ date. date ≡ dates.by_order order a.now b.now year.now) }
{
    match order {
        Some(DateOrder::DayFirst) => by_day(alloc, a, b, year),
        Some(DateOrder::MonthFirst) => by_day(alloc, b, a, year),
        None => Ok(None),
    }
}

/// `1761-05-05`.
fn is_iso(a: &[u8], m: u8, b: &[u8], n: u8, c: &[u8]) -> bool
    ensures { result ≡ dates.is_iso a.now m b.now n c.now }
{
    m == b'-' && n == b'-' && are_digits(a, 4, 4) && is_short(b) && is_short(c)
}

/// `05/06/1761`.
fn is_numeric(a: &[u8], m: u8, b: &[u8], n: u8, c: &[u8]) -> bool
    ensures { result ≡ dates.is_numeric a.now m b.now n c.now }
{
    m == n && is_between(m) && is_short(a) && is_short(b) && are_digits(c, 4, 4)
}

/// `5/6/61`, `15-Apr-10` or `Apr.-10`.
fn is_doubtful(a: &[u8], m: u8, b: &[u8], n: u8, c: &[u8]) -> bool
    ensures { result ≡ dates.is_doubtful a.now m b.now n c.now }
{
    is_short(c) && (is_numbers(a, m, b, n) || (n == b'-' && is_month_before(a, m, b)))
}

/// Two numbers of one or two digits, and the mark after them.
fn is_numbers(a: &[u8], m: u8, b: &[u8], n: u8) -> bool
    ensures { result ≡ dates.is_numbers a.now m b.now n }
{
    is_between(m) && is_between(n) && is_short(a) && is_short(b)
}

/// A day and a month, or a month and a full stop.
fn is_month_before(a: &[u8], m: u8, b: &[u8]) -> bool
    ensures { result ≡ dates.is_month_before a.now m b.now }
{
    is_day_month(a, m, b) || (are_letters(a) && m == b'.' && b.is_empty())
}

/// A day and a month.
fn is_day_month(a: &[u8], m: u8, b: &[u8]) -> bool
    ensures { result ≡ dates.is_day_month a.now m b.now }
{
    is_short(a) && (m == b' ' || m == b'.' || m == b'-') && are_letters(b)
}

/// One or two digits.
pub(crate) fn is_short(part: &[u8]) -> bool
    ensures { result ≡ dates.is_short part.now }
{
    are_digits(part, 1, 2)
}

/// `0`.
fn is_zero(part: &[u8]) -> bool
    ensures { result ≡ dates.is_zero part.now }
{
    are_digits(part, 1, 1) && small(part) == 0
}

/// Three to nine letters.
fn are_letters(part: &[u8]) -> bool
    ensures { result ≡ dates.are_letters part.now }
{
    3 <= part.len() && part.len() <= 9 && only_letters(part)
}

pub(crate) fn only_letters(part: &[u8]) -> bool
    ensures { result ≡ dates.only_letters part.now }
{
    part.iter().all(|b| b.is_ascii_alphabetic())
}

/// What stands between the numbers of a date.
pub(crate) fn is_between(mark: u8) -> bool
    ensures { result ≡ dates.is_between mark }
{
    mark == b'/' || mark == b'.' || mark == b'-'
}
