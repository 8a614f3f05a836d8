//! The parts of a date.

ghost use Rattle.std.specs.Prelude.{◌≡◌, length, ◌≤◌, IfSome, IsSome, Some};
ghost use Rattle.gedcom_date.specs.Reading.{
  double_of,
  year_of,
  early_month,
  late_month,
  early_republican,
  late_republican,
  republican_of,
  month_of,
  day_of,
  month_year,
  day_month_year,
  extent_of,
  escape_of,
  told_of,
  whole_of,
  joined_before_christ,
  number_of,
  four,
};
ghost use Rattle.calendar_days.specs.Told.{Told, told, Exists};
ghost use Rattle.gedcom_date.specs.Words.{views};

use crate::words::{digits, is_word, number};
use calendar_days::{Calendar, CalendarDate, Extent, Year};

/// The year or double year of a word.
#[tactic(auto, unfolding(crate::specs::Reading::year_of))]
pub(crate) fn year(word: &str) -> Option<Year>
    ensures { result ≡ year_of word.now }
{
    match word.split_once('/') {
        Some((front, back)) => double_year(number(front), back),
        None => number(word).map(Year::Single),
    }
}

/// The double year of its first year and what stands after the stroke.
fn double_year(first: Option<u16>, back: &str) -> Option<Year>
    ensures { result ≡ double_of first back.now }
{
    match (first, back.as_bytes()) {
        (Some(first), [a, b])
            if a.is_ascii_digit()
                && b.is_ascii_digit()
                && first <= 9998
                && 10 * (*a - b'0') as u16 + (*b - b'0') as u16 == (first + 1) % 100 => {
            Some(Year::Double(first))
        }
        _ => None,
    }
}

/// The number of a month from JAN to JUN.
#[tactic(auto, unfolding(crate::specs::Reading::early_month))]
fn early(word: &str) -> Option<u8>
    ensures { result ≡ early_month word.now }
{
    if is_word(word, "JAN") {
        return Some(1);
    }
    if is_word(word, "FEB") {
        return Some(2);
    }
    if is_word(word, "MAR") {
        return Some(3);
    }
    if is_word(word, "APR") {
        return Some(4);
    }
    if is_word(word, "MAY") {
        return Some(5);
    }
    if is_word(word, "JUN") {
        return Some(6);
    }
    None
}

/// The number of a month from JUL to DEC.
#[tactic(auto, unfolding(crate::specs::Reading::late_month))]
fn late(word: &str) -> Option<u8>
    ensures { result ≡ late_month word.now }
{
    if is_word(word, "JUL") {
        return Some(7);
    }
    if is_word(word, "AUG") {
        return Some(8);
    }
    if is_word(word, "SEP") {
        return Some(9);
    }
    if is_word(word, "OCT") {
        return Some(10);
    }
    if is_word(word, "NOV") {
        return Some(11);
    }
    if is_word(word, "DEC") {
        return Some(12);
    }
    None
}

/// The number of a month, from 1.
#[tactic(auto, unfolding(crate::specs::Reading::month_of))]
pub(crate) fn month(calendar: Calendar, word: &str) -> Option<u8>
    ensures { result ≡ month_of calendar word.now }
{
    match calendar {
        Calendar::Gregorian | Calendar::Julian => match early(word) {
            Some(month) => Some(month),
            None => late(word),
        },
        Calendar::Republican => match early_republican(word) {
            Some(month) => Some(month),
            None => late_republican(word),
        },
    }
}

/// The number of a month from VEND to GERM.
#[tactic(auto, unfolding(crate::specs::Reading::early_republican))]
fn early_republican(word: &str) -> Option<u8>
    ensures { result ≡ early_republican word.now }
{
    if is_word(word, "VEND") {
        return Some(1);
    }
    if is_word(word, "BRUM") {
        return Some(2);
    }
    if is_word(word, "FRIM") {
        return Some(3);
    }
    if is_word(word, "NIVO") {
        return Some(4);
    }
    if is_word(word, "PLUV") {
        return Some(5);
    }
    if is_word(word, "VENT") {
        return Some(6);
    }
    if is_word(word, "GERM") {
        return Some(7);
    }
    None
}

/// The number of a month from FLOR to FRUC, and of COMP, the complementary days.
#[tactic(auto, unfolding(crate::specs::Reading::late_republican))]
fn late_republican(word: &str) -> Option<u8>
    ensures { result ≡ late_republican word.now }
{
    if is_word(word, "FLOR") {
        return Some(8);
    }
    if is_word(word, "PRAI") {
        return Some(9);
    }
    if is_word(word, "MESS") {
        return Some(10);
    }
    if is_word(word, "THER") {
        return Some(11);
    }
    if is_word(word, "FRUC") {
        return Some(12);
    }
    if is_word(word, "COMP") {
        return Some(13);
    }
    None
}

/// The day of a month.
#[tactic(auto, unfolding(crate::specs::Reading::day_of))]
fn day(word: &str) -> Option<u8>
    ensures { result ≡ day_of word.now }
{
    if word.len() <= 2 {
        short(word.as_bytes())
    } else {
        None
    }
}

/// The number of one or two digits.
fn short(bytes: &[u8]) -> Option<u8>
    requires { length bytes.now ≤ 2 }
    ensures { result ≡ number_of bytes.now }
{
    match bytes {
        [a] => two_digits(b'0', *a),
        [a, b] => two_digits(*a, *b),
        _ => None,
    }
}

/// The number of two digits, if it is not 0.
fn two_digits(a: u8, b: u8) -> Option<u8>
    ensures { result ≡ four 48 48 a b }
{
    if !(a.is_ascii_digit() && b.is_ascii_digit()) {
        return None;
    }
    let number = 10 * (a - b'0') + (b - b'0');
    if number == 0 { None } else { Some(number) }
}

/// What the words after the escape tell.
#[tactic(auto, unfolding(crate::specs::Reading::extent_of))]
pub(crate) fn extent(calendar: Calendar, words: &[&str]) -> Option<Extent>
    ensures { result ≡ extent_of calendar (views words.now) }
{
    match words {
        [word] => whole(word),
        [first, second] => {
            if is_word(second, "B.C.") {
                number(first).map(Extent::BeforeChrist)
            } else {
                month_and_year(calendar, first, second)
            }
        }
        [first, second, third] => day_month_and_year(calendar, first, second, third),
        _ => None,
    }
}

/// What one word tells: a year, or a year and B.C.
fn whole(word: &str) -> Option<Extent>
    ensures { result ≡ whole_of word.now }
{
    match joined_year(word.as_bytes()) {
        Some(year) => Some(Extent::BeforeChrist(year)),
        None => year(word).map(Extent::Whole),
    }
}

/// The year of a word that ends in B.C.
#[tactic(auto, unfolding(crate::specs::Reading::joined_before_christ))]
fn joined_year(word: &[u8]) -> Option<u16>
    ensures { result ≡ joined_before_christ word.now }
{
    if word.len() <= 4 {
        return None;
    }
    let (year, mark) = word.split_at(word.len() - 4);
    if mark.eq_ignore_ascii_case(b"B.C.") {
        digits(year)
    } else {
        None
    }
}

/// A month and a year.
fn month_and_year(calendar: Calendar, first: &str, second: &str) -> Option<Extent>
    ensures { result ≡ month_year calendar first.now second.now }
{
    let month = month(calendar, first)?;
    let year = year(second)?;
    Some(Extent::Month(month, year))
}

/// A day, a month and a year.
fn day_month_and_year(calendar: Calendar, first: &str, second: &str, third: &str) -> Option<Extent>
    ensures { result ≡ day_month_year calendar first.now second.now third.now }
{
    let day = day(first)?;
    let month = month(calendar, second)?;
    let year = year(third)?;
    Some(Extent::Day(day, month, year))
}

/// The calendar of the words, and what follows its escape.
#[tactic(auto, unfolding(crate::specs::Reading::escape_of))]
fn escape<'a, 'b>(words: &'a [&'b str]) -> (Calendar, &'a [&'b str])
    ensures calendar { result.0 ≡ (escape_of (views words.now)).0 }
    ensures rest { views result.1.now ≡ (escape_of (views words.now)).1 }
{
    match words {
        [first, rest @ ..] => {
            if is_word(first, "@#DGREGORIAN@") {
                (Calendar::Gregorian, rest)
            } else if is_word(first, "@#DJULIAN@") {
                (Calendar::Julian, rest)
            } else {
                republican_escape(words)
            }
        }
        [] => (Calendar::Gregorian, words),
    }
}

/// The French Republican calendar and what follows the two words of its escape; the Gregorian one and
/// all words where it does not stand there.
#[tactic(auto, unfolding(crate::specs::Reading::republican_of))]
fn republican_escape<'a, 'b>(words: &'a [&'b str]) -> (Calendar, &'a [&'b str])
    ensures calendar { result.0 ≡ (republican_of (views words.now)).0 }
    ensures rest { views result.1.now ≡ (republican_of (views words.now)).1 }
{
    match words {
        [first, second, rest @ ..] => {
            if is_word(first, "@#DFRENCH") && is_word(second, "R@") {
                (Calendar::Republican, rest)
            } else {
                (Calendar::Gregorian, words)
            }
        }
        _ => (Calendar::Gregorian, words),
    }
}

/// The date that the words tell, if the calendar has it.
#[tactic(auto, unfolding(crate::specs::Reading::told_of))]
pub(crate) fn date(words: &[&str]) -> Option<CalendarDate>
    ensures found { IfSome result (λ d. told_of (views words.now) ≡ Some (told d)) }
    ensures every { (d : Told) → told_of (views words.now) ≡ Some d → Exists d → IsSome result }
{
    let (calendar, rest) = escape(words);
    CalendarDate::new(calendar, extent(calendar, rest)?)
}
