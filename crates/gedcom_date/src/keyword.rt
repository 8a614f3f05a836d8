//! The words that a value begins with or that stand between its dates.

ghost use Rattle.std.specs.Prelude.{◌≡◌};
ghost use Rattle.gedcom_date.specs.Reading.{keyword_of};

use crate::approximation::Approximation;
use crate::words::is_word;

/// A keyword: GEDCOM 5.5.1, chapter 2, DATE_VALUE.
#[derive(Clone, Copy, Debug, PartialEq, Eq)]
pub(crate) enum Keyword {
    /// `ABT`, `CAL`, `EST`.
    Near(Approximation),
    /// `BEF`.
    Before,
    /// `AFT`.
    After,
    /// `BET`.
    Between,
    /// `AND`.
    And,
    /// `FROM`.
    From,
    /// `TO`.
    To,
    /// `INT`.
    Interpreted,
}

/// The keyword that a word is, in either case of its letters.
#[tactic(auto, unfolding(crate::specs::Reading::keyword_of))]
pub(crate) fn read_keyword(word: &str) -> Option<Keyword>
    ensures { result ≡ keyword_of word.now }
{
    if is_word(word, "ABT") {
        return Some(Keyword::Near(Approximation::About));
    }
    if is_word(word, "CAL") {
        return Some(Keyword::Near(Approximation::Calculated));
    }
    if is_word(word, "EST") {
        return Some(Keyword::Near(Approximation::Estimated));
    }
    if is_word(word, "BEF") {
        return Some(Keyword::Before);
    }
    if is_word(word, "AFT") {
        return Some(Keyword::After);
    }
    if is_word(word, "BET") {
        return Some(Keyword::Between);
    }
    if is_word(word, "AND") {
        return Some(Keyword::And);
    }
    if is_word(word, "FROM") {
        return Some(Keyword::From);
    }
    if is_word(word, "TO") {
        return Some(Keyword::To);
    }
    if is_word(word, "INT") {
        return Some(Keyword::Interpreted);
    }
    None
}
