//! Dates of a request.

ghost use Rattle.std.specs.Prelude.{◌≡◌, [], IfOk, MatchOption};
ghost use Rattle.gedcom_date.specs.Form.{Form};
ghost use Rattle.gedcom_date.specs.Grammar.{Says};
ghost use Rattle.gedcom_date.specs.Spelling.{spelling};
ghost use Rattle.gedcom_date.specs.View.{view};
ghost use Rattle.commands.specs.Given.{Gives, IsGiven};

use gedcom_date::{DateValue, read_date, write_date};
use record_fields::Date;
use std::alloc::{AllocError, Global};
use std::marker::Model;

/// A date that a request gives: its canonical spelling, and the date of the archive that it is, or none where the
/// spelling is no text.
#[derive(Drop)]
pub struct GivenDate {
    spelling: String,
    date: Option<Date>,
}

impl Model for GivenDate {
    ghost use Rattle.std.specs.Prelude.{string_bytes};
    ghost use Rattle.std.specs.Coded.{codes};
    ghost use Rattle.record_fields.specs.Codes.{date_code};
    ghost use Rattle.commands.specs.Given as given;

    ghost Value = { given.GivenDate };

    ghost coded = { Prim.hlevel (codes, date_code) };

    ghost view = { λ a. record { spelling = string_bytes a.spelling; date = a.date } };

    ghost invariant = { λ a. given.IsGiven (string_bytes a.spelling) a.date };
}

impl GivenDate {
    /// The date that words say. `None`: its spelling is empty, as is that of no words. Refused only if out of memory:
    /// words that fit no form of a date are kept as a date.
    #[tactic(auto, using(record_fields::specs::Dated::one_said))]
    pub fn of_words(alloc: Global, words: &str) -> Result<Option<GivenDate>, AllocError>
        ensures said { IfOk result (λ found. (form : Form) → Says words.now form
            → MatchOption found (spelling form ≡ []) (λ given. given.spelling ≡ spelling form)) }
        ensures gives { IfOk result (Gives words.now) }
    {
        match read_date(alloc, words) {
            Ok(value) => GivenDate::of_value(alloc, &value),
            Err(_) => Err(AllocError),
        }
    }

    /// A value as the date of a request. `None`: its spelling is empty.
    fn of_value(alloc: Global, value: &DateValue) -> Result<Option<GivenDate>, AllocError>
        ensures { IfOk result (λ found. MatchOption found
            (spelling (view value.now) ≡ []) (λ given. given.spelling ≡ spelling (view value.now))) }
    {
        let Ok(spelling) = write_date(alloc, value) else {
            return Err(AllocError);
        };
        if spelling.as_str().is_empty() {
            return Ok(None);
        }
        let date = Date::of_value(alloc, value)?;
        Ok(Some(GivenDate { spelling, date }))
    }

    /// The canonical spelling.
    pub fn spelling(&self) -> &str
        ensures same { result.now ≡ self.now.spelling }
        ensures given { IsGiven self.now.spelling self.now.date }
    {
        self.spelling.as_str()
    }

    /// The date of the archive in memory of its own. `None`: its spelling is no text. Refused only if out of memory.
    pub fn date(&self, alloc: Global) -> Result<Option<Date>, AllocError>
        ensures { IfOk result (λ found. found ≡ self.now.date) }
    {
        match &self.date {
            Some(date) => Ok(Some(date.copy(alloc)?)),
            None => Ok(None),
        }
    }
}
