//! Laws of dates, over the definitions that the contracts cite.

ghost use Rattle.gedcom_date.specs.Laws.{IsSomeValue, IsOneValue, HadOneValue, ReadsAsBefore};
ghost use Rattle.gedcom_date.specs.Spelling.{spelling};
ghost use Rattle.gedcom_date.specs.Grammar.{Says};
ghost use Rattle.gedcom_date.specs.View.{view};
ghost use Rattle.gedcom_date.specs.declared.value.DateValue.{DateValue};

/// Each text has one value, and what is written of a value is read as the same value.
pub fn a_text_has_one_value()
    ensures some { IsSomeValue }
    ensures one { IsOneValue }
    ensures again { (value : DateValue) → Says (spelling (view value)) (view value) }
{}

/// By the grammar before French Republican dates each text had one value, and what it read as a form is
/// read as that form.
pub fn a_text_is_read_as_before()
    ensures one { HadOneValue }
    ensures same { ReadsAsBefore }
{}
