//! Fields with their names, and carried lines.

ghost use Rattle.std.specs.Prelude.{◌≡◌, ◌++◌, ◌≤◌, OnOk, string_bytes};
ghost use Rattle.showing.specs.Fields as fields;

use node_writing::{Named, push_carried};
use record_fields::Date;
use record_text::Text;
use sheet_lines::push_printed;
use std::alloc::{AllocError, Global};
use stored_lines::Carried;

/// Cross references that are the numbers.
struct Numbers;

impl Named for Numbers {
    ghost use Rattle.std.specs.Prelude.{[]};
    ghost use Rattle.showing.specs.Fields.{reference};

    ghost names = { λ _. reference };

    ghost around = { λ _. record { child_in = λ _. []; partner_in = λ _. []; path = λ _. [] } };

    fn name(&self, alloc: Global, number: u32) -> Result<String, AllocError> {
        format!(in alloc; "@{number}@")
    }

    fn path(&self, alloc: Global, _place: u32) -> Result<String, AllocError> {
        Ok(String::new(alloc))
    }
}

/// Appends carried lines, at a level.
pub(crate) fn push_below(
    alloc: Global,
    out: &mut String,
    level: u8,
    lines: &[Carried],
) -> Result<(), AllocError>
    requires { level ≤ 99 }
    ensures { OnOk result (string_bytes out.new ≡ string_bytes out.old ++ fields.carried level lines.now) }
{
    push_carried(alloc, out, &Numbers, level, lines)
}

pub(crate) fn push_text(out: &mut String, label: &str, text: &str) -> Result<(), AllocError>
    ensures { OnOk result (string_bytes out.new ≡ string_bytes out.old ++ fields.text_field label.now text.now) }
{
    out.push_str(label)?;
    out.push_str(": ")?;
    push_printed(out, text)?;
    out.push_str("\n")
}

pub(crate) fn push_option(
    out: &mut String,
    label: &str,
    text: &Option<Text>,
) -> Result<(), AllocError>
    ensures { OnOk result (string_bytes out.new ≡ string_bytes out.old ++ fields.option_field label.now text.now) }
{
    match text {
        None => Ok(()),
        Some(text) => push_text(out, label, text.as_str()),
    }
}

pub(crate) fn push_number(out: &mut String, label: &str, number: u32) -> Result<(), AllocError>
    ensures { OnOk result (string_bytes out.new ≡ string_bytes out.old ++ fields.number_field label.now number) }
{
    write!(out, "{label}: {number}\n")
}

pub(crate) fn push_maybe_number(
    out: &mut String,
    label: &str,
    number: Option<u32>,
) -> Result<(), AllocError>
    ensures { OnOk result (string_bytes out.new ≡ string_bytes out.old ++ fields.maybe_number_field label.now number) }
{
    match number {
        None => Ok(()),
        Some(number) => push_number(out, label, number),
    }
}

pub(crate) fn push_date(out: &mut String, date: &Option<Date>) -> Result<(), AllocError>
    ensures { OnOk result (string_bytes out.new ≡ string_bytes out.old ++ fields.date_field date.now) }
{
    match date {
        None => Ok(()),
        Some(date) => push_text(out, "date", date.as_str()),
    }
}
