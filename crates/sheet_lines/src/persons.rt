//! The lines of persons.

ghost use Rattle.std.specs.Prelude.{◌≡◌, ◌++◌, OnOk, string_bytes};
ghost use Rattle.std.specs.List.{flat_map};
ghost use Rattle.sheet_lines.specs.Lines as lines;

use record_fields::Sex;
use record_kinds::Name;
use record_text::display;
use std::alloc::{AllocError, Global};

/// Appends the first line of a person.
pub fn push_person_head(out: &mut String, number: u32) -> Result<(), AllocError>
    ensures { OnOk result (string_bytes out.new ≡ string_bytes out.old ++ lines.person_head number) }
{
    write!(out, "Person {number}\n")
}

/// Appends the names of a person, each as people read it.
pub fn push_names(alloc: Global, out: &mut String, names: &[Name]) -> Result<(), AllocError>
    ensures { OnOk result (string_bytes out.new ≡ string_bytes out.old ++ flat_map lines.name_line names.now) }
{
    'names: for name in names {
        push_name(alloc, out, name)?;
    }
    Ok(())
}

fn push_name(alloc: Global, out: &mut String, name: &Name) -> Result<(), AllocError>
    ensures { OnOk result (string_bytes out.new ≡ string_bytes out.old ++ lines.name_line name.now) }
{
    let shown = display(alloc, name.text.as_str())?;
    write!(out, "Name: {shown}\n")
}

/// Appends the sex of a person, where there is one.
pub fn push_sex(out: &mut String, sex: Option<Sex>) -> Result<(), AllocError>
    ensures { OnOk result (string_bytes out.new ≡ string_bytes out.old ++ lines.sex_line sex) }
{
    match sex {
        None => Ok(()),
        Some(sex) => {
            let letter = sex.as_str();
            write!(out, "Sex: {letter}\n")
        }
    }
}

/// Appends the line of a family whose child the person is.
pub fn push_child_of(out: &mut String, family: u32) -> Result<(), AllocError>
    ensures { OnOk result (string_bytes out.new ≡ string_bytes out.old ++ lines.child_of_line family) }
{
    write!(out, "Child of: {family}\n")
}

/// Appends the line of a family where the person is a partner.
pub fn push_partner_in(out: &mut String, family: u32) -> Result<(), AllocError>
    ensures { OnOk result (string_bytes out.new ≡ string_bytes out.old ++ lines.partner_in_line family) }
{
    write!(out, "Partner in: {family}\n")
}
