//! Persons.

ghost use Rattle.std.specs.Prelude.{◌≡◌, ◌++◌, ◌∷◌, [], map, option_map, codes, OnOk, string_bytes};
ghost use Rattle.record_fields.specs.Words.{sex_word};
ghost use Rattle.record_shapes.specs.Shapes.{name_line, side_line, text_lines};
ghost use Rattle.node_writing.specs.Pages.{page};
ghost use Rattle.node_writing.specs.Parts.{person_head};

use crate::lines::{push_carried, push_pointer, push_words};
use crate::named::Named;
use crate::side::Side;
use record_fields::Sex;
use record_kinds::{Name, Person};
use std::alloc::{AllocError, Global};

/// Appends a name of a person.
fn push_name<N: Named>(
    alloc: Global,
    out: &mut String,
    index: &N,
    name: &Name,
) -> Result<(), AllocError>
    ensures { OnOk result (string_bytes out.new ≡ string_bytes out.old
        ++ page (N.names index.now) 1 (name_line name.now ∷ [])) }
{
    push_words(alloc, out, index, 1, "NAME", name.text.as_str())?;
    push_carried(alloc, out, index, 2, &name.carried)
}

/// Appends the names of a person.
fn push_names<N: Named>(
    alloc: Global,
    out: &mut String,
    index: &N,
    names: &[Name],
) -> Result<(), AllocError>
    ensures { OnOk result (string_bytes out.new ≡ string_bytes out.old
        ++ page (N.names index.now) 1 (map name_line names.now)) }
{
    'names: for name in names {
        push_name(alloc, out, index, name)?;
    }
    Ok(())
}

/// Appends the line of a sex, where there is one.
fn push_sex<N: Named>(
    alloc: Global,
    out: &mut String,
    index: &N,
    sex: Option<Sex>,
) -> Result<(), AllocError>
    ensures { OnOk result (string_bytes out.new ≡ string_bytes out.old
        ++ page (N.names index.now) 1 (text_lines (codes "SEX") (option_map sex_word sex))) }
{
    match sex {
        Some(sex) => push_words(alloc, out, index, 1, "SEX", sex.as_str()),
        None => Ok(()),
    }
}

/// Appends the names and the sex of a person: what is below the person up to the events (GEDCOM 5.5.1, chapter 2,
/// INDIVIDUAL_RECORD).
pub fn push_person<N: Named>(
    alloc: Global,
    out: &mut String,
    index: &N,
    person: &Person,
) -> Result<(), AllocError>
    ensures { OnOk result (string_bytes out.new ≡ string_bytes out.old
        ++ page (N.names index.now) 1 (person_head person.now)) }
{
    push_names(alloc, out, index, &person.names)?;
    push_sex(alloc, out, index, person.sex)
}

/// Appends a person's side of a membership, with the tag `FAMC` or `FAMS` (GEDCOM 5.5.1, chapter 2,
/// CHILD_TO_FAMILY_LINK and SPOUSE_TO_FAMILY_LINK).
pub fn push_side<N: Named>(
    alloc: Global,
    out: &mut String,
    index: &N,
    tag: &str,
    side: &Side,
) -> Result<(), AllocError>
    ensures { OnOk result (string_bytes out.new ≡ string_bytes out.old
        ++ page (N.names index.now) 1 (side_line tag.now side.now ∷ [])) }
{
    push_pointer(alloc, out, index, 1, tag, side.family)?;
    push_carried(alloc, out, index, 2, &side.carried)
}
