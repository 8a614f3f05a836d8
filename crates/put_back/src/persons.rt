//! What is put back of a person.

ghost use Rattle.std.specs.Prelude.{◌≡◌, ◌<◌, ◌++◌, ◌+◌, None, OnOk, slice_get};
ghost use Rattle.put_back.specs.Persons as persons;

use crate::row::{Row, push_cells, put, put_at};
use record_fields::Sex;
use record_kinds::{Name, Person};
use std::alloc::{AllocError, Global};

pub(crate) fn push_person(
    alloc: Global,
    out: &mut Vec<Row>,
    number: u32,
    old: &Person,
    now: &Person,
) -> Result<(), AllocError>
    ensures { OnOk result (out.new.items ≡ out.old.items ++ persons.person_back number old.now now.now) }
{
    put(
        alloc,
        out,
        number,
        "sex",
        sex_cell(old.sex),
        sex_cell(now.sex),
    )?;
    push_names(alloc, out, number, &old.names, &now.names)
}

fn sex_cell(sex: Option<Sex>) -> &'static str
    ensures { result.now ≡ persons.sex_cell sex }
{
    match sex {
        None => "",
        Some(sex) => sex.as_str(),
    }
}

fn push_names(
    alloc: Global,
    out: &mut Vec<Row>,
    number: u32,
    old: &[Name],
    now: &[Name],
) -> Result<(), AllocError>
    ensures { OnOk result (out.new.items ≡ out.old.items ++ persons.names_back number 0 old.now now.now) }
{
    'each: for place in 0..old.len() {
        push_name(alloc, out, number, place, &old[place], now)?;
    }
    Ok(())
}

/// The name at a place in the list, from 0.
fn push_name(
    alloc: Global,
    out: &mut Vec<Row>,
    number: u32,
    place: usize,
    old: &Name,
    now: &[Name],
) -> Result<(), AllocError>
    requires { place < 18446744073709551615 }
    ensures { OnOk result (out.new.items
        ≡ out.old.items ++ persons.name_back number (place + 1) old.now (slice_get now.now place)) }
{
    if old.text.as_str().is_empty() {
        return Ok(());
    }
    match now.get(place) {
        Some(now) => put_at(
            alloc,
            out,
            number,
            "name ",
            place + 1,
            old.text.as_str(),
            now.text.as_str(),
        ),
        None => push_added(alloc, out, number, old.text.as_str()),
    }
}

fn push_added(alloc: Global, out: &mut Vec<Row>, number: u32, old: &str) -> Result<(), AllocError>
    ensures { OnOk result (out.new.items ≡ out.old.items ++ persons.name_row number 0 old.now None) }
{
    let digits = number.to_string(alloc)?;
    push_cells(alloc, out, &["name", digits.as_str(), old])
}
