//! What is put back of a record.

ghost use Rattle.std.specs.Prelude.{◌≡◌, ◌++◌, IfOk, OnOk};
ghost use Rattle.put_back.specs.Back as back;

use crate::entries::push_entry;
use crate::events::push_event;
use crate::families::push_family;
use crate::persons::push_person;
use crate::row::Row;
use crate::sources::{push_citation, push_place, push_repo, push_source};
use record_kinds::Record;
use std::alloc::{AllocError, Global};

/// The rows by which the record of a number gets the fields, members and links that it had before. What came later
/// stays: a name, a member. No row puts back carried lines, the order of members, an empty name, or that a title or the
/// name of a repository was missing.
pub fn rows_back(
    alloc: Global,
    number: u32,
    old: &Record,
    now: &Record,
) -> Result<Vec<Row>, AllocError>
    ensures { IfOk result (λ rows. rows.items ≡ back.rows_back number old.now now.now) }
{
    let mut out = Vec::new(alloc);
    push_back(alloc, &mut out, number, old, now)?;
    Ok(out)
}

fn push_back(
    alloc: Global,
    out: &mut Vec<Row>,
    number: u32,
    old: &Record,
    now: &Record,
) -> Result<(), AllocError>
    ensures { OnOk result (out.new.items ≡ out.old.items ++ back.rows_back number old.now now.now) }
{
    match (old, now) {
        (Record::Person(old), Record::Person(now)) => push_person(alloc, out, number, old, now),
        (Record::Family(old), Record::Family(now)) => push_family(alloc, out, number, old, now),
        (Record::Event(old), Record::Event(now)) => push_event(alloc, out, number, old, now),
        (Record::Place(old), Record::Place(now)) => push_place(alloc, out, number, old, now),
        (Record::Repo(old), Record::Repo(now)) => push_repo(alloc, out, number, old, now),
        (Record::Source(old), Record::Source(now)) => push_source(alloc, out, number, old, now),
        (Record::Citation(old), Record::Citation(now)) => {
            push_citation(alloc, out, number, old, now)
        }
        (Record::Entry(old), Record::Entry(now)) => push_entry(alloc, out, number, old, now),
        _ => Ok(()),
    }
}
