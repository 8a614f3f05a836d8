//! Rows that take note of changes of the tables.

use crate::noted::{Noted, push};
use archive_state::{Changes, Kept, Numbered, SlipChange};
use record_kinds::{Name, Person, Record};
use record_text::{RefusalKind, Text};
use records::record_of;
use row_words::{number, receipt_of, slip_of, text, token_of, word};
use std::alloc::{AllocError, Global};

/// Takes note of the change that the row asks for.
pub(crate) fn plan(alloc: Global, noted: &mut Noted, words: &[String]) -> Result<(), RefusalKind> {
    let at = number(words, 2);
    match word(words, 1) {
        "put" => plan_put(alloc, noted, at),
        "take" => Ok(push(&mut noted.planned.removals, at)?),
        "put-receipt" => plan_receipt(alloc, &mut noted.planned, words),
        "put-slip" => plan_slip(alloc, noted, words),
        "undo-slip" => {
            noted.planned.slip = Some(SlipChange::Undone(at));
            Ok(())
        }
        _ => plan_many(alloc, &mut noted.planned, at),
    }
}

/// The record that is kept as the lines.
fn plan_put(alloc: Global, noted: &mut Noted, at: u32) -> Result<(), RefusalKind> {
    let record = record_of(alloc, &noted.lines)?;
    Ok(push_put(&mut noted.planned, at, record)?)
}

fn push_put(planned: &mut Changes, number: u32, record: Record) -> Result<(), AllocError> {
    push(&mut planned.puts, Numbered { number, record })
}

fn plan_receipt(alloc: Global, planned: &mut Changes, words: &[String]) -> Result<(), RefusalKind> {
    let token = token_of(alloc, word(words, 2))?;
    let receipt = receipt_of(words);
    planned.kept = Some(Kept { token, receipt });
    Ok(())
}

/// A slip of one changed record: from the lines to what the state that was read last has at its number.
fn plan_slip(alloc: Global, noted: &mut Noted, words: &[String]) -> Result<(), RefusalKind> {
    let slip = slip_of(alloc, &noted.state, &noted.lines, words)?;
    noted.planned.slip = Some(SlipChange::Made(number(words, 2), slip));
    Ok(())
}

/// Persons with the numbers from 1 to that one, each with a name.
fn plan_many(alloc: Global, planned: &mut Changes, last: u32) -> Result<(), RefusalKind> {
    for number in 1..=last {
        let person = person(alloc, named(alloc, number)?)?;
        push_put(planned, number, Record::Person(person))?;
    }
    Ok(())
}

/// A person of one name.
fn person(alloc: Global, text: Text) -> Result<Person, AllocError> {
    let name = Name {
        text,
        carried: Vec::new(alloc),
    };
    let mut names = Vec::new(alloc);
    push(&mut names, name)?;
    Ok(Person {
        names,
        sex: None,
        carried: Vec::new(alloc),
    })
}

/// A name with the number in it.
fn named(alloc: Global, number: u32) -> Result<Text, RefusalKind> {
    let mut words = String::new(alloc);
    match write!(words, "Ann /Lee {number}/") {
        Ok(()) => text(alloc, words.as_str()),
        Err(_) => Err(RefusalKind::OutOfMemory),
    }
}
