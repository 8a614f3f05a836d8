//! What a file of lines would make of the state, and what is reported of it.

use archive_state::{Batch, State};
use devices::Counted;
use gedcom_tree::{Forest, read_forest};
use imports::batch_of;
use receipts::Report;
use record_text::{Refusal, Unit};
use row_words::{Answer, say_found};
use std::alloc::{AllocError, Global};

/// Says the batch of the file of a text: the next number after it, each record with its number and its lines, and
/// each line of the report; or the refusal with its line. The state stays.
pub(crate) fn say_batch(
    alloc: Global,
    state: &State,
    text: &str,
    out: &mut Answer,
) -> Result<(), AllocError> {
    match read_batch(alloc, state, text, out) {
        Some((batch, report)) => {
            let said = say_records(alloc, &batch, out);
            drop(batch);
            say_report(&report, out);
            drop(report);
            said
        }
        None => Ok(()),
    }
}

/// Says how many records the batch has and how many lines the report, for a measurement that is not of the printing.
pub(crate) fn say_batch_size(alloc: Global, state: &State, text: &str, out: &mut Answer) {
    if let Some((batch, report)) = read_batch(alloc, state, text, out) {
        out.say("records ");
        out.say_count(batch.records.len() as u64);
        out.say("reported ");
        out.say_count(report.lines.len() as u64);
        drop(batch);
        drop(report);
    }
}

/// The batch of the file of a text, with its report. `None`: the refusal was said.
fn read_batch(
    alloc: Global,
    state: &State,
    text: &str,
    out: &mut Answer,
) -> Option<(Batch, Report)> {
    let mut bytes = Counted::new(text.as_bytes());
    match read_forest(alloc, &mut bytes) {
        Ok(forest) => match batch_over(alloc, state, &forest) {
            Ok(made) => Some(made),
            Err(refusal) => {
                out.say_printed(&refusal.text(Unit::Line));
                out.say("\n");
                None
            }
        },
        Err(fault) => {
            out.say_printed(&fault);
            out.say("\n");
            None
        }
    }
}

fn batch_over(alloc: Global, state: &State, forest: &Forest) -> Result<(Batch, Report), Refusal> {
    let mut view = state;
    batch_of(alloc, forest, &mut view)
}

fn say_records(alloc: Global, batch: &Batch, out: &mut Answer) -> Result<(), AllocError> {
    out.say("next ");
    out.say_count(batch.next);
    for made in &batch.records {
        out.say_number("record ", Some(made.number));
        say_found(alloc, Some(&made.record), out)?;
    }
    Ok(())
}

fn say_report(report: &Report, out: &mut Answer) {
    for said in &report.lines {
        out.say("line ");
        out.say_printed(&said.line);
        out.say(": ");
        out.say_line(said.word.as_str());
    }
}
