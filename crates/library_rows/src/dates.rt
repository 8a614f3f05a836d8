//! A row's text as a date: its canonical text and its first and last day with tabs between, `-` where there is none.

use gedcom_date::{read_date, span, write_date};
use std::alloc::Global;
use std::io::{self, Write};

/// What is written of a text.
pub(crate) fn answer(alloc: Global, text: &str) -> io::Result<String> {
    let Ok(value) = read_date(alloc, text) else {
        return Err(io::Error::from(io::ErrorKind::OutOfMemory));
    };
    let Ok(mut line) = write_date(alloc, &value) else {
        return Err(io::Error::from(io::ErrorKind::OutOfMemory));
    };
    let days = span(&value);
    push_day(&mut line, days.lo)?;
    push_day(&mut line, days.hi)?;
    Ok(line)
}

/// Appends a tab and a day, or `-` where there is none.
fn push_day(line: &mut String, day: Option<i32>) -> io::Result<()> {
    match day {
        Some(day) => write!(line, "\t{day}")?,
        None => line.push_str("\t-")?,
    }
    Ok(())
}
