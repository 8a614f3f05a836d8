//! Answers rows of requests, over archives in memory and in files in memory. A tool of the tests, no part of the
//! product.
#![tactic(auto)]

mod calls;
mod done;
mod images;
mod sessions;
mod steps;

use crate::images::Images;
use csv::ReaderBuilder;
use request_answers::{ArchiveFiles, Archives, answer};
use std::alloc::Global;
use std::io::{self, BufWriter, Read, Write};

fn main(rt: HostRuntime) -> io::Result<()> {
    let alloc = rt.alloc();
    let mut out = BufWriter::new(alloc, io::writer(&rt))?;
    serve::<Images, _, _>(alloc, rt.reader(), &mut out)?;
    out.flush()
}

/// Answers the rows of an input, over archives of which one may be in such files.
fn serve<F: ArchiveFiles, R: Read + Drop, W: Write>(
    alloc: Global,
    input: R,
    output: &mut W,
) -> io::Result<()> {
    let mut archives: Archives<F> = Archives::new(alloc);
    let done = answer_all(alloc, &mut archives, input, output);
    drop(archives);
    done
}

/// Answers each row that is read. Where reading or memory fails, the rows before it were answered.
fn answer_all<F: ArchiveFiles, R: Read + Drop, W: Write>(
    alloc: Global,
    archives: &mut Archives<F>,
    input: R,
    output: &mut W,
) -> io::Result<()> {
    let rows = ReaderBuilder::new()
        .has_headers(false)
        .flexible(true)
        .from_reader(alloc, input);
    for row in rows.into_byte_records() {
        let Ok(row) = row else {
            return Err(io::Error::from(io::ErrorKind::Other));
        };
        let rows = answer(alloc, archives, &row)?;
        output.write_all(rows.as_slice())?;
    }
    Ok(())
}
