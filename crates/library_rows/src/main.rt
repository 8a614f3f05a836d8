//! Answers each row of standard input by the library that its first word names: `date`, `search`, `visit` or `convert`,
//! a tab, and what that library is asked. A tool of tests and benchmarks, no part of the product.
#![tactic(auto)]

mod conversions;
mod dates;
mod faulty;
mod room;
mod searches;
mod visits;

use std::alloc::Global;
use std::io::{self, BufRead, BufReader, BufWriter, Write};

fn main(rt: HostRuntime) -> io::Result<()> {
    let alloc = rt.alloc();
    let mut out = BufWriter::new(alloc, io::writer(&rt))?;
    for row in BufReader::new(alloc, rt.reader())?.lines(alloc) {
        let answer = answer(alloc, row?.as_str())?;
        out.write_all(answer.as_bytes())?;
        out.write_all(b"\n")?;
    }
    out.flush()
}

/// What is written of a row.
fn answer(alloc: Global, row: &str) -> io::Result<String> {
    let (library, asked) = row.split_once('\t').unwrap_or((row, ""));
    match library {
        "date" => dates::answer(alloc, asked),
        "search" => Ok(String::from_str(alloc, searches::answer(alloc, asked)?)?),
        "visit" => visits::answer(alloc, asked),
        "convert" => conversions::answer(alloc, asked),
        _ => Ok(String::from_str(alloc, "no such library")?),
    }
}
