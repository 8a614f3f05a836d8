//! Looks the pages of standard input over against a small archive, and writes what is found. A page begins with a line
//! of `==`, the number of a source and `dmy`, `mdy` or `-`, then `make` where places are to be made, and goes on up to
//! the next such line. A tool of tests, no part of the product.
#![tactic(auto)]

mod archive;

use crate::archive::small_archive;
use archive_state::State;
use page_checks::check_page;
use page_entries::DateOrder;
use record_text::RefusalKind;
use std::alloc::{AllocError, Global};
use std::io::{self, BufRead, BufReader, BufWriter, ErrorKind, Write};

fn main(rt: HostRuntime) -> io::Result<()> {
    let alloc = rt.alloc();
    let state = small_archive(alloc)?;
    let mut out = BufWriter::new(alloc, io::writer(&rt))?;
    let mut head = String::new(alloc);
    let mut page = String::new(alloc);
    for line in BufReader::new(alloc, rt.reader())?.lines(alloc) {
        let line = line?;
        if line.as_str().starts_with("== ") {
            if !head.is_empty() {
                out.write_all(answer(alloc, &state, &head, &page)?.as_bytes())?;
            }
            out.write_all(line.as_bytes())?;
            out.write_all(b"\n")?;
            page.clear();
            head = line;
        } else {
            page.push_str(line.as_str())?;
            page.push_str("\n")?;
        }
    }
    out.write_all(answer(alloc, &state, &head, &page)?.as_bytes())?;
    out.flush()
}

/// What is written of a page.
fn answer(alloc: Global, state: &State, head: &str, page: &str) -> io::Result<String> {
    let mut words = head.split(' ');
    let _ = words.next();
    let source = match words.next().unwrap_or("").parse::<u32>() {
        Ok(source) => source,
        Err(_) => return Err(io::Error::from(ErrorKind::InvalidData)),
    };
    let order = match words.next().unwrap_or("-") {
        "dmy" => Some(DateOrder::DayFirst),
        "mdy" => Some(DateOrder::MonthFirst),
        _ => None,
    };
    let makes = words.next().unwrap_or("-") == "make";
    let mut view: &State = state;
    match check_page(alloc, &mut view, source, order, makes, page.as_bytes()) {
        Ok(Ok(found)) => Ok(checked(alloc, found.text.as_str(), found.is_wrong)?),
        Ok(Err(fault)) => {
            let row = fault.row;
            let number = fault.kind.number();
            let name = fault.kind.name();
            Ok(format!(in alloc;
                "refused: {number} {name} at row {row}: {}\n",
                fault.column.as_str()
            )?)
        }
        Err(kind) => Ok(refused(alloc, kind)?),
    }
}

fn checked(alloc: Global, text: &str, is_wrong: bool) -> Result<String, AllocError> {
    let status = if is_wrong { 1 } else { 0 };
    format!(in alloc; "{text}status {status}\n")
}

fn refused(alloc: Global, kind: RefusalKind) -> Result<String, AllocError> {
    let number = kind.number();
    let name = kind.name();
    format!(in alloc; "refused: {number} {name}\n")
}
