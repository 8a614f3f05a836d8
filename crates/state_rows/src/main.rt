//! Answers each row of standard input: records put into a state; who of it is living, what of it is shown, and the
//! sheets and the pages of HTML of that; what a reading room answers to a request; what a file of lines would make of
//! it. A tool of the tests, no part of the product.
#![tactic(auto)]

mod answering;
mod files;
mod html;
mod masked;
mod session;
mod sheet;
mod visits;

use crate::answering::answer_to;
use crate::session::Session;
use std::io::{self, BufRead, BufReader, BufWriter, Write};

fn main(rt: HostRuntime) -> io::Result<()> {
    let mut session = Session::new(rt.alloc());
    let served = serve(&rt, &mut session);
    drop(session);
    served
}

/// Answers the rows of standard input to their end.
fn serve(rt: &HostRuntime, session: &mut Session) -> io::Result<()> {
    let alloc = rt.alloc();
    let mut out = BufWriter::new(alloc, io::writer(rt))?;
    for row in BufReader::new(alloc, rt.reader())?.lines(alloc) {
        let answer = answer_to(alloc, session, row?.as_str());
        out.write_all(answer.as_str().as_bytes())?;
    }
    out.flush()
}
