//! Answers each row of standard input: values made of words, stored lines read as records, a state that is changed and
//! asked, and the tables of an archive in memory. A tool of the tests, no part of the product.
#![tactic(auto)]

mod answering;
mod asking;
mod importing;
mod session;
mod tables;

use crate::answering::answer_to;
use crate::session::Session;
use sqlite::{Alter, Connection};
use std::io::{self, BufRead, BufReader, BufWriter, Write};

fn main(rt: HostRuntime) -> io::Result<()> {
    let conn = Connection::open_in_memory(rt.alloc())?;
    serve_over(&rt, conn)
}

/// Answers the rows of standard input over the tables of a connection.
fn serve_over<S: Alter + Drop>(rt: &HostRuntime, conn: Connection<S>) -> io::Result<()> {
    let mut session = Session::new(rt.alloc(), conn);
    let served = serve(rt, &mut session);
    drop(session);
    served
}

/// Answers the rows of standard input to their end.
fn serve<S: Alter + Drop>(rt: &HostRuntime, session: &mut Session<S>) -> io::Result<()> {
    let alloc = rt.alloc();
    let mut out = BufWriter::new(alloc, io::writer(rt))?;
    for row in BufReader::new(alloc, rt.reader())?.lines(alloc) {
        let answer = answer_to(alloc, session, row?.as_str());
        out.write_all(answer.as_str().as_bytes())?;
    }
    out.flush()
}
