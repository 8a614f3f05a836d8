//! Tasks of a session: calls of an archive over a connection that is handed back.

ghost use Rattle.std.specs.Prelude.{◌≡◌, false};

use crate::done::Done;
use crate::steps::step;
use archive_core::Request;
use devices::Counted;
use record_text::{Refusal, RefusalKind, Text};
use request_answers::{Asked, Outcome, Reply, Told};
use sqlite::{Alter, Connection};
use std::alloc::{AllocError, Global};
use store::Archive;

/// What is done in a session.
#[derive(Clone, Copy)]
pub(crate) enum Task<'a> {
    Visit(Asked<'a>),
    /// Two visits over one connection.
    Visits(Asked<'a>, Asked<'a>),
    /// A visit after statements.
    Alter(&'a str, Asked<'a>),
    Create(&'a str),
    Export,
}

/// Does a task.
pub(crate) fn work<S: Alter>(
    alloc: Global,
    conn: Connection<S>,
    task: Task<'_>,
) -> (Done, Connection<S>)
    requires { conn.in_transaction ≡ false }
{
    match task {
        Task::Visit(asked) => visit_once(alloc, conn, asked),
        Task::Visits(asked, then) => visit_again(alloc, conn, asked, then),
        Task::Alter(sql, asked) => alter(alloc, conn, sql, asked),
        Task::Create(society) => create(alloc, conn, society),
        Task::Export => export(alloc, conn),
    }
}

fn visit_once<S: Alter>(
    alloc: Global,
    conn: Connection<S>,
    asked: Asked<'_>,
) -> (Done, Connection<S>)
    requires { conn.in_transaction ≡ false }
{
    let (reply, conn) = visit(alloc, conn, asked);
    (Done::Visited(reply), conn)
}

/// Adopts the archive of a connection and asks it.
fn visit<S: Alter>(alloc: Global, conn: Connection<S>, asked: Asked<'_>) -> (Reply, Connection<S>)
    requires { conn.in_transaction ≡ false }
    ensures { result.1.in_transaction ≡ false }
{
    match Archive::adopt(alloc, conn) {
        Ok(mut archive) => {
            let told = tell(alloc, &mut archive, asked);
            (visited(told), archive.into_connection())
        }
        Err((kind, conn)) => (Reply::Unadopted(kind), conn),
    }
}

/// Visits the archive of a connection twice.
fn visit_again<S: Alter>(
    alloc: Global,
    conn: Connection<S>,
    asked: Asked<'_>,
    then: Asked<'_>,
) -> (Done, Connection<S>)
    requires { conn.in_transaction ≡ false }
{
    let (first, conn) = visit(alloc, conn, asked);
    let (second, conn) = visit(alloc, conn, then);
    (Done::VisitedTwice(first, second), conn)
}

fn visited(told: Result<Told, RefusalKind>) -> Reply {
    match told {
        Ok(told) => Reply::Told(told),
        Err(kind) => Reply::Unadopted(kind),
    }
}

/// What an archive answers. 1: memory for the outcomes was refused.
fn tell<S: Alter>(
    alloc: Global,
    archive: &mut Archive<S>,
    asked: Asked<'_>,
) -> Result<Told, RefusalKind> {
    let outcomes = match asked {
        Asked::Nothing => Vec::new(alloc),
        Asked::Perform(request, times) => perform(alloc, archive, request, times)?,
        Asked::Run(requests) => run(alloc, archive, requests)?,
        Asked::Steps(names, requests) => walk(alloc, archive, names, requests)?,
    };
    let state = archive.state(alloc);
    let society = archive.society(alloc);
    Ok(Told {
        outcomes,
        state,
        society,
    })
}

fn perform<S: Alter>(
    alloc: Global,
    archive: &mut Archive<S>,
    request: &Request,
    times: u32,
) -> Result<Vec<Outcome>, RefusalKind> {
    let mut outcomes = Vec::new(alloc);
    for _ in 0..times {
        let outcome = archive.perform(alloc, request);
        push(&mut outcomes, outcome)?;
    }
    Ok(outcomes)
}

fn push(outcomes: &mut Vec<Outcome>, outcome: Outcome) -> Result<(), AllocError> {
    Ok(outcomes.push(outcome)?)
}

fn run<S: Alter>(
    alloc: Global,
    archive: &mut Archive<S>,
    requests: &[Request],
) -> Result<Vec<Outcome>, RefusalKind> {
    match archive.run(alloc, requests) {
        Ok(outcomes) => Ok(outcomes),
        Err(refusal) => Err(refusal.kind),
    }
}

fn walk<S: Alter>(
    alloc: Global,
    archive: &mut Archive<S>,
    names: &[&str],
    requests: &[Request],
) -> Result<Vec<Outcome>, RefusalKind> {
    let mut outcomes = Vec::new(alloc);
    for name in names {
        push_step(alloc, archive, *name, requests, &mut outcomes)?;
    }
    Ok(outcomes)
}

fn push_step<S: Alter>(
    alloc: Global,
    archive: &mut Archive<S>,
    name: &str,
    requests: &[Request],
    outcomes: &mut Vec<Outcome>,
) -> Result<(), RefusalKind> {
    match name {
        "run" => Ok(append(outcomes, run(alloc, archive, requests)?)?),
        name => Ok(push(outcomes, step(alloc, archive, name, requests))?),
    }
}

fn append(outcomes: &mut Vec<Outcome>, mut more: Vec<Outcome>) -> Result<(), AllocError> {
    outcomes.append(&mut more)
}

/// Makes an archive in the store of a connection. 1: memory for its name was refused.
fn create<S: Alter>(alloc: Global, conn: Connection<S>, society: &str) -> (Done, Connection<S>)
    requires { conn.in_transaction ≡ false }
{
    match String::from_str(alloc, society) {
        Ok(society) => create_named(conn, society),
        Err(_) => (Done::Created(Err(RefusalKind::OutOfMemory)), conn),
    }
}

fn create_named<S: Alter>(conn: Connection<S>, society: String) -> (Done, Connection<S>)
    requires { conn.in_transaction ≡ false }
{
    match Archive::create(conn, society) {
        Ok(archive) => (Done::Created(Ok(())), archive.into_connection()),
        Err((kind, conn)) => (Done::Created(Err(kind)), conn),
    }
}

/// The text of the GEDCOM file that the archive of a connection is exported as.
fn export<S: Alter>(alloc: Global, conn: Connection<S>) -> (Done, Connection<S>)
    requires { conn.in_transaction ≡ false }
{
    match Archive::adopt(alloc, conn) {
        Ok(mut archive) => {
            let text = exported(alloc, &mut archive);
            (Done::Exported(text), archive.into_connection())
        }
        Err((kind, conn)) => (Done::Exported(Err(kind)), conn),
    }
}

fn exported<S: Alter>(alloc: Global, archive: &mut Archive<S>) -> Result<Vec<u8>, RefusalKind> {
    let society = archive.society(alloc)?;
    let mut text = Vec::new(alloc);
    match write_named(alloc, archive, &society, &mut text) {
        Ok(()) => Ok(text),
        Err(refusal) => Err(refusal.kind),
    }
}

/// Writes the archive of a society.
fn write_named<S: Alter>(
    alloc: Global,
    archive: &mut Archive<S>,
    society: &Text,
    text: &mut Vec<u8>,
) -> Result<(), Refusal> {
    let mut output = Counted::new(text);
    gedcom_export::export(alloc, archive, society.as_str(), &mut output)
}

/// Runs statements, and then visits the archive.
fn alter<S: Alter>(
    alloc: Global,
    mut conn: Connection<S>,
    sql: &str,
    asked: Asked<'_>,
) -> (Done, Connection<S>) {
    if conn.execute_batch(sql).is_ok() && conn.is_autocommit() {
        visit_once(alloc, conn, asked)
    } else {
        (Done::Visited(Reply::Unaltered), conn)
    }
}
