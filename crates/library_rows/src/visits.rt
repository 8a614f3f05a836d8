//! A visit to a room of the tests' own: a row has the most bytes that a read or a write moves, the read and the write
//! that fail (0: none), and the bytes of the request in hexadecimal digits. The answer is how the visit ended, and what
//! was written.

use crate::faulty::Faulty;
use crate::room::TestRoom;
use devices::Counted;
use room_requests::{VisitError, answer_one};
use std::alloc::Global;
use std::io::{self, ErrorKind};

/// What is written of a row.
pub(crate) fn answer(alloc: Global, line: &str) -> io::Result<String> {
    let mut words = line.split(' ');
    let piece = number(words.next())?.max(1);
    let read_fails = number(words.next())?;
    let write_fails = number(words.next())?;
    let request = match hex::decode(alloc, words.next().unwrap_or("")) {
        Ok(request) => request,
        Err(_) => return Err(io::Error::from(ErrorKind::InvalidData)),
    };
    let mut written: Vec<u8> = Vec::new(alloc);
    let mut reader = Counted::new(Faulty::new(request.as_slice(), piece, call(read_fails)));
    let mut writer = Counted::new(Faulty::new(&mut written, piece, call(write_fails)));
    let end = answer_one(alloc, &TestRoom, &mut reader, &mut writer);
    let mut answer = String::from_str(alloc, word(end))?;
    answer.push_str(" ")?;
    answer.push_str(hex::encode(alloc, &written)?.as_str())?;
    Ok(answer)
}

/// The number of a word.
fn number(word: Option<&str>) -> io::Result<usize> {
    match word.unwrap_or("").parse::<usize>() {
        Ok(number) => Ok(number),
        Err(_) => Err(io::Error::from(ErrorKind::InvalidData)),
    }
}

/// The call that fails, none for 0.
fn call(number: usize) -> u64 {
    match number {
        0 => u64::MAX,
        other => other as u64,
    }
}

/// How a visit ended.
fn word(end: Result<(), VisitError>) -> &'static str {
    match end {
        Ok(()) => "ok",
        Err(VisitError::OutOfMemory) => "OutOfMemory",
        Err(VisitError::ReadFailed) => "ReadFailed",
        Err(VisitError::WriteFailed) => "WriteFailed",
    }
}
