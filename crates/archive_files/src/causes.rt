//! Why the file of an archive is not opened or made: what the database says, and what may be seen of the file.

use sqlite::{Error, ErrorCode};
use std::fs::File;
use std::io::ErrorKind;
use std::rt::HostRuntime;
use std::{fs, io};

/// Why the file of an archive is not opened or made.
#[derive(Clone, Copy, Debug, PartialEq, Eq)]
pub enum Cause {
    /// Another program has it open.
    InUse,
    /// It is a folder, a device or the like.
    NotFile,
    /// The folder that it would be in does not exist.
    NoFolder,
    /// Nobody gave the right to read it.
    NoReading,
    /// Nobody gave the right to write it, or to make a file in its folder.
    NoWriting,
    /// SQLite has left a rollback journal beside it, which only SQLite can play back.
    Journal,
    /// What is left of those that the system refuses: mostly it has a second name, a hard link.
    SecondName,
    /// It is no database, or one that is made in a way that is not read here.
    NotDatabase,
    /// What is read is not what was written.
    Damaged,
    /// The disk is full.
    NoPlace,
    /// The disk answered an error.
    Device,
    /// The system refused memory.
    NoMemory,
}

/// Why a database was not opened.
pub(crate) fn cause_of(rt: &HostRuntime, file: &str, error: &Error) -> Cause {
    match error {
        Error::SqliteFailure(ErrorCode::CannotOpen) => cause_seen(rt, file),
        Error::SqliteFailure(ErrorCode::DatabaseBusy) => Cause::InUse,
        Error::SqliteFailure(ErrorCode::DatabaseCorrupt) => Cause::Damaged,
        Error::SqliteFailure(ErrorCode::DiskFull) => Cause::NoPlace,
        Error::SqliteFailure(ErrorCode::NotADatabase) => Cause::NotDatabase,
        Error::SqliteFailure(ErrorCode::OutOfMemory) => Cause::NoMemory,
        _ => Cause::Device,
    }
}

/// Why a file cannot be looked at, for this error.
pub(crate) fn cause_met(rt: &HostRuntime, file: &str, error: &io::Error) -> Cause {
    match error.kind() {
        ErrorKind::OutOfMemory => Cause::NoMemory,
        _ => cause_seen(rt, file),
    }
}

/// Why a file cannot be opened, as far as that may be seen of it.
fn cause_seen(rt: &HostRuntime, file: &str) -> Cause {
    match look(rt, file) {
        Ok(cause) => cause,
        Err(error) => cause_of_system(&error),
    }
}

/// The same by the error of the system that the look ends with.
fn cause_of_system(error: &io::Error) -> Cause {
    match error.kind() {
        ErrorKind::OutOfMemory => Cause::NoMemory,
        ErrorKind::PermissionDenied => Cause::NoReading,
        ErrorKind::NotADirectory => Cause::NoFolder,
        _ => Cause::Device,
    }
}

fn look(rt: &HostRuntime, file: &str) -> io::Result<Cause> {
    match fs::metadata(rt, file) {
        Ok(found) if found.is_file() => look_inside(rt, file),
        Ok(_) => Ok(Cause::NotFile),
        Err(error) if error.kind() == ErrorKind::NotFound => look_outside(rt, file),
        Err(error) => Err(error),
    }
}

/// What is wrong with a file that is there.
fn look_inside(rt: &HostRuntime, file: &str) -> io::Result<Cause> {
    let _readable = File::open(rt, file)?;
    match File::options().read(true).write(true).open(rt, file) {
        Ok(_) if has_journal(rt, file)? => Ok(Cause::Journal),
        Ok(_) => Ok(Cause::SecondName),
        Err(_) => Ok(Cause::NoWriting),
    }
}

/// Whether a rollback journal of SQLite lies beside a file.
fn has_journal(rt: &HostRuntime, file: &str) -> io::Result<bool> {
    let journal = format!(in rt.alloc(); "{file}-journal")?;
    fs::exists(rt, &journal)
}

/// What is wrong if there is no file.
fn look_outside(rt: &HostRuntime, file: &str) -> io::Result<Cause> {
    if fs::exists(rt, folder_of(file))? {
        Ok(Cause::NoWriting)
    } else {
        Ok(Cause::NoFolder)
    }
}

/// The folder that a file is in, or would be.
fn folder_of(file: &str) -> &str {
    match file.rsplit_once('/') {
        Some(("", _)) => "/",
        Some((folder, _)) => folder,
        None => ".",
    }
}
