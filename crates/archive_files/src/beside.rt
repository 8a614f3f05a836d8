//! The log beside a file, before the file is opened and after it was refused.

use record_text::RefusalKind;
use std::rt::HostRuntime;
use std::{fs, io};

/// The most bytes of a log that has no page, since a page has 512 at least.
const WITHOUT_PAGE: u64 = 512;

/// Whether nothing was ever made in a file: there is none, or it has no bytes and no page is in the log beside it.
pub(crate) fn holds_nothing(rt: &HostRuntime, file: &str) -> io::Result<bool> {
    if !fs::exists(rt, file)? {
        return Ok(true);
    }
    let found = fs::metadata(rt, file)?;
    if !found.is_file() || found.len() > 0 {
        return Ok(false);
    }
    has_no_page(rt, log_of(rt, file)?.as_str())
}

/// Whether a log may lie beside a file. Where there is no file it is not looked for: the path of a log is that of a
/// file that is there.
pub(crate) fn may_have_log(rt: &HostRuntime, file: &str) -> io::Result<bool> {
    if !fs::exists(rt, file)? {
        return Ok(true);
    }
    fs::exists(rt, log_of(rt, file)?.as_str())
}

/// Where a file is refused for what it is, takes away the log that its opening has made beside it, if no page is in it.
/// Nobody else has the file open then, since it is locked as long as its connection is there.
pub(crate) fn take_away_log(rt: &HostRuntime, file: &str, had_log: bool, kind: RefusalKind) {
    if had_log || !is_foreign(kind) {
        return;
    }
    // A log that stays is no harm.
    let _left = remove_without_page(rt, file);
}

/// 82 or 83.
fn is_foreign(kind: RefusalKind) -> bool {
    matches!(kind, RefusalKind::NotAnArchive | RefusalKind::NewerSchema)
}

fn remove_without_page(rt: &HostRuntime, file: &str) -> io::Result<()> {
    let log = log_of(rt, file)?;
    if fs::exists(rt, log.as_str())? && has_no_page(rt, log.as_str())? {
        fs::remove_file(rt, log.as_str())?;
    }
    Ok(())
}

/// Whether no page is in a log, or there is no log.
fn has_no_page(rt: &HostRuntime, log: &str) -> io::Result<bool> {
    if fs::exists(rt, log)? {
        Ok(fs::metadata(rt, log)?.len() <= WITHOUT_PAGE)
    } else {
        Ok(true)
    }
}

/// The log's path. As the database's own, it lies where links lead.
fn log_of(rt: &HostRuntime, file: &str) -> io::Result<String> {
    let real = fs::canonicalize(rt, file)?;
    Ok(format!(in rt.alloc(); "{}-wal", real.as_str())?)
}
