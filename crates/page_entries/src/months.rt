//! English names of months, whole or cut, as the grammar of dates has them.

ghost use Rattle.std.specs.Prelude.{◌≡◌, ◌++◌, [], IfOk, OnOk};
ghost use Rattle.page_entries.specs.Months as months;

use std::alloc::{AllocError, Global};

/// The bytes with the months in three letters: each run of three letters or more that a month's name begins with, and a
/// full stop after it.
pub(crate) fn with_months(alloc: Global, cell: &[u8]) -> Result<Vec<u8>, AllocError>
    ensures { IfOk result (λ text. text.items ≡ months.with_months [] cell.now) }
{
    let mut out = Vec::new(alloc);
    let mut run: Vec<u8> = Vec::new(alloc);
    for byte in cell {
        if byte.is_ascii_alphabetic() {
            run.push(*byte)?;
        } else {
            push_before(&mut out, &run, *byte)?;
            run.clear();
        }
    }
    push_run(&mut out, &run)?;
    Ok(out)
}

/// Adds a run of letters and the byte after it.
fn push_before(out: &mut Vec<u8>, run: &[u8], byte: u8) -> Result<(), AllocError>
    ensures { OnOk result (out.new.items ≡ out.old.items ++ months.before run.now byte) }
{
    match month_of_run(run) {
        Some(month) if byte == b'.' => push_word(out, month),
        Some(month) => {
            push_word(out, month)?;
            out.push(byte)?;
            Ok(())
        }
        None => {
            out.extend_from_slice(run)?;
            out.push(byte)?;
            Ok(())
        }
    }
}

/// Adds a run of letters at the end.
fn push_run(out: &mut Vec<u8>, run: &[u8]) -> Result<(), AllocError>
    ensures { OnOk result (out.new.items ≡ out.old.items ++ months.at_end run.now) }
{
    match month_of_run(run) {
        Some(month) => push_word(out, month),
        None => {
            out.extend_from_slice(run)?;
            Ok(())
        }
    }
}

/// Adds the three letters of a month.
fn push_word(out: &mut Vec<u8>, month: u8) -> Result<(), AllocError>
    ensures { OnOk result (out.new.items ≡ out.old.items ++ months.month_word month) }
{
    out.extend_from_slice(month_word(month).as_bytes())?;
    Ok(())
}

/// The month whose name begins with the run, of three letters or more.
#[tactic(auto, unfolding(crate::specs::Months::month_of_run))]
fn month_of_run(run: &[u8]) -> Option<u8>
    ensures { result ≡ months.month_of_run run.now }
{
    if run.len() < 3 {
        return None;
    }
    match early(run) {
        Some(month) => Some(month),
        None => late(run),
    }
}

/// One of the first six months.
#[tactic(auto, unfolding(crate::specs::Months::early))]
fn early(run: &[u8]) -> Option<u8>
    ensures { result ≡ months.early run.now }
{
    if begins(run, b"JANUARY") {
        return Some(1);
    }
    if begins(run, b"FEBRUARY") {
        return Some(2);
    }
    if begins(run, b"MARCH") {
        return Some(3);
    }
    if begins(run, b"APRIL") {
        return Some(4);
    }
    if begins(run, b"MAY") {
        return Some(5);
    }
    if begins(run, b"JUNE") {
        return Some(6);
    }
    None
}

/// One of the last six months.
#[tactic(auto, unfolding(crate::specs::Months::late))]
fn late(run: &[u8]) -> Option<u8>
    ensures { result ≡ months.late run.now }
{
    if begins(run, b"JULY") {
        return Some(7);
    }
    if begins(run, b"AUGUST") {
        return Some(8);
    }
    if begins(run, b"SEPTEMBER") {
        return Some(9);
    }
    if begins(run, b"OCTOBER") {
        return Some(10);
    }
    if begins(run, b"NOVEMBER") {
        return Some(11);
    }
    if begins(run, b"DECEMBER") {
        return Some(12);
    }
    None
}

/// Whether the name begins with the letters, of either case.
fn begins(letters: &[u8], name: &[u8]) -> bool
    ensures { result ≡ months.begins letters.now name.now }
{
    letters.len() <= name.len() && name[..letters.len()].eq_ignore_ascii_case(letters)
}

/// The three letters of the month with this number.
#[tactic(auto, unfolding(crate::specs::Months::month_word))]
pub(crate) fn month_word(month: u8) -> &'static str
    ensures { result.now ≡ months.month_word month }
{
    match month {
        1 => "JAN",
        2 => "FEB",
        3 => "MAR",
        4 => "APR",
        5 => "MAY",
        6 => "JUN",
        7 => "JUL",
        8 => "AUG",
        9 => "SEP",
        10 => "OCT",
        11 => "NOV",
        _ => "DEC",
    }
}
