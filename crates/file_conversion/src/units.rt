//! The units that the lines of a file are made of.

ghost use Rattle.std.specs.Prelude.{◌≡◌, ◌≤◌, ◌++◌, IfOk, OnOk, filter, length};
ghost use Rattle.std.specs.List.{suffix_len};
ghost use Rattle.file_conversion.specs.Conversion.{
  file_units as file_units_of,
  is_at_end as is_at_end_of,
  is_kept as is_kept_of,
  left_out as left_out_of,
  past_marks as past_marks_of,
  past_utf8_marks as past_utf8_of,
  past_wide_marks as past_wide_of,
  without_filling as without_filling_of,
};

use character_sets::{CharacterSet, units_of};
use std::alloc::{AllocError, Global};

/// The units of a file in a set, without marks at the beginning, and without U+0000 and Ctrl-Z at the end.
pub fn file_units(alloc: Global, set: CharacterSet, bytes: &[u8]) -> Result<Vec<u16>, AllocError>
    ensures { IfOk result (λ units. units.items ≡ file_units_of set bytes.now) }
{
    let (units, _) = file_units_and_left_out(alloc, set, bytes)?;
    Ok(units)
}

/// What of a file is no part of its lines, in units of its set.
#[derive(Clone, Copy, Debug, PartialEq, Eq)]
pub struct LeftOut {
    /// Units of marks at the beginning.
    pub marks: usize,
    /// U+0000 and Ctrl-Z at the end.
    pub filling: usize,
}

/// The units of a file, and how many are left out, by where they stand.
#[tactic(auto, unfolding(crate::specs::Conversion::file_units))]
pub fn file_units_and_left_out(
    alloc: Global,
    set: CharacterSet,
    bytes: &[u8],
) -> Result<(Vec<u16>, LeftOut), AllocError>
    ensures units { IfOk result (λ made. made.0.items ≡ file_units_of set bytes.now) }
    ensures left_out { IfOk result (λ made. made.1 ≡ left_out_of set bytes.now) }
{
    let all = units_of(alloc, set, bytes)?;
    let total = all.len();
    let rest = without_marks(alloc, set, all)?;
    let after = rest.len();
    let units = without_filling(alloc, rest)?;
    let left = LeftOut {
        marks: total.saturating_sub(after),
        filling: after.saturating_sub(units.len()),
    };
    Ok((units, left))
}

/// Units without the marks at the beginning. They are copied only where there is one.
fn without_marks(alloc: Global, set: CharacterSet, units: Vec<u16>) -> Result<Vec<u16>, AllocError>
    ensures { IfOk result (λ rest. rest.items ≡ past_marks_of set units.items) }
{
    let rest = past_marks(set, &units);
    if rest.len() == units.len() {
        return Ok(units);
    }
    rest.to_vec(alloc)
}

fn past_marks(set: CharacterSet, units: &[u16]) -> &[u16]
    ensures { result.now ≡ past_marks_of set units.now }
{
    match set {
        CharacterSet::Utf16Le | CharacterSet::Utf16Be => past_wide_marks(units),
        _ => past_utf8_marks(units),
    }
}

fn past_utf8_marks(units: &[u16]) -> &[u16]
    ensures { result.now ≡ past_utf8_of units.now }
{
    let mut rest = units;
    'marks: while let [0xEF, 0xBB, 0xBF, more @ ..] = rest {
        rest = more;
    }
    rest
}

fn past_wide_marks(units: &[u16]) -> &[u16]
    ensures { result.now ≡ past_wide_of units.now }
{
    let mut rest = units;
    'marks: while let [0xFEFF, more @ ..] = rest {
        rest = more;
    }
    rest
}

/// Units without U+0000 and Ctrl-Z at the end. Only what is there is copied.
fn without_filling(alloc: Global, units: Vec<u16>) -> Result<Vec<u16>, AllocError>
    ensures { IfOk result (λ all. all.items ≡ without_filling_of units.items) }
{
    let mut all = units;
    let at = all.len() - len_at_end(&all);
    let mut end = Vec::new(alloc);
    push_kept(&mut end, &all[at..])?;
    all.truncate(at);
    all.extend_from_slice(&end)?;
    Ok(all)
}

fn len_at_end(units: &[u16]) -> usize
    ensures count { result ≡ suffix_len is_at_end_of units.now }
    ensures within { result ≤ length units.now }
{
    units
        .iter()
        .rev()
        .take_while(|unit| is_at_end(**unit))
        .count()
}

fn is_at_end(unit: u16) -> bool
    ensures { result ≡ is_at_end_of unit }
{
    unit == 0 || unit == 26 || unit == 9 || unit == 10 || unit == 13 || unit == 32
}

fn push_kept(all: &mut Vec<u16>, units: &[u16]) -> Result<(), AllocError>
    ensures { OnOk result (all.new.items ≡ all.old.items ++ filter is_kept_of units.now) }
{
    for unit in units {
        if is_kept(*unit) {
            all.push(*unit)?;
        }
    }
    Ok(())
}

fn is_kept(unit: u16) -> bool
    ensures { result ≡ is_kept_of unit }
{
    unit != 0 && unit != 26
}
