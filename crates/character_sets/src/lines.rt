//! A file as lines.

ghost use Rattle.std.specs.Prelude.{◌≡◌, ◌++◌, ◌∷◌, ◌<◌, ◌≤◌, drop, length, take};
ghost use Rattle.std.specs.List.{prefix_len};
ghost use Rattle.character_sets.specs.Lines.{
  is_blank as is_blank_of,
  is_body,
  is_ending as is_ending_of,
  lines,
  units_of,
};

use crate::heads::Class;

/// The first line of units.
#[derive(Clone, Copy)]
pub struct Cut<'a> {
    /// Its units, without the one that ends it.
    pub body: &'a [u16],
    /// The unit that ends it, none at the end of the file.
    pub ending: &'a [u16],
    /// All units after its own.
    pub more: &'a [u16],
    /// The units after the one that ends it.
    pub rest: &'a [u16],
}

/// The first line of a file, or of what is left of one.
pub fn first_line(units: &[u16]) -> Cut<'_>
    requires { 0 < length units.now }
    ensures lines { lines units.now ≡ record { body = result.body.now; ending = result.ending.now }
        ∷ lines result.rest.now }
    ensures more { result.more.now ≡ result.ending.now ++ units_of (lines result.rest.now) }
    ensures shorter { length result.rest.now < length units.now }
{
    let count = body_len(units);
    let more = from(units, count);
    Cut {
        body: up_to(units, count),
        ending: first(more),
        more,
        rest: past_first(more),
    }
}

/// The first so many units.
pub(crate) fn up_to(units: &[u16], count: usize) -> &[u16]
    requires { count ≤ length units.now }
    ensures { result.now ≡ take count units.now }
{
    &units[..count]
}

/// All units but the first so many.
pub(crate) fn from(units: &[u16], count: usize) -> &[u16]
    requires { count ≤ length units.now }
    ensures { result.now ≡ drop count units.now }
{
    &units[count..]
}

fn first(units: &[u16]) -> &[u16]
    ensures { result.now ≡ take 1 units.now }
{
    if units.is_empty() {
        units
    } else {
        up_to(units, 1)
    }
}

fn past_first(units: &[u16]) -> &[u16]
    ensures { result.now ≡ drop 1 units.now }
{
    if units.is_empty() {
        units
    } else {
        from(units, 1)
    }
}

/// How many units stand before the first that ends a line.
fn body_len(units: &[u16]) -> usize
    ensures count { result ≡ prefix_len is_body units.now }
    ensures within { result ≤ length units.now }
{
    units.iter().take_while(|unit| !is_ending(**unit)).count()
}

fn is_ending(unit: u16) -> bool
    ensures { result ≡ is_ending_of unit }
{
    unit == 10 || unit == 13
}

/// Whether a line has only spaces and tabs, and is no line of GEDCOM.
pub fn is_blank(body: &[u16]) -> bool
    ensures { result ≡ is_blank_of body.now }
{
    Class::White.has_all(body)
}
