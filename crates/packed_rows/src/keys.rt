//! The key of a link in a table: which number is named, and which record names it, in one number of 64 bits.
//!
//! It uses only the standard library. It knows no record and no table.
//!
//! ```text
//! let key = link_key(named, number); // the record `number` names the number `named`
//! let (first, last) = keys_naming(named); // of all that name it
//! ```
//!
//! Callers may rely on: two links never have one key, each number of 64 bits is the key of a link, and the keys of the
//! links to one number are those from the first of them to the last.

ghost use Rattle.std.specs.Prelude.{◌≡◌};
ghost use Rattle.packed_rows.specs.Keys.{link_key as key_of};

/// How many links lead to one number, 2^32.
const SHARE: i64 = 4_294_967_296;

/// Half as many.
const HALF: i64 = 2_147_483_648;

/// The key of the link from a record to a number that it names.
pub fn link_key(named: u32, number: u32) -> i64
    ensures { result ≡ key_of named number }
{
    (i64::from(named) - HALF) * SHARE + i64::from(number)
}

/// The number that is named, and the one of the record that names it.
pub fn link_of(key: i64) -> (u32, u32)
    ensures { key ≡ key_of result.0 result.1 }
{
    let place = key.abs_diff(i64::MIN);
    let named = place / 4_294_967_296;
    let number = place % 4_294_967_296;
    (named as u32, number as u32)
}

/// The first and the last key of the links to a number.
pub fn keys_naming(named: u32) -> (i64, i64)
    ensures first { result.0 ≡ key_of named 0 }
    ensures last { result.1 ≡ key_of named 4294967295 }
{
    (link_key(named, 0), link_key(named, u32::MAX))
}
