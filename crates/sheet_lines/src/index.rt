//! The numbers of persons under the keys of their surnames.

ghost use Rattle.std.specs.Prelude.{◌≡◌, ℕ, List, [], IfOk, OnOk, bytes_eq, if◌then◌else◌, string_bytes};
ghost use Rattle.record_text.specs.Naming.{key_of};
ghost use Rattle.sheet_lines.specs.Numbers.{stands_last, under, with_last};

use record_text::surname_key;
use std::alloc::{AllocError, Global};
use std::collections::BTreeMap;

/// The numbers of persons under the key of each surname.
pub struct SurnameIndex {
    numbers: BTreeMap<String, Vec<u32>>,
}

// It is written out, so that no crate above proves again how a map is dropped.
impl Drop for SurnameIndex {
    fn drop(self) {
        let SurnameIndex { numbers: _ } = self;
    }
}

impl SurnameIndex {
    /// Nobody has a surname yet. Takes no memory.
    pub fn new(alloc: Global) -> SurnameIndex
        ensures { (key : List ℕ) → under result.numbers key ≡ [] }
    {
        SurnameIndex {
            numbers: BTreeMap::new(alloc),
        }
    }

    /// One more person of a surname, after the others; who is the last of them already is not added again.
    pub fn add(&mut self, alloc: Global, surname: &str, number: u32) -> Result<(), AllocError>
        ensures { OnOk result ((key : List ℕ) → under self.new.numbers key
            ≡ (if bytes_eq (key_of surname.now) key then with_last number (under self.old.numbers key)
            else under self.old.numbers key)) }
    {
        let key = surname_key(alloc, surname)?;
        add_under(alloc, &mut self.numbers, key, number)
    }

    /// The persons of a surname, in the order that they were added.
    pub fn persons(&self, alloc: Global, surname: &str) -> Result<&[u32], AllocError>
        ensures { IfOk result (λ found. found.now ≡ under self.now.numbers (key_of surname.now)) }
    {
        let key = surname_key(alloc, surname)?;
        Ok(found(&self.numbers, key.as_str()))
    }
}

fn add_under(
    alloc: Global,
    numbers: &mut BTreeMap<String, Vec<u32>>,
    key: String,
    number: u32,
) -> Result<(), AllocError>
    ensures { OnOk result ((other : List ℕ) → under numbers.new other
        ≡ (if bytes_eq (string_bytes key) other then with_last number (under numbers.old other)
        else under numbers.old other)) }
{
    if let Some(found) = numbers.get_mut(key.as_str()) {
        add_last(found, number)?;
        return Ok(());
    }
    let mut first = Vec::new(alloc);
    first.push(number)?;
    numbers.insert(key, first)?;
    Ok(())
}

fn add_last(numbers: &mut Vec<u32>, number: u32) -> Result<(), AllocError>
    ensures { OnOk result (numbers.new.items ≡ with_last number numbers.old.items) }
{
    if !is_last(numbers, number) {
        numbers.push(number)?;
    }
    Ok(())
}

fn is_last(numbers: &[u32], number: u32) -> bool
    ensures { result ≡ stands_last number numbers.now }
{
    match numbers.last() {
        Some(last) => *last == number,
        None => false,
    }
}

fn found<'a>(numbers: &'a BTreeMap<String, Vec<u32>>, key: &str) -> &'a [u32]
    ensures { result.now ≡ under numbers.now key.now }
{
    match numbers.get(key) {
        Some(found) => found,
        None => &[],
    }
}
