//! Numbers drawn, and what they are drawn for.

ghost use Rattle.std.specs.Prelude.{
  ◌≡◌,
  ◌<◌,
  List,
  ℕ,
  false,
  Some,
  IfErr,
  OnOk,
  MatchResult,
  bytes_eq,
  if◌then◌else◌,
  option_map,
};
ghost use Rattle.archive_state.specs.Looks.{is_failure, is_stop};
ghost use Rattle.record_text.specs.Text.{IsPlain};
ghost use Rattle.import_definitions.specs.Numbers as numbers;
ghost use Rattle.import_numbers.specs.Views.{drawing_said, found_said, under};

use crate::found::Found;
use record_kinds::Record;
use record_text::{RefusalKind, Text};
use std::alloc::{AllocError, Global};
use std::collections::BTreeMap;

/// The last number that there is.
const LAST: u64 = 4_294_967_295;

/// What a number is drawn for.
#[derive(Drop)]
pub enum Drawn {
    /// A record of the file, whose pointers are positions: its number, its owner's, and of an event the path by which
    /// its place is found.
    Record(u32, u32, Record, Option<Text>),
    /// A place that is made: its number, its name, and the place above it.
    Place(u32, Text, Option<Found>),
}

/// The numbers drawn so far, from the next one of an archive on.
#[derive(Drop)]
pub struct Drawing {
    /// The number that is drawn next.
    pub next: u64,
    /// The number of each position so far.
    pub roots: Vec<u32>,
    /// What numbers were drawn for, in their order.
    pub drawn: Vec<Drawn>,
    /// The number of the place that was made of a path.
    made: BTreeMap<String, u32>,
}

impl Drawing {
    /// None is drawn yet.
    pub fn new(alloc: Global, next: u64) -> Drawing
        ensures { drawing_said result ≡ numbers.begun next }
    {
        Drawing {
            next,
            roots: Vec::new(alloc),
            drawn: Vec::new(alloc),
            made: BTreeMap::new(alloc),
        }
    }

    /// The number of the place that was made of a path.
    pub fn made(&self, path: &str) -> Option<u32>
        ensures { result ≡ under self.now.made path.now }
    {
        self.made.get(path).copied()
    }

    /// Draws the number of a record of the file, with its owner, and of an event the path by which its place is found.
    /// 63: there is no number left.
    pub fn draw(
        &mut self,
        owner: u32,
        found: Record,
        path: Option<Text>,
    ) -> Result<u32, RefusalKind>
        ensures drawn { OnOk result (drawing_said self.new
            ≡ numbers.drawn_more (drawing_said self.old) (numbers.of_file self.old.next owner found path)) }
        ensures number { MatchResult result
            (λ n. n ≡ self.old.next)
            (λ e. is_stop e ≡ false → (e ≡ RefusalKind.Full) × (4294967295 < self.old.next)) }
        ensures own { IfErr result (λ e. is_failure e ≡ false) }
    {
        let number = self.number()?;
        self.add_record(number, owner, found, path)?;
        Ok(number)
    }

    /// The number that is drawn next. 63: there is none left.
    fn number(&self) -> Result<u32, RefusalKind>
        ensures { MatchResult result
            (λ n. (n ≡ self.now.next) × (n < 4294967296))
            (λ e. (e ≡ RefusalKind.Full) × (4294967295 < self.now.next)) }
    {
        if self.next > LAST {
            return Err(RefusalKind::Full);
        }
        Ok(self.next as u32)
    }

    fn add_record(
        &mut self,
        number: u32,
        owner: u32,
        found: Record,
        path: Option<Text>,
    ) -> Result<(), AllocError>
        requires next { (number ≡ self.old.next) × (number < 4294967296) }
        ensures { OnOk result (drawing_said self.new
            ≡ numbers.drawn_more (drawing_said self.old) (numbers.of_file number owner found path)) }
    {
        self.drawn.push(Drawn::Record(number, owner, found, path))?;
        self.next += 1;
        Ok(())
    }

    /// Makes a place of a path and a name. 63: there is no number left.
    pub(crate) fn make(
        &mut self,
        alloc: Global,
        path: &str,
        name: &str,
        parent: Option<Found>,
    ) -> Result<Found, RefusalKind>
        requires { IsPlain name.now }
        ensures made { OnOk result (drawing_said self.new
            ≡ numbers.with_made path.now name.now (option_map found_said parent) (drawing_said self.old)) }
        ensures number { MatchResult result
            (λ f. found_said f ≡ numbers.at_number self.old.next)
            (λ e. is_stop e ≡ false → (e ≡ RefusalKind.Full) × (4294967295 < self.old.next)) }
        ensures own { IfErr result (λ e. is_failure e ≡ false) }
    {
        let number = self.number()?;
        self.add_place(alloc, path, name, number, parent)?;
        Ok(Found::Number(number))
    }

    fn add_place(
        &mut self,
        alloc: Global,
        path: &str,
        name: &str,
        number: u32,
        parent: Option<Found>,
    ) -> Result<(), AllocError>
        requires plain { IsPlain name.now }
        requires next { (number ≡ self.old.next) × (number < 4294967296) }
        ensures { OnOk result (drawing_said self.new
            ≡ numbers.with_made path.now name.now (option_map found_said parent) (drawing_said self.old)) }
    {
        let name = Text::of_words(alloc, name)?;
        self.drawn.push(Drawn::Place(number, name, parent))?;
        put_made(alloc, &mut self.made, path, number)?;
        self.next += 1;
        Ok(())
    }
}

/// Keeps the number of a place under its path.
fn put_made(
    alloc: Global,
    made: &mut BTreeMap<String, u32>,
    path: &str,
    number: u32,
) -> Result<(), AllocError>
    ensures { OnOk result ((q : List ℕ) → under made.new q
        ≡ (if bytes_eq path.now q then Some number else under made.old q)) }
{
    let key = String::from_str(alloc, path)?;
    made.insert(key, number)?;
    Ok(())
}
