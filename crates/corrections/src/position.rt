//! Places in a list.

ghost use Rattle.std.specs.Prelude.{◌≡◌, ◌≢◌, ◌≤◌, ◌-◌, IfOk, MatchOption, decimal};

use std::alloc::{AllocError, Global};

/// A place in a list, counted from 1: 1 to 4,294,967,295.
#[derive(Clone, Copy, Debug, PartialEq, Eq)]
pub struct Position {
    pub number: u32,
    ghost in_range: { (1 ≤ number) × (number ≤ 4294967295) },
}

impl Position {
    ghost use Rattle.corrections.specs.declared.position.Position.{Position};

    /// The number as a place in a list. `None`: it is 0.
    pub fn new(number: u32) -> Option<Position>
        ensures { MatchOption result (number ≡ 0) (λ place. place.number ≡ number) }
    {
        if number == 0 {
            None
        } else {
            Some(Position { number })
        }
    }

    /// The place whose decimal the words are, without a leading zero or a sign. `None`: they are that of none.
    pub fn of_words(alloc: Global, words: &str) -> Result<Option<Position>, AllocError>
        ensures { IfOk result (λ found. MatchOption found
            ((p : Position) → words.now ≢ decimal p.number) (λ p. words.now ≡ decimal p.number)) }
    {
        let Ok(number) = words.parse::<u32>() else {
            return Ok(None);
        };
        let Some(place) = Position::new(number) else {
            return Ok(None);
        };
        let spelt = number.to_string(alloc)?;
        if spelt.as_str() == words {
            Ok(Some(place))
        } else {
            Ok(None)
        }
    }

    /// Where the element is, counted from 0.
    pub(crate) fn index(self) -> usize
        ensures { result ≡ self.number - 1 }
    {
        (self.number - 1) as usize
    }
}
