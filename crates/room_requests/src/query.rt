//! The query of a target.

ghost use Rattle.std.specs.Prelude.{◌≡◌, IfOk, option_map, codes, string_bytes};
ghost use Rattle.std.specs.Cow.{cow_str_bytes};
ghost use Rattle.room_requests.specs.Queries.{
  value_of,
  generations_of,
  generations_in as generations_value,
  first_named,
};

use crate::number::number_in;
use form_urlencoded::parse;
use std::alloc::{AllocError, Global};
use std::borrow::CowStr;
use std::marker::Model;

/// The most generations of a pedigree, and those of one whose query has none.
const MOST_GENERATIONS: u32 = 12;

const GENERATIONS: u32 = 4;

/// The query of a target, still encoded. Contracts see it as its bytes.
#[derive(Debug, Drop)]
pub struct Query {
    text: String,
}

impl Model for Query {
    ghost use Rattle.std.specs.Prelude.{List, ℕ, string_bytes};

    ghost Value = { List ℕ };

    ghost view = { λ q. string_bytes q.text };
}

impl Query {
    /// The text after the question mark as a query.
    pub fn new(text: String) -> Query
        ensures { result ≡ string_bytes text }
    {
        Query { text }
    }

    /// How many generations are asked for: 1 to 12, and 4 where the query has none. `None`: its value is no such
    /// number.
    pub fn generations(&self, alloc: Global) -> Result<Option<u32>, AllocError>
        ensures { IfOk result (λ found. found ≡ generations_of self.now) }
    {
        match self.first_value(alloc, "generations")? {
            Some(value) => Ok(generations_in(value.as_str())),
            None => Ok(Some(GENERATIONS)),
        }
    }

    /// The surname that is asked for. `None`: the query has none.
    pub fn name(&self, alloc: Global) -> Result<Option<CowStr<'_>>, AllocError>
        ensures { IfOk result (λ found. option_map cow_str_bytes found ≡ value_of (codes "name") self.now) }
    {
        self.first_value(alloc, "name")
    }

    /// The value of the first pair of that name. `None`: there is none.
    pub fn first_value(&self, alloc: Global, name: &str) -> Result<Option<CowStr<'_>>, AllocError>
        ensures { IfOk result (λ found. option_map cow_str_bytes found ≡ value_of name.now self.now) }
    {
        'pairs: for pair in parse(alloc, self.text.as_bytes()) {
            let (key, value) = match pair {
                Ok(pair) => pair,
                Err(e) => return Err(e),
            };
            if key.as_str() == name {
                return Ok(Some(value));
            }
        }
        Ok(None)
    }
}

/// The number of generations that a value is.
fn generations_in(value: &str) -> Option<u32>
    ensures { result ≡ generations_value (Some value.now) }
{
    match number_in(2, value) {
        Some(number) if number <= MOST_GENERATIONS => Some(number),
        _ => None,
    }
}
