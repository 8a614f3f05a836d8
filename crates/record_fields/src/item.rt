//! The numbers of register entries on a page.

ghost use Rattle.std.specs.Prelude.{◌≡◌, ◌≢◌, ◌≤◌, IfOk, MatchOption, decimal};

use record_text::Text;
use std::alloc::{AllocError, Global};

/// The number of an entry on its page: 1 to 999,999.
#[derive(Clone, Copy, Debug, PartialEq, Eq)]
pub struct Item {
    pub number: u32,
    ghost in_range: { (1 ≤ number) × (number ≤ 999999) },
}

impl Item {
    ghost use Rattle.record_fields.specs.declared.item.Item.{Item};
    ghost use Rattle.record_fields.specs.Items.{first_item};

    /// The first of a page: 1.
    pub fn first() -> Item
        ensures { result ≡ first_item }
    {
        Item { number: 1 }
    }

    /// The number as that of an entry. `None`: it is out of range.
    pub fn new(number: u32) -> Option<Item>
        ensures { MatchOption result (¬ ((1 ≤ number) × (number ≤ 999999))) (λ item. item.number ≡ number) }
    {
        if 1 <= number && number <= 999_999 {
            Some(Item { number })
        } else {
            None
        }
    }

    /// The number in decimal.
    pub fn text(self, alloc: Global) -> Result<Text, AllocError>
        ensures { IfOk result (λ t. t ≡ decimal self.number) }
    {
        let words = self.number.to_string(alloc)?;
        Text::of_words(alloc, words.as_str())
    }

    /// The item whose decimal the words are, without a leading zero or a sign. `None`: they are that of none.
    pub fn of_words(alloc: Global, words: &str) -> Result<Option<Item>, AllocError>
        ensures { IfOk result (λ found. MatchOption found
            ((i : Item) → words.now ≢ decimal i.number) (λ i. words.now ≡ decimal i.number)) }
    {
        let Ok(number) = words.parse::<u32>() else {
            return Ok(None);
        };
        let Some(item) = Item::new(number) else {
            return Ok(None);
        };
        let spelt = number.to_string(alloc)?;
        if spelt.as_str() == words {
            Ok(Some(item))
        } else {
            Ok(None)
        }
    }
}
