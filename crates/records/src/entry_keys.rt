//! By what an entry is found among those of its source.

ghost use Rattle.std.specs.Prelude.{◌≡◌, IfOk};
ghost use Rattle.records.specs.Stored.{key_words};

use record_fields::Item;
use record_text::Text;
use std::alloc::{AllocError, Global};

/// The most bytes of a page that the words of an entry's key have, so that an index stays small.
const MAX_PAGE: usize = 1_000;

/// By what an entry is found: its item and its page, or only the item where the page has more than 1,000 bytes. These
/// words and the number of the source are on a line of the entry, so that an index finds the few entries that have
/// both.
pub fn entry_key(alloc: Global, item: Item, page: &Text) -> Result<Text, AllocError>
    ensures { IfOk result (λ words. words ≡ key_words item page.now) }
{
    let page = page.as_str();
    if page.len() > MAX_PAGE {
        return item.text(alloc);
    }
    let mut words = item.number.to_string(alloc)?;
    words.push_str(" ")?;
    words.push_str(page)?;
    Text::of_words(alloc, words.as_str())
}
