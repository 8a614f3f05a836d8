//! Whether the words that are searched for occur in a text: a row has `name` or `text`, the text and the words, with
//! tabs between.

use searching::{SearchText, SearchWords};
use std::alloc::{AllocError, Global};

/// What is written of a row.
pub(crate) fn answer(alloc: Global, row: &str) -> Result<&'static str, AllocError> {
    let Some((kind, rest)) = row.split_once('\t') else {
        return Ok("no row");
    };
    let Some((text, asked)) = rest.split_once('\t') else {
        return Ok("no row");
    };
    if kind == "name" {
        occurs(alloc, SearchText::of_name(alloc, text)?, asked)
    } else {
        occurs(alloc, SearchText::of_text(alloc, text)?, asked)
    }
}

fn occurs(alloc: Global, text: SearchText, asked: &str) -> Result<&'static str, AllocError> {
    let mut words = SearchWords::new(alloc);
    if !words.add(alloc, asked)? {
        return Ok("no word");
    }
    if words.occur_in(&text) {
        Ok("found")
    } else {
        Ok("not found")
    }
}
