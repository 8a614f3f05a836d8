//! Sheets of what is shown.

use crate::masked::masked_on;
use archive_state::State;
use masking::Shown;
use record_text::RefusalKind;
use row_words::{Answer, number, word};
use sheets::{
    Generations, family_sheet, index_page, pedigree, person_sheet, register_sheet, surname_page,
};
use std::alloc::Global;

/// Says a sheet of what is shown that day.
pub(crate) fn say_sheet(
    alloc: Global,
    state: &State,
    words: &[String],
    out: &mut Answer,
) -> Result<(), RefusalKind> {
    let masked = masked_on(alloc, state, words)?;
    let text = sheet_of(alloc, &masked, words);
    drop(masked);
    out.say(text?.as_str());
    Ok(())
}

fn sheet_of(alloc: Global, masked: &Shown, words: &[String]) -> Result<String, RefusalKind> {
    let of = number(words, 3);
    match word(words, 2) {
        "person" => person_sheet(alloc, masked, of),
        "family" => family_sheet(alloc, masked, of),
        "register" => register_sheet(alloc, masked, of),
        "pedigree" => pedigree_of(alloc, masked, of, number(words, 4)),
        "surname" => Ok(surname_page(alloc, masked, word(words, 3))?),
        _ => Ok(index_page(alloc, masked)?),
    }
}

fn pedigree_of(
    alloc: Global,
    masked: &Shown,
    of: u32,
    generations: u32,
) -> Result<String, RefusalKind> {
    match Generations::new(generations) {
        Some(generations) => pedigree(alloc, masked, of, generations),
        None => Err(RefusalKind::BadRow),
    }
}
