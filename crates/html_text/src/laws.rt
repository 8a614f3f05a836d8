//! Laws of pages, over the definitions that the contracts cite.

ghost use Rattle.std.specs.Prelude.{◌≡◌, ℕ, List, true, flat_map};
ghost use Rattle.std.specs.List.{list_all};
ghost use Rattle.html_text.specs.Escapes.{escaped};
ghost use Rattle.html_text.specs.Outside.{outside, words_of};
ghost use Rattle.html_text.specs.Pages.{Piece, piece_text};
ghost use Rattle.html_text.specs.Marks.{is_no_mark};

/// An escaped text has no `<`, no `>` and no quote.
pub fn an_escaped_text_has_no_mark()
    ensures { (text : List ℕ) → list_all is_no_mark (escaped text) ≡ true }
{}

/// Outside of its tags, each from `<` to the next `>`, a page has the escaped texts of its pieces and nothing else: so
/// no text opens a tag, and no value of an attribute ends one.
pub fn a_page_has_its_texts_outside_of_tags()
    ensures { (pieces : List Piece) → outside (flat_map piece_text pieces) ≡ flat_map words_of pieces }
{}
