//! Laws of the words of a search.

ghost use Rattle.std.specs.Prelude.{◌≡◌, ◌↔◌, ℕ, IsTrue, List};
ghost use Rattle.unicode_normalization.specs.Forms.{nfkd};
ghost use Rattle.searching.specs.Folding.{folded_name, folded_text};
ghost use Rattle.searching.specs.Words.{AllOccur, all_occur, words_of};

/// Texts that are compatibility equivalents, as with composed letters and decomposed ones, are folded alike: the same
/// words find them (The Unicode Standard, section 3.7).
pub fn compatible_texts_are_found_alike()
    ensures texts { (a b : List ℕ) → nfkd a ≡ nfkd b → folded_text a ≡ folded_text b }
    ensures names { (a b : List ℕ) → nfkd a ≡ nfkd b → folded_name a ≡ folded_name b }
{}

/// The words of a search occur in a text where each of them is the beginning of a word of it.
pub fn words_occur_where_each_begins_one()
    ensures { (words : List (List ℕ)) (text : List ℕ) → IsTrue (all_occur words text) ↔ AllOccur words text }
{}

/// A folded text is found by its own words.
pub fn a_text_is_found_by_its_words()
    ensures { (text : List ℕ) → AllOccur (words_of text) text }
{}
