//! What holds of packed texts.
//!
//! What holds of the keys of links.

ghost use Rattle.std.specs.Prelude.{◌≡◌, ◌∷◌, ℕ, List, Option, ◌<◌, ◌^◌, ◌↔◌, ◌≤ℤ◌};
ghost use Rattle.std.specs.List.{AllByRecursion};
ghost use Rattle.stored_lines.specs.Line.{Label};
ghost use Rattle.packed_rows.specs.Packed.{ArePackedAs, HaveText, IsTypedLine, StoredLines, packed};
ghost use Rattle.packed_rows.specs.Keys.{link_key};

/// A packed text, with the tag and the number of the first line, has one list of lines at the most.
pub fn one_text_has_one_list_of_lines()
    ensures { (tag : List ℕ) (target : Option ℕ) (text : List ℕ) (ls ms : StoredLines)
        → ArePackedAs tag target text ls → ArePackedAs tag target text ms → ls ≡ ms }
{}

/// So has a text that has the first line too.
pub fn one_whole_text_has_one_list_of_lines()
    ensures { (text : List ℕ) (ls ms : StoredLines) → HaveText text ls → HaveText text ms → ls ≡ ms }
{}

/// What is read of the packed text of lines is these lines.
pub fn packed_lines_are_read_again()
    ensures { (l : ℕ × Label) (ls ms : StoredLines) → AllByRecursion IsTypedLine (l ∷ ls) → l.0 ≡ 0
        → ArePackedAs l.1.tag l.1.target (packed (l ∷ ls)) ms → ms ≡ l ∷ ls }
{}

/// Two links never have one key.
pub fn one_key_has_one_link()
    ensures { (named other number own : ℕ) → number < 2 ^ 32 → own < 2 ^ 32
        → link_key named number ≡ link_key other own → (named ≡ other) × (number ≡ own) }
{}

/// A key is among those of the links to a number exactly where its link leads to this number.
pub fn keys_of_links_to_a_number_are_side_by_side()
    ensures { (named other own : ℕ) → own < 2 ^ 32
        → ((link_key named 0 ≤ℤ link_key other own) × (link_key other own ≤ℤ link_key named 4294967295))
        ↔ (named ≡ other) }
{}
