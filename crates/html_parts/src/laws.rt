//! What holds of the bytes of each page.

ghost use Rattle.std.specs.Prelude.{◌≡◌, List, flat_map};
ghost use Rattle.html_text.specs.Outside.{outside};
ghost use Rattle.html_parts.specs.declared.part.Part.{Part};
ghost use Rattle.html_parts.specs.Parts.{part_text, words_of_part};

/// Outside of its tags, each from `<` to the next `>`, a page has the texts of its parts, escaped, and nothing else: so
/// no text of a page opens a tag, and no address ends one.
pub fn a_page_has_its_texts_outside_of_tags()
    ensures { (parts : List Part) → outside (flat_map part_text parts) ≡ flat_map words_of_part parts }
{
    html_text::laws::a_page_has_its_texts_outside_of_tags();
}
