//! What holds of the pages, whoever makes them.

ghost use Rattle.std.specs.Prelude.{◌≡◌, ℕ, ℤ, List, IfSome, flat_map};
ghost use Rattle.std.specs.FinMap.{get};
ghost use Rattle.archive_state.specs.Content.{Content, Records};
ghost use Rattle.archive_state.specs.Sound.{IsSound};
ghost use Rattle.masking.specs.Hidden.{AreAlike};
ghost use Rattle.masking.specs.Masking.{IsMasked};
ghost use Rattle.html_text.specs.Outside.{outside};
ghost use Rattle.html_parts.specs.Parts.{part_text, words_of_part};
ghost use Rattle.html_pages.specs.Pages as pages;
ghost use Rattle.html_pages.specs.Pedigrees.{pedigree_page};
ghost use Rattle.html_pages.specs.Showing.{LeadToShown};

/// Each link of a page goes to what is shown: the first page, or a record of that kind with that number.
pub fn links_go_to_what_is_shown()
    ensures person { (m : Records) (society : List ℕ) (n : ℕ)
        → IfSome (pages.person_page m society n) (LeadToShown (get m)) }
    ensures family { (m : Records) (society : List ℕ) (n : ℕ)
        → IfSome (pages.family_page m society n) (LeadToShown (get m)) }
    ensures pedigree { (m : Records) (society : List ℕ) (n generations : ℕ)
        → IfSome (pedigree_page m society n generations) (LeadToShown (get m)) }
{}

/// Outside of its tags a page has its texts, escaped, and nothing else: no text of a record is markup.
pub fn each_text_of_a_page_is_escaped()
    ensures person { (m : Records) (society : List ℕ) (n : ℕ) → IfSome (pages.person_page m society n)
        (λ parts. outside (flat_map part_text parts) ≡ flat_map words_of_part parts) }
    ensures family { (m : Records) (society : List ℕ) (n : ℕ) → IfSome (pages.family_page m society n)
        (λ parts. outside (flat_map part_text parts) ≡ flat_map words_of_part parts) }
    ensures pedigree { (m : Records) (society : List ℕ) (n generations : ℕ)
        → IfSome (pedigree_page m society n generations)
        (λ parts. outside (flat_map part_text parts) ≡ flat_map words_of_part parts) }
{
    html_parts::laws::a_page_has_its_texts_outside_of_tags();
}

/// What is hidden of a sound archive changes no page: two that differ only in what is hidden have the same.
pub fn what_is_hidden_changes_no_page()
    ensures person { (a b : Content) (today : ℤ) (s t : Content) (society : List ℕ) (n : ℕ) → IsSound a → IsSound b
        → AreAlike a b today → IsMasked a today s → IsMasked b today t
        → pages.person_page s.records society n ≡ pages.person_page t.records society n }
    ensures family { (a b : Content) (today : ℤ) (s t : Content) (society : List ℕ) (n : ℕ) → IsSound a → IsSound b
        → AreAlike a b today → IsMasked a today s → IsMasked b today t
        → pages.family_page s.records society n ≡ pages.family_page t.records society n }
    ensures pedigree { (a b : Content) (today : ℤ) (s t : Content) (society : List ℕ) (n generations : ℕ)
        → IsSound a → IsSound b → AreAlike a b today → IsMasked a today s → IsMasked b today t
        → pedigree_page s.records society n generations ≡ pedigree_page t.records society n generations }
{
    masking::laws::what_is_hidden_changes_nothing();
}
