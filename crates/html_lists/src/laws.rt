//! What holds of the pages, whoever makes them.

ghost use Rattle.std.specs.Prelude.{◌≡◌, ℕ, ℤ, List, IfSome, flat_map};
ghost use Rattle.std.specs.FinMap.{get};
ghost use Rattle.archive_state.specs.Content.{Content, Records};
ghost use Rattle.archive_state.specs.Sound.{IsSound};
ghost use Rattle.masking.specs.Hidden.{AreAlike};
ghost use Rattle.masking.specs.Masking.{IsMasked};
ghost use Rattle.html_text.specs.Outside.{outside};
ghost use Rattle.html_parts.specs.Parts.{part_text, words_of_part};
ghost use Rattle.html_pages.specs.Showing.{LeadToShown};
ghost use Rattle.html_lists.specs.Home.{home_page};
ghost use Rattle.html_lists.specs.Registers.{register_page};
ghost use Rattle.html_lists.specs.Searches.{search_page};
ghost use Rattle.html_lists.specs.Surnames.{surname_page};

/// Each link of a page goes to what is shown: a page of a list, or a record of that kind with that number.
pub fn links_go_to_what_is_shown()
    ensures home { (m : Records) (society : List ℕ) → LeadToShown (get m) (home_page m society) }
    ensures register { (m : Records) (society : List ℕ) (n page : ℕ)
        → IfSome (register_page m society n page) (LeadToShown (get m)) }
    ensures surname { (m : Records) (society of : List ℕ) (page : ℕ)
        → IfSome (surname_page m society of page) (LeadToShown (get m)) }
    ensures search { (m : Records) (society text : List ℕ) (page : ℕ)
        → IfSome (search_page m society text page) (LeadToShown (get m)) }
{}

/// Outside of its tags a page has its texts, escaped, and nothing else: no text of a record is markup.
pub fn each_text_of_a_page_is_escaped()
    ensures home { (m : Records) (society : List ℕ)
        → outside (flat_map part_text (home_page m society)) ≡ flat_map words_of_part (home_page m society) }
    ensures register { (m : Records) (society : List ℕ) (n page : ℕ) → IfSome (register_page m society n page)
        (λ parts. outside (flat_map part_text parts) ≡ flat_map words_of_part parts) }
    ensures surname { (m : Records) (society of : List ℕ) (page : ℕ) → IfSome (surname_page m society of page)
        (λ parts. outside (flat_map part_text parts) ≡ flat_map words_of_part parts) }
    ensures search { (m : Records) (society text : List ℕ) (page : ℕ) → IfSome (search_page m society text page)
        (λ parts. outside (flat_map part_text parts) ≡ flat_map words_of_part parts) }
{
    html_parts::laws::a_page_has_its_texts_outside_of_tags();
}

/// What is hidden of a sound archive changes no page: two that differ only in what is hidden have the same.
pub fn what_is_hidden_changes_no_page()
    ensures home { (a b : Content) (today : ℤ) (s t : Content) (society : List ℕ) → IsSound a → IsSound b
        → AreAlike a b today → IsMasked a today s → IsMasked b today t
        → home_page s.records society ≡ home_page t.records society }
    ensures register { (a b : Content) (today : ℤ) (s t : Content) (society : List ℕ) (n page : ℕ) → IsSound a
        → IsSound b → AreAlike a b today → IsMasked a today s → IsMasked b today t
        → register_page s.records society n page ≡ register_page t.records society n page }
    ensures surname { (a b : Content) (today : ℤ) (s t : Content) (society of : List ℕ) (page : ℕ) → IsSound a
        → IsSound b → AreAlike a b today → IsMasked a today s → IsMasked b today t
        → surname_page s.records society of page ≡ surname_page t.records society of page }
    ensures search { (a b : Content) (today : ℤ) (s t : Content) (society text : List ℕ) (page : ℕ) → IsSound a
        → IsSound b → AreAlike a b today → IsMasked a today s → IsMasked b today t
        → search_page s.records society text page ≡ search_page t.records society text page }
{
    masking::laws::what_is_hidden_changes_nothing();
}
