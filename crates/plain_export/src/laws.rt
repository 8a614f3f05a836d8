//! What the plain archive of an archive has.

ghost use Rattle.std.specs.Prelude.{◌≡◌, ◌⊎◌, ◌∷◌, ℕ, List, [], Some, None, codes, false, map};
ghost use Rattle.std.specs.FinMap.{get};
ghost use Rattle.record_kinds.specs.Model as model;
ghost use Rattle.record_kinds.specs.declared.record.Record.TheVariants as kind;
ghost use Rattle.record_fields.specs.declared.date.Date.{Date};
ghost use Rattle.record_shapes.specs.Shapes.{Around, line, text_line};
ghost use Rattle.stored_lines.specs.Line.{Lines};
ghost use Rattle.stored_lines.specs.declared.carried.Value.TheVariants as value;
ghost use Rattle.archive_state.specs.Content.{Records};
ghost use Rattle.gedcom_export.specs.Around.{around};
ghost use Rattle.plain_export.specs.Added as adding;
ghost use Rattle.plain_export.specs.Allowed.{is_blank, one_line, page_line};
ghost use Rattle.plain_export.specs.Firsts.{cited_by, firsts};
ghost use Rattle.plain_export.specs.Kept.{kept};
ghost use Rattle.plain_export.specs.Plain as plain;
ghost use Rattle.plain_export.specs.Words.{page_words};
ghost use Rattle.plain_export.specs.declared.noted.Noted.{Noted};

/// An archive has a plain archive, and only one.
pub fn an_archive_has_one_plain_archive()
    ensures some { (m : Records) → (p : Records) × plain.IsPlain m p }
    ensures one { (m p q : Records) → plain.IsPlain m p → plain.IsPlain m q → p ≡ q }
{}

/// Each person, family, event, source, repository and citation is in the plain archive, at its number: its members,
/// date, titles and quality as they are, its names, value and page as the standard allows, with the carried lines that
/// stay and those that are added.
pub fn what_the_standard_has_is_in_a_plain_archive()
    ensures persons { (m p : Records) (n : ℕ) (x : model.Person) → plain.IsPlain m p
        → get m n ≡ Some (kind.Person x) → get p n ≡ Some (kind.Person (plain.plain_person m (plain.added_to m n) x)) }
    ensures families { (m p : Records) (n : ℕ) (x : model.Family) → plain.IsPlain m p
        → get m n ≡ Some (kind.Family x) → get p n ≡ Some (kind.Family (plain.plain_family m x)) }
    ensures events { (m p : Records) (n : ℕ) (x : model.Event) → plain.IsPlain m p → get m n ≡ Some (kind.Event x)
        → get p n ≡ Some (kind.Event (plain.plain_event m (around m) (plain.added_to m n) x)) }
    ensures sources { (m p : Records) (n : ℕ) (x : model.Source) → plain.IsPlain m p
        → get m n ≡ Some (kind.Source x) → get p n ≡ Some (kind.Source (plain.plain_source m (plain.added_to m n) x)) }
    ensures repositories { (m p : Records) (n : ℕ) (x : model.Repo) → plain.IsPlain m p
        → get m n ≡ Some (kind.Repo x) → get p n ≡ Some (kind.Repo (plain.plain_repo m x)) }
    ensures citations { (m p : Records) (n : ℕ) (x : model.Citation) → plain.IsPlain m p
        → get m n ≡ Some (kind.Citation x) → get p n ≡ Some (kind.Citation (plain.plain_citation m x)) }
{}

/// No place and no register entry is in the plain archive.
pub fn places_and_entries_have_no_record()
    ensures places { (m p : Records) (n : ℕ) (x : model.Place) → plain.IsPlain m p
        → get m n ≡ Some (kind.Place x) → get p n ≡ None }
    ensures entries { (m p : Records) (n : ℕ) (x : model.Entry) → plain.IsPlain m p
        → get m n ≡ Some (kind.Entry x) → get p n ≡ None }
{}

/// No entry without a link is lost: it is a note of its source.
pub fn an_entry_without_a_link_is_noted()
    ensures { (m : Records) (n : ℕ) (e : model.Entry) → get m n ≡ Some (kind.Entry e)
        → adding.cited (adding.noted (firsts m) e) ≡ []
        → plain.IsAmong (adding.entry_note (around m) e) (plain.added_to m e.source) }
{}

/// Each name with a text stays, on one line, with the carried lines that stay.
pub fn no_name_with_a_text_is_left_out()
    ensures { (m : Records) (more : Lines) (p : model.Person) (x : model.Name) → plain.IsAmong x p.names
        → is_blank x.text ≡ false
        → plain.IsAmong (record { text = one_line x.text; carried = kept m x.carried })
        (plain.plain_person m more p).names }
{}

/// The same persons are partners of a family, in the same order.
pub fn partners_stay()
    ensures { (m : Records) (f : model.Family)
        → map (λ (p : model.Partner). p.person) (plain.plain_family m f).partners
        ≡ map (λ (p : model.Partner). p.person) f.partners }
{}

/// No value of an event is lost: it stands after the tag, as it is or on one line, or is a note of the event.
pub fn the_value_of_an_event_stands_or_is_noted()
    ensures { (m : Records) (a : Around) (more : Lines) (e : model.Event)
        → ((plain.plain_event m a more e).value ≡ e.value)
        ⊎ ((plain.plain_event m a more e).value ≡ one_line e.value)
        ⊎ plain.IsAmong (text_line (codes "NOTE") e.value) (plain.plain_event m a more e).carried }
{}

/// An event keeps its date, and its place stands below it: the path on one line, with the carried lines that stay.
pub fn the_date_and_the_place_of_an_event_stand()
    ensures date { (m : Records) (a : Around) (more : Lines) (e : model.Event)
        → (plain.plain_event m a more e).date ≡ e.date }
    ensures place { (m : Records) (a : Around) (more : Lines) (e : model.Event) (p : model.EventPlace)
        → e.place ≡ Some p
        → plain.IsAmong (line (codes "PLAC") (value.Text (one_line (a.path p.place))) (kept m p.carried))
        (plain.plain_event m a more e).carried }
{}

/// No page of a citation is lost: it stands on one line, or is a note of the citation.
pub fn the_page_of_a_citation_stands_or_is_noted()
    ensures { (m : Records) (c : model.Citation) (page : List ℕ) → c.page ≡ Some page
        → ((plain.plain_citation m c).page ≡ Some (one_line page))
        ⊎ plain.IsAmong (text_line (codes "NOTE") page) (plain.plain_citation m c).carried }
{}

/// The entry of a linked mention is cited by the event or person that the mention is of: with its page and item, its
/// date and text, and the words of the mention.
pub fn the_entry_of_a_linked_mention_is_cited()
    ensures cited { (m : Records) (n : ℕ) (e : model.Entry) (x : model.Mention) (l : model.Link)
        → get m n ≡ Some (kind.Entry e) → plain.IsAmong x e.mentions → x.link ≡ Some l
        → plain.IsAmong (adding.citation e (adding.noted (firsts m) e) (cited_by (firsts m) e.date x.role l))
        (plain.added_to m (cited_by (firsts m) e.date x.role l)) }
    ensures words { (m : Records) (e : model.Entry) (x : model.Mention) (l : model.Link)
        → plain.IsAmong x e.mentions → x.link ≡ Some l
        → plain.IsAmong (adding.note_line (adding.noted_of (firsts m) e x))
        (adding.below_citation e (adding.noted (firsts m) e) (cited_by (firsts m) e.date x.role l)) }
{}

/// The citation of an entry has its page and item, and its date and its text below a line `DATA`.
pub fn the_citation_of_an_entry_has_its_page_date_and_text()
    ensures page { (e : model.Entry) (xs : List Noted) (n : ℕ)
        → plain.IsAmong (page_line (page_words e)) (adding.below_citation e xs n) }
    ensures date { (e : model.Entry) (xs : List Noted) (n : ℕ) (d : Date) → e.date ≡ Some d
        → plain.IsAmong (line (codes "DATA") (value.Text []) (adding.below_data e)) (adding.below_citation e xs n)
        × plain.IsAmong (text_line (codes "DATE") d.text) (adding.below_data e) }
    ensures text { (e : model.Entry) (xs : List Noted) (n : ℕ) (b : ℕ) (bs : List ℕ) → e.text ≡ b ∷ bs
        → plain.IsAmong (line (codes "DATA") (value.Text []) (adding.below_data e)) (adding.below_citation e xs n)
        × plain.IsAmong (text_line (codes "TEXT") e.text) (adding.below_data e) }
{}
