//! What holds of the text of lines.
//!
//! What holds between the texts that are appended and the whole text of a record.

ghost use Rattle.std.specs.Prelude.{◌≡◌, ℕ, ◌+◌, ◌++◌, ◌∷◌, [], List, codes, map};
ghost use Rattle.stored_lines.specs.Line.{Lines};
ghost use Rattle.stored_lines.specs.declared.carried.Value.{Value};
ghost use Rattle.record_shapes.specs.Shapes.{
  line,
  Around,
  citation_lines,
  event_part,
  events_below,
  shape_of,
  side_line,
};
ghost use Rattle.node_writing.specs.Pages.{page, record_page};
ghost use Rattle.stored_lines.specs.Tree.{Forest, list_of, node, Tree};
ghost use Rattle.stored_lines.specs.declared.carried.Value.TheVariants as value;
ghost use Rattle.record_kinds.specs.Model as model;
ghost use Rattle.record_kinds.specs.declared.record.Record.{Record};
ghost use Rattle.record_kinds.specs.declared.record.Record.TheVariants as kind;
ghost use Rattle.node_writing.specs.Parts.{event_head, family_head, person_head};

/// Lines side by side are written one after the other.
pub fn lines_follow_each_other()
    ensures { (names : ℕ → List ℕ) (level : ℕ) (ts us : Lines) → page names level (ts ++ us)
        ≡ page names level ts ++ page names level us }
{}

/// A line is followed by those below it, one level deeper.
pub fn a_line_is_followed_by_those_below()
    ensures { (names : ℕ → List ℕ) (level : ℕ) (tag : List ℕ) (value : Value) (below : Lines)
        → page names level (line tag value below ∷ [])
        ≡ page names level (line tag value [] ∷ []) ++ page names (level + 1) below }
{}

/// The line of a record is followed by those below it, from level 1.
pub fn a_record_is_followed_by_its_lines()
    ensures { (names : ℕ → List ℕ) (n : ℕ) (tag : List ℕ) (value : Value) (below : Lines)
        → record_page names n (line tag value below)
        ≡ record_page names n (line tag value []) ++ page names 1 below }
{}

/// A person is written as the first line, the names and the sex, the events, the families as a child and then those as
/// a partner, the citations, and what is carried.
pub fn a_person_is_written_in_parts()
    ensures { (names : ℕ → List ℕ) (a : Around) (n : ℕ) (p : model.Person) (under : List (Tree Record))
        → record_page names n (shape_of a n (kind.Person p) under)
        ≡ record_page names n (line (codes "INDI") (value.Text []) [])
        ++ (page names 1 (person_head p)
        ++ (page names 1 (events_below a under)
        ++ (page names 1 (map (side_line (codes "FAMC")) (a.child_in n))
        ++ (page names 1 (map (side_line (codes "FAMS")) (a.partner_in n))
        ++ (page names 1 (citation_lines under) ++ page names 1 p.carried))))) }
{}

/// A family is written as the first line, the members, the events, the citations, and what is carried.
pub fn a_family_is_written_in_parts()
    ensures { (names : ℕ → List ℕ) (a : Around) (n : ℕ) (f : model.Family) (under : List (Tree Record))
        → record_page names n (shape_of a n (kind.Family f) under)
        ≡ record_page names n (line (codes "FAM") (value.Text []) [])
        ++ (page names 1 (family_head f)
        ++ (page names 1 (events_below a under)
        ++ (page names 1 (citation_lines under) ++ page names 1 f.carried))) }
{}

/// An event is written as what stands before its citations, these, and what is carried.
pub fn an_event_is_written_in_parts()
    ensures { (names : ℕ → List ℕ) (a : Around) (e : model.Event) (f : Forest Record)
        → page names 1 (event_part a (node (kind.Event e) f))
        ≡ page names 1 (event_head a e ∷ [])
        ++ (page names 2 (citation_lines (list_of f)) ++ page names 2 e.carried) }
{}
