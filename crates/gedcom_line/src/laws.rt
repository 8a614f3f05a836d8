//! Laws of lines, over the definitions that the contracts cite.

ghost use Rattle.std.specs.Prelude.{◌≡◌, ◌≤◌, ℕ, List, true};
ghost use Rattle.std.specs.List.{list_all};
ghost use Rattle.std.specs.Str.{IsUtf8};
ghost use Rattle.gedcom_line.specs.Escape.{Element, Elements, IsEscaped, escaped, unescaped};
ghost use Rattle.gedcom_line.specs.Reading.{Parts as LineParts};
ghost use Rattle.gedcom_line.specs.Split.{
  EachPart,
  IsShort,
  IsSplit,
  Part,
  Parts,
  canonical,
  char_count,
  joined,
  segment_parts,
};
ghost use Rattle.gedcom_line.specs.Value.{Text, Pointer, IsPointer, meaning};
ghost use Rattle.gedcom_line.specs.Line.{Line};
ghost use Rattle.gedcom_line.specs.Spelling.{spelling, is_textual, IsInner, IsLine};

/// Bytes spell one line at most, and what is written of a line that the grammar has is read as that
/// line: level, cross reference, tag and value.
pub fn a_line_is_read_again()
    ensures one { (b : List ℕ) (l m : LineParts) → Line b l → Line b m → l ≡ m }
    ensures again { (b : List ℕ) (l : LineParts) → Line b l → Line (spelling l) l }
    ensures made { (l : LineParts) → IsLine l → Line (spelling l) l }
{}

/// A text is made of escapes and other characters in one way, so there is one written form of it: what `escaped`
/// gives.
pub fn a_text_has_one_written_form()
    ensures elements { (t : List ℕ) (es fs : List Element) → Elements t es → Elements t fs → es ≡ fs }
    ensures one { (t v w : List ℕ) → IsEscaped t v → IsEscaped t w → v ≡ w }
    ensures computed { (t : List ℕ) → IsEscaped t (escaped t) }
{}

/// What is written of a text is read as that text, and never as a cross reference.
pub fn a_value_is_read_again()
    ensures again { (t : List ℕ) → unescaped (escaped t) ≡ t }
    ensures text { (t : List ℕ) → meaning (escaped t) ≡ Text (escaped t) }
{}

/// A value stands for a cross reference exactly where it is one, spaces at its ends apart.
pub fn a_pointer_is_a_cross_reference()
    ensures found { (raw name : List ℕ) → IsPointer raw name → meaning raw ≡ Pointer name }
    ensures is { (raw name : List ℕ) → meaning raw ≡ Pointer name → IsPointer raw name }
{}

/// A text in UTF-8 has one split into parts: what `canonical` gives. The parts joined give the text, those of a
/// segment are cut where the rule says, and the parts of a text without CR and U+0000 can each stand on a line.
pub fn a_text_is_split_and_joined()
    ensures split { (t : List ℕ) → IsUtf8 t → IsSplit t (canonical t) }
    ensures one { (t : List ℕ) (ps qs : List Part) → IsSplit t ps → IsSplit t qs → ps ≡ qs }
    ensures joins { (t : List ℕ) → joined (canonical t) ≡ t }
    ensures parts { (s : List ℕ) → IsUtf8 s → Parts s (segment_parts s) }
    ensures lines { (t : List ℕ) → IsUtf8 t → list_all is_textual t ≡ true → EachPart IsInner (canonical t) }
{}

/// What is written of a line whose value has at most 200 characters has at most 300, its LF not counted,
/// and each part of a text, as it is written, has at most 200. A cross reference has at most 64.
pub fn a_line_is_short()
    ensures line { (l : LineParts) → IsLine l → char_count l.raw ≤ 200 → char_count (spelling l) ≤ 300 }
    ensures parts { (t : List ℕ) → EachPart IsShort (canonical t) }
    ensures pointer { (raw name : List ℕ) → IsPointer raw name → char_count name ≤ 64 }
{}
