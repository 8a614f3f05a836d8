//! What is searched, and the words that are searched for.

ghost use Rattle.std.specs.Prelude.{
  ◌≡◌,
  ◌≢◌,
  ◌↔◌,
  ◌++◌,
  [],
  ◌∷◌,
  true,
  map,
  IfOk,
  OnOk,
  IsTrue,
  chars,
  encode_utf8_all,
  string_bytes,
};
ghost use Rattle.std.specs.List.{flat_map, list_all};
ghost use Rattle.searching.specs.Folding.{folded_name, folded_text};
ghost use Rattle.searching.specs.Scans.{
  begins_text,
  begins_word as begins_word_of,
  is_first as is_first_of,
  items,
  keys,
  may_begin as may_begin_after,
  occurs_in,
};
ghost use Rattle.searching.specs.Words.{
  all_occur as occur_test,
  filled,
  initial as initial_of,
  is_apostrophe as apostrophe_test,
  is_letter as letter_test,
  is_word as word_test,
  key_text,
  words_of,
};

use crate::folding;
use std::alloc::{AllocError, Global};
use std::marker::Model;
use ucd_category::{GeneralCategory, GeneralCategoryGroup};

/// A text as a search compares it. Contracts see it as its code points.
#[derive(Debug, Drop)]
pub struct SearchText {
    characters: Vec<char>,
}

impl Model for SearchText {
    ghost use Rattle.std.specs.Prelude.{List, ℕ};

    ghost Value = { List ℕ };

    ghost view = { λ a. a.characters.items };
}

impl SearchText {
    /// Any text but the name of a person.
    pub fn of_text(alloc: Global, text: &str) -> Result<SearchText, AllocError>
        ensures { IfOk result (λ t. t ≡ folded_text (chars text.now)) }
    {
        Ok(SearchText {
            characters: folding::text(alloc, text)?,
        })
    }

    /// The name of a person, in which a slash parts no word.
    pub fn of_name(alloc: Global, name: &str) -> Result<SearchText, AllocError>
        ensures { IfOk result (λ t. t ≡ folded_name (chars name.now)) }
    {
        Ok(SearchText {
            characters: folding::name(alloc, name)?,
        })
    }
}

/// The words that are searched for. Contracts see each as its code points.
#[derive(Debug, Drop)]
pub struct SearchWords {
    words: Vec<Vec<char>>,
}

impl Model for SearchWords {
    ghost use Rattle.std.specs.Prelude.{List, ℕ};
    ghost use Rattle.searching.specs.Scans.{keys};

    ghost Value = { List (List ℕ) };

    ghost view = { λ a. keys a.words };
}

impl SearchWords {
    /// No word. Takes no memory.
    pub fn new(alloc: Global) -> SearchWords
        ensures { result ≡ [] }
    {
        SearchWords {
            words: Vec::new(alloc),
        }
    }

    /// Puts the words of a text after those that are there, and answers whether it has some.
    pub fn add(&mut self, alloc: Global, text: &str) -> Result<bool, AllocError>
        ensures added { OnOk result (self.new ≡ self.old ++ words_of (folded_text (chars text.now))) }
        ensures some { IfOk result (λ some. IsTrue some ↔ (words_of (folded_text (chars text.now)) ≢ [])) }
    {
        let before = self.words.len();
        let characters = folding::text(alloc, text)?;
        push_words(alloc, &mut self.words, &characters)?;
        Ok(before < self.words.len())
    }

    /// Whether no word is searched for. Takes no memory.
    pub fn is_empty(&self) -> bool
        ensures { IsTrue result ↔ (self.now ≡ []) }
    {
        self.words.is_empty()
    }

    /// The first character of the first word. `None`: there is no word. Takes no memory.
    pub fn initial(&self) -> Option<char>
        ensures { result ≡ initial_of self.now }
    {
        initial(&self.words)
    }

    /// The words as one text, each with a space after it: the same for two texts that differ only in case, marks,
    /// composition, apostrophes and what parts their words.
    #[tactic(auto, using(crate::proofs::Keyed::key_is))]
    pub fn key(&self, alloc: Global) -> Result<String, AllocError>
        ensures { IfOk result (λ key. string_bytes key ≡ key_text self.now) }
    {
        let mut key = String::new(alloc);
        push_key(&mut key, &self.words)?;
        Ok(key)
    }

    /// Whether each of the words begins a word of the text. Takes no memory.
    pub fn occur_in(&self, text: &SearchText) -> bool
        ensures { result ≡ occur_test self.now text.now }
    {
        all_occur(&self.words, &text.characters)
    }
}

/// Adds words, each with a space after it.
fn push_key(out: &mut String, words: &[Vec<char>]) -> Result<(), AllocError>
    ensures { OnOk result (string_bytes out.new ≡ string_bytes out.old
        ++ flat_map (λ w. encode_utf8_all (items w) ++ 32 ∷ []) words.now) }
{
    'each: for word in words {
        push_word_key(out, word)?;
    }
    Ok(())
}

fn push_word_key(out: &mut String, word: &[char]) -> Result<(), AllocError>
    ensures { OnOk result (string_bytes out.new ≡ string_bytes out.old ++ (encode_utf8_all word.now ++ 32 ∷ [])) }
{
    push_characters(out, word)?;
    out.push_str(" ")
}

fn push_characters(out: &mut String, word: &[char]) -> Result<(), AllocError>
    ensures { OnOk result (string_bytes out.new ≡ string_bytes out.old ++ encode_utf8_all word.now) }
{
    'each: for c in word {
        out.push(*c)?;
    }
    Ok(())
}

/// The first character of the first of these.
fn initial(words: &[Vec<char>]) -> Option<char>
    ensures { result ≡ initial_of (map items words.now) }
{
    match words {
        [word, ..] => first_of(word),
        [] => None,
    }
}

/// The first character of a word.
fn first_of(word: &[char]) -> Option<char>
    ensures { result ≡ initial_of (word.now ∷ []) }
{
    match word {
        [first, ..] => Some(*first),
        [] => None,
    }
}

/// Puts the words of a folded text after those that are there.
fn push_words(alloc: Global, words: &mut Vec<Vec<char>>, text: &[char]) -> Result<(), AllocError>
    ensures { OnOk result (keys words.new ≡ keys words.old ++ words_of text.now) }
{
    let mut word = Vec::new(alloc);
    let mut rest = text;
    'each: while let Some((c, after)) = rest.split_first() {
        if is_word(*c) {
            word.push(*c)?;
        } else if !is_apostrophe(*c) {
            push_word(words, word)?;
            word = Vec::new(alloc);
        }
        rest = after;
    }
    push_word(words, word)
}

/// One more word, unless it is empty.
fn push_word(words: &mut Vec<Vec<char>>, word: Vec<char>) -> Result<(), AllocError>
    ensures { OnOk result (keys words.new ≡ keys words.old ++ filled (word.items ∷ [])) }
{
    if !word.is_empty() {
        words.push(word)?;
    }
    Ok(())
}

/// Whether each of the words begins a word of the text.
fn all_occur(words: &[Vec<char>], text: &[char]) -> bool
    ensures { result ≡ list_all (λ w. occurs_in w true text.now) (map items words.now) }
{
    'each: for word in words {
        if !occurs(word, text) {
            return false;
        }
    }
    true
}

/// Whether the word begins a word of the text.
fn occurs(word: &[char], text: &[char]) -> bool
    ensures { result ≡ occurs_in word.now true text.now }
{
    let mut before = None;
    let mut rest = text;
    'each: while let Some((c, after)) = rest.split_first() {
        if begins_word(word, before, rest) {
            return true;
        }
        before = Some(*c);
        rest = after;
    }
    false
}

/// Whether the word begins a word of the text here, after this character. What Unicode says of a character is looked up
/// only where it is the word's first, which few are.
fn begins_word(word: &[char], before: Option<char>, text: &[char]) -> bool
    ensures { result ≡ begins_word_of word.now before text.now }
{
    match text {
        [c, ..] => {
            is_first(word, *c) && is_word(*c) && may_begin(before) && begins_here(word, text)
        }
        [] => false,
    }
}

/// Whether this is the first character of the word, or the word has none.
fn is_first(word: &[char], c: char) -> bool
    ensures { result ≡ is_first_of word.now c }
{
    match word {
        [first, ..] => *first == c,
        [] => true,
    }
}

/// Whether a word may begin after this character.
fn may_begin(before: Option<char>) -> bool
    ensures { result ≡ may_begin_after before }
{
    match before {
        None => true,
        Some(c) => !is_word(c),
    }
}

/// Whether the text begins with the word, where apostrophes are no part of it.
fn begins_here(word: &[char], text: &[char]) -> bool
    ensures { result ≡ begins_text word.now text.now }
{
    let mut left = word;
    let mut rest = text;
    'each: while let Some((first, after)) = left.split_first() {
        let Some((c, more)) = rest.split_first() else {
            return false;
        };
        if !is_apostrophe(*c) {
            if *first != *c || !is_word(*c) {
                return false;
            }
            left = after;
        }
        rest = more;
    }
    true
}

/// A letter or a digit that is no apostrophe.
fn is_word(c: char) -> bool
    ensures { result ≡ word_test c }
{
    !is_apostrophe(c) && is_letter(c)
}

/// A letter or a digit: categories L and N of The Unicode Standard, section 4.5.
#[tactic(auto, unfolding(crate::specs::Words::is_letter))]
fn is_letter(c: char) -> bool
    ensures { result ≡ letter_test c }
{
    let category = GeneralCategory::for_char(c);
    GeneralCategoryGroup::Letter.contains(category)
        || GeneralCategoryGroup::Number.contains(category)
}

/// An apostrophe, or what is written for one.
#[tactic(auto, unfolding(crate::specs::Words::is_apostrophe))]
fn is_apostrophe(c: char) -> bool
    ensures { result ≡ apostrophe_test c }
{
    matches!(
        c,
        '\'' | '`' | '\u{2BB}' | '\u{2BC}' | '\u{2018}' | '\u{2019}'
    )
}
