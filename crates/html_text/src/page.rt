//! A page that grows by tags and texts.

ghost use Rattle.std.specs.Prelude.{◌≡◌, ◌++◌, IfOk, OnOk, encode_utf8_all, string_bytes};
ghost use Rattle.html_text.specs.Pages.{doctype, start_tag, void_tag, end_tag, attribute_text, tag};
ghost use Rattle.html_text.specs.Escapes.{escaped, escaped_character, is_hidden as hidden_test, shown_character};

use crate::names::{Element, Name, VoidElement};
use std::alloc::{AllocError, Global};
use std::marker::Model;

/// An attribute of a tag. Its value is any text.
#[derive(Debug, Drop)]
pub struct Attribute {
    pub name: Name,
    pub value: String,
}

impl Model for Attribute {
    ghost use Rattle.std.specs.Prelude.{string_bytes};
    ghost use Rattle.std.specs.Coded.{codes};
    ghost use Rattle.html_text.specs.Model as model;

    ghost Value = { model.Attribute };

    ghost coded = { Prim.hlevel codes };

    ghost view = { λ a. record { name = a.name; value = string_bytes a.value } };
}

/// The text of a page, so far. Contracts see it as its bytes.
#[derive(Debug, Drop)]
pub struct Page {
    text: String,
}

impl Model for Page {
    ghost use Rattle.std.specs.Prelude.{List, ℕ, string_bytes};

    ghost Value = { List ℕ };

    ghost view = { λ p. string_bytes p.text };
}

impl Page {
    /// A page that has only its doctype. Refused only if out of memory, as are all calls.
    pub fn new(alloc: Global) -> Result<Page, AllocError>
        ensures { IfOk result (λ p. p ≡ doctype) }
    {
        let text = String::from_str(alloc, "<!DOCTYPE html>\n")?;
        Ok(Page { text })
    }

    /// Appends the start tag of an element.
    pub fn start(&mut self, element: Element, attributes: &[Attribute]) -> Result<(), AllocError>
        ensures { OnOk result (self.new ≡ self.old ++ start_tag element attributes.now) }
    {
        push_tag(&mut self.text, element.as_str(), attributes)
    }

    /// Appends the tag of an element that has no end tag.
    pub fn void(&mut self, element: VoidElement, attributes: &[Attribute]) -> Result<(), AllocError>
        ensures { OnOk result (self.new ≡ self.old ++ void_tag element attributes.now) }
    {
        push_tag(&mut self.text, element.as_str(), attributes)
    }

    /// Appends the end tag of an element.
    pub fn end(&mut self, element: Element) -> Result<(), AllocError>
        ensures { OnOk result (self.new ≡ self.old ++ end_tag element) }
    {
        self.text.push_str("</")?;
        self.text.push_str(element.as_str())?;
        self.text.push_str(">")
    }

    /// Appends a text, escaped: a browser shows it as it is, with a space for each control character.
    pub fn text(&mut self, text: &str) -> Result<(), AllocError>
        ensures { OnOk result (self.new ≡ self.old ++ escaped text.now) }
    {
        push_escaped(&mut self.text, text)
    }

    /// The page as it is sent.
    pub fn as_str(&self) -> &str
        ensures { result.now ≡ self.now }
    {
        self.text.as_str()
    }

    /// The page as it is sent.
    pub fn into_string(self) -> String
        ensures { string_bytes result ≡ self }
    {
        self.text
    }
}

fn push_tag(out: &mut String, word: &str, attributes: &[Attribute]) -> Result<(), AllocError>
    ensures { OnOk result (string_bytes out.new ≡ string_bytes out.old ++ tag word.now attributes.now) }
{
    out.push_str("<")?;
    out.push_str(word)?;
    'each: for attribute in attributes {
        push_attribute(out, attribute)?;
    }
    out.push_str(">")
}

fn push_attribute(out: &mut String, attribute: &Attribute) -> Result<(), AllocError>
    ensures { OnOk result (string_bytes out.new ≡ string_bytes out.old ++ attribute_text attribute.now) }
{
    out.push_str(" ")?;
    out.push_str(attribute.name.as_str())?;
    out.push_str("=\"")?;
    push_escaped(out, attribute.value.as_str())?;
    out.push_str("\"")
}

fn push_escaped(out: &mut String, text: &str) -> Result<(), AllocError>
    ensures { OnOk result (string_bytes out.new ≡ string_bytes out.old ++ escaped text.now) }
{
    'each: for c in text.chars() {
        push_character(out, c)?;
    }
    Ok(())
}

/// A character as it stands in a text.
#[tactic(auto, unfolding(crate::specs::Escapes::escaped_character))]
fn push_character(out: &mut String, c: char) -> Result<(), AllocError>
    ensures { OnOk result (string_bytes out.new ≡ string_bytes out.old ++ encode_utf8_all (escaped_character c)) }
{
    match c {
        '&' => out.push_str("&amp;"),
        '<' => out.push_str("&lt;"),
        '>' => out.push_str("&gt;"),
        '"' => out.push_str("&quot;"),
        '\'' => out.push_str("&#39;"),
        c => out.push(shown(c)),
    }
}

fn shown(c: char) -> char
    ensures { result ≡ shown_character c }
{
    if is_hidden(c) { ' ' } else { c }
}

/// A control character but for TAB and LF, or one that turns the direction of a text (The Unicode Standard, sections
/// 23.1 and 23.2).
#[tactic(auto, unfolding(crate::specs::Escapes::is_hidden))]
fn is_hidden(c: char) -> bool
    ensures { result ≡ hidden_test c }
{
    c < '\u{9}'
        || ('\u{B}' <= c && c < '\u{20}')
        || ('\u{7F}' <= c && c < '\u{A0}')
        || ('\u{202A}' <= c && c <= '\u{202E}')
        || ('\u{2066}' <= c && c <= '\u{2069}')
}
