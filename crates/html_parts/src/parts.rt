//! A page as the list of its parts.

ghost use Rattle.std.specs.Prelude.{◌≡◌, ◌++◌, ◌∷◌, [], IfOk, OnOk, decimal, string_bytes};
ghost use Rattle.html_parts.specs.declared.part.Part.TheVariants as part;
ghost use Rattle.html_parts.specs.Building.{
  button_word as word_of_button,
  element_parts,
  form_parts,
  link_parts,
  is_nil,
  nested_parts,
  section_parts,
};
ghost use Rattle.html_parts.specs.Parts.{page_bytes};

use crate::part::Part;
use crate::route::Route;
use crate::words::Words;
use crate::writing::write_page;
use html_text::Element;
use std::alloc::{AllocError, Global};
use std::marker::Model;

/// The parts of a page, or of a piece of one, in their order. Contracts see the list.
pub struct Parts {
    parts: Vec<Part>,
}

// It is written out, so that no crate above proves again how a list of parts is dropped.
impl Drop for Parts {
    fn drop(self) {
        let Parts { parts: _ } = self;
    }
}

impl Model for Parts {
    ghost use Rattle.std.specs.Prelude.{List};
    ghost use Rattle.html_parts.specs.declared.part.Part.{Part};

    ghost Value = { List Part };

    ghost view = { λ p. p.parts.items };
}

impl Parts {
    /// No parts. Takes no memory.
    pub fn new(alloc: Global) -> Parts
        ensures { result ≡ [] }
    {
        Parts {
            parts: Vec::new(alloc),
        }
    }

    /// Appends a part. Refused only if out of memory, as are all calls.
    pub fn push(&mut self, next: Part) -> Result<(), AllocError>
        ensures { OnOk result (self.new ≡ self.old ++ next ∷ []) }
    {
        self.parts.push(next)?;
        Ok(())
    }

    /// Appends the start tag of an element.
    pub fn start(&mut self, element: Element) -> Result<(), AllocError>
        ensures { OnOk result (self.new ≡ self.old ++ part.Start element ∷ []) }
    {
        self.push(Part::Start(element))
    }

    /// Appends the end tag of an element.
    pub fn end(&mut self, element: Element) -> Result<(), AllocError>
        ensures { OnOk result (self.new ≡ self.old ++ part.End element ∷ []) }
    {
        self.push(Part::End(element))
    }

    /// Appends a text.
    pub fn words(&mut self, alloc: Global, text: &str) -> Result<(), AllocError>
        ensures { OnOk result (self.new ≡ self.old ++ part.Words text.now ∷ []) }
    {
        let words = Words::of(alloc, text)?;
        self.push(Part::Words(words))
    }

    /// Appends a number as a text.
    pub fn number(&mut self, alloc: Global, number: usize) -> Result<(), AllocError>
        ensures { OnOk result (self.new ≡ self.old ++ part.Words (decimal number) ∷ []) }
    {
        let mut text = String::new(alloc);
        write!(text, "{number}")?;
        self.push(Part::Words(Words::new(text)))
    }

    /// Appends an element with a text in it.
    pub fn element(&mut self, alloc: Global, element: Element, text: &str) -> Result<(), AllocError>
        ensures { OnOk result (self.new ≡ self.old ++ element_parts element text.now) }
    {
        self.start(element)?;
        self.words(alloc, text)?;
        self.end(element)
    }

    /// Appends a link with a text.
    pub fn link(&mut self, alloc: Global, route: Route, text: &str) -> Result<(), AllocError>
        ensures { OnOk result (self.new ≡ self.old ++ link_parts route text.now) }
    {
        self.push(Part::Link(route))?;
        self.words(alloc, text)?;
        self.end(Element::A)
    }

    /// Appends the form of a search, with what is searched for.
    pub fn form(&mut self, alloc: Global, text: &str) -> Result<(), AllocError>
        ensures { OnOk result (self.new ≡ self.old ++ form_parts text.now) }
    {
        self.push(Part::Form)?;
        let words = Words::of(alloc, text)?;
        self.push(Part::Field(words))?;
        self.element(alloc, Element::Button, button_word())?;
        self.end(Element::Form)
    }

    /// Appends the parts of another list.
    pub fn append(&mut self, more: Parts) -> Result<(), AllocError>
        ensures { OnOk result (self.new ≡ self.old ++ more) }
    {
        let Parts { parts: mut more } = more;
        self.parts.append(&mut more)
    }

    /// Appends a section with a heading and a list of items, where there are some.
    pub fn section(&mut self, alloc: Global, heading: &str, items: Parts) -> Result<(), AllocError>
        ensures { OnOk result (self.new ≡ self.old ++ section_parts heading.now items) }
    {
        if items.is_empty() {
            return Ok(());
        }
        self.start(Element::Section)?;
        self.element(alloc, Element::H2, heading)?;
        self.start(Element::Ul)?;
        self.append(items)?;
        self.end(Element::Ul)?;
        self.end(Element::Section)
    }

    /// Appends a list in an item of another list, where it has items.
    pub fn nested(&mut self, items: Parts) -> Result<(), AllocError>
        ensures { OnOk result (self.new ≡ self.old ++ nested_parts items) }
    {
        if items.is_empty() {
            return Ok(());
        }
        self.start(Element::Ul)?;
        self.append(items)?;
        self.end(Element::Ul)
    }

    fn is_empty(&self) -> bool
        ensures { result ≡ is_nil self.now }
    {
        self.parts.is_empty()
    }

    /// The bytes of a page of these parts.
    pub fn write(&self, alloc: Global) -> Result<String, AllocError>
        ensures { IfOk result (λ s. string_bytes s ≡ page_bytes self.now) }
    {
        write_page(alloc, &self.parts)
    }
}

#[tactic(auto, unfolding(crate::specs::Building::button_word))]
fn button_word() -> &'static str
    ensures { result.now ≡ word_of_button }
{
    "Search"
}
