//! The elements and attributes that pages have.

ghost use Rattle.std.specs.Prelude.{◌≡◌};
ghost use Rattle.html_text.specs.Names.{element_word, void_word, name_word};

/// An element with a start tag and an end tag: HTML Living Standard, section 4.
#[derive(Clone, Copy, Debug, PartialEq, Eq)]
pub enum Element {
    A,
    Body,
    Button,
    Dd,
    Dl,
    Dt,
    Footer,
    Form,
    H1,
    H2,
    Head,
    Header,
    Html,
    Label,
    Li,
    Main,
    Nav,
    Ol,
    P,
    Section,
    Span,
    Table,
    Tbody,
    Td,
    Th,
    Thead,
    Title,
    Tr,
    Ul,
}

impl Element {
    /// The name of the element in a tag.
    pub fn as_str(self) -> &'static str
        ensures { result.now ≡ element_word self }
    {
        match self {
            Element::A => "a",
            Element::Body => "body",
            Element::Button => "button",
            Element::Dd => "dd",
            Element::Dl => "dl",
            Element::Dt => "dt",
            Element::Footer => "footer",
            Element::Form => "form",
            Element::H1 => "h1",
            Element::H2 => "h2",
            Element::Head => "head",
            Element::Header => "header",
            Element::Html => "html",
            Element::Label => "label",
            Element::Li => "li",
            Element::Main => "main",
            Element::Nav => "nav",
            Element::Ol => "ol",
            Element::P => "p",
            Element::Section => "section",
            Element::Span => "span",
            Element::Table => "table",
            Element::Tbody => "tbody",
            Element::Td => "td",
            Element::Th => "th",
            Element::Thead => "thead",
            Element::Title => "title",
            Element::Tr => "tr",
            Element::Ul => "ul",
        }
    }
}

/// An element that has no end tag: HTML Living Standard, section 13.1.2, "Void elements".
#[derive(Clone, Copy, Debug, PartialEq, Eq)]
pub enum VoidElement {
    Br,
    Input,
    Link,
    Meta,
}

impl VoidElement {
    /// The name of the element in its tag.
    pub fn as_str(self) -> &'static str
        ensures { result.now ≡ void_word self }
    {
        match self {
            VoidElement::Br => "br",
            VoidElement::Input => "input",
            VoidElement::Link => "link",
            VoidElement::Meta => "meta",
        }
    }
}

/// The name of an attribute: HTML Living Standard, "Attributes" of its index.
#[derive(Clone, Copy, Debug, PartialEq, Eq)]
pub enum Name {
    Action,
    AriaCurrent,
    AriaLabel,
    Charset,
    Class,
    Content,
    For,
    Href,
    Id,
    Lang,
    Method,
    Name,
    Rel,
    Role,
    Scope,
    Type,
    Value,
}

impl Name {
    /// The name as it stands in a tag.
    pub fn as_str(self) -> &'static str
        ensures { result.now ≡ name_word self }
    {
        match self {
            Name::Action => "action",
            Name::AriaCurrent => "aria-current",
            Name::AriaLabel => "aria-label",
            Name::Charset => "charset",
            Name::Class => "class",
            Name::Content => "content",
            Name::For => "for",
            Name::Href => "href",
            Name::Id => "id",
            Name::Lang => "lang",
            Name::Method => "method",
            Name::Name => "name",
            Name::Rel => "rel",
            Name::Role => "role",
            Name::Scope => "scope",
            Name::Type => "type",
            Name::Value => "value",
        }
    }
}
