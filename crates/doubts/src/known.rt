//! What the records of an archive show together.

ghost use Rattle.std.specs.Prelude.{◌≡◌, ℕ, IfOk, OnOk, Some, cond};
ghost use Rattle.std.specs.BTreeMap as tree;
ghost use Rattle.std.specs.BTreeSet.{contains_text};
ghost use Rattle.std.specs.Ordering.{nat_cmp};
ghost use Rattle.doubts.specs.Facts as showing;
ghost use Rattle.doubts.specs.Gathered as gathered;

use crate::fact::{Fact, NameKey};
use gedcom_date::Span;
use std::alloc::{AllocError, Global};
use std::collections::{BTreeMap, BTreeSet};

/// What the records show together.
pub(crate) struct Known {
    /// The keys of the mentions that are linked.
    linked: BTreeSet<String>,
    /// When persons were born, by their numbers.
    born: BTreeMap<u32, Span>,
    /// When persons were buried.
    buried: BTreeMap<u32, Span>,
}

// It is written out, so that no function above proves again how each part is dropped.
impl Drop for Known {
    fn drop(self) {
        let Known {
            linked: _,
            born: _,
            buried: _,
        } = self;
    }
}

impl Known {
    /// Whether a mention with this key is linked.
    pub(crate) fn is_linked(&self, key: &NameKey) -> bool
        ensures { result ≡ contains_text self.now.linked key.now }
    {
        self.linked.contains(key.words.as_str())
    }

    /// When a person was born.
    pub(crate) fn born(&self, person: u32) -> Option<Span>
        ensures { result ≡ tree.get nat_cmp self.now.born person }
    {
        find(&self.born, person)
    }

    /// When a person was buried.
    pub(crate) fn buried(&self, person: u32) -> Option<Span>
        ensures { result ≡ tree.get nat_cmp self.now.buried person }
    {
        find(&self.buried, person)
    }
}

/// Nothing yet. Takes no memory.
fn nothing(alloc: Global) -> Known
    ensures { gathered.seen result ≡ gathered.nothing }
{
    Known {
        linked: BTreeSet::new(alloc),
        born: BTreeMap::new(alloc),
        buried: BTreeMap::new(alloc),
    }
}

/// Adds a fact.
fn add(known: &mut Known, fact: Fact) -> Result<(), AllocError>
    ensures { OnOk result (gathered.seen known.new ≡ gathered.with_fact (gathered.seen known.old) fact) }
{
    match fact {
        Fact::Linked(key) => add_key(&mut known.linked, key),
        Fact::Born(person, span) => put_first(&mut known.born, person, span),
        Fact::Buried(person, span) => put_first(&mut known.buried, person, span),
    }
}

fn add_key(linked: &mut BTreeSet<String>, key: NameKey) -> Result<(), AllocError>
    ensures { OnOk result (contains_text linked.new ≡ gathered.with_key (contains_text linked.old) key) }
{
    let NameKey { words } = key;
    linked.insert(words)?;
    Ok(())
}

// ---- spans by persons

fn find(spans: &BTreeMap<u32, Span>, person: u32) -> Option<Span>
    ensures { result ≡ tree.get nat_cmp spans.now person }
{
    match spans.get(&person) {
        Some(span) => Some(*span),
        None => None,
    }
}

/// Puts a span, if the person has none.
fn put_first(spans: &mut BTreeMap<u32, Span>, person: u32, span: Span) -> Result<(), AllocError>
    ensures { OnOk result (tree.get nat_cmp spans.new
        ≡ gathered.with_span (tree.get nat_cmp spans.old) person span) }
{
    match find(spans, person) {
        Some(_) => Ok(()),
        None => put_new(spans, person, span),
    }
}

fn put_new(spans: &mut BTreeMap<u32, Span>, person: u32, span: Span) -> Result<(), AllocError>
    ensures { OnOk result ((n : ℕ) → tree.get nat_cmp spans.new n
        ≡ cond (tree.is_at (nat_cmp person) n) (Some span) (tree.get nat_cmp spans.old n)) }
{
    spans.insert(person, span)?;
    Ok(())
}

// ---- all of them

/// What facts show together.
pub(crate) fn known_by(alloc: Global, facts: Vec<Fact>) -> Result<Known, AllocError>
    ensures { IfOk result (λ known. gathered.seen known ≡ showing.known_by facts.items) }
{
    let mut known = nothing(alloc);
    add_all(&mut known, facts)?;
    Ok(known)
}

/// Adds facts.
fn add_all(known: &mut Known, facts: Vec<Fact>) -> Result<(), AllocError>
    ensures { OnOk result (gathered.seen known.new ≡ gathered.with_facts (gathered.seen known.old) facts.items) }
{
    let mut facts = facts.into_iter();
    'facts: while let Some(fact) = facts.next() {
        add(known, fact)?;
    }
    Ok(())
}
