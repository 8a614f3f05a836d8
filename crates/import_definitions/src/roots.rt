//! The roots of a file: the nodes that become records, in order.

ghost use Rattle.std.specs.Prelude.{
  ◌≡◌,
  ◌<◌,
  ◌^◌,
  ◌++◌,
  ◌∷◌,
  ℕ,
  List,
  [],
  if◌then◌else◌,
  not,
  IfOk,
  OnOk,
  length,
  map,
};
ghost use Rattle.std.specs.List.{filter, flat_map};
ghost use Rattle.stored_lines.specs.Tree.{label};
ghost use Rattle.gedcom_tree.specs.Flat.{value_said};
ghost use Rattle.import_definitions.specs.Kinds.{kind_named};
ghost use Rattle.import_definitions.specs.Nodes.{tree_of, trees_of, trees_at, line_said, FileNode};
ghost use Rattle.import_definitions.specs.Roots.{
  behind_first,
  candidates,
  is_kept,
  is_society as society_test,
  kept,
  name_in,
};
ghost use Rattle.import_definitions.specs.Lines.{place_in};
ghost use Rattle.import_definitions.specs.Steps.{breaks, step_of as step_told};
ghost use Rattle.import_definitions.specs.Reports.{
  dangles,
  dropped,
  is_empty as empty_test,
  said_of_root,
  said_of_roots,
};
ghost use Rattle.import_definitions.specs.Views.{kept_at, with_first, with_node, AreEnds, AreInFile};

use crate::kinds::{RootKind, kind_of};
use crate::steps::{Step, ends_of};
use gedcom_tree::{Forest, Node, NodeValue};
use receipts::{ReportLine, ReportWord};
use std::alloc::{AllocError, Global};
use std::collections::BTreeMap;
use std::marker::Model;

/// The nodes of a file that become records, in order, with their kinds. The position of a node is its place among
/// them, from 0. Contracts see the list of the nodes, each with those below it.
#[derive(Drop)]
pub struct Roots<'a> {
    nodes: Vec<&'a Node>,
    kinds: Vec<RootKind>,
    places: BTreeMap<String, u32>,
}

impl<'a> Model for Roots<'a> {
    ghost use Rattle.std.specs.Prelude.{List};
    ghost use Rattle.stored_lines.specs.Tree.{coded_tree};
    ghost use Rattle.std.specs.Coded.{coded_list};
    ghost use Rattle.import_definitions.specs.Nodes.{FileNode, trees_at, file_line_code};
    ghost use Rattle.import_definitions.specs.Views.{AreRoots};

    ghost Value = { List FileNode };

    ghost coded = { coded_list (coded_tree file_line_code) };

    ghost view = { λ r. trees_at r.nodes.items };

    ghost invariant = { λ r. AreRoots (trees_at r.nodes.items) r.kinds.items r.places };
}

impl<'a> Roots<'a> {
    ghost use Rattle.import_definitions.specs.Views.{AreInFile};

    /// The nodes, each with those below it.
    pub fn nodes(&self) -> &[&'a Node]
        ensures same { trees_at result.now ≡ self.now }
        ensures in_file { AreInFile self.now }
    {
        self.nodes.as_slice()
    }

    /// The kind of each node.
    pub fn kinds(&self) -> &[RootKind]
        ensures { result.now ≡ map (λ (t : FileNode). kind_named (label t).tag) self.now }
    {
        self.kinds.as_slice()
    }

    /// The position of the node with a cross reference, given with its two `@`.
    pub fn position(&self, name: &str) -> Option<u32>
        ensures { result ≡ place_in self.now name.now }
    {
        self.places.get(name).copied()
    }
}

/// Whether it is the society of an archive's export, which makes no record.
fn is_society(node: &Node) -> bool
    ensures { result ≡ society_test (tree_of node.now) }
{
    match &node.xref {
        Some(name) => node.tag.as_str() == "SUBM" && name.as_str() == "@SOCIETY@",
        None => false,
    }
}

/// The nodes after the first, the society apart.
fn candidates_of<'a>(alloc: Global, nodes: &'a [Node]) -> Result<Vec<&'a Node>, AllocError>
    ensures { IfOk result (λ found. trees_at found.items
        ≡ filter (λ t. not (society_test t)) (behind_first (trees_of nodes.now))) }
{
    let mut found = Vec::new(alloc);
    let Some((_, behind)) = nodes.split_first() else {
        return Ok(found);
    };
    for node in behind {
        if !is_society(node) {
            found.push(node)?;
        }
    }
    Ok(found)
}

/// The position of each cross reference of nodes.
fn places_of(alloc: Global, nodes: &[&Node]) -> Result<BTreeMap<String, u32>, AllocError>
    requires { length nodes.now < 2 ^ 32 }
    ensures { IfOk result (λ places. (name : List ℕ) → kept_at places name ≡ place_in (trees_at nodes.now) name) }
{
    let mut places: BTreeMap<String, u32> = BTreeMap::new(alloc);
    let mut at: u32 = 0;
    for node in nodes {
        add_node(alloc, &mut places, node, at)?;
        at += 1;
    }
    Ok(places)
}

/// Keeps the position of a name, where none is kept yet.
fn add_place(
    alloc: Global,
    places: &mut BTreeMap<String, u32>,
    name: &str,
    at: u32,
) -> Result<(), AllocError>
    ensures { OnOk result ((q : List ℕ) → kept_at places.new q ≡ with_first (kept_at places.old) name.now at q) }
{
    if !places.contains_key(name) {
        places.insert(String::from_str(alloc, name)?, at)?;
    }
    Ok(())
}

/// Keeps the position of a node under its cross reference, where it has one that none before it has.
fn add_node(
    alloc: Global,
    places: &mut BTreeMap<String, u32>,
    node: &Node,
    at: u32,
) -> Result<(), AllocError>
    ensures { OnOk result ((q : List ℕ) → kept_at places.new q ≡ with_node (kept_at places.old)
        (tree_of node.now) at q) }
{
    match &node.xref {
        Some(name) => add_place(alloc, places, name, at),
        None => Ok(()),
    }
}

/// The step from a node to the one that its value names.
fn step_of(places: &BTreeMap<String, u32>, node: &Node) -> Step
    ensures { result ≡ step_told (kept_at places.now) (tree_of node.now) }
{
    if kind_of(node.tag.as_str()) != RootKind::Other {
        return Step::Ends;
    }
    match &node.value {
        NodeValue::Text(_) => Step::Ends,
        NodeValue::Pointer(name) => match places.get(name) {
            Some(to) => Step::Leads(*to),
            None => Step::Breaks,
        },
    }
}

/// The step from each node.
fn steps_of(
    alloc: Global,
    places: &BTreeMap<String, u32>,
    nodes: &[&Node],
) -> Result<Vec<Step>, AllocError>
    ensures { IfOk result (λ steps. steps.items ≡ map (step_told (kept_at places.now)) (trees_at nodes.now)) }
{
    let mut steps = Vec::new(alloc);
    for node in nodes {
        steps.push(step_of(places, node))?;
    }
    Ok(steps)
}

/// Whether there is no value, or an empty one.
fn is_empty(value: &NodeValue) -> bool
    ensures { result ≡ empty_test (value_said value.now) }
{
    match value {
        NodeValue::Text(text) => text.is_empty(),
        NodeValue::Pointer(_) => false,
    }
}

/// Reports the value of a node of an own kind.
fn report_value(node: &Node, report: &mut Vec<ReportLine>) -> Result<(), AllocError>
    ensures { OnOk result (report.new.items ≡ report.old.items ++ dropped (label (tree_of node.now))) }
{
    if kind_of(node.tag.as_str()) == RootKind::Other || is_empty(&node.value) {
        return Ok(());
    }
    report.push(ReportLine {
        line: node.line,
        word: ReportWord::ValueDropped,
    })?;
    Ok(())
}

/// Takes a node whose chain does not break off, and reports a value that it drops; any other is reported.
fn sift_node<'a>(
    node: &'a Node,
    end: Step,
    found: &mut Vec<&'a Node>,
    report: &mut Vec<ReportLine>,
) -> Result<(), AllocError>
    ensures found { OnOk result (trees_at found.new.items
        ≡ trees_at found.old.items ++ (if breaks end then [] else tree_of node.now ∷ [])) }
    ensures report { OnOk result (report.new.items
        ≡ report.old.items ++ (if breaks end then dangles (label (tree_of node.now)) ∷ []
        else dropped (label (tree_of node.now)))) }
{
    if end == Step::Breaks {
        report.push(ReportLine {
            line: node.line,
            word: ReportWord::Dangling,
        })?;
        return Ok(());
    }
    report_value(node, report)?;
    found.push(node)?;
    Ok(())
}

/// The nodes whose chains do not break off. The others are reported, and so are values that are dropped.
fn sift<'a>(
    alloc: Global,
    nodes: &[&'a Node],
    ends: &[Step],
    report: &mut Vec<ReportLine>,
) -> Result<Vec<&'a Node>, AllocError>
    requires { AreEnds (trees_at nodes.now) ends.now }
    ensures kept { IfOk result (λ found. trees_at found.items ≡ kept (trees_at nodes.now)) }
    ensures report { OnOk result (report.new.items ≡ report.old.items ++ said_of_roots (trees_at nodes.now)) }
{
    let mut found = Vec::new(alloc);
    let mut at: usize = 0;
    for node in nodes {
        sift_node(node, ends[at], &mut found, report)?;
        at += 1;
    }
    Ok(found)
}

/// The kind of each node.
fn kinds_of(alloc: Global, nodes: &[&Node]) -> Result<Vec<RootKind>, AllocError>
    ensures { IfOk result (λ kinds. kinds.items ≡ map (λ (t : FileNode). kind_named (label t).tag)
        (trees_at nodes.now)) }
{
    let mut kinds = Vec::new(alloc);
    for node in nodes {
        kinds.push(kind_of(node.tag.as_str()))?;
    }
    Ok(kinds)
}

/// What is kept of nodes of a file.
fn with_places<'a>(alloc: Global, nodes: Vec<&'a Node>) -> Result<Roots<'a>, AllocError>
    requires few { length nodes.items < 2 ^ 32 }
    requires in_file { AreInFile (trees_at nodes.items) }
    ensures { IfOk result (λ r. r ≡ trees_at nodes.entry.items) }
{
    let kinds = kinds_of(alloc, nodes.as_slice())?;
    let places = places_of(alloc, nodes.as_slice())?;
    Ok(Roots {
        nodes,
        kinds,
        places,
    })
}

/// The nodes of a forest that become records. Those that do not are reported as dangling, and values of nodes of an
/// own kind as dropped, in the order of lines.
pub fn roots_of<'a>(
    alloc: Global,
    forest: &'a Forest,
    report: &mut Vec<ReportLine>,
) -> Result<Roots<'a>, AllocError>
    ensures kept { IfOk result (λ r. r ≡ kept (candidates forest.now)) }
    ensures report { OnOk result (report.new.items ≡ report.old.items ++ said_of_roots (candidates forest.now)) }
{
    let all = candidates_of(alloc, forest.nodes())?;
    let places = places_of(alloc, &all)?;
    let steps = steps_of(alloc, &places, &all)?;
    let ends = ends_of(alloc, steps)?;
    let found = sift(alloc, &all, &ends, report)?;
    let roots = with_places(alloc, found)?;
    Ok(roots)
}
