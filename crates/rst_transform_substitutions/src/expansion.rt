//! What replaces one substitution reference.
ghost use Rattle.std.specs.Prelude.{◌≡◌, ◌+◌, ◌≤◌, ℕ, List, nat_le, true, take, vec_len, ◌-◌, IfOk, OnOk, MatchOption, Some};
ghost use Rattle.rst_tree.specs.Nodes.{nodes_of};
ghost use Rattle.rst_tree_index.specs.Kinds.{is_substitution_reference, is_substitution_reference_node};
ghost use Rattle.rst_transform_substitutions.specs.declared.expansion.ExpansionFault.TheVariants.{Undefined};
ghost use Rattle.rst_transform_substitutions.specs.declared.expansion.Halted.TheVariants.{By as HaltedBy, NoMemory as HaltedByMemory};
ghost use Rattle.rst_transform_substitutions.specs.Definitions.{found_by};
ghost use Rattle.rst_transform_substitutions.specs.Expansion.{after_nodes, copied_element, expanded_copies, expansion_fault_text, given, given_within, most_visited, nodes_for, path_from, size_of, ComesTo, CopiesAtOnce, Enters, TellsFault};
ghost use Rattle.rst_transform_substitutions.specs.Sizes.{content_last, AreSized, Fits, GivesCopy};

use crate::definitions::Definitions;
use crate::sizes::{Measured, are_above};
use rst_transform_work::{copies, element, item_at, text_or_empty};
use rst_tree::{Attrs, Children, Key, Node, Result, Tag, Text};
use std::alloc::{AllocError, Global};

/// The most definitions that are gone into for one reference, each found in the one before.
pub const MOST_NESTED: usize = 100;

/// The most nodes and characters that are visited for one reference.
pub const MOST_VISITED: usize = 10_000;

/// The words of the message on a name without definition, before the name.
const UNDEFINED: &str = "Undefined substitution referenced: \"";

/// Its words on the name of a definition that leads back to itself.
const CIRCULAR: &str = "Circular substitution definition referenced: \"";

/// Why a reference isn't replaced.
#[derive(Drop)]
pub enum ExpansionFault {
    /// There is no definition of this name.
    Undefined(Text),
    /// The definition of this name is being replaced already.
    Circular(Text),
    /// Too many definitions, nodes and characters are visited.
    TooLarge,
}

impl ExpansionFault {
    /// The text of the message on a reference to a name that isn't replaced.
    pub fn text(&self, alloc: Global, name: &str) -> Result<Text>
        ensures { IfOk result (λ text. text ≡ expansion_fault_text name.now self.now) }
    {
        let (before, name) = match self {
            ExpansionFault::Undefined(inner) => (UNDEFINED, inner.as_str()),
            ExpansionFault::Circular(inner) => (CIRCULAR, inner.as_str()),
            ExpansionFault::TooLarge => ("Substitution expansion too large: \"", name),
        };
        Text::of_three(alloc, before, name, "\".")
    }
}

/// Why an expansion came to no end.
#[derive(Drop)]
pub enum Halted {
    /// The reference isn't replaced.
    By(ExpansionFault),
    /// A growth was refused.
    NoMemory,
}

impl<E: Drop> From<E> for Halted
where
    AllocError: From<E>,
{
    ghost from_gives = { λ _ halted. halted ≡ HaltedByMemory };

    fn from(_error: E) -> Halted {
        Halted::NoMemory
    }
}

/// How far the expansion of one reference has come.
#[derive(Drop)]
struct Progress {
    /// The places of the definitions that are nested here, the outermost first.
    path: Vec<usize>,
    /// How many more nodes and characters may be visited.
    left: usize,
}

impl Progress {
    /// Nothing is visited yet for a reference; `within` is the definition that it is in.
    fn new(alloc: Global, within: Option<usize>) -> Result<Progress>
        ensures { IfOk result (λ progress. (progress.path.items ≡ path_from within) × (progress.left ≡ most_visited)) }
    {
        let mut path = Vec::new(alloc);
        if let Some(place) = within {
            path.push(place)?;
        }
        Ok(Progress {
            path,
            left: MOST_VISITED,
        })
    }

    /// Counts a node that is visited, and the characters of a text, if that many may still be visited.
    fn visit(&mut self, node: &Node) -> bool
        ensures fits { result ≡ nat_le (size_of node.now) self.old.left }
        ensures left { result ≡ true → self.new.left + size_of node.now ≡ self.old.left }
        ensures path { self.new.path ≡ self.old.path }
    {
        let characters = characters_in(node);
        if characters >= self.left {
            return false;
        }
        self.left -= characters + 1;
        true
    }

    /// What is measured of the definition that was gone into last, if it can't lead to one on the path.
    fn measured<'a>(&self, definitions: &'a Definitions) -> Result<Option<&'a Measured>, Halted>
        requires sized { AreSized definitions.now }
        requires left { self.now.left ≤ most_visited }
        ensures fits { IfOk result (λ one. MatchOption one (Unit {0}) (λ one. Fits (given (found_by definitions.now) self.now.path.items) (expanded_copies (given (found_by definitions.now) self.now.path.items) (content_last definitions.now self.now.path.items) self.now.left) self.now.left one.now)) }
        ensures fault { TellsFault (expanded_copies (given (found_by definitions.now) self.now.path.items) (content_last definitions.now self.now.path.items) self.now.left) result }
    {
        let Some(last) = self.path.last() else {
            return Ok(None);
        };
        let Some(one) = item_at(&definitions.measured, *last) else {
            return Ok(None);
        };
        if !are_above(&definitions.measured, one.size.nested, &self.path) {
            return Ok(None);
        }
        let more = MOST_NESTED.saturating_sub(self.path.len());
        if one.size.nested > more || one.size.visited > self.left {
            return Err(Halted::By(ExpansionFault::TooLarge));
        }
        Ok(Some(one))
    }

    /// The nodes of the definition that was gone into last, counted at once, if they are known and it can't lead to one on the path.
    fn copy<'a>(&mut self, definitions: &'a Definitions) -> Result<Option<&'a Children>, Halted>
        requires sized { AreSized definitions.now }
        requires left { self.old.left ≤ most_visited }
        ensures copy { CopiesAtOnce (expanded_copies (given (found_by definitions.now) self.old.path.items) (content_last definitions.now self.old.path.items) self.old.left) self.old.left self.new.left (λ copy. nodes_of copy.now) result }
        ensures path { self.new.path ≡ self.old.path }
        ensures left { self.new.left ≤ self.old.left }
    {
        let Some(one) = self.measured(definitions)? else {
            return Ok(None);
        };
        let Some(copy) = &one.copy else {
            return Ok(None);
        };
        if one.stuck.is_some() {
            return Ok(None);
        }
        self.left -= one.size.visited;
        Ok(Some(copy))
    }
}

/// How many characters a text has; an element has none of its own.
pub fn characters_in(node: &Node) -> usize
    ensures { result + 1 ≡ size_of node.now }
{
    match node {
        Node::Text(text) => text.as_str().chars().count(),
        Node::Element { .. } => 0,
    }
}

/// Whether a node is a reference.
pub fn is_substitution_reference_node(node: &Node) -> bool
    ensures { result ≡ is_substitution_reference_node node.now }
{
    match node {
        Node::Element { tag, .. } => is_substitution_reference(*tag),
        Node::Text(_) => false,
    }
}

/// Whether an element of a kind is a reference.
pub fn is_substitution_reference(tag: Tag) -> bool
    ensures { result ≡ is_substitution_reference tag }
{
    matches!(tag, Tag::SubstitutionReference)
}

/// Puts copies of nodes after those that are there, with the references in them replaced in turn.
fn add_expanded(
    alloc: Global,
    definitions: &Definitions,
    content: &Children,
    progress: &mut Progress,
    nodes: &mut Vec<Node>,
) -> Result<(), Halted>
    requires sized { AreSized definitions.now }
    requires left { progress.old.left ≤ most_visited }
    ensures nodes { ComesTo (after_nodes nodes.old.items (expanded_copies (given (found_by definitions.now) progress.old.path.items) content.now progress.old.left)) (λ _. (nodes.new.items, progress.new.left)) result }
    ensures path { OnOk result (progress.new.path.items ≡ progress.old.path.items) }
    ensures left { OnOk result (progress.new.left ≤ progress.old.left) }
{
    for node in content.as_slice() {
        if !progress.visit(node) {
            return Err(Halted::By(ExpansionFault::TooLarge));
        }
        match node {
            Node::Text(text) => {
                nodes.push(Node::Text(text.copy()?))?;
                continue;
            }
            Node::Element {
                tag,
                attrs,
                children,
                line,
            } => {
                if is_substitution_reference(*tag) {
                    let name = text_or_empty(attrs, Key::Refname);
                    let inner = entered(alloc, definitions, name, progress)?;
                    if let Some(copy) = progress.copy(definitions)? {
                        nodes.append(&mut copies(alloc, copy)?.into_list())?;
                        progress.path.pop();
                        continue;
                    }
                    add_expanded(alloc, definitions, inner, progress, nodes)?;
                    progress.path.pop();
                    continue;
                }
                let mut inner = Vec::new(alloc);
                add_expanded(alloc, definitions, children, progress, &mut inner)?;
                nodes.push(copied_element(alloc, *tag, attrs, inner, *line)?)?;
                continue;
            }
        }
    }
    Ok(())
}

/// A copy of an element around other nodes: the registered element stays the one that was copied.
fn copied_element(
    alloc: Global,
    tag: Tag,
    attrs: &Attrs,
    children: Vec<Node>,
    line: usize,
) -> Result<Node>
    ensures { IfOk result (λ node. node ≡ copied_element tag attrs.now children.items line) }
{
    let mut attrs = attrs.copy(alloc)?;
    attrs.remove(Key::Serial);
    Ok(element(tag, attrs, Children::of(children), line))
}

/// The content of the definition that a name finds, which is gone into.
fn entered<'a>(
    alloc: Global,
    definitions: &'a Definitions,
    name: &str,
    progress: &mut Progress,
) -> Result<&'a Children, Halted>
    ensures content { let reference = given (found_by definitions.now) progress.old.path.items name.now in Enters reference (λ content. expanded_copies (given (found_by definitions.now) progress.new.path.items) content.now) result }
    ensures there { IfOk result (λ content. content_last definitions.now progress.new.path.items ≡ content.now) }
    ensures path { OnOk result (take (vec_len progress.new.path - 1) progress.new.path.items ≡ progress.old.path.items) }
    ensures left { progress.new.left ≡ progress.old.left }
{
    let Some(place) = definitions.find(alloc, name)? else {
        return Err(undefined(alloc, name)?);
    };
    let Some(content) = definitions.content(place) else {
        return Err(undefined(alloc, name)?);
    };
    if progress.path.contains(&place) {
        let name = Text::from_str(alloc, name)?;
        return Err(Halted::By(ExpansionFault::Circular(name)));
    }
    if progress.path.len() >= MOST_NESTED {
        return Err(Halted::By(ExpansionFault::TooLarge));
    }
    progress.path.push(place)?;
    Ok(content)
}

/// The end of an expansion at a name without definition.
fn undefined(alloc: Global, name: &str) -> Result<Halted>
    ensures { IfOk result (λ halted. halted ≡ HaltedBy (Undefined name.now)) }
{
    let name = Text::from_str(alloc, name)?;
    Ok(Halted::By(ExpansionFault::Undefined(name)))
}

/// Ends with the fault of a reference of a name that isn't replaced, if what is measured tells it; `within` is the definition that it is in.
fn find_fault(
    alloc: Global,
    definitions: &Definitions,
    name: &str,
    within: Option<usize>,
) -> Result<(), Halted>
    requires { AreSized definitions.now }
    ensures { TellsFault (given (found_by definitions.now) (path_from within) name.now most_visited) result }
{
    let mut progress = Progress::new(alloc, within)?;
    entered(alloc, definitions, name, &mut progress)?;
    for _step in 0..MOST_NESTED {
        let Some(one) = progress.measured(definitions)? else {
            break;
        };
        let Some(stuck) = &one.stuck else {
            break;
        };
        progress.left -= one.size.visited;
        entered(alloc, definitions, stuck.as_str(), &mut progress)?;
    }
    Ok(())
}

/// The nodes for a reference of a name; `within` is the definition that it is in.
///
/// If they aren't known, it is first looked for a fault, so that nothing is copied in vain.
pub fn expansion(
    alloc: Global,
    definitions: &Definitions,
    name: &str,
    within: Option<usize>,
) -> Result<Children, Halted>
    requires { AreSized definitions.now }
    ensures { ComesTo (nodes_for (found_by definitions.now) within name.now) (λ nodes. nodes_of nodes) result }
{
    let mut progress = Progress::new(alloc, within)?;
    let content = entered(alloc, definitions, name, &mut progress)?;
    if let Some(copy) = progress.copy(definitions)? {
        return Ok(copies(alloc, copy)?);
    }
    find_fault(alloc, definitions, name, within)?;
    let mut nodes = Vec::new(alloc);
    add_expanded(alloc, definitions, content, &mut progress, &mut nodes)?;
    Ok(Children::of(nodes))
}

/// The nodes for a reference to the definition at a place, unless that is at fault.
pub fn expanded_alone(
    alloc: Global,
    definitions: &Definitions,
    place: usize,
    content: &Children,
) -> Result<Option<Children>>
    requires { AreSized definitions.now }
    ensures { IfOk result (λ copy. MatchOption copy (Unit {0}) (λ nodes. (more left : ℕ) (path : List ℕ) → GivesCopy nodes (expanded_copies (given_within (found_by definitions.now) more path) content.now left))) }
{
    let mut progress = Progress::new(alloc, Some(place))?;
    let mut nodes = Vec::new(alloc);
    match add_expanded(alloc, definitions, content, &mut progress, &mut nodes) {
        Ok(()) => Ok(Some(Children::of(nodes))),
        Err(Halted::By(_)) => Ok(None),
        Err(Halted::NoMemory) => Err(AllocError),
    }
}
