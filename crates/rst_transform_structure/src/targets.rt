//! Internal targets.
ghost use Rattle.std.specs.Prelude.{◌≡◌, ◌∷◌, ◌++◌, [], drop, false, is_some, reverse, IfOk};
ghost use Rattle.rst_tree.specs.declared.tag.Tag.TheVariants.{Document as IsDocument};
ghost use Rattle.rst_transform_work.specs.Known.{Makes};
ghost use Rattle.rst_transform_structure.specs.Passing.{paired_with_number, Passes};
ghost use Rattle.rst_transform_structure.specs.Targets.{with_ids_and_names, first_takes, got_by, handed, handed_by, is_first_passed, is_passed, passed_or_taker, reached, referring, taker, takers, with_targets, TakesTaker};

use rst_transform_names::{Holder, Names};
use rst_transform_work::{Context, Document, append, take_list};
use rst_tree::{Attrs, Key, Node, Reader, Result, Tag, Text, Value, Visitor, read_elements, walk};
use rst_tree_index::is_internal;
use std::alloc::Global;
use std::collections::VecDeque;
use std::marker::Model;
use std::mem;

/// Lets each internal target of the document's body hand its ids and names to the element that follows it, and refer to that
/// by its own id (Markup Specification, 'Internal Hyperlink Targets').
///
/// Before, from `.. _a:` and `.. _b:` above a paragraph:
///
///     <target ids="a" names="a">
///     <target ids="b" names="b">
///     <paragraph>
///
/// After:
///
///     <target refid="a">
///     <target refid="b">
///     <paragraph ids="b a" names="b a">
///
/// A target that no element follows, or one that takes no ids, stays as it is. Where the part `unmarked` of the wider profile holds, the element that
/// follows is looked for past messages.
pub fn targets(document: Document, unmarked: bool, context: &mut Context) -> Result<Document>
    ensures { IfOk result (Makes (with_targets unmarked document) context.old context.new) }
{
    let takers = takers(context.alloc, &document, unmarked)?;
    let mut walking = Walking::of(context.alloc, takers, unmarked);
    let node = walk(document.into_node(), &mut walking)?;
    pass(walking.got, &mut context.names);
    Ok(Document::of(node))
}

/// What an element is to a target before it.
#[derive(Clone, Copy)]
enum Taking {
    /// It takes the ids and names of the target.
    Takes,
    /// The target keeps them.
    Refuses,
    /// It is passed over with all that is in it: what comes after it decides.
    Passed,
}

/// What an element of a kind is to a target before it.
fn taker(unmarked: bool, tag: Tag) -> Taking
    ensures { result ≡ taker unmarked tag }
{
    match tag {
        Tag::Comment | Tag::SubstitutionDefinition => Taking::Refuses,
        Tag::SystemMessage if unmarked => Taking::Passed,
        Tag::Footnote | Tag::Citation if unmarked => Taking::Refuses,
        Tag::SystemMessage | Tag::Transition if !unmarked => Taking::Refuses,
        _ => Taking::Takes,
    }
}

/// Whether an element is passed over.
fn is_passed(taker: Taking) -> bool
    ensures { result ≡ is_passed taker }
{
    matches!(taker, Taking::Passed)
}

/// For the document and each element in it, in order, what it is to a target before it.
fn takers(alloc: Global, document: &Document, unmarked: bool) -> Result<Vec<Taking>>
    ensures { IfOk result (λ list. list.items ≡ taker unmarked IsDocument ∷ takers unmarked false document.now.children) }
{
    let mut takers = TakerReader {
        unmarked,
        list: Vec::new(alloc),
    };
    takers.list.push(taker(unmarked, Tag::Document))?;
    read_elements(alloc, &document.children, None, &mut takers)?;
    Ok(takers.list)
}

/// For each element that was read what it is to a target before it.
#[derive(Drop)]
struct TakerReader {
    unmarked: bool,
    list: Vec<Taking>,
}

impl Model for TakerReader {
    ghost use Rattle.rst_transform_structure.specs.Targets.{read_takers, ReadTakers};

    ghost Value = { ReadTakers };

    ghost view = { λ t. read_takers t.unmarked t.list.items };
}

impl<'a> Reader<'a> for TakerReader {
    ghost takes = { TakesTaker };

    // The inside of an element that is passed over is marked by `Some` level.
    fn read(
        &mut self,
        _alloc: Global,
        element: &'a Node,
        level: Option<usize>,
    ) -> Result<Option<usize>> {
        let Node::Element { tag, .. } = element else {
            return Ok(level);
        };
        let taker = passed_or_taker(level.is_some(), self.unmarked, *tag);
        self.list.push(taker)?;
        Ok(is_passed(taker).then_some(0))
    }
}

/// The same, of an element that may be in one that is passed over.
fn passed_or_taker(inside: bool, unmarked: bool, tag: Tag) -> Taking
    ensures { result ≡ passed_or_taker inside unmarked tag }
{
    if inside {
        return Taking::Passed;
    }
    taker(unmarked, tag)
}

/// What a walk over the elements of a document knows when it comes to one of them.
#[derive(Drop)]
struct Walking {
    alloc: Global,
    /// Whether the part `unmarked` holds.
    unmarked: bool,
    /// For this element and each one after it what it is to a target before it.
    takers: VecDeque<Taking>,
    /// The ids that it gets, the last first: so each target adds its own at the end.
    ids: Vec<Text>,
    /// The names that it gets, likewise.
    names: Vec<Text>,
    /// The names that elements before it keep, each with the element's number, if it has one.
    got: Vec<(Text, Option<u64>)>,
}

impl Model for Walking {
    ghost use Rattle.std.specs.Prelude.{reverse};
    ghost use Rattle.rst_transform_structure.specs.Targets.{handed, reached, Reached};

    ghost Value = { Reached };

    ghost view = { λ w. reached w.unmarked w.takers.items (handed (reverse w.ids.items) (reverse w.names.items)) w.got.items };
}

impl Walking {
    /// Before the first element.
    fn of(alloc: Global, takers: Vec<Taking>, unmarked: bool) -> Walking
        ensures { result ≡ reached unmarked takers.items (handed [] []) [] }
    {
        Walking {
            alloc,
            unmarked,
            takers: VecDeque::from_vec(takers),
            ids: Vec::new(alloc),
            names: Vec::new(alloc),
            got: Vec::new(alloc),
        }
    }

    /// Goes on to the elements after this one, and returns whether this is passed over.
    fn passes(&mut self) -> bool
        ensures passed { result ≡ is_first_passed self.old.takers }
        ensures left { self.new ≡ record self.old { takers = drop 1 self.old.takers } }
    {
        match self.takers.pop_front() {
            Some(taker) => is_passed(taker),
            None => false,
        }
    }

    /// Whether the next element that isn't passed over takes ids and names.
    fn next_takes(&self) -> bool
        ensures { result ≡ first_takes self.now.takers }
    {
        let mut place = 0;
        while let Some(taker) = self.takers.get(place) {
            match taker {
                Taking::Takes => return true,
                Taking::Refuses => return false,
                Taking::Passed => place += 1,
            }
        }
        false
    }

    /// Takes the ids and names from a target, which refers to its first id from now on.
    #[tactic(auto, using(crate::proofs::Retargeting::reversed_after, crate::proofs::Retargeting::listed_still))]
    fn hand_on(&mut self, attrs: &mut Attrs) -> Result<()>
        ensures attrs { IfOk result (λ _. attrs.new ≡ referring self.old.unmarked attrs.old) }
        ensures handed { IfOk result (λ _. self.new ≡ record self.old { handed = handed_by attrs.old self.old.handed }) }
    {
        let ids = take_list(self.alloc, attrs, Key::Ids);
        let names = take_list(self.alloc, attrs, Key::Names);
        if !self.unmarked {
            attrs.remove(Key::Dupnames);
        }
        add_backwards(&mut self.ids, ids.as_slice())?;
        add_backwards(&mut self.names, names.as_slice())?;
        match ids.as_slice().first() {
            Some(id) => attrs.set(Key::Refid, Value::Text(id.copy()?)),
            None => Ok(()),
        }
    }

    /// Gives the ids and names that were handed on to an element.
    fn hand_over(&mut self, attrs: &mut Attrs) -> Result<()>
        ensures attrs { IfOk result (λ _. attrs.new ≡ with_ids_and_names self.old.handed attrs.old) }
        ensures handed { IfOk result (λ _. self.new ≡ reached self.old.unmarked self.old.takers (handed [] []) (self.old.got ++ got_by attrs.old self.old.handed.names)) }
    {
        if self.ids.is_empty() && self.names.is_empty() {
            return Ok(());
        }
        let number = attrs.number(Key::Serial);
        self.ids.reverse();
        self.names.reverse();
        append(self.alloc, attrs, Key::Ids, self.ids.as_slice())?;
        append(self.alloc, attrs, Key::Names, self.names.as_slice())?;
        self.ids.clear();
        let names = mem::replace(&mut self.names, Vec::new(self.alloc));
        add_got(&mut self.got, names, number)
    }
}

impl Visitor for Walking {
    ghost use Rattle.rst_transform_structure.specs.Targets.{changed_item, next_reached};

    ghost next = { next_reached };

    ghost out = { changed_item };

    fn visit(&mut self, tag: &mut Tag, attrs: &mut Attrs, _line: &mut usize) -> Result<()> {
        if self.passes() {
            return Ok(());
        }
        if is_internal(*tag, attrs) && self.next_takes() {
            return self.hand_on(attrs);
        }
        self.hand_over(attrs)
    }
}

/// Puts texts after others, the last first.
fn add_backwards(texts: &mut Vec<Text>, more: &[Text]) -> Result<()>
    ensures { IfOk result (λ _. texts.new.items ≡ texts.old.items ++ reverse more.now) }
{
    let mut left = more.len();
    while left > 0 {
        left -= 1;
        texts.push(more[left].copy()?)?;
    }
    Ok(())
}

/// Adds names that an element with a number, or without, got.
fn add_got(got: &mut Vec<(Text, Option<u64>)>, names: Vec<Text>, number: Option<u64>) -> Result<()>
    ensures { IfOk result (λ _. got.new.items ≡ got.old.items ++ paired_with_number number names.items) }
{
    for name in names {
        got.push((name, number))?;
    }
    Ok(())
}

/// Lets the elements that got names hold them.
fn pass(got: Vec<(Text, Option<u64>)>, names: &mut Names)
    ensures { Passes got.items names.old names.new }
{
    for (name, number) in got {
        let holder = number.map_or(Holder::Unregistered, |number| Holder::Element(number));
        names.move_to(name.as_str(), holder);
    }
}
