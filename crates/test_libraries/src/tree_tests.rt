//! Trees that are made by hand, changed, printed and rewritten.
ghost use Rattle.std.specs.Prelude.{[], not, if◌then◌else◌};
ghost use Rattle.rst_tree.specs.Rewritten.{kept};
ghost use Rattle.rst_tree.specs.Forest.{bare};
ghost use Rattle.rst_tree.specs.declared.node.Node.TheVariants.{Element};
ghost use Rattle.rst_tree.specs.declared.rewriting.Rewrite.TheVariants.{Replace};
ghost use Rattle.rst_tree.specs.declared.tag.Tag.TheVariants.{Transition};

use rst_text::Counted;
use rst_tree::{
    Attrs, Children, Key, Level, Node, Note, Rewriter, Tag, Text, Texts, Tree, Value, ValueRef,
    message_line, print, print_with_source, rewrite_in,
};
use std::alloc::{AllocError, Global};
use std::process::Abort;
use std::test::Fail;

/// The value of an attribute of a test's element.
#[derive(Clone, Copy)]
enum Says<'a> {
    Text(&'a str),
    Number(u64),
    List(&'a [&'a str]),
}

fn value(alloc: Global, given: Says<'_>) -> Result<Value, AllocError> {
    match given {
        Says::Text(text) => Ok(Value::Text(Text::from_str(alloc, text)?)),
        Says::Number(number) => Ok(Value::Number(number)),
        Says::List(members) => {
            let mut texts = Texts::new(alloc);
            for member in members {
                texts.push(Text::from_str(alloc, member)?)?;
            }
            Ok(Value::List(texts))
        }
    }
}

/// A node that is a text.
pub fn text(alloc: Global, given: &str) -> Result<Node, AllocError> {
    Node::text(alloc, given)
}

/// An element with attributes, which come in any order, and nodes in it.
fn element<const N: usize>(
    alloc: Global,
    tag: Tag,
    given: &[(Key, Says<'_>)],
    nodes: [Node; N],
) -> Result<Node, AllocError> {
    let mut attrs = Attrs::new(alloc);
    for (key, says) in given {
        attrs.set(*key, value(alloc, *says)?)?;
    }
    Ok(Node::Element {
        tag,
        attrs,
        children: Children::of(Vec::from_array(alloc, nodes)?),
        line: 1,
    })
}

/// An element that contains one text.
fn holding(alloc: Global, tag: Tag, given: &str) -> Result<Node, AllocError> {
    element(alloc, tag, &[], [text(alloc, given)?])
}

/// The document of a title with its underline, and a paragraph.
pub fn titled(alloc: Global) -> Result<Node, AllocError> {
    element(
        alloc,
        Tag::Document,
        &[
            (Key::Title, Says::Text("Title")),
            (Key::Names, Says::List(&["title"])),
            (Key::Ids, Says::List(&["title"])),
            (Key::Classes, Says::List(&[])),
        ],
        [
            holding(alloc, Tag::Title, "Title")?,
            holding(alloc, Tag::Paragraph, "Text.")?,
        ],
    )
}

/// A root as a tree, if it is one.
pub fn tree_of(root: Node) -> Result<Tree, Fail> {
    match Tree::of(root) {
        Ok(tree) => Ok(tree),
        Err(_) => Err(Fail::new("no tree")),
    }
}

/// A root as it is printed, if it is a tree.
pub fn printed(alloc: Global, root: Node) -> Result<String, Fail> {
    let tree = tree_of(root)?;
    let mut out = Counted::of(Vec::new(alloc));
    print(&tree, &mut out)?;
    let text = str::from_utf8(out.inner().as_slice())?;
    Ok(String::from_str(alloc, text)?)
}

/// Elements nested so deep, the innermost without nodes.
fn nested(alloc: Global, levels: usize) -> Result<Node, AllocError> {
    let mut node = Node::element(alloc, Tag::BlockQuote, 1);
    for _level in 1..levels {
        node = element(alloc, Tag::BlockQuote, &[], [node])?;
    }
    Ok(node)
}

/// Ends the test where a node is no tree but should be one, or the other way round.
fn judge(rt: &impl Abort, root: Node, want: bool) {
    assert_eq!(rt; Tree::of(root).is_ok(), want);
}

#[test]
fn knows_trees(rt: HostRuntime) -> Result<(), Fail> {
    let alloc = rt.alloc();
    for &(given, want) in &[("a\nb\u{1F}", true), ("a\rb", false), ("a\u{2028}", false)] {
        judge(&rt, text(alloc, given)?, want);
    }
    for &(levels, want) in &[(1550, true), (1551, false)] {
        judge(&rt, nested(alloc, levels)?, want);
    }
    Ok(())
}

const TITLED: &str = "<document ids=\"title\" names=\"title\" title=\"Title\">
    <title>
        Title
    <paragraph>
        Text.
";

#[test]
fn prints_trees(rt: HostRuntime) -> Result<(), Fail> {
    let alloc = rt.alloc();
    let empty = element(alloc, Tag::Document, &[], [])?;
    assert_eq!(rt; printed(alloc, empty)?.as_str(), "<document>\n");
    assert_eq!(rt; printed(alloc, titled(alloc)?)?.as_str(), TITLED);
    Ok(())
}

const CHANGED: &str = "<document ids=\"title\" names=\"title\" title=\"Title\">
    <title>
        Title
    <paragraph alt=\"8\" ids=\"9\">
        Text.
        b
";

#[test]
fn changes_trees(rt: HostRuntime) -> Result<(), Fail> {
    let alloc = rt.alloc();
    let Ok(mut tree) = Tree::of(titled(alloc)?) else {
        return Err(Fail::new("no tree"));
    };
    match tree.attr(&[], Key::Title) {
        Some(ValueRef::Text(given)) => assert_eq!(rt; given.as_str(), "Title"),
        _ => assert!(rt; false),
    }
    assert!(rt; !tree.fits(&[1], &nested(alloc, 1549)?));
    let more = text(alloc, "b\n")?;
    assert!(rt; !tree.fits(&[1, 0], &more));
    assert!(rt; tree.fits(&[1], &more));
    assert!(rt; tree.push(alloc, &[1], more).is_ok());
    for &(key, number) in &[(Key::Ids, 7), (Key::Alt, 8), (Key::Ids, 9)] {
        assert!(rt; tree.has_element(&[1]));
        tree.set(alloc, &[1], key, Value::Number(number))?;
    }
    assert_eq!(rt; tree.text_of(alloc, &[])?.as_str(), "TitleText.b\n");
    let copy = printed(alloc, tree.root().copy(alloc)?)?;
    assert_eq!(rt; copy.as_str(), CHANGED);
    assert_eq!(rt; printed(alloc, tree.into_root())?.as_str(), CHANGED);
    Ok(())
}

const WITH_SOURCE: &str = "<document source=\"s.rst\" title=\"A\">
    <system_message level=\"2\" line=\"1\" source=\"s.rst\" type=\"WARNING\">
        <paragraph>
            One.
";

#[test]
fn tells_the_source(rt: HostRuntime) -> Result<(), Fail> {
    let alloc = rt.alloc();
    let message = element(
        alloc,
        Tag::SystemMessage,
        &[(Key::Level, Says::Number(2))],
        [holding(alloc, Tag::Paragraph, "One.")?],
    )?;
    let title = [(Key::Title, Says::Text("A"))];
    let document = element(alloc, Tag::Document, &title, [message])?;
    let tree = tree_of(document)?;
    let mut out = Counted::of(Vec::new(alloc));
    print_with_source(&tree, "s.rst", &mut out)?;
    let got = str::from_utf8(out.inner().as_slice())?;
    assert_eq!(rt; got, WITH_SOURCE);
    Ok(())
}

/// Messages, and their lines on standard error.
const MESSAGES: &[(Level, &str, Option<&str>, &str)] = &[
    (Level::Info, "a\nb", None, "s:12: (INFO/1) a\nb\n"),
    (
        Level::Severe,
        "Unexpected section title.",
        Some("Title\n====="),
        "s:12: (SEVERE/4) Unexpected section title.\n\nTitle\n=====\n",
    ),
];

#[test]
fn prints_messages(rt: HostRuntime) -> Result<(), Fail> {
    let alloc = rt.alloc();
    for &(level, given, lines, want) in MESSAGES {
        let block = match lines {
            Some(lines) => Some(Text::from_str(alloc, lines)?),
            None => None,
        };
        let note = Note {
            level,
            line: 12,
            text: Text::from_str(alloc, given)?,
            block,
        };
        let mut out = Counted::of(Vec::new(alloc));
        message_line(&note, "s", &mut out)?;
        let got = str::from_utf8(out.inner().as_slice())?;
        assert_eq!(rt; got, want);
    }
    Ok(())
}

/// Puts a transition in the place of each second element that is met.
#[derive(Drop)]
struct Thinning {
    takes: bool,
}

impl Rewriter for Thinning {
    ghost entered = { λ s n. record { takes = not s.takes } };

    ghost becomes = { λ s n. if s.takes then Replace (Element Transition [] bare 1) else kept n };

    fn turn(&mut self, alloc: Global, element: &mut Node) -> Result<bool, AllocError> {
        let takes = self.takes;
        self.takes = !takes;
        if takes {
            *element = Node::element(alloc, Tag::Transition, 1);
            return Ok(false);
        }
        Ok(matches!(element, Node::Element { .. }))
    }
}

#[test]
fn rewrites(rt: HostRuntime) -> Result<(), Fail> {
    let alloc = rt.alloc();
    let quote = element(
        alloc,
        Tag::BlockQuote,
        &[(Key::Line, Says::Number(2))],
        [
            text(alloc, "x")?,
            holding(alloc, Tag::Paragraph, "a")?,
            holding(alloc, Tag::Tip, "b")?,
            holding(alloc, Tag::Note, "c")?,
        ],
    )?;
    let mut children = Children::of(vec![in alloc; quote]?);
    rewrite_in(alloc, &mut children, &mut Thinning { takes: false })?;
    let mut document = Node::element(alloc, Tag::Document, 1);
    if let Node::Element {
        children: place,
        ..
    } = &mut document
    {
        *place = children;
    }
    assert_eq!(rt; printed(alloc, document)?.as_str(), REWRITTEN);
    Ok(())
}

const REWRITTEN: &str = "<document>
    <block_quote line=\"2\">
        x
        <transition>
        <tip>
            b
        <transition>
";
