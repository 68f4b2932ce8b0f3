//! Nodes and messages of texts. The answers were worked out from the public Markup Specification, not by this crate.
use super::tree_tests::printed;
use rst_inline::{Pieces, inline};
use rst_settings::Parts;
use rst_tree::{Attrs, Children, Node, Tag};
use std::alloc::Global;
use std::test::Fail;

/// Texts, their nodes as they are printed in a paragraph, and their messages.
const TEXTS: &[(&str, &str)] = &[
    ("", "<paragraph>\n"),
    ("Hello, world", "<paragraph>\n    Hello, world\n"),
    (
        "*a* **b**\\ ``c``",
        "<paragraph>
    <emphasis>
        a
     
    <strong>
        b
    <literal>
        c
",
    ),
    (
        "a_ `b <u>`_ |c| [1]_ _`d` :sub:`e`",
        "<paragraph>
    <reference name=\"a\">
        a
     
    <reference name=\"b\" refuri=\"u\">
        b
    <target refuri=\"u\">
     
    <substitution_reference>
        c
     
    <footnote_reference>
        1
     
    <target>
        d
     
    <subscript>
        e
",
    ),
    (
        "*a",
        "<paragraph>
    <problematic>
        *
    a
WARNING 7: Inline emphasis start-string without end-string.
",
    ),
    (
        "`y`:x:",
        "<paragraph>
    <problematic>
        `y`:x:
ERROR 7: Unknown interpreted text role \"x\".
",
    ),
];

/// The nodes and the messages of a text on line 7.
fn nodes_and_messages(alloc: Global, text: &str) -> Result<String, Fail> {
    let Pieces { nodes, notes } = inline(alloc, &Parts::NONE, text, 7)?;
    let paragraph = Node::Element {
        tag: Tag::Paragraph,
        attrs: Attrs::new(alloc),
        children: Children::of(nodes),
        line: 7,
    };
    let mut out = printed(alloc, paragraph)?;
    for note in &notes {
        let message = format!(in alloc;
            "{} {}: {}\n",
            note.level.name(),
            note.line,
            note.text.as_str()
        )?;
        out.push_str(message.as_str())?;
    }
    Ok(out)
}

#[test]
fn reads_inline_markup(rt: HostRuntime) -> Result<(), Fail> {
    for &(text, want) in TEXTS {
        let got = nodes_and_messages(rt.alloc(), text)?;
        assert_eq!(rt; got.as_str(), want, "{text}");
    }
    Ok(())
}
