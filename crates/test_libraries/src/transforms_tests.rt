//! Texts, and the documents that are finished of them.
use super::tree_tests::printed;
use rst_block::{BlockFault, Parsed, parse};
use rst_settings::{Parts, Settings};
use rst_text::Lines;
use rst_transform::{Finished, finish};
use std::alloc::Global;
use std::process::Abort;
use std::test::Fail;

/// What is read of a text, before the transforms.
fn read(alloc: Global, text: &str) -> Result<Parsed, BlockFault> {
    let lines = Lines::of(alloc, text, 8, Parts::NONE)?;
    parse(alloc, &lines)
}

/// References to nothing, of two kinds.
pub fn unresolved(alloc: Global) -> Result<Parsed, BlockFault> {
    read(alloc, "x_\n\n|y|")
}

/// Ends the test where a document isn't finished as wanted: its tree as it is printed, and after it each message.
fn judge(rt: &impl Abort, alloc: Global, parsed: Parsed, want: &str) -> Result<(), Fail> {
    let Finished { tree, notes, .. } = finish(alloc, parsed, &Settings::usual())?;
    let mut got = printed(alloc, tree.into_root())?;
    for note in &notes {
        let level = note.level.name();
        let text = note.text.as_str();
        let line = note.line;
        let note = format!(in alloc; "{level} {line}: {text}\n")?;
        got.push_str(note.as_str())?;
    }
    assert_eq!(rt; got.as_str(), want);
    Ok(())
}

const HELLO: &str = "<document>
    <paragraph>
        Hello, world
";

const UNRESOLVED: &str = "<document>
    <paragraph>
        <problematic ids=\"problematic-2\" refid=\"system-message-2\">
            x_
    <paragraph>
        <problematic ids=\"problematic-1\" refid=\"system-message-1\">
            |y|
    <section classes=\"system-messages\">
        <title>
            Docutils System Messages
        <system_message backrefs=\"problematic-1\" ids=\"system-message-1\" level=\"3\" line=\"3\" type=\"ERROR\">
            <paragraph>
                Undefined substitution referenced: \"y\".
        <system_message backrefs=\"problematic-2\" ids=\"system-message-2\" level=\"3\" line=\"1\" type=\"ERROR\">
            <paragraph>
                Unknown target name: \"x\".
ERROR 3: Undefined substitution referenced: \"y\".
ERROR 1: Unknown target name: \"x\".
";

#[test]
fn finishes_documents(rt: HostRuntime) -> Result<(), Fail> {
    let alloc = rt.alloc();
    judge(&rt, alloc, read(alloc, "Hello, world")?, HELLO)?;
    judge(&rt, alloc, unresolved(alloc)?, UNRESOLVED)
}
