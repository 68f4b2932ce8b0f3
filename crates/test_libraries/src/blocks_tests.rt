//! Documents that are read: their trees, how many looks at lines they take, and how deep blocks may be nested.
use super::tree_tests::tree_of;
use rst_block::{BlockFault, parse};
use rst_settings::Parts;
use rst_text::{Counted, Lines};
use rst_tree::print_with_source;
use std::alloc::Global;
use std::test::Fail;

/// Texts, and the trees that they are before the transforms.
const DOCUMENTS: &[(&str, &str)] = &[
    ("", "<document source=\"s\">\n"),
    (
        "Hello, world",
        "<document source=\"s\">
    <paragraph>
        Hello, world
",
    ),
    (
        "Title\n=====",
        "<document source=\"s\">
    <section>
        <title>
            Title
",
    ),
    (
        "*a",
        "<document source=\"s\">
    <paragraph>
        <problematic>
            *
        a
    <system_message level=\"2\" line=\"1\" source=\"s\" type=\"WARNING\">
        <paragraph>
            Inline emphasis start-string without end-string.
",
    ),
];

#[test]
fn reads_documents(rt: HostRuntime) -> Result<(), Fail> {
    let alloc = rt.alloc();
    for &(text, want) in DOCUMENTS {
        let lines = Lines::of(alloc, text, 8, Parts::NONE)?;
        let parsed = parse(alloc, &lines)?;
        let tree = tree_of(parsed.tree.into_root())?;
        let mut out = Counted::of(Vec::new(alloc));
        print_with_source(&tree, "s", &mut out)?;
        let got = str::from_utf8(out.inner().as_slice())?;
        assert_eq!(rt; got, want, "{text}");
    }
    Ok(())
}

/// The looks that a document takes.
fn looks_of(alloc: Global, text: &str) -> Result<u128, Fail> {
    let lines = Lines::of(alloc, text, 8, Parts::NONE)?;
    Ok(parse(alloc, &lines)?.looks)
}

/// Paragraphs of one line, parted by blank lines.
fn paragraphs(alloc: Global, count: usize) -> Result<String, Fail> {
    let mut text = String::from_str(alloc, "a")?;
    for _ in 1..count {
        text.push_str("\n\na")?;
    }
    Ok(text)
}

/// A look at least for each line of each block, and 128 at most for each line and level: none of these blocks is a table.
#[test]
fn looks_are_within_their_bounds(rt: HostRuntime) -> Result<(), Fail> {
    let alloc = rt.alloc();
    let few = paragraphs(alloc, 100)?;
    let looks = looks_of(alloc, few.as_str())?;
    assert!(rt; 199 <= looks && looks <= 128 * 199);
    let many = paragraphs(alloc, 1_000)?;
    let looks = looks_of(alloc, many.as_str())?;
    assert!(rt; 1_999 <= looks && looks <= 255_872);
    let looks = looks_of(alloc, "- - a")?;
    assert!(rt; 3 <= looks && looks <= 128 * 3);
    // a quote of two lines, whose first line is indented most
    let looks = looks_of(alloc, "    a\n  b")?;
    assert!(rt; 4 <= looks && looks <= 128 * 2 * 3);
    // 100 items, each in the one before
    let mut deep = String::new(alloc);
    for _ in 0..100 {
        deep.push_str("- ")?;
    }
    deep.push('a')?;
    let looks = looks_of(alloc, deep.as_str())?;
    assert!(rt; 101 <= looks && looks <= 128 * 101);
    Ok(())
}

/// Quotes in quotes, each one space less indented than the one before: 50 levels of 1 to 51 lines.
#[test]
fn quotes_in_quotes_stay_within_their_bounds(rt: HostRuntime) -> Result<(), Fail> {
    let alloc = rt.alloc();
    let mut text = String::new(alloc);
    for k in 0..51 {
        for _ in k..50 {
            text.push(' ')?;
        }
        text.push_str("a\n")?;
    }
    let looks = looks_of(alloc, text.as_str())?;
    assert!(rt; 1_326 <= looks && looks <= 128 * 51 * 51);
    Ok(())
}

/// The line at which the blocks of a text are nested too deeply, if they are.
fn line_too_deep(alloc: Global, text: &str) -> Result<Option<usize>, Fail> {
    let lines = Lines::of(alloc, text, 8, Parts::NONE)?;
    match parse(alloc, &lines) {
        Ok(_) => Ok(None),
        Err(BlockFault::TooDeep { line }) => Ok(Some(line)),
        Err(fault) => Err(fault.into()),
    }
}

/// An item of a list, each item in the one before, after some lines.
fn items(alloc: Global, before: &str, levels: usize) -> Result<String, Fail> {
    let mut text = String::from_str(alloc, before)?;
    for _ in 0..levels {
        text.push_str("- ")?;
    }
    text.push('a')?;
    Ok(text)
}

/// 250 blocks may be nested; the block inside these is reported by its first line that isn't blank.
#[test]
fn blocks_are_nested_250_deep(rt: HostRuntime) -> Result<(), Fail> {
    let alloc = rt.alloc();
    let deepest = items(alloc, "", 250)?;
    assert_eq!(rt; line_too_deep(alloc, deepest.as_str())?, None);
    let deeper = items(alloc, "text\n\n", 251)?;
    assert_eq!(rt; line_too_deep(alloc, deeper.as_str())?, Some(3));
    Ok(())
}

/// The first block that is nested too deeply counts, in the order of reading.
#[test]
fn first_line_too_deep_is_reported(rt: HostRuntime) -> Result<(), Fail> {
    let alloc = rt.alloc();
    let mut text = items(alloc, "", 251)?;
    let again = items(alloc, "\n\n", 251)?;
    text.push_str(again.as_str())?;
    assert_eq!(rt; line_too_deep(alloc, text.as_str())?, Some(1));
    Ok(())
}
