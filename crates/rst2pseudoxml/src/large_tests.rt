//! Runs over long lines and long substitutions: what is at a limit, and one more.
use super::rows::{output_of, repeated_texts};
use itoa::Buffer;
use std::alloc::Global;
use std::process::Abort;
use std::test::Fail;

/// What is printed before the first node.
const ROOT: &str = "<document source=\"<stdin>\">\n";

/// Runs over some texts, each repeated by its number, and compares the output with other texts, repeated likewise.
fn compare(
    rt: &impl Abort,
    alloc: Global,
    input: &[(&str, usize)],
    out: &[(&str, usize)],
    err: &str,
) -> Result<(), Fail> {
    let input = repeated_texts(alloc, input)?;
    let found = output_of(alloc, "", input.as_bytes())?;
    let out = repeated_texts(alloc, out)?;
    assert_eq!(rt; str::from_utf8(found.err.as_slice())?, err);
    assert_eq!(rt; str::from_utf8(found.out.as_slice())?, out.as_str());
    Ok(())
}

#[test]
fn reads_lines_of_10000_characters(rt: HostRuntime) -> Result<(), Fail> {
    let alloc = rt.alloc();
    let paragraph = "    <paragraph>\n        ";
    compare(
        &rt,
        alloc,
        &[("x", 10_000)],
        &[(ROOT, 1), (paragraph, 1), ("x", 10_000), ("\n", 1)],
        "",
    )?;
    compare(
        &rt,
        alloc,
        &[("x", 10_001)],
        &[
            (ROOT, 1),
            (
                r#"    <system_message level="3" line="1" source="<stdin>" type="ERROR">
        <paragraph>
            Line 1 exceeds the line-length-limit.
"#,
                1,
            ),
        ],
        "<stdin>:1: (ERROR/3) Line 1 exceeds the line-length-limit.\n",
    )
}

#[test]
fn expands_to_9999_characters(rt: HostRuntime) -> Result<(), Fail> {
    let alloc = rt.alloc();
    let begins = "|a|\n\n.. |a| replace:: ";
    let holds = "    <substitution_definition names=\"a\">\n        ";
    let (line, next) = ("\n        ", "\n   ");
    compare(
        &rt,
        alloc,
        &[(begins, 1), ("x", 4999), (next, 1), ("x", 4999)],
        &[
            (ROOT, 1),
            ("    <paragraph>\n        ", 1),
            ("x", 4999),
            (line, 1),
            ("x", 4999),
            ("\n", 1),
            (holds, 1),
            ("x", 4999),
            (line, 1),
            ("x", 4999),
            ("\n", 1),
        ],
        "",
    )?;
    compare(
        &rt,
        alloc,
        &[(begins, 1), ("x", 4999), (next, 1), ("x", 5000)],
        &[
            (ROOT, 1),
            (
                r#"    <paragraph>
        <problematic ids="problematic-1" refid="system-message-1">
            |a|
"#,
                1,
            ),
            (holds, 1),
            ("x", 4999),
            (line, 1),
            ("x", 5000),
            (
                r#"
    <section classes="system-messages">
        <title>
            Docutils System Messages
        <system_message backrefs="problematic-1" ids="system-message-1" level="3" line="1" source="<stdin>" type="ERROR">
            <paragraph>
                Substitution expansion too large: "a".
"#,
                1,
            ),
        ],
        "<stdin>:1: (ERROR/3) Substitution expansion too large: \"a\".\n",
    )
}

/// A reference to a substitution, which contains one to the next, and so on; the last, of this number, contains a text.
fn chain(alloc: Global, last: usize) -> Result<String, Fail> {
    let mut buffer = Buffer::new();
    let mut all = String::from_str(alloc, "|a1|\n\n")?;
    for number in 1..=last {
        all.push_str(".. |a")?;
        all.push_str(buffer.format(number))?;
        all.push_str("| replace:: ")?;
        if number == last {
            all.push_str("x\n")?;
        } else {
            all.push_str("|a")?;
            all.push_str(buffer.format(number + 1))?;
            all.push_str("|\n")?;
        }
    }
    Ok(all)
}

#[test]
fn expands_in_100_steps(rt: HostRuntime) -> Result<(), Fail> {
    let alloc = rt.alloc();
    let found = output_of(alloc, "", chain(alloc, 100)?.as_bytes())?;
    assert!(rt; found.err.is_empty());
    let out = str::from_utf8(found.out.as_slice())?;
    assert!(rt;
        out.starts_with(
            "<document source=\"<stdin>\">\n    <paragraph>\n        x\n    <substitution_definition"
        )
    );
    let found = output_of(alloc, "", chain(alloc, 101)?.as_bytes())?;
    assert_eq!(rt;
        str::from_utf8(found.err.as_slice())?,
        "<stdin>:1: (ERROR/3) Substitution expansion too large: \"a1\".\n<stdin>:3: (ERROR/3) Substitution expansion too large: \"a2\".\n"
    );
    Ok(())
}
