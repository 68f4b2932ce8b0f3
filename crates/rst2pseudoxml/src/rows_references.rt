//! Targets, references, footnotes and substitutions: what the program prints. The expected texts come from an independent program.
use super::rows::Row;

/// What is read and what is printed.
pub(super) const ROWS: &[Row] = &[
    Row {
        name: "an automatic number passes over a label",
        words: "",
        input: "[#]_ [1]_\n\n.. [#] x\n.. [1] y",
        out: "<document source=\"<stdin>\">\n    <paragraph>\n        <footnote_reference auto=\"1\" ids=\"footnote-reference-1\" refid=\"footnote-1\">\n            2\n         \n        <footnote_reference ids=\"footnote-reference-2\" refid=\"footnote-2\">\n            1\n    <footnote auto=\"1\" backrefs=\"footnote-reference-1\" ids=\"footnote-1\" names=\"2\">\n        <label>\n            2\n        <paragraph>\n            x\n    <footnote backrefs=\"footnote-reference-2\" ids=\"footnote-2\" names=\"1\">\n        <label>\n            1\n        <paragraph>\n            y\n",
        err: "",
        status: 0,
    },
    Row {
        name: "a label finds the footnote of its number",
        words: "",
        input: "[2]_ [1]_\n\n.. [#] x\n.. [1] y",
        out: "<document source=\"<stdin>\">\n    <paragraph>\n        <footnote_reference ids=\"footnote-reference-1\" refid=\"footnote-1\">\n            2\n         \n        <footnote_reference ids=\"footnote-reference-2\" refid=\"footnote-2\">\n            1\n    <footnote auto=\"1\" backrefs=\"footnote-reference-1\" ids=\"footnote-1\" names=\"2\">\n        <label>\n            2\n        <paragraph>\n            x\n    <footnote backrefs=\"footnote-reference-2\" ids=\"footnote-2\" names=\"1\">\n        <label>\n            1\n        <paragraph>\n            y\n",
        err: "",
        status: 0,
    },
    Row {
        name: "too many automatic references",
        words: "",
        input: "[#]_ [#]_\n\n.. [#] x",
        out: "<document source=\"<stdin>\">\n    <paragraph>\n        <footnote_reference auto=\"1\" ids=\"footnote-reference-1\" refid=\"footnote-1\">\n            1\n         \n        <problematic ids=\"problematic-1\" refid=\"system-message-1\">\n            [#]_\n    <footnote auto=\"1\" backrefs=\"footnote-reference-1\" ids=\"footnote-1\" names=\"1\">\n        <label>\n            1\n        <paragraph>\n            x\n    <section classes=\"system-messages\">\n        <title>\n            Docutils System Messages\n        <system_message backrefs=\"problematic-1\" ids=\"system-message-1\" level=\"3\" line=\"1\" source=\"<stdin>\" type=\"ERROR\">\n            <paragraph>\n                Too many autonumbered footnote references: only 1 corresponding footnotes available.\n",
        err: "<stdin>:1: (ERROR/3) Too many autonumbered footnote references: only 1 corresponding footnotes available.\n",
        status: 0,
    },
    Row {
        name: "two targets of one name",
        words: "",
        input: ".. _a: u\n.. _a: v",
        out: r#"<document source="<stdin>">
    <target dupnames="a" ids="a" refuri="u">
    <system_message backrefs="a-1" level="2" line="2" source="<stdin>" type="WARNING">
        <paragraph>
            Duplicate explicit target name: "a".
    <target dupnames="a" ids="a-1" refuri="v">
"#,
        err: "<stdin>:2: (WARNING/2) Duplicate explicit target name: \"a\".\n",
        status: 0,
    },
    Row {
        name: "two equal targets",
        words: "",
        input: ".. _a: u\n.. _a: u",
        out: r#"<document source="<stdin>">
    <target ids="a" names="a" refuri="u">
    <target dupnames="a" ids="a-1" refuri="u">
"#,
        err: "",
        status: 0,
    },
    Row {
        name: "that two targets are equal is told",
        words: "-v",
        input: ".. _a: u\n.. _a: u",
        out: r#"<document source="<stdin>">
    <target ids="a" names="a" refuri="u">
    <system_message backrefs="a-1" level="1" line="2" source="<stdin>" type="INFO">
        <paragraph>
            Duplicate explicit target name: "a".
    <target dupnames="a" ids="a-1" refuri="u">
"#,
        err: "<stdin>:2: (INFO/1) Duplicate explicit target name: \"a\".\n",
        status: 0,
    },
    Row {
        name: "circular substitutions",
        words: "",
        input: "|a| |x|\n\n.. |a| replace:: |b|\n.. |b| replace:: |a|",
        out: "<document source=\"<stdin>\">\n    <paragraph>\n        <problematic ids=\"problematic-1\" refid=\"system-message-1\">\n            |a|\n         \n        <problematic ids=\"problematic-2\" refid=\"system-message-2\">\n            |x|\n    <substitution_definition names=\"a\">\n        <problematic ids=\"problematic-3\" refid=\"system-message-3\">\n            |b|\n    <substitution_definition names=\"b\">\n        <problematic ids=\"problematic-4\" refid=\"system-message-4\">\n            |a|\n    <section classes=\"system-messages\">\n        <title>\n            Docutils System Messages\n        <system_message backrefs=\"problematic-1\" ids=\"system-message-1\" level=\"3\" line=\"1\" source=\"<stdin>\" type=\"ERROR\">\n            <paragraph>\n                Circular substitution definition referenced: \"a\".\n        <system_message backrefs=\"problematic-2\" ids=\"system-message-2\" level=\"3\" line=\"1\" source=\"<stdin>\" type=\"ERROR\">\n            <paragraph>\n                Undefined substitution referenced: \"x\".\n        <system_message backrefs=\"problematic-3\" ids=\"system-message-3\" level=\"3\" line=\"3\" source=\"<stdin>\" type=\"ERROR\">\n            <paragraph>\n                Circular substitution definition referenced: \"a\".\n        <system_message backrefs=\"problematic-4\" ids=\"system-message-4\" level=\"3\" line=\"4\" source=\"<stdin>\" type=\"ERROR\">\n            <paragraph>\n                Circular substitution definition referenced: \"b\".\n",
        err: r#"<stdin>:1: (ERROR/3) Circular substitution definition referenced: "a".
<stdin>:1: (ERROR/3) Undefined substitution referenced: "x".
<stdin>:3: (ERROR/3) Circular substitution definition referenced: "a".
<stdin>:4: (ERROR/3) Circular substitution definition referenced: "b".
"#,
        status: 0,
    },
    Row {
        name: "references to a URI and to a place",
        words: "",
        input: "Python_ and here_.\n\n.. _Python: https://x.org/\n.. _here:\n\nEnd.",
        out: "<document source=\"<stdin>\">\n    <paragraph>\n        <reference name=\"Python\" refuri=\"https://x.org/\">\n            Python\n         and \n        <reference name=\"here\" refid=\"here\">\n            here\n        .\n    <target ids=\"python\" names=\"python\" refuri=\"https://x.org/\">\n    <target refid=\"here\">\n    <paragraph ids=\"here\" names=\"here\">\n        End.\n",
        err: "",
        status: 0,
    },
    Row {
        name: "an anonymous reference",
        words: "",
        input: "`a b`__\n\n__ https://x.org/",
        out: r#"<document source="<stdin>">
    <paragraph>
        <reference anonymous="1" name="a b" refuri="https://x.org/">
            a b
    <target anonymous="1" ids="target-1" refuri="https://x.org/">
"#,
        err: "",
        status: 0,
    },
    Row {
        name: "an indirect target",
        words: "",
        input: "a_\n\n.. _a: b_\n.. _b: u",
        out: r#"<document source="<stdin>">
    <paragraph>
        <reference name="a" refuri="u">
            a
    <target ids="a" names="a" refuri="u">
    <target ids="b" names="b" refuri="u">
"#,
        err: "",
        status: 0,
    },
    Row {
        name: "circular targets",
        words: "",
        input: "a_\n\n.. _a: b_\n.. _b: a_",
        out: r#"<document source="<stdin>">
    <paragraph>
        <problematic ids="problematic-1" refid="system-message-1">
            a_
    <target ids="a" names="a">
    <target ids="b" names="b">
    <section classes="system-messages">
        <title>
            Docutils System Messages
        <system_message backrefs="problematic-1" ids="system-message-1" level="3" line="3" source="<stdin>" type="ERROR">
            <paragraph>
                Indirect hyperlink target "a" is circular.
        <system_message level="3" line="4" source="<stdin>" type="ERROR">
            <paragraph>
                Indirect hyperlink target "b" is circular.
"#,
        err: r#"<stdin>:3: (ERROR/3) Indirect hyperlink target "a" is circular.
<stdin>:4: (ERROR/3) Indirect hyperlink target "b" is circular.
"#,
        status: 0,
    },
    Row {
        name: "a footnote with a name",
        words: "",
        input: "[#n]_\n\n.. [#n] x",
        out: r#"<document source="<stdin>">
    <paragraph>
        <footnote_reference auto="1" ids="footnote-reference-1" refid="n">
            1
    <footnote auto="1" backrefs="footnote-reference-1" ids="n" names="n">
        <label>
            1
        <paragraph>
            x
"#,
        err: "",
        status: 0,
    },
    Row {
        name: "a citation",
        words: "",
        input: "[A]_\n\n.. [A] x",
        out: r#"<document source="<stdin>">
    <paragraph>
        <citation_reference ids="citation-reference-1" refid="a">
            A
    <citation backrefs="citation-reference-1" ids="a" names="a">
        <label>
            A
        <paragraph>
            x
"#,
        err: "",
        status: 0,
    },
    Row {
        name: "a substitution",
        words: "",
        input: "|a|!\n\n.. |a| replace:: b *c*",
        out: "<document source=\"<stdin>\">\n    <paragraph>\n        b \n        <emphasis>\n            c\n        !\n    <substitution_definition names=\"a\">\n        b \n        <emphasis>\n            c\n",
        err: "",
        status: 0,
    },
];
