//! Inline markup: what the program prints. The expected texts come from an independent program.
use super::rows::Row;

/// What is read and what is printed.
pub(super) const ROWS: &[Row] = &[
    Row {
        name: "emphasis without an end",
        words: "",
        input: "*a",
        out: r#"<document source="<stdin>">
    <paragraph>
        <problematic ids="problematic-1" refid="system-message-1">
            *
        a
    <system_message backrefs="problematic-1" ids="system-message-1" level="2" line="1" source="<stdin>" type="WARNING">
        <paragraph>
            Inline emphasis start-string without end-string.
"#,
        err: "<stdin>:1: (WARNING/2) Inline emphasis start-string without end-string.\n",
        status: 0,
    },
    Row {
        name: "stars between blanks",
        words: "",
        input: "2 * 3 * 4",
        out: r#"<document source="<stdin>">
    <paragraph>
        2 * 3 * 4
"#,
        err: "",
        status: 0,
    },
    Row {
        name: "a quoted star",
        words: "",
        input: "\"*\"",
        out: r#"<document source="<stdin>">
    <paragraph>
        "*"
"#,
        err: "",
        status: 0,
    },
    Row {
        name: "an escaped star",
        words: "",
        input: "\\*a*",
        out: r#"<document source="<stdin>">
    <paragraph>
        *a*
"#,
        err: "",
        status: 0,
    },
    Row {
        name: "an end within a word",
        words: "",
        input: "*a*b",
        out: r#"<document source="<stdin>">
    <paragraph>
        <problematic ids="problematic-1" refid="system-message-1">
            *
        a*b
    <system_message backrefs="problematic-1" ids="system-message-1" level="2" line="1" source="<stdin>" type="WARNING">
        <paragraph>
            Inline emphasis start-string without end-string.
"#,
        err: "<stdin>:1: (WARNING/2) Inline emphasis start-string without end-string.\n",
        status: 0,
    },
    Row {
        name: "an escaped blank",
        words: "",
        input: "*a*\\ *b*",
        out: r#"<document source="<stdin>">
    <paragraph>
        <emphasis>
            a
        <emphasis>
            b
"#,
        err: "",
        status: 0,
    },
    Row {
        name: "a lone backslash",
        words: "",
        input: "\\",
        out: r#"<document source="<stdin>">
    <paragraph>
"#,
        err: "",
        status: 0,
    },
    Row {
        name: "a message that is not told",
        words: "-q",
        input: "*a",
        out: r#"<document source="<stdin>">
    <paragraph>
        *
        a
"#,
        err: "",
        status: 0,
    },
    Row {
        name: "strong, literal and subscript",
        words: "",
        input: "a **b** ``\\x`` :sub:`2`",
        out: "<document source=\"<stdin>\">\n    <paragraph>\n        a \n        <strong>\n            b\n         \n        <literal>\n            \\x\n         \n        <subscript>\n            2\n",
        err: "",
        status: 0,
    },
    Row {
        name: "an unknown role",
        words: "",
        input: ":x:`y`",
        out: r#"<document source="<stdin>">
    <paragraph>
        <problematic ids="problematic-1" refid="system-message-1">
            :x:`y`
    <system_message backrefs="problematic-1" ids="system-message-1" level="3" line="1" source="<stdin>" type="ERROR">
        <paragraph>
            Unknown interpreted text role "x".
"#,
        err: "<stdin>:1: (ERROR/3) Unknown interpreted text role \"x\".\n",
        status: 0,
    },
];
