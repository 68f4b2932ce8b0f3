//! Titles, sections and transitions: what the program prints. The expected texts come from an independent program.
use super::rows::Row;

/// What is read and what is printed.
pub(super) const ROWS: &[Row] = &[
    Row {
        name: "a title and a paragraph",
        words: "",
        input: "Title\n=====\n\nText.",
        out: r#"<document ids="title" names="title" source="<stdin>" title="Title">
    <title>
        Title
    <paragraph>
        Text.
"#,
        err: "",
        status: 0,
    },
    Row {
        name: "an underline that is too short",
        words: "",
        input: "Title\n====",
        out: r#"<document ids="title" names="title" source="<stdin>" title="Title">
    <title>
        Title
    <system_message level="2" line="2" source="<stdin>" type="WARNING">
        <paragraph>
            Title underline too short.
        <literal_block xml:space="preserve">
            Title
            ====
"#,
        err: r"<stdin>:2: (WARNING/2) Title underline too short.

Title
====
",
        status: 0,
    },
    Row {
        name: "a short underline of three characters is none",
        words: "",
        input: "Title\n===",
        out: r#"<document source="<stdin>">
    <paragraph>
        Title
        ===
"#,
        err: "",
        status: 0,
    },
    Row {
        name: "that a short underline may be a title is told",
        words: "-v",
        input: "Title\n===",
        out: r#"<document source="<stdin>">
    <system_message level="1" line="2" source="<stdin>" type="INFO">
        <paragraph>
            Possible title underline, too short for the title.
            Treating it as ordinary text because it's so short.
    <paragraph>
        Title
        ===
"#,
        err: r"<stdin>:2: (INFO/1) Possible title underline, too short for the title.
Treating it as ordinary text because it's so short.
",
        status: 0,
    },
    Row {
        name: "two sections of one title",
        words: "",
        input: "A\n=\n\nx\n\nA\n=\n\ny",
        out: r#"<document source="<stdin>">
    <section dupnames="a" ids="a">
        <title>
            A
        <paragraph>
            x
    <section dupnames="a" ids="a-1">
        <title>
            A
        <paragraph>
            y
"#,
        err: "",
        status: 0,
    },
    Row {
        name: "a title in a list halts the run",
        words: "",
        input: "- Title\n  =====",
        out: "",
        err: r"<stdin>:2: (SEVERE/4) Unexpected section title.

Title
=====
Exiting due to level-4 (SEVERE) system message.
",
        status: 1,
    },
    Row {
        name: "nothing halts, and the status tells the highest level",
        words: "--halt=5 --exit-status=3",
        input: "- Title\n  =====",
        out: r#"<document source="<stdin>">
    <bullet_list bullet="-">
        <list_item>
            <system_message level="4" line="2" source="<stdin>" type="SEVERE">
                <paragraph>
                    Unexpected section title.
                <literal_block xml:space="preserve">
                    Title
                    =====
"#,
        err: r"<stdin>:2: (SEVERE/4) Unexpected section title.

Title
=====
",
        status: 14,
    },
    Row {
        name: "a lone section is the title, one in it the subtitle",
        words: "",
        input: "A\n=\n\nB\n-\n\nx",
        out: r#"<document ids="a" names="a" source="<stdin>" title="A">
    <title>
        A
    <subtitle ids="b" names="b">
        B
    <paragraph>
        x
"#,
        err: "",
        status: 0,
    },
    Row {
        name: "a transition",
        words: "",
        input: "a\n\n----\n\nb",
        out: r#"<document source="<stdin>">
    <paragraph>
        a
    <transition>
    <paragraph>
        b
"#,
        err: "",
        status: 0,
    },
    Row {
        name: "a transition at the beginning",
        words: "",
        input: "----\n\na",
        out: r#"<document source="<stdin>">
    <system_message level="3" line="1" source="<stdin>" type="ERROR">
        <paragraph>
            Document or section may not begin with a transition.
    <transition>
    <paragraph>
        a
"#,
        err: "<stdin>:1: (ERROR/3) Document or section may not begin with a transition.\n",
        status: 0,
    },
    Row {
        name: "a transition at the end",
        words: "",
        input: "a\n\n----",
        out: r#"<document source="<stdin>">
    <paragraph>
        a
    <transition>
    <system_message level="3" line="3" source="<stdin>" type="ERROR">
        <paragraph>
            Document may not end with a transition.
"#,
        err: "<stdin>:3: (ERROR/3) Document may not end with a transition.\n",
        status: 0,
    },
    Row {
        name: "an inconsistent level halts the run",
        words: "",
        input: "A\n=\n\nB\n-\n\nC\n=\n\nE\n~",
        out: "",
        err: r"<stdin>:10: (SEVERE/4) Title level inconsistent:

E
~
Exiting due to level-4 (SEVERE) system message.
",
        status: 1,
    },
];
