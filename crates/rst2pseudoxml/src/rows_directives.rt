//! Directives, bibliographic fields and options: what the program prints. The expected texts come from an independent program.
use super::rows::Row;

/// What is read and what is printed.
pub(super) const ROWS: &[Row] = &[
    Row {
        name: "a note and an image",
        words: "",
        input: ".. note:: Hi\n\n   x\n.. image:: a.png\n   :scale: 50%",
        out: r#"<document source="<stdin>">
    <note>
        <paragraph>
            Hi
        <paragraph>
            x
    <image scale="50" uri="a.png">
"#,
        err: "",
        status: 0,
    },
    Row {
        name: "an unknown directive",
        words: "",
        input: ".. foo:: x",
        out: r#"<document source="<stdin>">
    <system_message level="3" line="1" source="<stdin>" type="ERROR">
        <paragraph>
            Unknown directive type "foo".
        <literal_block xml:space="preserve">
            .. foo:: x
"#,
        err: r#"<stdin>:1: (ERROR/3) Unknown directive type "foo".

.. foo:: x
"#,
        status: 0,
    },
    Row {
        name: "an unknown option of a directive",
        words: "",
        input: ".. image::\n   :foo: 1",
        out: r#"<document source="<stdin>">
    <system_message level="3" line="1" source="<stdin>" type="ERROR">
        <paragraph>
            Error in "image" directive:
            unknown option: "foo".
        <literal_block xml:space="preserve">
            .. image::
               :foo: 1
"#,
        err: r#"<stdin>:1: (ERROR/3) Error in "image" directive:
unknown option: "foo".

.. image::
   :foo: 1
"#,
        status: 0,
    },
    Row {
        name: "an admonition with a title",
        words: "",
        input: ".. admonition:: My Note\n\n   x",
        out: r#"<document source="<stdin>">
    <admonition classes="admonition-my-note">
        <title>
            My Note
        <paragraph>
            x
"#,
        err: "",
        status: 0,
    },
    Row {
        name: "a figure",
        words: "",
        input: ".. figure:: a.png\n   :figwidth: 50%\n\n   cap\n\n   leg",
        out: r#"<document source="<stdin>">
    <figure width="50%">
        <image uri="a.png">
        <caption>
            cap
        <legend>
            <paragraph>
                leg
"#,
        err: "",
        status: 0,
    },
    Row {
        name: "a block of code",
        words: "",
        input: ".. code:: py\n\n   x\n     y",
        out: r#"<document source="<stdin>">
    <literal_block classes="code py" xml:space="preserve">
        x
          y
"#,
        err: "",
        status: 0,
    },
    Row {
        name: "a block of code without content",
        words: "",
        input: ".. code-block::",
        out: r#"<document source="<stdin>">
    <system_message level="3" line="1" source="<stdin>" type="ERROR">
        <paragraph>
            Content block expected for the "code-block" directive; none found.
        <literal_block xml:space="preserve">
            .. code-block::
"#,
        err: r#"<stdin>:1: (ERROR/3) Content block expected for the "code-block" directive; none found.

.. code-block::
"#,
        status: 0,
    },
    Row {
        name: "a replacement text of which nothing is shown",
        words: "",
        input: ".. |a| replace:: \u{3000}::",
        out: "<document source=\"<stdin>\">\n    <system_message level=\"3\" line=\"1\" source=\"<stdin>\" type=\"ERROR\">\n        <paragraph>\n            Error in \"replace\" directive:\n            may contain a single paragraph only.\n        <literal_block xml:space=\"preserve\">\n            .. |a| replace:: \u{3000}::\n",
        err: "<stdin>:1: (ERROR/3) Error in \"replace\" directive:\nmay contain a single paragraph only.\n\n.. |a| replace:: \u{3000}::\n",
        status: 0,
    },
    Row {
        name: "bibliographic fields",
        words: "",
        input: ":Author: Ann\n:Version: 1\n:X y: z",
        out: r#"<document source="<stdin>">
    <docinfo>
        <author>
            Ann
        <version>
            1
        <field classes="x-y">
            <field_name>
                X y
            <field_body>
                <paragraph>
                    z
"#,
        err: "",
        status: 0,
    },
    Row {
        name: "fields as they are",
        words: "--no-doc-info",
        input: ":Author: Ann\n:Version: 1\n:X y: z",
        out: r#"<document source="<stdin>">
    <field_list>
        <field>
            <field_name>
                Author
            <field_body>
                <paragraph>
                    Ann
        <field>
            <field_name>
                Version
            <field_body>
                <paragraph>
                    1
        <field>
            <field_name>
                X y
            <field_body>
                <paragraph>
                    z
"#,
        err: "",
        status: 0,
    },
    Row {
        name: "authors and an abstract",
        words: "",
        input: ":Authors: A; B\n:Abstract: c",
        out: r#"<document source="<stdin>">
    <docinfo>
        <authors>
            <author>
                A
            <author>
                B
    <topic classes="abstract">
        <title>
            Abstract
        <paragraph>
            c
"#,
        err: "",
        status: 0,
    },
    Row {
        name: "an empty date",
        words: "",
        input: ":Date:\n\nx",
        out: r#"<document source="<stdin>">
    <docinfo>
        <field classes="date">
            <field_name>
                Date
            <field_body>
                <system_message level="2" line="1" source="<stdin>" type="WARNING">
                    <paragraph>
                        Bibliographic field "date" is not in its form.
    <paragraph>
        x
"#,
        err: "<stdin>:1: (WARNING/2) Bibliographic field \"date\" is not in its form.\n",
        status: 0,
    },
    Row {
        name: "two report levels",
        words: "-v -q",
        input: "",
        out: "",
        err: "rst2pseudoxml: two levels\n",
        status: 2,
    },
    Row {
        name: "an unknown level",
        words: "--report=loud",
        input: "",
        out: "",
        err: "rst2pseudoxml: bad level\n",
        status: 2,
    },
    Row {
        name: "a tab width of zero",
        words: "--tab-width=0",
        input: "",
        out: "",
        err: "rst2pseudoxml: bad tab width\n",
        status: 2,
    },
    Row {
        name: "an unknown word",
        words: "--nope",
        input: "",
        out: "",
        err: "rst2pseudoxml: bad arguments\n",
        status: 2,
    },
    Row {
        name: "a limit of three characters",
        words: "--line-length-limit=3",
        input: "ab\nabcd",
        out: r#"<document source="<stdin>">
    <system_message level="3" line="2" source="<stdin>" type="ERROR">
        <paragraph>
            Line 2 exceeds the line-length-limit.
"#,
        err: "<stdin>:2: (ERROR/3) Line 2 exceeds the line-length-limit.\n",
        status: 0,
    },
    Row {
        name: "a limit that tabs reach, but not white characters at the end of a line",
        words: "--line-length-limit=10 --tab-width=4",
        input: "\tabcdef\t \r\n\u{2028}a\t\tbc\u{2029}\t\tde\tf",
        out: r#"<document source="<stdin>">
    <system_message level="3" line="4" source="<stdin>" type="ERROR">
        <paragraph>
            Line 4 exceeds the line-length-limit.
"#,
        err: "<stdin>:4: (ERROR/3) Line 4 exceeds the line-length-limit.\n",
        status: 0,
    },
    Row {
        name: "a limit of zero",
        words: "--line-length-limit=0",
        input: "",
        out: "",
        err: "rst2pseudoxml: bad line limit\n",
        status: 2,
    },
    Row {
        name: "the first of two faults",
        words: "--line-length-limit=0 -v -q",
        input: "",
        out: "",
        err: "rst2pseudoxml: bad line limit\n",
        status: 2,
    },
];
