//! Lists, quotes, literal blocks, comments and the forms of lines: what the program prints. The expected texts come from an independent program.
use super::rows::Row;

/// What is read and what is printed.
pub(super) const ROWS: &[Row] = &[
    Row {
        name: "no input",
        words: "",
        input: "",
        out: "<document source=\"<stdin>\">\n",
        err: "",
        status: 0,
    },
    Row {
        name: "a paragraph",
        words: "",
        input: "Hello, world",
        out: r#"<document source="<stdin>">
    <paragraph>
        Hello, world
"#,
        err: "",
        status: 0,
    },
    Row {
        name: "a list that ends without a blank line",
        words: "",
        input: "- a\n- b\nc",
        out: r#"<document source="<stdin>">
    <bullet_list bullet="-">
        <list_item>
            <paragraph>
                a
        <list_item>
            <paragraph>
                b
    <system_message level="2" line="3" source="<stdin>" type="WARNING">
        <paragraph>
            Bullet list ends without a blank line; unexpected unindent.
    <paragraph>
        c
"#,
        err: "<stdin>:3: (WARNING/2) Bullet list ends without a blank line; unexpected unindent.\n",
        status: 0,
    },
    Row {
        name: "a list and a paragraph",
        words: "",
        input: "- a\n- b\n\nc",
        out: r#"<document source="<stdin>">
    <bullet_list bullet="-">
        <list_item>
            <paragraph>
                a
        <list_item>
            <paragraph>
                b
    <paragraph>
        c
"#,
        err: "",
        status: 0,
    },
    Row {
        name: "an enumerator before an unindented line",
        words: "",
        input: "1. a\nb",
        out: r#"<document source="<stdin>">
    <paragraph>
        1. a
        b
"#,
        err: "",
        status: 0,
    },
    Row {
        name: "a list that starts at three",
        words: "",
        input: "3. a",
        out: r#"<document source="<stdin>">
    <enumerated_list enumtype="arabic" prefix="" start="3" suffix=".">
        <list_item>
            <paragraph>
                a
"#,
        err: "",
        status: 0,
    },
    Row {
        name: "that a list starts at three is told",
        words: "-v",
        input: "3. a",
        out: r#"<document source="<stdin>">
    <enumerated_list enumtype="arabic" prefix="" start="3" suffix=".">
        <list_item>
            <paragraph>
                a
    <system_message level="1" line="1" source="<stdin>" type="INFO">
        <paragraph>
            Enumerated list start value not ordinal-1: "3" (ordinal 3)
"#,
        err: "<stdin>:1: (INFO/1) Enumerated list start value not ordinal-1: \"3\" (ordinal 3)\n",
        status: 0,
    },
    Row {
        name: "roman numerals",
        words: "",
        input: "i. a\nii. b",
        out: r#"<document source="<stdin>">
    <enumerated_list enumtype="lowerroman" prefix="" suffix=".">
        <list_item>
            <paragraph>
                a
        <list_item>
            <paragraph>
                b
"#,
        err: "",
        status: 0,
    },
    Row {
        name: "letters",
        words: "",
        input: "c. x\nd. y",
        out: r#"<document source="<stdin>">
    <enumerated_list enumtype="loweralpha" prefix="" start="3" suffix=".">
        <list_item>
            <paragraph>
                x
        <list_item>
            <paragraph>
                y
"#,
        err: "",
        status: 0,
    },
    Row {
        name: "a quote in a quote",
        words: "",
        input: "        a\n    b",
        out: r#"<document source="<stdin>">
    <block_quote>
        <block_quote>
            <paragraph>
                a
        <system_message level="2" line="2" source="<stdin>" type="WARNING">
            <paragraph>
                Block quote ends without a blank line; unexpected unindent.
        <paragraph>
            b
"#,
        err: "<stdin>:2: (WARNING/2) Block quote ends without a blank line; unexpected unindent.\n",
        status: 0,
    },
    Row {
        name: "definitions between paragraphs",
        words: "",
        input: "a\nb\n  c\nd",
        out: r#"<document source="<stdin>">
    <paragraph>
        a
        b
    <system_message level="3" line="3" source="<stdin>" type="ERROR">
        <paragraph>
            Unexpected indentation.
    <block_quote>
        <paragraph>
            c
    <system_message level="2" line="4" source="<stdin>" type="WARNING">
        <paragraph>
            Block quote ends without a blank line; unexpected unindent.
    <paragraph>
        d
"#,
        err: r"<stdin>:3: (ERROR/3) Unexpected indentation.
<stdin>:4: (WARNING/2) Block quote ends without a blank line; unexpected unindent.
",
        status: 0,
    },
    Row {
        name: "line ends, tabs and form feeds",
        words: "",
        input: "a\tb\r\n\r\n-\tc\rd\u{c}e\u{2028}",
        out: r#"<document source="<stdin>">
    <paragraph>
        a       b
    <bullet_list bullet="-">
        <list_item>
            <paragraph>
                c
    <system_message level="2" line="4" source="<stdin>" type="WARNING">
        <paragraph>
            Bullet list ends without a blank line; unexpected unindent.
    <paragraph>
        d e
"#,
        err: "<stdin>:4: (WARNING/2) Bullet list ends without a blank line; unexpected unindent.\n",
        status: 0,
    },
    Row {
        name: "an empty comment before a quote",
        words: "",
        input: "..\n\n   x",
        out: r#"<document source="<stdin>">
    <comment xml:space="preserve">
    <block_quote>
        <paragraph>
            x
"#,
        err: "",
        status: 0,
    },
    Row {
        name: "a comment",
        words: "",
        input: ".. y\n\n   x",
        out: "<document source=\"<stdin>\">\n    <comment xml:space=\"preserve\">\n        y\n        \n        x\n",
        err: "",
        status: 0,
    },
    Row {
        name: "a literal block",
        words: "",
        input: "a::\n\n  x\n   y\nz",
        out: r#"<document source="<stdin>">
    <paragraph>
        a:
    <literal_block xml:space="preserve">
        x
         y
    <system_message level="2" line="5" source="<stdin>" type="WARNING">
        <paragraph>
            Literal block ends without a blank line; unexpected unindent.
    <paragraph>
        z
"#,
        err: "<stdin>:5: (WARNING/2) Literal block ends without a blank line; unexpected unindent.\n",
        status: 0,
    },
    Row {
        name: "a definition, an option and a line block",
        words: "",
        input: "term : c\n  def\n\n-a X  desc\n\n| l\n|   m",
        out: r#"<document source="<stdin>">
    <definition_list>
        <definition_list_item>
            <term>
                term
            <classifier>
                c
            <definition>
                <paragraph>
                    def
    <option_list>
        <option_list_item>
            <option_group>
                <option>
                    <option_string>
                        -a
                    <option_argument delimiter=" ">
                        X
            <description>
                <paragraph>
                    desc
    <line_block>
        <line>
            l
        <line_block>
            <line>
                m
"#,
        err: "",
        status: 0,
    },
    Row {
        name: "a quoted literal block",
        words: "",
        input: "a::\n\n> x\n> y\nz",
        out: r#"<document source="<stdin>">
    <paragraph>
        a:
    <literal_block xml:space="preserve">
        > x
        > y
    <system_message level="3" line="5" source="<stdin>" type="ERROR">
        <paragraph>
            Inconsistent literal block quoting.
    <paragraph>
        z
"#,
        err: "<stdin>:5: (ERROR/3) Inconsistent literal block quoting.\n",
        status: 0,
    },
    Row {
        name: "fields",
        words: "",
        input: "x\n\n:a b: c\n:d:\n   e",
        out: r#"<document source="<stdin>">
    <paragraph>
        x
    <field_list>
        <field>
            <field_name>
                a b
            <field_body>
                <paragraph>
                    c
        <field>
            <field_name>
                d
            <field_body>
                <paragraph>
                    e
"#,
        err: "",
        status: 0,
    },
    Row {
        name: "options",
        words: "",
        input: "-a, --all=N  x",
        out: r#"<document source="<stdin>">
    <option_list>
        <option_list_item>
            <option_group>
                <option>
                    <option_string>
                        -a
                <option>
                    <option_string>
                        --all
                    <option_argument delimiter="=">
                        N
            <description>
                <paragraph>
                    x
"#,
        err: "",
        status: 0,
    },
    Row {
        name: "a character that is zero",
        words: "",
        input: "a\u{0}b",
        out: "<document source=\"<stdin>\">\n    <paragraph>\n        a\u{0}b\n",
        err: "",
        status: 0,
    },
];
