//! Tables: what the program prints. The expected texts come from an independent program.
use super::rows::Row;

/// What is read and what is printed.
pub(super) const ROWS: &[Row] = &[
    Row {
        name: "a grid table with a row span",
        words: "",
        input: "+---+---+\n| a | b |\n|   +---+\n|   | c |\n+---+---+",
        out: r#"<document source="<stdin>">
    <table>
        <tgroup cols="2">
            <colspec colwidth="3">
            <colspec colwidth="3">
            <tbody>
                <row>
                    <entry morerows="1">
                        <paragraph>
                            a
                    <entry>
                        <paragraph>
                            b
                <row>
                    <entry>
                        <paragraph>
                            c
"#,
        err: "",
        status: 0,
    },
    Row {
        name: "a grid without a tiling",
        words: "",
        input: "+---+---+\n| a | b |\n+---+   |\n| c   d |\n+---+---+",
        out: r#"<document source="<stdin>">
    <system_message level="3" line="1" source="<stdin>" type="ERROR">
        <paragraph>
            Malformed table.
            Malformed table; parse incomplete.
        <literal_block xml:space="preserve">
            +---+---+
            | a | b |
            +---+   |
            | c   d |
            +---+---+
"#,
        err: r"<stdin>:1: (ERROR/3) Malformed table.
Malformed table; parse incomplete.

+---+---+
| a | b |
+---+   |
| c   d |
+---+---+
",
        status: 0,
    },
    Row {
        name: "a wide character in a grid",
        words: "",
        input: "+----+\n| 中 |\n+----+",
        out: r#"<document source="<stdin>">
    <table>
        <tgroup cols="1">
            <colspec colwidth="4">
            <tbody>
                <row>
                    <entry>
                        <paragraph>
                            中
"#,
        err: "",
        status: 0,
    },
    Row {
        name: "a simple table",
        words: "",
        input: "== ==\na  b c\n   d\n== ==",
        out: r#"<document source="<stdin>">
    <table>
        <tgroup cols="2">
            <colspec colwidth="2">
            <colspec colwidth="3">
            <tbody>
                <row>
                    <entry>
                        <paragraph>
                            a
                    <entry>
                        <paragraph>
                            b c
                            d
"#,
        err: "",
        status: 0,
    },
    Row {
        name: "text between columns",
        words: "",
        input: "== ==\nabc d\n== ==",
        out: r#"<document source="<stdin>">
    <system_message level="3" line="1" source="<stdin>" type="ERROR">
        <paragraph>
            Malformed table.
            Text in column margin in table line 2.
        <literal_block xml:space="preserve">
            == ==
            abc d
            == ==
"#,
        err: r"<stdin>:1: (ERROR/3) Malformed table.
Text in column margin in table line 2.

== ==
abc d
== ==
",
        status: 0,
    },
    Row {
        name: "a simple table with a head",
        words: "",
        input: "== ==\na  b\n== ==\n1  2\n== ==",
        out: r#"<document source="<stdin>">
    <table>
        <tgroup cols="2">
            <colspec colwidth="2">
            <colspec colwidth="2">
            <thead>
                <row>
                    <entry>
                        <paragraph>
                            a
                    <entry>
                        <paragraph>
                            b
            <tbody>
                <row>
                    <entry>
                        <paragraph>
                            1
                    <entry>
                        <paragraph>
                            2
"#,
        err: "",
        status: 0,
    },
    Row {
        name: "a column span",
        words: "",
        input: "== ==\na b\n-----\nc  d\n== ==",
        out: r#"<document source="<stdin>">
    <table>
        <tgroup cols="2">
            <colspec colwidth="2">
            <colspec colwidth="2">
            <tbody>
                <row>
                    <entry morecols="1">
                        <paragraph>
                            a b
                <row>
                    <entry>
                        <paragraph>
                            c
                    <entry>
                        <paragraph>
                            d
"#,
        err: "",
        status: 0,
    },
    Row {
        name: "two head rules",
        words: "",
        input: "+---+\n|a  |\n+===+\n|b  |\n+===+\n|c  |\n+---+",
        out: r#"<document source="<stdin>">
    <system_message level="3" line="1" source="<stdin>" type="ERROR">
        <paragraph>
            Malformed table.
            Multiple head/body row separators (table lines 3 and 5); only one allowed.
        <literal_block xml:space="preserve">
            +---+
            |a  |
            +===+
            |b  |
            +===+
            |c  |
            +---+
"#,
        err: r"<stdin>:1: (ERROR/3) Malformed table.
Multiple head/body row separators (table lines 3 and 5); only one allowed.

+---+
|a  |
+===+
|b  |
+===+
|c  |
+---+
",
        status: 0,
    },
];
