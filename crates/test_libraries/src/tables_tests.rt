//! Tables: what they are, and what is wrong with those that are malformed. The answers come from outside.
use rst_markup_blocks::{Construct, Kind};
use rst_markup_tables::{Cell, TableResult, grid, malformed_text, simple};
use rst_settings::Parts;
use rst_text::{Lines, Looks, View};
use std::alloc::{AllocError, Global};
use std::test::Fail;

/// Grid tables: some with spans, and one for each thing that can be wrong.
const GRIDS: &[(&str, &str)] = &[
    (
        "+---+---+---+\n| a | b | c |\n|   +---+---+\n|   | d     |\n+---+---+---+\n| e | f | g |\n+---+---+---+",
        "T7 w3,3,3 h0 / [1 0 2:a; 3:; 4:;] [0 0 2:b;] [0 0 2:c;] / [0 1 4:d;] / [0 0 6:e;] [0 0 6:f;] [0 0 6:g;]",
    ),
    ("+---+\n+===+\n| 中|\n+---+", "T4 w3 h1 / [0 0] / [0 0 3:中;]"),
    ("+---+\n| a |\nx", "E2 Bottom border missing."),
    ("+---+\n| a  |\n+---+", "E3 Right edge broken."),
    (
        "+---+\n|a  |\n+===+\n|b  |\n+===+\n|c  |\n+---+",
        "E7 Multiple head/body row separators (table lines 3 and 5); only one allowed.",
    ),
    (
        "+---+---+\n| a | b |\n+---+   |\n| c   d |\n+---+---+",
        "E5 Malformed table; parse incomplete.",
    ),
];

/// Simple tables: some with spans, and one for each thing that can be wrong.
const SIMPLES: &[(&str, &str)] = &[
    ("== ==\n== ==", "T2 w2,2 h0"),
    ("== ==\na  b\n== ==", "T3 w2,2 h0 / [0 0 2:a;] [0 0 2:b;]"),
    (
        "== ==\na  b\n== ==\nc\n-----\nd  e\n== ==",
        "T7 w2,2 h1 / [0 0 2:a;] [0 0 2:b;] / [0 1 4:c;] / [0 0 6:d;] [0 0 6:e;]",
    ),
    ("== ==\na  b", "E2 No bottom table border found."),
    (
        "== ==\na  b\n== ==\nc  d\n== ===",
        "E5 Bottom border or header rule does not match top border.",
    ),
    (
        "== ==\na  b\n-\n== ==",
        "E4 Column span alignment problem in table line 3.",
    ),
    (
        "== ==\nabc d\n== ==",
        "E3 Text in column margin in table line 2.",
    ),
];

/// A cell as `[morerows morecols number:text; ..]`, spaces written as `_`.
fn show_cell(alloc: Global, out: &mut String, cell: Cell) -> Result<(), AllocError> {
    out.push_str(" [")?;
    push_number(out, cell.morerows)?;
    out.push_str(" ")?;
    push_number(out, cell.morecols)?;
    let lines = cell.lines.into_lines(alloc)?;
    let view = View::whole(&lines);
    for i in 0..view.len() {
        out.push_str(" ")?;
        push_number(out, view.number(i))?;
        out.push_str(":")?;
        for c in lines.line(i).chars() {
            out.push(if c == ' ' { '_' } else { c })?;
        }
        out.push_str(";")?;
    }
    Ok(out.push_str("]")?)
}

fn push_number(out: &mut String, number: usize) -> Result<(), AllocError> {
    let mut buffer = itoa::Buffer::new();
    out.push_str(buffer.format(number))
}

/// A table as `T`, its end, widths, head rows and rows, each after a `/`; what is wrong as `E`, the end and the detail.
pub fn show(alloc: Global, table: TableResult) -> Result<String, AllocError> {
    let mut out = String::new(alloc);
    match table {
        TableResult::Malformed { end, note } => {
            out.push_str("E")?;
            push_number(&mut out, end)?;
            let text = malformed_text(alloc, note.detail)?;
            out.push_str(" ")?;
            out.push_str(
                text.as_str()
                    .strip_prefix("Malformed table.\n")
                    .unwrap_or("?"),
            )?;
        }
        TableResult::Table {
            cols,
            head,
            rows,
            end,
        } => {
            out.push_str("T")?;
            push_number(&mut out, end)?;
            out.push_str(" w")?;
            for (k, width) in cols.as_slice().iter().enumerate() {
                if k > 0 {
                    out.push_str(",")?;
                }
                push_number(&mut out, *width)?;
            }
            out.push_str(" h")?;
            push_number(&mut out, head)?;
            for row in rows.into_rows() {
                out.push_str(" /")?;
                for cell in row {
                    show_cell(alloc, &mut out, cell)?;
                }
            }
        }
    }
    Ok(out)
}

#[test]
fn grids(rt: HostRuntime) -> Result<(), Fail> {
    for &(text, want) in GRIDS {
        let lines = Lines::of(rt.alloc(), text, 8, Parts::NONE)?;
        let view = View::whole(&lines);
        assert!(rt; view.len() > 0);
        let mut looks = Looks::none();
        let table = grid(rt.alloc(), &view, 0, &mut looks)?;
        let got = show(rt.alloc(), table)?;
        assert_eq!(rt; got.as_str(), want, "{text}");
    }
    Ok(())
}

#[test]
fn simples(rt: HostRuntime) -> Result<(), Fail> {
    for &(text, want) in SIMPLES {
        let lines = Lines::of(rt.alloc(), text, 8, Parts::NONE)?;
        let view = View::whole(&lines);
        assert!(rt; view.len() > 0);
        let mut looks = Looks::none();
        let table = simple(rt.alloc(), &view, 0, &mut looks)?;
        let got = show(rt.alloc(), table)?;
        assert_eq!(rt; got.as_str(), want, "{text}");
    }
    Ok(())
}

/// The end of the construct of a kind that begins at the first line of a text.
fn end_by(alloc: Global, kind: Kind, text: &str) -> Result<Option<usize>, AllocError> {
    let lines = Lines::of(alloc, text, 8, Parts::NONE)?;
    let view = View::whole(&lines);
    let mut looks = Looks::none();
    if 0 < view.len() && kind.starts(&view, 0, true, &mut looks) {
        Ok(Some(kind.end(&view, 0, true, &mut looks)))
    } else {
        Ok(None)
    }
}

#[test]
fn ends_tables(rt: HostRuntime) -> Result<(), Fail> {
    let text = "+---+\n| a |\n+---+\nb";
    assert_eq!(rt; end_by(rt.alloc(), Kind::Grid, text)?, Some(3));
    assert_eq!(rt; end_by(rt.alloc(), Kind::Simple, text)?, None);
    Ok(())
}
