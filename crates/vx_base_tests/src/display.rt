//! Tests of texts that no table holds: large expressions, one buffer, both forms, and values as they print.
ghost use Rattle.std.specs.Prelude.{Some};
ghost use Rattle.vx_expr.specs.NodeTexts.{text_as};

use std::alloc::Global;
use std::fmt;
use std::fmt::Write;
use std::test::Fail;
use vx_build::{and, col, not, root};
use vx_display::{display_tree, push_row, tree_text};
use vx_dtype::{FieldName, Mem, Scalar};
use vx_expr::{DisplayAs, DisplayFormat, ExprRef};

#[derive(Clone, Copy)]
struct Shown<'a>(&'a ExprRef, DisplayFormat);

impl<'a> fmt::Display for Shown<'a> {
    ghost output = { λ shown. Some (text_as shown.1 shown.0.now) };

    fn fmt<W: fmt::Write>(&self, f: &mut fmt::Formatter<W>) -> fmt::Result {
        self.0.fmt_as(self.1, f)
    }
}

/// The row under a thousand negations.
fn deep(alloc: Global) -> Mem<ExprRef> {
    let mut expr = root(alloc)?;
    for _ in 0..1000u32 {
        expr = not(alloc, expr)?;
    }
    Ok(expr)
}

/// A thousand brackets that open before the row and close behind it.
fn in_brackets(alloc: Global) -> Mem<String> {
    let mut text = String::new(alloc);
    for _ in 0..1000u32 {
        text.push_str("(!")?;
    }
    text.push_str("$")?;
    for _ in 0..1000u32 {
        text.push_str(")")?;
    }
    Ok(text)
}

/// A line for each of a thousand negations, and one for the row, each but the first behind its branch.
fn in_lines(alloc: Global) -> Mem<String> {
    let mut lines = String::from_str(alloc, "Not\n")?;
    let mut indent = String::new(alloc);
    for _ in 0..999u32 {
        lines.push_str(indent.as_str())?;
        lines.push_str("└── Not\n")?;
        indent.push_str("    ")?;
    }
    lines.push_str(indent.as_str())?;
    lines.push_str("└── Root\n")?;
    Ok(lines)
}

#[test]
fn deep_expressions_print(rt: HostRuntime) -> Result<(), Fail> {
    let alloc = rt.alloc();
    assert!(rt; deep(alloc)?.compact(alloc)? == in_brackets(alloc)?);
    assert!(rt; tree_text(alloc, &deep(alloc)?)? == in_lines(alloc)?);
    Ok(())
}

/// 2,048 rows under 2,047 conjunctions, of which each shares its operands.
fn wide(alloc: Global) -> Mem<ExprRef> {
    let mut expr = root(alloc)?;
    for _ in 0..11u32 {
        expr = and(alloc, expr.clone()?, expr)?;
    }
    Ok(expr)
}

// 4,096 nodes: 2,048 rows of one byte, 2,047 conjunctions of seven more, and a negation of three.
#[test]
fn wide_expressions_print(rt: HostRuntime) -> Result<(), Fail> {
    let alloc = rt.alloc();
    let text = not(alloc, wide(alloc)?)?.compact(alloc)?;
    assert!(rt; text.as_str().len() == 2048 + 2047 * 7 + 3);
    Ok(())
}

/// A text with a value's behind it.
fn with_row(mut text: String, row: &Scalar) -> Mem<String> {
    push_row(&mut text, row.dtype(), row.value())?;
    Ok(text)
}

/// The column `a`.
fn column_a(alloc: Global) -> Mem<ExprRef> {
    col(alloc, FieldName::new(alloc, "a")?)
}

/// Both forms of the column's text, with a space between.
fn both_forms(alloc: Global) -> Mem<String> {
    let expr = column_a(alloc)?;
    let mut shown = String::new(alloc);
    write!(
        shown,
        "{} {}",
        Shown(&expr, DisplayFormat::Compact),
        Shown(&expr, DisplayFormat::Tree)
    )?;
    Ok(shown)
}

/// The column's tree, as it prints.
fn shown_tree(alloc: Global) -> Mem<String> {
    let expr = column_a(alloc)?;
    Ok(format!(in alloc; "{}", display_tree(&expr))?)
}

#[test]
fn ample(rt: HostRuntime) -> Result<(), Fail> {
    let alloc = rt.alloc();
    let rows = with_row(String::from_str(alloc, "rows\n")?, &Scalar::from(true))?;
    assert!(rt; with_row(rows, &Scalar::from(-7i64))?.as_str() == "rows\ntrue-7");
    assert!(rt; both_forms(alloc)?.as_str() == "$.a GetItem(a)");
    assert!(rt; shown_tree(alloc)?.as_str() == "GetItem(a)\n└── Root\n");
    Ok(())
}
