// Expressions as texts of the bytes that spell them.
ghost use Rattle.std.specs.Prelude.{◌≡◌, true, IfOk};
ghost use Rattle.std.specs.String.{string_bytes};
ghost use Rattle.vx_wire.specs.Registries.{registered};
ghost use Rattle.vx_display.specs.TreeTexts.{tree_text_of};
ghost use Rattle.vx_text.specs.Writing.{is_writable, query_text};
ghost use Rattle.vx_explain.specs.Explaining.{Shows, query_line, shown_line};

use std::alloc::Global;
use vx_display::tree_text;
use vx_dtype::{Mem, NoMemory};
use vx_expr::ExprRef;
use vx_scan::{ScanError, Side, decode_expr};
use vx_text::{TextError, write_query};
use vx_wire::ExprRegistry;

/// The compact text of the expression that bytes spell, in a line.
///
/// Refuses, with the side of an expression that stands alone, with BadWire, TooDeep or TooManyNodes for the bytes, and then with
/// UnknownExpr, BadMetadata or WrongChildren for the tree that they spell.
pub fn show(alloc: Global, registry: &ExprRegistry, bytes: &[u8]) -> Result<String, ScanError>
    ensures { Shows shown_line (registered registry.now) bytes.now result }
{
    let expr = decode_expr(alloc, registry, bytes, Side::Text)?;
    Ok(line_of(alloc, &expr)?)
}

/// The text of the expression that bytes spell as a tree, a line for each node. Refuses as [`show`] does.
pub fn show_tree(alloc: Global, registry: &ExprRegistry, bytes: &[u8]) -> Result<String, ScanError>
    ensures { Shows tree_text_of (registered registry.now) bytes.now result }
{
    let expr = decode_expr(alloc, registry, bytes, Side::Text)?;
    Ok(tree_text(alloc, &expr)?)
}

/// The query that names the expression which bytes spell, in a line. Refuses as [`show`] does: no bytes spell a dynamic
/// comparison, so each expression that bytes spell has a query.
pub fn show_query(alloc: Global, registry: &ExprRegistry, bytes: &[u8]) -> Result<String, ScanError>
    ensures { Shows query_line (registered registry.now) bytes.now result }
{
    let expr = decode_expr(alloc, registry, bytes, Side::Text)?;
    Ok(query_line(alloc, &expr)?)
}

/// The query that names an expression, in a line.
fn query_line(alloc: Global, expr: &ExprRef) -> Mem<String>
    requires { is_writable expr.now ≡ true }
    ensures { IfOk result (λ line. string_bytes line ≡ query_line expr.now) }
{
    let mut line = query_of(alloc, expr)?;
    line.push_str("\n")?;
    Ok(line)
}

/// The query that names an expression.
fn query_of(alloc: Global, expr: &ExprRef) -> Mem<String>
    requires { is_writable expr.now ≡ true }
    ensures { IfOk result (λ query. string_bytes query ≡ query_text expr.now) }
{
    match write_query(alloc, expr) {
        Ok(query) => Ok(query),
        Err(TextError::NoMemory) => Err(NoMemory),
        Err(TextError::NotWritable) => unreachable!(),
        Err(TextError::TooLong) => unreachable!(),
        Err(TextError::BadToken) => unreachable!(),
        Err(TextError::TooManyTokens) => unreachable!(),
        Err(TextError::BadQuery) => unreachable!(),
        Err(TextError::BadValue) => unreachable!(),
    }
}

/// The compact text of an expression, in a line.
fn line_of(alloc: Global, expr: &ExprRef) -> Mem<String>
    ensures { IfOk result (λ text. string_bytes text ≡ shown_line expr.now) }
{
    Ok(format!(in alloc; "{expr}\n")?)
}
