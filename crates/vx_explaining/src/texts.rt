// An explanation as lines of text.
ghost use Rattle.std.specs.Prelude.{◌≡◌, ◌++◌, codes, length, map, option_map, IfOk, OnOk};
ghost use Rattle.std.specs.List.{flat_map};
ghost use Rattle.std.specs.String.{string_bytes};
ghost use Rattle.vx_expr.specs.CompactTexts.{compact_text};
ghost use Rattle.vx_laws_explaining.specs.Explained as explained;
ghost use Rattle.vx_laws_explaining.specs.ExplainedTexts as spec;
ghost use Rattle.vx_explaining.specs.ExplainedViews.{column_view, decider_view, explained_view};

use crate::columns::{UsedColumn, number_of, number_read};
use crate::deciders::Decider;
use crate::explained::Explained;
use crate::values::value_or;
use std::alloc::Global;
use std::fmt::Write;
use vx_dtype::{Mem, NoMemory};
use vx_expr::ExprRef;
use vx_text::{TextError, write_query};

/// The query that names an expression, where there is one.
pub(crate) fn query_named(alloc: Global, expr: &ExprRef) -> Mem<Option<String>>
    ensures { IfOk result (λ query. option_map string_bytes query ≡ spec.query_named expr.now) }
{
    match write_query(alloc, expr) {
        Ok(query) => Ok(Some(query)),
        Err(TextError::NotWritable) => Ok(None),
        Err(TextError::NoMemory) => Err(NoMemory),
        Err(TextError::TooLong) => unreachable!(),
        Err(TextError::BadToken) => unreachable!(),
        Err(TextError::TooManyTokens) => unreachable!(),
        Err(TextError::BadQuery) => unreachable!(),
        Err(TextError::BadValue) => unreachable!(),
    }
}

/// The compact text of a pruning expression, where there is one.
pub(crate) fn pruning_text(alloc: Global, pruning: &Option<ExprRef>) -> Mem<Option<String>>
    ensures { IfOk result (λ text. option_map string_bytes text ≡ option_map compact_text pruning.now) }
{
    match pruning {
        Some(expr) => Ok(Some(expr.compact(alloc)?)),
        None => Ok(None),
    }
}

/// A text, or `-` where there is none.
fn text_or_dash(text: &Option<String>) -> &str
    ensures { result.now ≡ spec.text_or_dash (option_map string_bytes text.now) }
{
    match text {
        Some(text) => text.as_str(),
        None => "-",
    }
}

/// The line of an expression behind a word, and the line of its query.
fn expression_lines(alloc: Global, word: &str, expr: &ExprRef) -> Mem<String>
    ensures { IfOk result (λ lines. string_bytes lines ≡ spec.expression_lines word.now expr.now) }
{
    let text = expr.compact(alloc)?;
    let query = query_named(alloc, expr)?;
    let query = text_or_dash(&query);
    Ok(format!(in alloc; "{word}{text}\nquery {query}\n")?)
}

/// The names of statistics that decide, each behind a space.
fn spaced_names(alloc: Global, deciders: &[Decider<'_>]) -> Mem<String>
    ensures { IfOk result (λ names. string_bytes names ≡ flat_map (λ x. codes " " ++ x.name) (map decider_view deciders.now)) }
{
    let mut names = String::new(alloc);
    for decider in deciders {
        names.push_str(" ")?;
        names.push_str(decider.name.as_str())?;
    }
    Ok(names)
}

/// The names of the statistics that decide, each behind a space, or `-` where there are none.
fn names_shown(alloc: Global, deciders: &[Decider<'_>]) -> Mem<String>
    ensures { IfOk result (λ names. string_bytes names ≡ spec.names_shown (map decider_view deciders.now)) }
{
    match deciders {
        [] => Ok(String::from_str(alloc, " -")?),
        [_, ..] => spaced_names(alloc, deciders),
    }
}

/// The lines of the pruning expression and of the statistics that decide.
fn pruning_lines(alloc: Global, pruning: &Option<ExprRef>, deciders: &[Decider<'_>]) -> Mem<String>
    ensures { IfOk result (λ lines. string_bytes lines ≡ spec.pruning_lines pruning.now (map decider_view deciders.now)) }
{
    let pruning = pruning_text(alloc, pruning)?;
    let pruning = text_or_dash(&pruning);
    let names = names_shown(alloc, deciders)?;
    Ok(format!(in alloc; "pruning {pruning}\nstatistics{names}\n")?)
}

/// How many blocks are skipped.
pub(crate) fn number_skipped(skipped: &[bool]) -> usize
    ensures { result ≡ explained.number_skipped skipped.now }
{
    let mut number = 0;
    for out in skipped {
        if *out {
            number += 1;
        }
    }
    number
}

/// So many of so many, behind a word.
fn number_line(alloc: Global, word: &str, some: usize, all: usize) -> Mem<String>
    ensures { IfOk result (λ line. string_bytes line ≡ spec.number_line word.now some all) }
{
    Ok(format!(in alloc; "{word}{some} of {all}\n")?)
}

/// The lines of how many columns are read, and of how many blocks are skipped.
fn number_lines(
    alloc: Global,
    columns: &[UsedColumn<'_>],
    skipped: &[bool],
    lengths: &[u32],
) -> Mem<String>
    ensures { IfOk result (λ lines. string_bytes lines ≡ spec.number_lines (map column_view columns.now) skipped.now lengths.now) }
{
    let read = number_line(
        alloc,
        "columns read ",
        number_read(columns),
        number_of(columns),
    )?;
    let out = number_line(
        alloc,
        "blocks skipped ",
        number_skipped(skipped),
        lengths.len(),
    )?;
    Ok(format!(in alloc; "{read}{out}")?)
}

/// The lines before those of the blocks.
pub(crate) fn text_front(alloc: Global, explained: &Explained<'_>) -> Mem<String>
    ensures { IfOk result (λ front. string_bytes front ≡ spec.text_front (explained_view explained.now)) }
{
    let filter = expression_lines(alloc, "filter ", &explained.filter)?;
    let pruning = pruning_lines(alloc, &explained.pruning, explained.deciders.as_slice())?;
    let projection = expression_lines(alloc, "projection ", &explained.projection)?;
    let numbers = number_lines(
        alloc,
        explained.columns.as_slice(),
        explained.skipped.as_slice(),
        explained.lengths,
    )?;
    Ok(format!(in alloc; "{filter}{pruning}{projection}{numbers}")?)
}

/// Writes the name and the value of a statistic in a block, each behind a space, at the end, as far as there is memory.
fn push_bound(alloc: Global, out: &mut String, decider: &Decider<'_>, block: usize) -> Mem<()>
    ensures { OnOk result (string_bytes out.new ≡ string_bytes out.old ++ spec.bound_shown block (decider_view decider.now)) }
{
    let value = value_or(alloc, "unknown", decider.statistic, block)?;
    Ok(write!(out, " {} {value}", decider.name)?)
}

/// The names and the values of the statistics that decide in a block, each behind a space.
pub(crate) fn bounds_shown(alloc: Global, deciders: &[Decider<'_>], block: usize) -> Mem<String>
    ensures { IfOk result (λ bounds. string_bytes bounds ≡ flat_map (spec.bound_shown block) (map decider_view deciders.now)) }
{
    let mut bounds = String::new(alloc);
    for decider in deciders {
        push_bound(alloc, &mut bounds, decider, block)?;
    }
    Ok(bounds)
}

/// Whether a block is skipped or read.
pub(crate) fn state_text(skipped: bool) -> &'static str
    ensures { result.now ≡ spec.state_text skipped }
{
    if skipped { "skipped" } else { "read" }
}

/// The line of a block: its number, whether it is skipped, its rows, and the values of the statistics that decide.
pub(crate) fn block_shown(
    alloc: Global,
    deciders: &[Decider<'_>],
    block: usize,
    rows: u32,
    skipped: bool,
) -> Mem<String>
    ensures { IfOk result (λ line. string_bytes line ≡ spec.block_shown (map decider_view deciders.now) block rows skipped) }
{
    let bounds = bounds_shown(alloc, deciders, block)?;
    let state = state_text(skipped);
    Ok(format!(in alloc; "block {block} {state} rows {rows}{bounds}\n")?)
}
