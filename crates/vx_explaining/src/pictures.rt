// An explanation as a picture, a document of SVG.
ghost use Rattle.std.specs.Prelude.{◌≡◌, ◌++◌, length, map, IfOk, OnOk};
ghost use Rattle.std.specs.String.{string_bytes};
ghost use Rattle.vx_laws_explaining.specs.ExplainedPictures as spec;
ghost use Rattle.vx_explaining.specs.ExplainedViews.{column_view, decider_view, explained_view, usage_view};

use crate::columns::{Usage, UsedColumn, number_of};
use crate::deciders::{Decider, number_of_deciders};
use crate::explained::Explained;
use crate::marks::marked_text;
use crate::texts::{bounds_shown, state_text};
use std::alloc::Global;
use std::fmt::Write;
use vx_dtype::{FieldName, Mem};

/// A mark of each colour, and behind it what it means.
const LEGEND: &str = "\
<rect x=\"8\" y=\"8\" width=\"22\" height=\"16\" fill=\"#b0b0b0\"/><text x=\"38\" y=\"21\">block skipped</text>\n\
<rect x=\"8\" y=\"28\" width=\"22\" height=\"16\" fill=\"#1f6fb4\"/><text x=\"38\" y=\"41\">read for the filter or the order</text>\n\
<rect x=\"8\" y=\"48\" width=\"22\" height=\"16\" fill=\"#e6931e\"/><text x=\"38\" y=\"61\">read for the rows alone</text>\n\
<rect x=\"8\" y=\"68\" width=\"22\" height=\"16\" fill=\"#eeeeee\"/><text x=\"38\" y=\"81\">not asked</text>\n";

/// What the colours mean.
#[tactic(auto, unfolding(vx_laws_explaining::specs::ExplainedPictures::legend))]
fn legend() -> &'static str
    ensures { result.now ≡ spec.legend }
{
    LEGEND
}

/// Where the cells of a column begin from the left.
fn left_of(column: usize) -> u128
    ensures { result ≡ spec.left_of column }
{
    24 * column as u128 + 72
}

/// Where the cells of a block begin from the top.
fn top_of(block: usize) -> u128
    ensures { result ≡ spec.top_of block }
{
    20 * block as u128 + 176
}

/// The mark that opens a document of so many columns, statistics that decide, and blocks.
fn document_front(alloc: Global, columns: usize, deciders: usize, blocks: usize) -> Mem<String>
    ensures { IfOk result (λ mark. string_bytes mark ≡ spec.document_front columns deciders blocks) }
{
    let width = 24 * columns as u128 + (320 * deciders as u128 + 320);
    let height = 20 * blocks as u128 + 184;
    Ok(format!(in alloc;
        "<svg xmlns=\"http://www.w3.org/2000/svg\" width=\"{width}\" height=\"{height}\" font-family=\"monospace\" font-size=\"12\">\n"
    )?)
}

/// Writes the name of a column over its cells at the end, as far as there is memory.
fn push_heading(alloc: Global, out: &mut String, column: usize, name: &FieldName) -> Mem<()>
    ensures { OnOk result (string_bytes out.new ≡ string_bytes out.old ++ spec.heading column name.now) }
{
    let left = left_of(column);
    let name = marked_text(alloc, name.as_str())?;
    Ok(write!(
        out,
        "<text transform=\"translate({left},168) rotate(-45)\">{name}</text>\n"
    )?)
}

/// The names of columns over their cells.
fn headings(alloc: Global, columns: &[UsedColumn<'_>]) -> Mem<String>
    ensures { IfOk result (λ names. string_bytes names ≡ spec.headings 0 (map column_view columns.now)) }
{
    let mut names = String::new(alloc);
    for column in 0..columns.len() {
        push_heading(alloc, &mut names, column, columns[column].name)?;
    }
    Ok(names)
}

/// What stands before the rows of the blocks.
pub(crate) fn picture_front(alloc: Global, explained: &Explained<'_>) -> Mem<String>
    ensures { IfOk result (λ front. string_bytes front ≡ spec.picture_front (explained_view explained.now)) }
{
    let mark = document_front(
        alloc,
        number_of(explained.columns.as_slice()),
        number_of_deciders(explained.deciders.as_slice()),
        explained.lengths.len(),
    )?;
    let names = headings(alloc, explained.columns.as_slice())?;
    Ok(format!(in alloc; "{mark}{}{names}", legend())?)
}

/// The colour of a cell, by whether its block is skipped and by what its column is read for.
fn colour_of(skipped: bool, usage: Usage) -> &'static str
    ensures { result.now ≡ spec.colour_of skipped (usage_view usage) }
{
    match (skipped, usage) {
        (_, Usage::Nothing) => "#eeeeee",
        (true, _) => "#b0b0b0",
        (false, Usage::Filter) => "#1f6fb4",
        (false, Usage::Rows) => "#e6931e",
    }
}

/// Writes the cell of a block and a column at the end, as far as there is memory.
fn push_cell(out: &mut String, block: usize, skipped: bool, column: usize, usage: Usage) -> Mem<()>
    ensures { OnOk result (string_bytes out.new ≡ string_bytes out.old ++ spec.cell block skipped column (usage_view usage)) }
{
    let left = left_of(column);
    let top = top_of(block);
    let colour = colour_of(skipped, usage);
    Ok(write!(
        out,
        "<rect x=\"{left}\" y=\"{top}\" width=\"22\" height=\"16\" fill=\"{colour}\"/>"
    )?)
}

/// The cells of a block.
fn cells(alloc: Global, columns: &[UsedColumn<'_>], block: usize, skipped: bool) -> Mem<String>
    ensures { IfOk result (λ cells. string_bytes cells ≡ spec.cells block skipped 0 (map column_view columns.now)) }
{
    let mut cells = String::new(alloc);
    for column in 0..columns.len() {
        push_cell(&mut cells, block, skipped, column, columns[column].usage)?;
    }
    Ok(cells)
}

/// A text in the row of a block, so far from the left.
fn row_text(alloc: Global, left: u128, block: usize, text: &str) -> Mem<String>
    ensures { IfOk result (λ shown. string_bytes shown ≡ spec.row_text left block text.now) }
{
    let top = top_of(block) + 13;
    Ok(format!(in alloc; "<text x=\"{left}\" y=\"{top}\">{text}</text>")?)
}

/// The title of the row of a block.
fn row_title(alloc: Global, block: usize, rows: u32, skipped: bool) -> Mem<String>
    ensures { IfOk result (λ title. string_bytes title ≡ spec.row_title block rows skipped) }
{
    let state = state_text(skipped);
    Ok(format!(in alloc; "<g><title>block {block}: {state}, rows {rows}</title>")?)
}

/// The number of a block in its row.
fn row_number(alloc: Global, block: usize) -> Mem<String>
    ensures { IfOk result (λ shown. string_bytes shown ≡ spec.row_text 8 block (spec.number_text block)) }
{
    let number = format!(in alloc; "{block}")?;
    row_text(alloc, 8, block, number.as_str())
}

/// The values of the statistics that decide in the row of a block.
fn row_bounds(alloc: Global, columns: usize, deciders: &[Decider<'_>], block: usize) -> Mem<String>
    ensures { IfOk result (λ shown. string_bytes shown ≡ spec.row_bounds columns (map decider_view deciders.now) block) }
{
    let bounds = bounds_shown(alloc, deciders, block)?;
    let marked = marked_text(alloc, bounds.as_str())?;
    row_text(alloc, left_of(columns), block, marked.as_str())
}

/// The row of a block: its title, its number, its cells, and the values of the statistics that decide.
pub(crate) fn block_pictured(
    alloc: Global,
    columns: &[UsedColumn<'_>],
    deciders: &[Decider<'_>],
    block: usize,
    rows: u32,
    skipped: bool,
) -> Mem<String>
    ensures { IfOk result (λ row. string_bytes row
        ≡ spec.block_pictured (map column_view columns.now) (map decider_view deciders.now) block rows skipped) }
{
    let title = row_title(alloc, block, rows, skipped)?;
    let number = row_number(alloc, block)?;
    let cells = cells(alloc, columns, block, skipped)?;
    let bounds = row_bounds(alloc, number_of(columns), deciders, block)?;
    Ok(format!(in alloc; "{title}{number}{cells}{bounds}</g>\n")?)
}
