// The text of a report, and bytes in a line.
ghost use Rattle.std.specs.Prelude.{◌≡◌, decimal, map, IfOk};
ghost use Rattle.std.specs.List.{flat_map};
ghost use Rattle.std.specs.String.{string_bytes};
ghost use Rattle.vx_dtype.specs.Texts.{quoted_text};
ghost use Rattle.vx_query.specs.Reports.{hex_line, line, report_text};

use std::alloc::Global;
use vx_display::spaced;
use vx_dtype::{FieldName, Mem, Quoted};

/// The text of texts, each as a line.
fn lines_text(alloc: Global, texts: &[String]) -> Mem<String>
    ensures { IfOk result (λ text. string_bytes text ≡ flat_map line (map string_bytes texts.now)) }
{
    let mut lines = String::new(alloc);
    for text in texts {
        lines.push_str(text.as_str())?;
        lines.push_str("\n")?;
    }
    Ok(lines)
}

/// The text of a number.
fn number_text(alloc: Global, number: u32) -> Mem<String>
    ensures { IfOk result (λ text. string_bytes text ≡ decimal number) }
{
    Ok(format!(in alloc; "{number}")?)
}

/// The texts of numbers.
fn number_texts(alloc: Global, numbers: &[u32]) -> Mem<Vec<String>>
    ensures { IfOk result (λ texts. map string_bytes texts.items ≡ map decimal numbers.now) }
{
    let mut texts = Vec::with_capacity(alloc, numbers.len())?;
    for number in numbers {
        texts.push(number_text(alloc, *number)?)?;
    }
    Ok(texts)
}

/// The texts of names, quoted.
fn quoted_names(alloc: Global, names: &[FieldName]) -> Mem<Vec<String>>
    ensures { IfOk result (λ texts. map string_bytes texts.items ≡ map quoted_text names.now) }
{
    let mut texts = Vec::with_capacity(alloc, names.len())?;
    for name in names {
        texts.push(format!(in alloc; "{}", Quoted(name.as_str()))?)?;
    }
    Ok(texts)
}

/// The line of bytes: two hexadecimal digits for each.
pub(crate) fn hex_line(alloc: Global, bytes: &[u8]) -> Mem<String>
    ensures { IfOk result (λ line. string_bytes line ≡ hex_line bytes.now) }
{
    let mut line = hex::encode(alloc, bytes)?;
    line.push_str("\n")?;
    Ok(line)
}

/// The report of a scan in lines, each ended by a line feed: the number of rows and the text of each, the numbers of
/// the blocks that were skipped, the quoted names of the columns that were read, both with a space between or `-` where
/// there are none, and the number of reads.
pub fn report_text(
    alloc: Global,
    rows: &[String],
    skipped: &[u32],
    names: &[FieldName],
    reads: usize,
) -> Mem<String>
    ensures { IfOk result (λ text. string_bytes text ≡ report_text (map string_bytes rows.now) skipped.now names.now reads) }
{
    let number = rows.len();
    let lines = lines_text(alloc, rows)?;
    let skipped = spaced(alloc, number_texts(alloc, skipped)?.as_slice())?;
    let columns = spaced(alloc, quoted_names(alloc, names)?.as_slice())?;
    let text = format!(in alloc;
        "rows {number}\n{lines}skipped {skipped}\ncolumns {columns}\nreads {reads}\n"
    )?;
    Ok(text)
}
