// How choices of fields are printed.
ghost use Rattle.std.specs.Prelude.{[], ◌++◌, Some};
ghost use Rattle.std.specs.Fmt.{WritesOnOk};
ghost use Rattle.vx_dtype.specs.Texts.{separator_at};
ghost use Rattle.vx_expr.specs.SelectionTexts.{joined_names, selection_text};

use crate::selections::FieldSelection;
use std::fmt;
use vx_dtype::{FieldName, separator};

impl fmt::Display for FieldSelection {
    ghost output = { λ selection. Some (selection_text selection) };

    fn fmt<W: fmt::Write>(&self, f: &mut fmt::Formatter<W>) -> fmt::Result {
        match self {
            FieldSelection::Include(names) => {
                f.write_str("{")?;
                write_names(names.as_slice(), f)?;
                f.write_str("}")
            }
            FieldSelection::Exclude(names) => {
                f.write_str("~{")?;
                write_names(names.as_slice(), f)?;
                f.write_str("}")
            }
        }
    }
}

/// Writes the names as they are, with `, ` between any two. Fails only where the writer does.
pub fn write_names<W: fmt::Write>(names: &[FieldName], f: &mut fmt::Formatter<W>) -> fmt::Result
    ensures { WritesOnOk W.write_str_gives f.old result (joined_names [] names.now) f.new }
{
    for i in 0..names.len() {
        write_name(i, &names[i], f)?;
    }
    Ok(())
}

/// Writes a separator where it has to stand, and a name.
fn write_name<W: fmt::Write>(i: usize, name: &FieldName, f: &mut fmt::Formatter<W>) -> fmt::Result
    ensures { WritesOnOk W.write_str_gives f.old result (separator_at i ++ name.now) f.new }
{
    f.write_str(separator(i))?;
    f.write_str(name.as_str())
}
