// Names of fields without quotes.
ghost use Rattle.std.specs.Prelude.{Some, []};
ghost use Rattle.vx_expr.specs.SelectionTexts.{joined_names};

use std::fmt;
use vx_dtype::FieldNames;
use vx_expr::write_names;

/// Names that print as they are, with `, ` between any two.
#[derive(Clone, Copy, Debug)]
pub struct DisplayFieldNames<'a>(pub &'a FieldNames);

impl<'a> fmt::Display for DisplayFieldNames<'a> {
    ghost output = { λ shown. Some (joined_names [] shown.0.now) };

    fn fmt<W: fmt::Write>(&self, f: &mut fmt::Formatter<W>) -> fmt::Result {
        write_names(self.0.as_slice(), f)
    }
}
