// The text of an expression in parts.
ghost use Rattle.std.specs.Prelude.{Some, []};
ghost use Rattle.std.specs.Fmt.{WritesOnOk};
ghost use Rattle.vx_expr.specs.Trees.{trees_of};
ghost use Rattle.vx_expr.specs.CompactTexts.{named_texts};
ghost use Rattle.vx_partition.specs.SplitTexts.{split_text};
ghost use Rattle.vx_partition.specs.Splits.{split_view};

use crate::splitting::PartitionedExpr;
use std::fmt;
use vx_dtype::FieldName;
use vx_expr::ExprRef;

/// As the compact text of the root and, in braces, that of each partition behind its name, as far as there are names:
/// `root: $.x.x_0 {x: pack(x_0: $.x)}`. Fails only where the writer does.
impl<A> fmt::Display for PartitionedExpr<A> {
    ghost output = { λ split. Some (split_text (split_view split)) };

    fn fmt<W: fmt::Write>(&self, f: &mut fmt::Formatter<W>) -> fmt::Result {
        write!(f, "root: {} {{", self.root)?;
        write_named(
            self.partition_names.as_slice(),
            self.partitions.as_slice(),
            f,
        )?;
        f.write_str("}")
    }
}

/// Writes the expressions, each behind its name, with `, ` between any two, as far as there are names.
fn write_named<W: fmt::Write>(
    names: &[FieldName],
    values: &[ExprRef],
    f: &mut fmt::Formatter<W>,
) -> fmt::Result
    ensures { WritesOnOk W.write_str_gives f.old result (named_texts [] names.now (trees_of values.now)) f.new }
{
    let mut separator = "";
    for i in 0..values.len().min(names.len()) {
        f.write_str(separator)?;
        f.write_str(names[i].as_str())?;
        f.write_str(": ")?;
        write!(f, "{}", values[i])?;
        separator = ", ";
    }
    Ok(())
}
