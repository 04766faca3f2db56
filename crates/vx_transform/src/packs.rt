//! Packs that passes make.
ghost use Rattle.std.specs.Prelude.{◌≡◌, length, map, IfOk};
ghost use Rattle.vx_dtype.specs.declared.Nullability.TheVariants.{NonNullable};
ghost use Rattle.vx_expr.specs.Trees as tree;

use std::alloc::Global;
use vx_build::get_item;
use vx_dtype::{FieldNames, Mem, NoMemory, Nullability};
use vx_expr::{ExprError, ExprRef, PackExpr};

/// The struct of these values under as many names. Refuses only where memory runs out.
pub fn pack_of(
    alloc: Global,
    names: FieldNames,
    values: Vec<ExprRef>,
    nullability: Nullability,
) -> Mem<ExprRef>
    requires { length names ≡ length values.items }
    ensures { IfOk result (λ made. made ≡ tree.pack names (tree.trees_of values.items) nullability) }
{
    match PackExpr::try_new_expr(alloc, names, values, nullability) {
        Ok(made) => Ok(made),
        Err(ExprError::NoMemory) => Err(NoMemory),
        Err(_) => unreachable!(),
    }
}

/// The struct, not nullable, of an expression's fields of these names.
pub(crate) fn fields_pack(alloc: Global, names: FieldNames, child: &ExprRef) -> Mem<ExprRef>
    ensures { IfOk result (λ made. made ≡ tree.pack names (tree.trees_of (map (λ f. tree.get_item f child.now) names)) NonNullable) }
{
    let mut fields = Vec::with_capacity(alloc, names.len())?;
    for name in names.as_slice() {
        fields.push(get_item(alloc, name.clone()?, child.clone()?)?)?;
    }
    pack_of(alloc, names, fields, Nullability::NonNullable)
}
