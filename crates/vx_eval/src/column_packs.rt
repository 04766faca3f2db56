// Columns of structs of named values.
ghost use Rattle.std.specs.Prelude.{◌≡◌, ℕ, List, length, map, option_map, IfOk};
ghost use Rattle.vx_dtype.specs.Types.{Ty};
ghost use Rattle.vx_dtype.specs.Values.{Val};
ghost use Rattle.vx_expr.specs.Trees.{Trees, pack};
ghost use Rattle.vx_column.specs.Answers.{AnswersColumn};
ghost use Rattle.vx_column.specs.StructColumns.{column_types, struct_column};
ghost use Rattle.vx_semantics.specs.Typing.{pack_type};
ghost use Rattle.vx_semantics.specs.Meaning.{Slots, mean};
ghost use Rattle.vx_eval.specs.Meant.{AreMeant};
ghost use Rattle.vx_eval.specs.Steps.{Makes};
ghost use Rattle.vx_eval.specs.WholeStructs.{all_valid};

use crate::errors::Failure;
use std::alloc::Global;
use vx_column::{ColumnError, ColumnRef};
use vx_dtype::{FieldNames, Mem, Nullability};

/// Truths that say that each of this many rows is valid, where the type is nullable.
fn all_valid(alloc: Global, nullability: Nullability, len: usize) -> Mem<Option<Vec<bool>>>
    ensures { IfOk result (λ truths. option_map (λ v. v.items) truths ≡ all_valid nullability len) }
{
    match nullability {
        Nullability::NonNullable => Ok(None),
        Nullability::Nullable => Ok(Some(vec![in alloc; true; len]?)),
    }
}

/// The structs of these columns' values, of a type with this nullability, though none of them is null.
pub(crate) fn whole_structs(
    alloc: Global,
    names: FieldNames,
    nullability: Nullability,
    fields: Vec<ColumnRef>,
    len: usize,
) -> Result<ColumnRef, ColumnError>
    ensures { AnswersColumn result (struct_column names fields.items len (all_valid nullability len)) }
{
    let truths = all_valid(alloc, nullability, len)?;
    ColumnRef::struct_(alloc, names, fields, len, truths)
}

/// The structs of these columns' values under these names.
pub(crate) fn pack_column(
    alloc: Global,
    names: &FieldNames,
    nullability: Nullability,
    fields: Vec<ColumnRef>,
    len: usize,
) -> Result<ColumnRef, Failure>
    ensures { (t : Ty) (slots : Slots) (rows : List Val) (es : Trees) → length rows ≡ len → AreMeant t slots rows es fields.items →
        Makes (pack_type names.now nullability (column_types fields.items)) (map (λ row. mean t slots row (pack names.now es nullability)) rows) result }
{
    Ok(whole_structs(alloc, names.clone()?, nullability, fields, len)?)
}
