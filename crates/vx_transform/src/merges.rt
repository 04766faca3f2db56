// A merge as a pack of the fields that its children give.
ghost use Rattle.std.specs.Prelude.{◌≡◌, map, IfOk};
ghost use Rattle.std.specs.List.{All};
ghost use Rattle.vx_dtype.specs.TypeViews.{type_view};
ghost use Rattle.vx_semantics.specs.Merging.{merged_names};
ghost use Rattle.vx_typing.specs.MergedFields.{name_of, IsGivenBy};
ghost use Rattle.vx_passes.specs.Merging.{giving_names, given_field, givings_pack, merge_removed};
ghost use Rattle.vx_transform.specs.CodeViews.{giving_view};

use crate::errors::TransformError;
use crate::merged_structs::{Giving, givings};
use crate::packs::pack_of;
use crate::rebuilding::Step;
use std::alloc::Global;
use vx_build::get_item;
use vx_dtype::{DType, FieldNames, Mem, Nullability};
use vx_expr::{Expr, ExprRef};
use vx_typing::{MergedField, merged_field_names, merged_fields};

/// The pack of the given fields in the place of a merge.
#[derive(Drop)]
pub(crate) struct MergeAsPack<'a> {
    pub(crate) scope: &'a DType,
}

impl Step for MergeAsPack<'_> {
    ghost step = { λ s. merge_removed (type_view s.scope.now) };

    fn at(&self, alloc: Global, node: &ExprRef) -> Result<Option<ExprRef>, TransformError> {
        let Expr::Merge(merge) = node.expr() else {
            return Ok(None);
        };
        let given = givings(alloc, node, self.scope)?;
        Ok(Some(givings_pack(alloc, given.as_slice(), merge.nullability())?))
    }
}

/// The fields that structs give together, in order of first appearance, as a pack.
pub(crate) fn givings_pack(
    alloc: Global,
    given: &[Giving],
    nullability: Nullability,
) -> Mem<ExprRef>
    ensures { IfOk result (λ made. made ≡ givings_pack nullability (map giving_view given.now)) }
{
    let (fields, names) = fields_together(alloc, given)?;
    let values = given_fields(alloc, fields.as_slice(), given)?;
    Ok(pack_of(alloc, names, values, nullability)?)
}

/// The fields that structs give together, and the list of their names.
fn fields_together(alloc: Global, given: &[Giving]) -> Mem<(Vec<MergedField>, FieldNames)>
    ensures names { IfOk result (λ made. map name_of made.0.items ≡ merged_names giving_names (map giving_view given.now)) }
    ensures places { IfOk result (λ made. All (IsGivenBy (map giving_names (map giving_view given.now))) made.0.items) }
    ensures list { IfOk result (λ made. made.1 ≡ map name_of made.0.items) }
{
    let structs = names_in_each(alloc, given)?;
    let fields = merged_fields(alloc, structs.as_slice())?;
    let names = merged_field_names(alloc, fields.as_slice(), structs.as_slice())?;
    Ok((fields, names))
}

/// The names of each struct's fields.
fn names_in_each(alloc: Global, given: &[Giving]) -> Mem<Vec<FieldNames>>
    ensures { IfOk result (λ names. names.items ≡ map giving_names (map giving_view given.now)) }
{
    let mut names = Vec::with_capacity(alloc, given.len())?;
    for giving in given {
        names.push(giving.names.clone()?)?;
    }
    Ok(names)
}

/// Merged fields as expressions, in order.
fn given_fields(alloc: Global, fields: &[MergedField], given: &[Giving]) -> Mem<Vec<ExprRef>>
    requires { All (IsGivenBy (map giving_names (map giving_view given.now))) fields.now }
    ensures { IfOk result (λ made. made.items ≡ map (λ m. given_field (map giving_view given.now) m.name) fields.now) }
{
    let mut made = Vec::with_capacity(alloc, fields.len())?;
    for field in fields {
        made.push(given_field(alloc, field, given)?)?;
    }
    Ok(made)
}

/// A merged field as an expression: the field of its name of the struct at its place.
fn given_field(alloc: Global, field: &MergedField, given: &[Giving]) -> Mem<ExprRef>
    requires { IsGivenBy (map giving_names (map giving_view given.now)) field.now }
    ensures { IfOk result (λ made. made ≡ given_field (map giving_view given.now) field.now.name) }
{
    let giving = &given[field.place.giver];
    Ok(get_item(alloc, field.name.clone()?, giving.expr.clone()?)?)
}
