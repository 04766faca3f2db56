// One expression of each kind, built of its metadata and its children.
ghost use Rattle.std.specs.Prelude.{length, IfOk, IfErr};
ghost use Rattle.vx_wire.specs.Building.{IsBuiltOf, IsUnbuiltOf};
ghost use Rattle.vx_wire.specs.declared.encodings.ExprEncoding.TheVariants.{Between, Binary, Cast, GetItem, IsNull, Like, ListContains, Literal, Merge, Not, Pack, Root, Select};

use crate::encodings::ExprEncoding;
use crate::errors::BuildError;
use crate::metadata::{
    bounds_in, literal_in, name_in, null_in, operator_in, packing_in, selection_in, truths_in,
    type_in,
};
use std::alloc::Global;
use vx_expr::{
    BetweenExpr, BinaryExpr, CastExpr, ExprError, ExprRef, GetItemExpr, IsNullExpr, LikeExpr,
    ListContainsExpr, LiteralExpr, MergeExpr, NotExpr, PackExpr, RootExpr, SelectExpr, one_child,
    three_children, two_children,
};

impl ExprEncoding {
    /// The expression of this kind with this metadata and these children, whatever the registries hold.
    ///
    /// Refuses with `BadMetadata` exactly where the metadata is no spelling of the kind's, as for dynamic comparisons it never
    /// is, and else with `WrongChildren` exactly where the kind takes more or fewer children.
    pub fn build(
        self,
        alloc: Global,
        metadata: &[u8],
        children: Vec<ExprRef>,
    ) -> Result<ExprRef, BuildError>
        ensures built { IfOk result (λ e. IsBuiltOf self metadata.now children.items e) }
        ensures refused { IfErr result (λ why. IsUnbuiltOf self metadata.now (length children.items) why) }
    {
        match self {
            ExprEncoding::Between => build_between(alloc, metadata, children),
            ExprEncoding::Binary => build_binary(alloc, metadata, children),
            ExprEncoding::Cast => build_cast(alloc, metadata, children),
            ExprEncoding::Dynamic => Err(BuildError::BadMetadata),
            ExprEncoding::GetItem => build_get_item(alloc, metadata, children),
            ExprEncoding::IsNull => build_is_null(alloc, metadata, children),
            ExprEncoding::Like => build_like(alloc, metadata, children),
            ExprEncoding::ListContains => build_list_contains(alloc, metadata, children),
            ExprEncoding::Literal => build_literal(alloc, metadata, children),
            ExprEncoding::Merge => build_merge(alloc, metadata, children),
            ExprEncoding::Not => build_not(alloc, metadata, children),
            ExprEncoding::Pack => build_pack(alloc, metadata, children),
            ExprEncoding::Root => build_root(alloc, metadata, children),
            ExprEncoding::Select => build_select(alloc, metadata, children),
        }
    }
}

/// A range: two bytes, whether each bound is strict, and three children.
fn build_between(
    alloc: Global,
    metadata: &[u8],
    children: Vec<ExprRef>,
) -> Result<ExprRef, BuildError>
    ensures built { IfOk result (λ e. IsBuiltOf Between metadata.now children.items e) }
    ensures refused { IfErr result (λ why. IsUnbuiltOf Between metadata.now (length children.items) why) }
{
    let Some(options) = bounds_in(metadata) else {
        return Err(BuildError::BadMetadata);
    };
    let Some((arr, lower, upper)) = three_children(children) else {
        return Err(BuildError::WrongChildren);
    };
    Ok(BetweenExpr::new_expr(alloc, arr, lower, upper, options)?)
}

/// Two operands: the operator's byte, and two children.
fn build_binary(
    alloc: Global,
    metadata: &[u8],
    children: Vec<ExprRef>,
) -> Result<ExprRef, BuildError>
    ensures built { IfOk result (λ e. IsBuiltOf Binary metadata.now children.items e) }
    ensures refused { IfErr result (λ why. IsUnbuiltOf Binary metadata.now (length children.items) why) }
{
    let Some(operator) = operator_in(metadata) else {
        return Err(BuildError::BadMetadata);
    };
    let Some((lhs, rhs)) = two_children(children) else {
        return Err(BuildError::WrongChildren);
    };
    Ok(BinaryExpr::new_expr(alloc, lhs, operator, rhs)?)
}

/// A cast: a type, and one child.
fn build_cast(alloc: Global, metadata: &[u8], children: Vec<ExprRef>) -> Result<ExprRef, BuildError>
    ensures built { IfOk result (λ e. IsBuiltOf Cast metadata.now children.items e) }
    ensures refused { IfErr result (λ why. IsUnbuiltOf Cast metadata.now (length children.items) why) }
{
    let Some(target) = type_in(alloc, metadata)? else {
        return Err(BuildError::BadMetadata);
    };
    let Some(child) = one_child(children) else {
        return Err(BuildError::WrongChildren);
    };
    Ok(CastExpr::new_expr(alloc, child, target)?)
}

/// A field: its name, and one child.
fn build_get_item(
    alloc: Global,
    metadata: &[u8],
    children: Vec<ExprRef>,
) -> Result<ExprRef, BuildError>
    ensures built { IfOk result (λ e. IsBuiltOf GetItem metadata.now children.items e) }
    ensures refused { IfErr result (λ why. IsUnbuiltOf GetItem metadata.now (length children.items) why) }
{
    let Some(field) = name_in(alloc, metadata)? else {
        return Err(BuildError::BadMetadata);
    };
    let Some(child) = one_child(children) else {
        return Err(BuildError::WrongChildren);
    };
    Ok(GetItemExpr::new_expr(alloc, field, child)?)
}

/// A test for null: no metadata, and one child.
fn build_is_null(
    alloc: Global,
    metadata: &[u8],
    children: Vec<ExprRef>,
) -> Result<ExprRef, BuildError>
    ensures built { IfOk result (λ e. IsBuiltOf IsNull metadata.now children.items e) }
    ensures refused { IfErr result (λ why. IsUnbuiltOf IsNull metadata.now (length children.items) why) }
{
    if !metadata.is_empty() {
        return Err(BuildError::BadMetadata);
    }
    let Some(child) = one_child(children) else {
        return Err(BuildError::WrongChildren);
    };
    Ok(IsNullExpr::new_expr(alloc, child)?)
}

/// A match: two bytes, whether it is negated and whether it disregards case, and two children.
fn build_like(alloc: Global, metadata: &[u8], children: Vec<ExprRef>) -> Result<ExprRef, BuildError>
    ensures built { IfOk result (λ e. IsBuiltOf Like metadata.now children.items e) }
    ensures refused { IfErr result (λ why. IsUnbuiltOf Like metadata.now (length children.items) why) }
{
    let Some((negated, case_insensitive)) = truths_in(metadata) else {
        return Err(BuildError::BadMetadata);
    };
    let Some((child, pattern)) = two_children(children) else {
        return Err(BuildError::WrongChildren);
    };
    Ok(LikeExpr::new_expr(alloc, child, pattern, negated, case_insensitive)?)
}

/// A membership: no metadata, and two children.
fn build_list_contains(
    alloc: Global,
    metadata: &[u8],
    children: Vec<ExprRef>,
) -> Result<ExprRef, BuildError>
    ensures built { IfOk result (λ e. IsBuiltOf ListContains metadata.now children.items e) }
    ensures refused { IfErr result (λ why. IsUnbuiltOf ListContains metadata.now (length children.items) why) }
{
    if !metadata.is_empty() {
        return Err(BuildError::BadMetadata);
    }
    let Some((list, value)) = two_children(children) else {
        return Err(BuildError::WrongChildren);
    };
    Ok(ListContainsExpr::new_expr(alloc, list, value)?)
}

/// A constant: a type and a value of it, and no child.
fn build_literal(
    alloc: Global,
    metadata: &[u8],
    children: Vec<ExprRef>,
) -> Result<ExprRef, BuildError>
    ensures built { IfOk result (λ e. IsBuiltOf Literal metadata.now children.items e) }
    ensures refused { IfErr result (λ why. IsUnbuiltOf Literal metadata.now (length children.items) why) }
{
    let Some(value) = literal_in(alloc, metadata)? else {
        return Err(BuildError::BadMetadata);
    };
    if !children.is_empty() {
        return Err(BuildError::WrongChildren);
    }
    Ok(LiteralExpr::new_expr(alloc, value)?)
}

/// The fields of several structs: a nullability, and a child at least.
fn build_merge(
    alloc: Global,
    metadata: &[u8],
    children: Vec<ExprRef>,
) -> Result<ExprRef, BuildError>
    ensures built { IfOk result (λ e. IsBuiltOf Merge metadata.now children.items e) }
    ensures refused { IfErr result (λ why. IsUnbuiltOf Merge metadata.now (length children.items) why) }
{
    let Some(nullability) = null_in(metadata) else {
        return Err(BuildError::BadMetadata);
    };
    if children.is_empty() {
        return Err(BuildError::WrongChildren);
    }
    Ok(MergeExpr::new_expr(alloc, children, nullability)?)
}

/// A negation: no metadata, and one child.
fn build_not(alloc: Global, metadata: &[u8], children: Vec<ExprRef>) -> Result<ExprRef, BuildError>
    ensures built { IfOk result (λ e. IsBuiltOf Not metadata.now children.items e) }
    ensures refused { IfErr result (λ why. IsUnbuiltOf Not metadata.now (length children.items) why) }
{
    if !metadata.is_empty() {
        return Err(BuildError::BadMetadata);
    }
    let Some(child) = one_child(children) else {
        return Err(BuildError::WrongChildren);
    };
    Ok(NotExpr::new_expr(alloc, child)?)
}

/// A struct: a nullability and names, and as many children as names.
fn build_pack(alloc: Global, metadata: &[u8], children: Vec<ExprRef>) -> Result<ExprRef, BuildError>
    ensures built { IfOk result (λ e. IsBuiltOf Pack metadata.now children.items e) }
    ensures refused { IfErr result (λ why. IsUnbuiltOf Pack metadata.now (length children.items) why) }
{
    let Some((nullability, names)) = packing_in(alloc, metadata)? else {
        return Err(BuildError::BadMetadata);
    };
    if names.len() != children.len() {
        return Err(BuildError::WrongChildren);
    }
    match PackExpr::try_new_expr(alloc, names, children, nullability) {
        Ok(made) => Ok(made),
        Err(ExprError::NoMemory) => Err(BuildError::NoMemory),
        Err(_) => unreachable!(),
    }
}

/// The row itself: no metadata, and no child.
fn build_root(alloc: Global, metadata: &[u8], children: Vec<ExprRef>) -> Result<ExprRef, BuildError>
    ensures built { IfOk result (λ e. IsBuiltOf Root metadata.now children.items e) }
    ensures refused { IfErr result (λ why. IsUnbuiltOf Root metadata.now (length children.items) why) }
{
    if !metadata.is_empty() {
        return Err(BuildError::BadMetadata);
    }
    if !children.is_empty() {
        return Err(BuildError::WrongChildren);
    }
    Ok(RootExpr::new_expr(alloc)?)
}

/// Some fields: a choice of fields, and one child.
fn build_select(
    alloc: Global,
    metadata: &[u8],
    children: Vec<ExprRef>,
) -> Result<ExprRef, BuildError>
    ensures built { IfOk result (λ e. IsBuiltOf Select metadata.now children.items e) }
    ensures refused { IfErr result (λ why. IsUnbuiltOf Select metadata.now (length children.items) why) }
{
    let Some(fields) = selection_in(alloc, metadata)? else {
        return Err(BuildError::BadMetadata);
    };
    let Some(child) = one_child(children) else {
        return Err(BuildError::WrongChildren);
    };
    Ok(SelectExpr::new_expr(alloc, fields, child)?)
}
