// Tests of vx_wire.
use crate::wire_bytes::NOT;
use std::alloc::Global;
use std::test::Fail;
use vx_build::{not, root};
use vx_dtype::{CompareOperator, DType, Mem, Nullability};
use vx_expr::{DynamicComparisonExpr, ExprRef};
use vx_wire::{
    BuildError, ExprEncoding, ExprRegistry, ExprRegistryExt, ExprSerializeProtoExt,
    deserialize_expr_proto,
};
use vx_wire_bytes::{WireError, read_tree};

/// Whether a kind builds its expression.
fn build_answers(alloc: Global) -> Result<bool, Fail> {
    let mut children = Vec::new(alloc);
    children.push(root(alloc)?)?;
    let built = ExprEncoding::Not.build(alloc, &[], children)?;
    Ok(built == not(alloc, root(alloc)?)?)
}

/// Whether a tree builds its expression.
fn deserialize_expr_proto_answers(alloc: Global) -> Result<bool, Fail> {
    let tree = read_tree(alloc, &NOT)?;
    let built = deserialize_expr_proto(alloc, &tree, &ExprRegistry::default())?;
    Ok(built == not(alloc, root(alloc)?)?)
}

/// Whether an expression is written as its tree.
fn serialize_proto_answers(alloc: Global) -> Result<bool, Fail> {
    let tree = not(alloc, root(alloc)?)?.serialize_proto(alloc)?;
    Ok(tree == read_tree(alloc, &NOT)?)
}

#[test]
fn ample(rt: HostRuntime) -> Result<(), Fail> {
    let alloc = rt.alloc();
    assert!(rt; build_answers(alloc)?, "build");
    assert!(rt;
        deserialize_expr_proto_answers(alloc)?,
        "deserialize_expr_proto"
    );
    assert!(rt; serialize_proto_answers(alloc)?, "serialize_proto");
    Ok(())
}

#[test]
fn registered_kinds(rt: HostRuntime) {
    let mut some = ExprRegistry::empty();
    some.register(ExprEncoding::Dynamic);
    some.register_many(&[ExprEncoding::Root, ExprEncoding::Not]);
    assert!(rt; some.get("dynamic") == Some(ExprEncoding::Dynamic));
    assert!(rt; some.get("not") == Some(ExprEncoding::Not));
    assert!(rt; some.get("binary").is_none());
}

/// A comparison of the row with a slot.
fn dynamic(alloc: Global) -> Mem<ExprRef> {
    let dtype = DType::Bool(Nullability::NonNullable);
    DynamicComparisonExpr::new_expr(alloc, root(alloc)?, CompareOperator::Gt, 0, dtype, true)
}

/// Whether `not` over a comparison with a slot has no wire form.
fn is_refused(alloc: Global) -> Mem<bool> {
    let written = not(alloc, dynamic(alloc)?)?.serialize_proto(alloc);
    Ok(matches!(written, Err(WireError::NotSerializable)))
}

#[test]
fn comparisons_with_a_slot_have_no_form(rt: HostRuntime) -> Result<(), Fail> {
    assert!(rt; is_refused(rt.alloc())?);
    Ok(())
}

#[test]
fn want_of_memory_prints_as_its_name(rt: HostRuntime) -> Result<(), Fail> {
    let text = BuildError::NoMemory.to_string(rt.alloc())?;
    assert!(rt; text.as_str() == "NoMemory");
    Ok(())
}
