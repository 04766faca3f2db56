// The fields that are taken straight from packs.
ghost use Rattle.vx_passes.specs.Simplifying.{field_of_pack};

use crate::errors::TransformError;
use crate::rebuilding::Step;
use std::alloc::Global;
use vx_expr::{Expr, ExprError, ExprRef};

/// The value of a pack in the place of a field that is taken straight from the pack.
#[derive(Drop)]
pub(crate) struct FieldOfPack;

impl Step for FieldOfPack {
    ghost step = { λ _. field_of_pack };

    fn at(&self, _alloc: Global, node: &ExprRef) -> Result<Option<ExprRef>, TransformError> {
        let Expr::GetItem(item) = node.expr() else {
            return Ok(None);
        };
        let Expr::Pack(pack) = item.child().expr() else {
            return Ok(None);
        };
        match pack.field(item.field()) {
            Ok(value) => Ok(Some(value)),
            Err(ExprError::NoMemory) => Err(TransformError::NoMemory),
            Err(ExprError::UnknownField) => Err(TransformError::UnknownField),
            Err(_) => unreachable!(),
        }
    }
}
