// What stands in a SQL expression.
ghost use Rattle.std.specs.Prelude.{◌≡◌};
ghost use Rattle.vx_sql_forms.specs.Views.{typed_view, operand_view};

use std::alloc::AllocError;
use vx_dtype::DType;
use vx_expr::ExprRef;

/// An expression with its type.
#[derive(Debug, Drop)]
pub struct TypedExpr {
    pub dtype: DType,
    pub expr: ExprRef,
}

/// What stands in a SQL expression: an expression with its type, or a constant that takes its type from what stands across from it.
#[derive(Debug, Drop)]
pub enum Operand {
    /// An expression with its type.
    Known(TypedExpr),
    /// A number: the integer that this is.
    Number(i128),
    /// NULL.
    UntypedNull,
}

impl Clone for TypedExpr {
    ghost is_clone = { λ typed copy. typed_view copy ≡ typed_view typed };

    fn clone(&self) -> Result<TypedExpr, AllocError> {
        Ok(TypedExpr {
            dtype: self.dtype.clone()?,
            expr: self.expr.clone()?,
        })
    }
}

impl Clone for Operand {
    ghost is_clone = { λ operand copy. operand_view copy ≡ operand_view operand };

    fn clone(&self) -> Result<Operand, AllocError> {
        Ok(match self {
            Operand::Known(typed) => Operand::Known(typed.clone()?),
            Operand::Number(number) => Operand::Number(*number),
            Operand::UntypedNull => Operand::UntypedNull,
        })
    }
}
