// The types and the columns of structs of one kind.
ghost use Rattle.vx_dtype.specs.TypeViews.{type_view};
ghost use Rattle.vx_semantics.specs.LooseTyping.{loosely_typed};
ghost use Rattle.vx_typing.specs.TypingAnswers.{AnswersType};
ghost use Rattle.vx_eval.specs.Scopes.{scope_rows, scope_slots};
ghost use Rattle.vx_eval.specs.Evaluating.{Evaluates};

use crate::views::VTable;
use std::alloc::Global;
use vx_column::ColumnRef;
use vx_dtype::DType;
use vx_eval::{EvalError, ExprEval, Scope, TypeError};

/// A kind whose structs have a type over a scope, and a column over its rows.
pub trait VTableEval: VTable {
    /// The column that [`ExprEval::evaluate`] gives of the expression that holds the struct, with the same refusals.
    final fn evaluate(
        expr: &Self::Expr,
        alloc: Global,
        scope: &Scope,
    ) -> Result<ColumnRef, EvalError>
        ensures { Evaluates (scope_rows scope.now).ty (scope_slots scope.now) (scope_rows scope.now).rows (Self.tree expr.now) result }
    {
        Self::to_expr(expr, alloc)?.evaluate(alloc, scope)
    }

    /// The type that [`ExprEval::return_dtype`] gives of the expression that holds the struct, with the same refusals.
    final fn return_dtype(
        expr: &Self::Expr,
        alloc: Global,
        scope: &DType,
    ) -> Result<DType, TypeError>
        ensures { AnswersType (loosely_typed (type_view scope.now) (Self.tree expr.now)) result }
    {
        Self::to_expr(expr, alloc)?.return_dtype(alloc, scope)
    }
}

impl<V: VTable> VTableEval for V {}
