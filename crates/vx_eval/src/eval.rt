// The types of expressions, and their columns over rows.
ghost use Rattle.std.specs.Prelude.{◌≡◌};
ghost use Rattle.vx_dtype.specs.TypeViews.{type_view};
ghost use Rattle.vx_expr.specs.Trees.{Tree};
ghost use Rattle.vx_semantics.specs.Typing.{typed_of};
ghost use Rattle.vx_semantics.specs.LooseTyping.{loosely_typed};
ghost use Rattle.vx_typing.specs.TypingAnswers.{AnswersType};
ghost use Rattle.vx_eval.specs.Scopes.{scope_rows, scope_slots};
ghost use Rattle.vx_eval.specs.Evaluating.{Evaluates};

use crate::columns::column_of;
use crate::errors::{EvalError, Failure};
use crate::scopes::Scope;
use std::alloc::Global;
use vx_column::ColumnRef;
use vx_dtype::DType;
use vx_expr::ExprRef;
use vx_typing::{TypeError, return_dtype, slots_fit, typed};

/// Expressions that have a type over a scope, and a column over its rows.
pub trait ExprEval {
    ghost tree: { Self → Tree };

    /// The type of the expression over a scope of this type by rules that ask less than those of [`ExprEval::typed`]: the struct of
    /// selected fields is nullable where its struct is, a null test and a cast don't look at their operands, comparisons, `and`, `or`,
    /// LIKE and membership ask nothing of types, ranges and comparisons with a slot take lists and structs too, and no name is
    /// refused because it stands twice. Never refuses with NullableSelect or DuplicateField.
    fn return_dtype(&self, alloc: Global, scope: &DType) -> Result<DType, TypeError>
        ensures { AnswersType (loosely_typed (type_view scope.now) (tree self.now)) result };

    /// The type of the expression over a scope of this type, or the refusal of its first node in post-order that has none.
    fn typed(&self, alloc: Global, scope: &DType) -> Result<DType, TypeError>
        ensures { AnswersType (typed_of (type_view scope.now) (tree self.now)) result };

    /// The column of the expression over the rows of a scope: of the type that [`ExprEval::typed`] gives, with the expression's meaning
    /// at each row. Its refusals, in this order: Typing with the refusal of `typed`; Typing with TypeMismatch where a slot holds a
    /// constant of a type that isn't the one that its comparison names but for nullability, or null where that type isn't nullable;
    /// Overflow or BadCast exactly where some node of the expression breaks at some row, whether the answer asks that node there or
    /// not. A node breaks where it has no value while none of its operands is a fault: by a sum or a difference that leaves its integer
    /// type, which is Overflow, or by a cast of a number out of the target's range, or of null to a type without null, which is BadCast.
    /// Where nodes break by both causes either may come.
    fn evaluate(&self, alloc: Global, scope: &Scope) -> Result<ColumnRef, EvalError>
        ensures { Evaluates (scope_rows scope.now).ty (scope_slots scope.now) (scope_rows scope.now).rows (tree self.now) result };
}

impl ExprEval for ExprRef {
    ghost tree = { λ e. e };

    fn return_dtype(&self, alloc: Global, scope: &DType) -> Result<DType, TypeError> {
        return_dtype(alloc, self, scope)
    }

    fn typed(&self, alloc: Global, scope: &DType) -> Result<DType, TypeError> {
        typed(alloc, self, scope)
    }

    fn evaluate(&self, alloc: Global, scope: &Scope) -> Result<ColumnRef, EvalError> {
        match typed(alloc, self, scope.root().dtype()) {
            Ok(_) => {}
            Err(TypeError::NoMemory) => return Err(EvalError::NoMemory),
            Err(refusal) => return Err(EvalError::Typing(refusal)),
        }
        let fit = slots_fit(alloc, scope.slots(), self)?;
        if !fit {
            return Err(EvalError::Typing(TypeError::TypeMismatch));
        }
        match column_of(alloc, self, scope) {
            Ok(column) => Ok(column),
            Err(Failure::NoMemory) => Err(EvalError::NoMemory),
            Err(Failure::Overflow) => Err(EvalError::Overflow),
            Err(Failure::BadCast) => Err(EvalError::BadCast),
            Err(Failure::Mistyped) => unreachable!(),
        }
    }
}
