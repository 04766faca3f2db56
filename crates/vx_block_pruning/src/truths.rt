// Evaluating expressions that neither break nor are refused, and the truths of what they give.
ghost use Rattle.std.specs.Prelude.{◌≡◌, ◌<◌, true, length, map, IfOk};
ghost use Rattle.vx_dtype.specs.Logic.{is_true_val};
ghost use Rattle.vx_dtype.specs.TypeRules.{is_bool_ty};
ghost use Rattle.vx_semantics.specs.Meaning.{mean};
ghost use Rattle.vx_column.specs.Columns.{row_at};
ghost use Rattle.vx_eval.specs.Scopes.{scope_rows, scope_slots};
ghost use Rattle.vx_block_pruning.specs.PruningTruths.{GivesColumn};

use std::alloc::Global;
use vx_column::ColumnRef;
use vx_dtype::{Mem, NoMemory};
use vx_eval::{EvalError, ExprEval, Scope, TypeError};
use vx_expr::ExprRef;

/// The column of an expression over the rows of a scope, where it has one, and is boolean.
pub(crate) fn evaluated(alloc: Global, expr: &ExprRef, scope: &Scope) -> Mem<ColumnRef>
    requires { GivesColumn (scope_rows scope.now).ty (scope_slots scope.now) (scope_rows scope.now).rows expr.now }
    ensures kind { IfOk result (λ c. is_bool_ty c.ty ≡ true) }
    ensures rows { IfOk result (λ c. c.rows ≡ map (λ row. mean (scope_rows scope.now).ty (scope_slots scope.now) row expr.now) (scope_rows scope.now).rows) }
{
    match expr.evaluate(alloc, scope) {
        Ok(column) => Ok(column),
        Err(EvalError::NoMemory) => Err(NoMemory),
        Err(EvalError::Typing(TypeError::NoMemory)) => unreachable!(),
        Err(EvalError::Typing(TypeError::NotStruct)) => unreachable!(),
        Err(EvalError::Typing(TypeError::NullableSelect)) => unreachable!(),
        Err(EvalError::Typing(TypeError::UnknownField)) => unreachable!(),
        Err(EvalError::Typing(TypeError::DuplicateField)) => unreachable!(),
        Err(EvalError::Typing(TypeError::TypeMismatch)) => unreachable!(),
        Err(EvalError::Overflow) => unreachable!(),
        Err(EvalError::BadCast) => unreachable!(),
    }
}

/// At which rows of a boolean column the value is true.
pub(crate) fn truths(alloc: Global, column: &ColumnRef) -> Mem<Vec<bool>>
    requires { is_bool_ty column.now.ty ≡ true }
    ensures { IfOk result (λ flags. flags.items ≡ map is_true_val column.now.rows) }
{
    let mut flags = Vec::with_capacity(alloc, column.len())?;
    for i in 0..column.len() {
        flags.push(is_true_at(column, i))?;
    }
    Ok(flags)
}

/// Whether the value of a boolean column at a row is true.
fn is_true_at(column: &ColumnRef, i: usize) -> bool
    requires kind { is_bool_ty column.now.ty ≡ true }
    requires row { i < length column.now.rows }
    ensures { result ≡ is_true_val (row_at column.now i) }
{
    match column.truth_at(i) {
        Some(truth) => truth,
        None => false,
    }
}
