// The answers to the questions of a case, as texts.
use crate::errors::CaseError;
use crate::opening::{Opened, open_case};
use crate::pruning::{pruning, required, ruled_out_blocks};
use crate::queries::{read, read_and_written, tokens, written, written_dynamic};
use crate::running::run_of;
use crate::scanning::{scan_failing, scan_of, scan_untold};
use crate::subjects::Subject;
use crate::tables::Case;
use crate::telling::table_of;
use std::alloc::Global;
use vx_column::ColumnRef;
use vx_display::{push_row, tree_text};
use vx_dtype::{DType, Mem, NoMemory, Scalar};
use vx_eval::{EvalError, ExprEval, Scope, TypeError};
use vx_expr::{DisplayAs, ExprRef};
use vx_partition::{annotate_scope_access, partition};
use vx_transform::laws::{find_between, remove_merge, remove_select};
use vx_transform::{TransformError, replace_root_fields, simplify, simplify_typed};
use vx_wire::ExprSerializeProtoExt;
use vx_wire_bytes::write_tree;

/// The answer to a question of a case.
pub(crate) fn answer(
    alloc: Global,
    case: &Case<'_>,
    subject: Subject,
) -> Result<String, CaseError> {
    match subject {
        Subject::Tokens => Ok(tokens(alloc, case.query)?),
        Subject::Read => Ok(read(alloc, case.query)?),
        Subject::ReadAndWritten => Ok(read_and_written(alloc, case.query)?),
        Subject::Table => table_of(alloc, case),
        Subject::Scan => scan_of(alloc, case),
        Subject::ScanUntold => scan_untold(alloc, case),
        Subject::ScanFailing => scan_failing(alloc, case),
        Subject::Run => run_of(alloc, case),
        _ => answer_opened(alloc, &open_case(alloc, case)?, subject),
    }
}

/// The answer to a question about expressions.
fn answer_opened(alloc: Global, case: &Opened, subject: Subject) -> Result<String, CaseError> {
    let expr = &case.projection;
    let scope = case.rows.dtype();
    let text = match subject {
        Subject::Compact => expr.compact(alloc)?,
        Subject::Written => written(alloc, expr)?,
        Subject::WrittenDynamic => written_dynamic(alloc, expr)?,
        Subject::Bytes => bytes_of(alloc, expr)?,
        Subject::Tree => tree_text(alloc, expr)?,
        Subject::ChildNames => child_names(alloc, expr)?,
        Subject::StrictType => type_text(alloc, expr.typed(alloc, scope))?,
        Subject::LooseType => type_text(alloc, expr.return_dtype(alloc, scope))?,
        Subject::Values => values(alloc, case)?,
        Subject::Pruning => pruning(alloc, case)?,
        Subject::Required => required(alloc, case)?,
        Subject::RuledOut => ruled_out_blocks(alloc, case)?,
        Subject::Parts => parts(alloc, expr, scope)?,
        _ => rewritten(alloc, expr, scope, subject)?,
    };
    Ok(text)
}

/// The compact text of an expression that a pass was made over.
fn rewritten(alloc: Global, expr: &ExprRef, scope: &DType, subject: Subject) -> Mem<String> {
    match passed(alloc, expr.clone()?, scope, subject) {
        Ok(expr) => expr.compact(alloc),
        Err(TransformError::NoMemory) => Err(NoMemory),
        Err(error) => Ok(format!(in alloc; "{error}")?),
    }
}

/// An expression that a pass was made over.
fn passed(
    alloc: Global,
    expr: ExprRef,
    scope: &DType,
    subject: Subject,
) -> Result<ExprRef, TransformError> {
    match subject {
        Subject::Ranges => Ok(find_between(alloc, expr)?),
        Subject::Simplified => simplify(alloc, expr),
        Subject::WithoutSelect => remove_select(alloc, expr, scope),
        Subject::WithoutMerge => remove_merge(alloc, expr, scope),
        Subject::Replaced => Ok(replaced(alloc, expr, scope)?),
        _ => simplify_typed(alloc, expr, scope),
    }
}

/// An expression with a pack of the row's fields for the row, where rows are structs.
fn replaced(alloc: Global, expr: ExprRef, scope: &DType) -> Mem<ExprRef> {
    match scope {
        DType::Struct(fields, _) => replace_root_fields(alloc, expr, fields),
        _ => Ok(expr),
    }
}

/// The parts of an expression, rewritten as for a scan, by the columns that they touch.
fn parts(alloc: Global, expr: &ExprRef, scope: &DType) -> Mem<String> {
    let DType::Struct(fields, _) = scope else {
        return Ok(String::from_str(alloc, "no struct")?);
    };
    let access = annotate_scope_access(fields);
    match partition(alloc, expr.clone()?, scope, &access) {
        Ok(split) => Ok(format!(in alloc; "{split}")?),
        Err(TransformError::NoMemory) => Err(NoMemory),
        Err(error) => Ok(format!(in alloc; "{error}")?),
    }
}

/// The names of an expression's children, each ended by `;`, or `none`.
fn child_names(alloc: Global, expr: &ExprRef) -> Mem<String> {
    let mut text = String::new(alloc);
    match expr.child_names(alloc)? {
        Some(names) => {
            for name in &names {
                text.push_str(name.as_str())?;
                text.push_str(";")?;
            }
        }
        None => text.push_str("none")?,
    }
    Ok(text)
}

/// The hexadecimal digits of the bytes that an expression is written as.
pub(crate) fn bytes_of(alloc: Global, expr: &ExprRef) -> Result<String, CaseError> {
    let tree = expr.serialize_proto(alloc)?;
    Ok(hex::encode(alloc, write_tree(alloc, &tree)?.as_slice())?)
}

/// The text of a type, or the name of its refusal.
fn type_text(alloc: Global, answer: Result<DType, TypeError>) -> Mem<String> {
    match answer {
        Ok(dtype) => Ok(format!(in alloc; "{dtype}")?),
        Err(error) => Ok(format!(in alloc; "{error}")?),
    }
}

/// The values of the projection over the first block, or why there are none: of a refusal of typing its own name.
fn values(alloc: Global, case: &Opened) -> Mem<String> {
    let scope = Scope::new(case.rows.clone()?);
    match case.projection.evaluate(alloc, &scope) {
        Ok(column) => column_text(alloc, &column),
        Err(EvalError::NoMemory) => Err(NoMemory),
        Err(EvalError::Typing(error)) => Ok(format!(in alloc; "{error}")?),
        Err(error) => Ok(format!(in alloc; "{error}")?),
    }
}

/// The values of a column with ` / ` between.
pub(crate) fn column_text(alloc: Global, column: &ColumnRef) -> Mem<String> {
    let mut text = String::new(alloc);
    for i in 0..column.len() {
        if i > 0 {
            text.push_str(" / ")?;
        }
        push_scalar(&mut text, &column.scalar_at(alloc, i)?)?;
    }
    Ok(text)
}

/// Adds a value.
fn push_scalar(text: &mut String, scalar: &Scalar) -> Mem<()> {
    push_row(text, scalar.dtype(), scalar.value())
}
