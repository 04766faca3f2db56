// Replacing expressions in an expression.
ghost use Rattle.std.specs.Prelude.{◌≡◌, cond, Ok, IfOk};
ghost use Rattle.vx_expr.specs.Children.{is_root_tree};
ghost use Rattle.vx_passes.specs.Replacing.{replaced_where_equal, replaced, root_replaced};
ghost use Rattle.vx_transform.specs.Rebuilds.{OkOrNoMemory};

use crate::errors::TransformError;
use crate::packs::fields_pack;
use crate::rebuilding::{Step, rebuild};
use std::alloc::Global;
use vx_build::{is_root, root};
use vx_dtype::{Mem, NoMemory, StructFields};
use vx_expr::ExprRef;

/// The expression with each node that equals the needle replaced, from the leaves up: a node is compared as it stands once the nodes
/// below it are replaced, and in a replacement nothing is looked for. A node with no replacement in it is shared with the expression.
/// Refuses only where memory runs out.
///
/// Source of the rule: equals may stand for equals.
///
/// Laws: `vx_laws_simplifying::replacing_keeps_type` and `replacing_keeps_meaning`.
pub fn replace(alloc: Global, expr: ExprRef, needle: &ExprRef, replacement: ExprRef) -> Mem<ExprRef>
    ensures { IfOk result (λ made. made ≡ replaced needle.now replacement expr) }
{
    let step = Replacing {
        needle,
        replacement: &replacement,
    };
    unrefused(rebuild(alloc, expr, &step))
}

/// The expression with each row replaced by the pack, not nullable, of the row's fields of these names, so that it reads the row by its
/// fields alone. Refuses only where memory runs out.
///
/// Source of the rule: a row is the struct of its fields.
///
/// Laws: `vx_laws_simplifying::packed_rows_keep_type` and `packed_rows_keep_meaning`; of what is then simplified by types, all of
/// `vx_laws_parts`.
pub fn replace_root_fields(alloc: Global, expr: ExprRef, fields: &StructFields) -> Mem<ExprRef>
    ensures { IfOk result (λ made. made ≡ root_replaced fields.now expr) }
{
    let row = root(alloc)?;
    let names = fields.names().clone()?;
    let pack = fields_pack(alloc, names, &row)?;
    unrefused(rebuild(alloc, expr, &PackedRoot { pack: &pack }))
}

/// The answer of a pass that never refuses.
fn unrefused(answer: Result<ExprRef, TransformError>) -> Mem<ExprRef>
    requires { OkOrNoMemory answer }
    ensures { IfOk result (λ made. answer ≡ Ok made) }
{
    match answer {
        Ok(made) => Ok(made),
        Err(TransformError::NoMemory) => Err(NoMemory),
        Err(_) => unreachable!(),
    }
}

/// The replacement in the place of what equals the needle.
#[derive(Drop)]
struct Replacing<'a> {
    needle: &'a ExprRef,
    replacement: &'a ExprRef,
}

impl Step for Replacing<'_> {
    ghost step = { λ s e. Ok (replaced_where_equal s.needle.now s.replacement.now e) };

    fn at(&self, _alloc: Global, node: &ExprRef) -> Result<Option<ExprRef>, TransformError> {
        if node == self.needle {
            return Ok(Some(self.replacement.clone()?));
        }
        Ok(None)
    }
}

/// The pack of the row's fields in the place of the row, shared by all its places.
#[derive(Drop)]
struct PackedRoot<'a> {
    pack: &'a ExprRef,
}

impl Step for PackedRoot<'_> {
    ghost step = { λ s e. Ok (cond (is_root_tree e) s.pack.now e) };

    fn at(&self, _alloc: Global, node: &ExprRef) -> Result<Option<ExprRef>, TransformError> {
        if is_root(node) {
            return Ok(Some(self.pack.clone()?));
        }
        Ok(None)
    }
}
