// The columns of a scope that expressions touch.
ghost use Rattle.std.specs.Prelude.{◌≡◌, [], ◌∷◌, cond, IfOk};
ghost use Rattle.std.specs.Str.{bytes_eq};
ghost use Rattle.vx_dtype.specs.TypeRules.{field_names};
ghost use Rattle.vx_expr.specs.Children.{is_root_tree};
ghost use Rattle.vx_passes.specs.Annotating.{annotated, entry_of};
ghost use Rattle.vx_partition.specs.Scopes.{access_scope, columns_of, HasJust};
ghost use Rattle.vx_partition.specs.Views.{entries_view};

use crate::annotating::{descendent_annotations, numbered_annotations};
use crate::annotation::AnnotationFn;
use crate::annotations::Annotations;
use crate::numbered::push_clones;
use std::alloc::Global;
use std::collections::HashSet;
use vx_build::is_root;
use vx_dtype::{FieldName, Mem, StructFields};
use vx_expr::{Expr, ExprRef};

/// The rule that annotates a node by the columns of a scope that it touches itself: a field of the row by its name, the row by all of
/// the scope's names, and any other node by none.
#[derive(Debug, Drop)]
pub struct ScopeAccess<'a> {
    scope: &'a StructFields,
}

/// The rule that annotates by the columns of a scope with these fields.
pub fn annotate_scope_access(scope: &StructFields) -> ScopeAccess<'_>
    ensures { access_scope result ≡ scope.now }
{
    ScopeAccess { scope }
}

impl AnnotationFn for ScopeAccess<'_> {
    type Annotation = FieldName;

    ghost annotated = { λ rule. columns_of (access_scope rule) };

    #[tactic(auto, using(crate::proofs::ScopeLemmas::field_columns))]
    fn annotate(&self, alloc: Global, expr: &ExprRef) -> Mem<Vec<FieldName>> {
        match expr.expr() {
            Expr::Root(_) => names(alloc, self.scope),
            Expr::GetItem(node) => field_of_row(alloc, node.field(), node.child()),
            _ => Ok(Vec::new(alloc)),
        }
    }
}

/// The names of fields, as a list of its own.
fn names(alloc: Global, fields: &StructFields) -> Mem<Vec<FieldName>>
    ensures { IfOk result (λ names. names.items ≡ field_names fields.now) }
{
    let mut names = Vec::new(alloc);
    push_clones(&mut names, fields.names().as_slice())?;
    Ok(names)
}

/// The name of a field of this struct where the struct is the row.
fn field_of_row(alloc: Global, field: &FieldName, of: &ExprRef) -> Mem<Vec<FieldName>>
    ensures { IfOk result (λ names. names.items ≡ cond (is_root_tree of.now) (field.now ∷ []) []) }
{
    let mut names = Vec::new(alloc);
    if is_root(of) {
        names.push(field.clone()?)?;
    }
    Ok(names)
}

/// The columns of the scope that expressions touch.
pub type FieldAccesses = Annotations<FieldName>;

/// The columns of the scope that an expression and those below it touch, found as [`descendent_annotations`] says. Refuses only where
/// memory runs out.
pub fn immediate_scope_accesses(
    alloc: Global,
    expr: &ExprRef,
    scope: &StructFields,
) -> Mem<FieldAccesses>
    ensures { IfOk result (λ found. entries_view found ≡ annotated bytes_eq (columns_of scope.now) expr.now) }
{
    descendent_annotations(alloc, expr, &annotate_scope_access(scope))
}

/// The columns of the scope that an expression touches: those of its own entry. Refuses only where memory runs out.
pub fn immediate_scope_access(
    alloc: Global,
    expr: &ExprRef,
    scope: &StructFields,
) -> Mem<HashSet<FieldName>>
    ensures { IfOk result (HasJust (entry_of expr.now (annotated bytes_eq (columns_of scope.now) expr.now))) }
{
    let (found, number) = numbered_annotations(alloc, expr, &annotate_scope_access(scope))?;
    match found.held(number) {
        Some(columns) => set_of(alloc, columns),
        None => set_of(alloc, &[]),
    }
}

/// Names as a set.
fn set_of(alloc: Global, names: &[FieldName]) -> Mem<HashSet<FieldName>>
    ensures { IfOk result (HasJust names.now) }
{
    let mut set = HashSet::new(alloc);
    for name in names {
        set.insert(name.clone()?)?;
    }
    Ok(set)
}
