//! The names of fields that an expression refers to.
ghost use Rattle.std.specs.Prelude.{◌≡◌, [], ◌∷◌, IfOk, OnOk};
ghost use Rattle.vx_expr.specs.Trees.{Tree};
ghost use Rattle.vx_traversal.specs.Visits.{NoStep};
ghost use Rattle.vx_traversal.specs.References.{own_names, reference_names, AddsNames, Collects, HasExactly};

use crate::order::TraversalOrder;
use crate::visitor::NodeVisitor;
use std::alloc::Global;
use std::collections::HashSet;
use std::marker::Model;
use vx_dtype::{FieldName, FieldNames, Mem, NoMemory};
use vx_expr::{Expr, ExprRef};

/// A visitor that collects the names of field accesses and of selections. It is seen as the list
/// of the names that it holds.
#[derive(Debug, Drop)]
pub struct ReferenceCollector {
    fields: HashSet<FieldName>,
}

impl Model for ReferenceCollector {
    ghost use Rattle.std.specs.Prelude.{ℕ, List};

    ghost Value = { List (List ℕ) };

    ghost view = { λ collector. collector.fields.keys };
}

impl ReferenceCollector {
    /// The collector that holds no name.
    pub fn new(alloc: Global) -> Self
        ensures { result ≡ [] }
    {
        ReferenceCollector {
            fields: HashSet::new(alloc),
        }
    }

    /// The collector that holds these names.
    pub fn with_set(set: HashSet<FieldName>) -> Self
        ensures { result ≡ set.keys }
    {
        ReferenceCollector { fields: set }
    }

    /// The names that the collector holds.
    pub fn into_fields(self) -> HashSet<FieldName>
        ensures { result.keys ≡ self }
    {
        self.fields
    }
}

// Adds one name.
fn add_name(fields: &mut HashSet<FieldName>, name: &FieldName) -> Mem<()>
    ensures { OnOk result (AddsNames (name.now ∷ []) fields.old.keys fields.new.keys) }
{
    fields.insert(name.clone()?)?;
    Ok(())
}

// Adds each of the names.
fn add_names(fields: &mut HashSet<FieldName>, names: &FieldNames) -> Mem<()>
    ensures { OnOk result (AddsNames names.now fields.old.keys fields.new.keys) }
{
    let names = names.as_slice();
    for i in 0..names.len() {
        add_name(fields, &names[i])?;
    }
    Ok(())
}

// Adds the names that the node alone refers to.
fn add_own_names(fields: &mut HashSet<FieldName>, node: &ExprRef) -> Mem<()>
    ensures { OnOk result (AddsNames (own_names node.now) fields.old.keys fields.new.keys) }
{
    match node.expr() {
        Expr::GetItem(item) => add_name(fields, item.field()),
        Expr::Select(select) => add_names(fields, select.selection().field_names()),
        _ => Ok(()),
    }
}

impl<'a> NodeVisitor<'a> for ReferenceCollector {
    type NodeTy = ExprRef;

    type Error = NoMemory;

    ghost down = { λ before node answer after. Collects (own_names node) before answer after };

    ghost up = { NoStep };

    fn visit_down(&mut self, node: &'a ExprRef) -> Result<TraversalOrder, NoMemory> {
        add_own_names(&mut self.fields, node)?;
        Ok(TraversalOrder::Continue)
    }

    fn visit_up(&mut self, _node: &'a ExprRef) -> Result<TraversalOrder, NoMemory> {
        Ok(TraversalOrder::Continue)
    }
}

/// What a walk over an expression tells of it.
pub trait VortexExprExt {
    /// The expression itself.
    ghost expression: { Self → Tree };

    /// The names in field accesses and selections, anywhere in the expression. Refuses only where
    /// memory runs out.
    fn field_references(&self, alloc: Global) -> Mem<HashSet<FieldName>>
        ensures { IfOk result (HasExactly (reference_names (expression self.now))) };
}

impl VortexExprExt for ExprRef {
    ghost expression = { λ expr. expr };

    fn field_references(&self, alloc: Global) -> Mem<HashSet<FieldName>> {
        let nodes = self.post_order(alloc)?;
        let mut fields = HashSet::new(alloc);
        for i in 0..nodes.len() {
            add_own_names(&mut fields, nodes[i])?;
        }
        Ok(fields)
    }
}
