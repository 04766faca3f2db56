// What every expression answers, of whatever kind it is.
ghost use Rattle.std.specs.Prelude.{◌≡◌, ◌<◌, length, map, Some, IfOk, List};
ghost use Rattle.std.specs.List.{slice_get};
ghost use Rattle.vx_expr.specs.Trees.{Tree, children_of};
ghost use Rattle.vx_expr.specs.Children.{with_children_of, id_of};
ghost use Rattle.vx_expr.specs.Answers.{Answers};
ghost use Rattle.vx_expr.specs.declared.errors.ExprError.TheVariants.{WrongChildren};

use crate::children::ExprId;
use crate::errors::ExprError;
use crate::expressions::ExprRef;
use std::alloc::Global;
use vx_dtype::Mem;

/// What every expression answers.
pub trait VortexExpr {
    ghost tree: { Self → Tree };

    /// The name of the node's kind.
    fn id(&self) -> ExprId
        ensures { result.now ≡ id_of (tree self.now) };

    /// How many children the node has.
    fn children_count(&self) -> usize
        ensures { result ≡ length (children_of (tree self.now)) };

    /// The child at this place, counted from 0.
    fn child_at(&self, i: usize) -> &ExprRef
        requires { i < length (children_of (tree self.now)) }
        ensures { slice_get (children_of (tree self.now)) i ≡ Some result.now };

    /// The children in order.
    fn children(&self, alloc: Global) -> Mem<Vec<&ExprRef>>
        ensures { IfOk result (λ list. map (λ e. e.now) list.items ≡ children_of (tree self.now)) };

    /// The node with these children in place of its own. The node itself stays as it is.
    ///
    /// Refuses with WrongChildren exactly where there are more or fewer children than the node has.
    fn with_children(&self, alloc: Global, children: Vec<ExprRef>) -> Result<ExprRef, ExprError>
        ensures { Answers WrongChildren (with_children_of (tree self.now) children.items) result };
}

impl VortexExpr for ExprRef {
    ghost tree = { λ e. e };

    fn id(&self) -> ExprId {
        self.expr().id()
    }

    fn children_count(&self) -> usize {
        self.expr().children_count()
    }

    fn child_at(&self, i: usize) -> &ExprRef {
        self.expr().child_at(i)
    }

    fn children(&self, alloc: Global) -> Mem<Vec<&ExprRef>> {
        self.expr().child_list(alloc)
    }

    fn with_children(&self, alloc: Global, children: Vec<ExprRef>) -> Result<ExprRef, ExprError>
        ensures { Answers WrongChildren (with_children_of self.now children.items) result }
    {
        let made = self.expr().with_children(children)?;
        Ok(ExprRef::new(alloc, made)?)
    }
}
