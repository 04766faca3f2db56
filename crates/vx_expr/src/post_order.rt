// The nodes of an expression from the leaves up, so that calls go over it by loops: what is as deep as memory lets it be is no deeper for
// the stack.
ghost use Rattle.std.specs.Prelude.{◌≡◌, map, IfOk};
ghost use Rattle.vx_expr.specs.PostOrders.{post_order};

use crate::expressions::ExprRef;
use crate::vortex_expr::VortexExpr;
use std::alloc::Global;
use vx_dtype::Mem;

impl ExprRef {
    /// The nodes of the expression, each after those below it, children in order: a node that is shared stands as often as it is used.
    pub fn post_order(&self, alloc: Global) -> Mem<Vec<&ExprRef>>
        ensures { IfOk result (λ nodes. map (λ e. e.now) nodes.items ≡ post_order self.now) }
    {
        let mut nodes = Vec::new(alloc);
        let mut left = Vec::new(alloc);
        left.push(self)?;
        while let Some(expr) = left.pop() {
            nodes.push(expr)?;
            for i in 0..expr.children_count() {
                left.push(expr.child_at(i))?;
            }
        }
        nodes.reverse();
        Ok(nodes)
    }
}
