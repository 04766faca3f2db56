// A kind of expressions, seen by the struct that holds the parts of one.
ghost use Rattle.std.specs.Prelude.{◌≡◌, map, option_copied, IfOk};
ghost use Rattle.vx_expr.specs.Trees.{Tree, children_of};
ghost use Rattle.vx_expr.specs.Children.{with_children_of};
ghost use Rattle.vx_expr.specs.Answers.{AnswersBy};
ghost use Rattle.vx_expr.specs.declared.errors.ExprError.TheVariants.{WrongChildren};
ghost use Rattle.vx_wire.specs.Encodings.{encoding_of, encoding_id};
ghost use Rattle.vx_wire.specs.declared.encodings.ExprEncoding.{ExprEncoding};
ghost use Rattle.vx_kinds.specs.Picking.{IsPicked};

use std::alloc::Global;
use vx_dtype::Mem;
use vx_expr::{ExprError, ExprId, ExprRef};
use vx_wire::ExprEncoding;

/// A kind of expressions, seen by the struct that holds the parts of one.
pub trait VTable {
    /// The struct that holds the parts of an expression of this kind.
    type Expr: Clone + Drop;

    /// The kind.
    ghost kind: { ExprEncoding };

    /// The expression that holds the struct.
    ghost tree: { Self.Expr → Tree };

    /// The kind, as the wire form has it.
    fn encoding() -> ExprEncoding
        ensures { result ≡ kind };

    /// The struct of an expression of this kind, and None exactly where the expression is of another.
    fn pick(expr: &ExprRef) -> Option<&Self::Expr>
        ensures { IsPicked kind tree expr.now (option_copied result) };

    /// The children in order.
    fn children(expr: &Self::Expr, alloc: Global) -> Mem<Vec<&ExprRef>>
        ensures { IfOk result (λ list. map (λ e. e.now) list.items ≡ children_of (tree expr.now)) };

    /// The struct with these children in place of its own.
    ///
    /// Refuses with WrongChildren exactly where there are more or fewer children than the struct has.
    fn with_children(
        expr: &Self::Expr,
        alloc: Global,
        children: Vec<ExprRef>,
    ) -> Result<Self::Expr, ExprError>
        ensures { AnswersBy tree WrongChildren (with_children_of (tree expr.now) children.items) result };

    /// The expression that holds a clone of the struct.
    fn to_expr(expr: &Self::Expr, alloc: Global) -> Mem<ExprRef>
        ensures { IfOk result (λ made. made ≡ tree expr.now) };

    /// The expression that holds a struct is of the kind.
    ghost holds_kind: { (x : Self.Expr) → encoding_of (tree x) ≡ kind };

    /// A clone is held by the same expression.
    ghost clone_holds_same: { (x copy : Self.Expr) → Self.Expr.is_clone x copy → tree copy ≡ tree x };

    /// The name of the kind.
    final fn id() -> ExprId
        ensures { result.now ≡ encoding_id kind }
    {
        Self::encoding().id()
    }
}
