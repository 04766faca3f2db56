// The fourteen kinds of expressions, each as a unit type.
ghost use Rattle.std.specs.Prelude.{refl};
ghost use Rattle.std.proofs.Common.{ap};
ghost use Rattle.vx_expr.specs.Nodes.{between_tree, binary_tree, cast_tree, dynamic_tree, item_tree, is_null_tree, like_tree, contains_tree};
ghost use Rattle.vx_expr.specs.Nodes.{literal_tree, merge_tree, not_tree, root_tree, select_tree};
ghost use Rattle.vx_expr.specs.Packed.{pack_tree};
ghost use Rattle.vx_wire.specs.declared.encodings.ExprEncoding.TheVariants as encodings;

use crate::views::VTable;
use std::alloc::Global;
use vx_dtype::Mem;
use vx_expr::{
    BetweenExpr, BinaryExpr, CastExpr, DynamicComparisonExpr, Expr, ExprError, ExprRef,
    GetItemExpr, IsNullExpr, LikeExpr, ListContainsExpr, LiteralExpr, MergeExpr, NotExpr, PackExpr,
    RootExpr, SelectExpr,
};
use vx_wire::ExprEncoding;

/// The kind of ranges.
#[derive(Debug)]
pub struct BetweenVTable;

impl VTable for BetweenVTable {
    type Expr = BetweenExpr;

    ghost kind = { encodings.Between };

    ghost tree = { between_tree };

    ghost holds_kind = { λ _. refl };

    ghost clone_holds_same = { λ x copy same. same };

    fn encoding() -> ExprEncoding {
        ExprEncoding::Between
    }

    fn pick(expr: &ExprRef) -> Option<&BetweenExpr> {
        match expr.expr() {
            Expr::Between(node) => Some(node),
            _ => None,
        }
    }

    fn children(expr: &BetweenExpr, alloc: Global) -> Mem<Vec<&ExprRef>> {
        expr.child_list(alloc)
    }

    fn with_children(
        expr: &BetweenExpr,
        _alloc: Global,
        children: Vec<ExprRef>,
    ) -> Result<BetweenExpr, ExprError> {
        expr.with_children(children)
    }

    fn to_expr(expr: &BetweenExpr, alloc: Global) -> Mem<ExprRef> {
        ExprRef::new(alloc, Expr::Between(expr.clone()?))
    }
}

/// The kind of two operands under an operator.
#[derive(Debug)]
pub struct BinaryVTable;

impl VTable for BinaryVTable {
    type Expr = BinaryExpr;

    ghost kind = { encodings.Binary };

    ghost tree = { binary_tree };

    ghost holds_kind = { λ _. refl };

    ghost clone_holds_same = { λ x copy same. same };

    fn encoding() -> ExprEncoding {
        ExprEncoding::Binary
    }

    fn pick(expr: &ExprRef) -> Option<&BinaryExpr> {
        match expr.expr() {
            Expr::Binary(node) => Some(node),
            _ => None,
        }
    }

    fn children(expr: &BinaryExpr, alloc: Global) -> Mem<Vec<&ExprRef>> {
        expr.child_list(alloc)
    }

    fn with_children(
        expr: &BinaryExpr,
        _alloc: Global,
        children: Vec<ExprRef>,
    ) -> Result<BinaryExpr, ExprError> {
        expr.with_children(children)
    }

    fn to_expr(expr: &BinaryExpr, alloc: Global) -> Mem<ExprRef> {
        ExprRef::new(alloc, Expr::Binary(expr.clone()?))
    }
}

/// The kind of casts.
#[derive(Debug)]
pub struct CastVTable;

impl VTable for CastVTable {
    type Expr = CastExpr;

    ghost kind = { encodings.Cast };

    ghost tree = { cast_tree };

    ghost holds_kind = { λ _. refl };

    ghost clone_holds_same = { λ x copy same. same };

    fn encoding() -> ExprEncoding {
        ExprEncoding::Cast
    }

    fn pick(expr: &ExprRef) -> Option<&CastExpr> {
        match expr.expr() {
            Expr::Cast(node) => Some(node),
            _ => None,
        }
    }

    fn children(expr: &CastExpr, alloc: Global) -> Mem<Vec<&ExprRef>> {
        expr.child_list(alloc)
    }

    fn with_children(
        expr: &CastExpr,
        _alloc: Global,
        children: Vec<ExprRef>,
    ) -> Result<CastExpr, ExprError> {
        expr.with_children(children)
    }

    fn to_expr(expr: &CastExpr, alloc: Global) -> Mem<ExprRef> {
        ExprRef::new(alloc, Expr::Cast(expr.clone()?))
    }
}

/// The kind of comparisons with the value of a slot.
#[derive(Debug)]
pub struct DynamicComparisonVTable;

impl VTable for DynamicComparisonVTable {
    type Expr = DynamicComparisonExpr;

    ghost kind = { encodings.Dynamic };

    ghost tree = { dynamic_tree };

    ghost holds_kind = { λ _. refl };

    ghost clone_holds_same = { λ x copy same. same };

    fn encoding() -> ExprEncoding {
        ExprEncoding::Dynamic
    }

    fn pick(expr: &ExprRef) -> Option<&DynamicComparisonExpr> {
        match expr.expr() {
            Expr::Dynamic(node) => Some(node),
            _ => None,
        }
    }

    fn children(expr: &DynamicComparisonExpr, alloc: Global) -> Mem<Vec<&ExprRef>> {
        expr.child_list(alloc)
    }

    fn with_children(
        expr: &DynamicComparisonExpr,
        _alloc: Global,
        children: Vec<ExprRef>,
    ) -> Result<DynamicComparisonExpr, ExprError> {
        expr.with_children(children)
    }

    fn to_expr(expr: &DynamicComparisonExpr, alloc: Global) -> Mem<ExprRef> {
        ExprRef::new(alloc, Expr::Dynamic(expr.clone()?))
    }
}

/// The kind of fields of structs.
#[derive(Debug)]
pub struct GetItemVTable;

impl VTable for GetItemVTable {
    type Expr = GetItemExpr;

    ghost kind = { encodings.GetItem };

    ghost tree = { item_tree };

    ghost holds_kind = { λ _. refl };

    ghost clone_holds_same = { λ x copy same. same };

    fn encoding() -> ExprEncoding {
        ExprEncoding::GetItem
    }

    fn pick(expr: &ExprRef) -> Option<&GetItemExpr> {
        match expr.expr() {
            Expr::GetItem(node) => Some(node),
            _ => None,
        }
    }

    fn children(expr: &GetItemExpr, alloc: Global) -> Mem<Vec<&ExprRef>> {
        expr.child_list(alloc)
    }

    fn with_children(
        expr: &GetItemExpr,
        _alloc: Global,
        children: Vec<ExprRef>,
    ) -> Result<GetItemExpr, ExprError> {
        expr.with_children(children)
    }

    fn to_expr(expr: &GetItemExpr, alloc: Global) -> Mem<ExprRef> {
        ExprRef::new(alloc, Expr::GetItem(expr.clone()?))
    }
}

/// The kind of tests for null.
#[derive(Debug)]
pub struct IsNullVTable;

impl VTable for IsNullVTable {
    type Expr = IsNullExpr;

    ghost kind = { encodings.IsNull };

    ghost tree = { is_null_tree };

    ghost holds_kind = { λ _. refl };

    ghost clone_holds_same = { λ x copy same. same };

    fn encoding() -> ExprEncoding {
        ExprEncoding::IsNull
    }

    fn pick(expr: &ExprRef) -> Option<&IsNullExpr> {
        match expr.expr() {
            Expr::IsNull(node) => Some(node),
            _ => None,
        }
    }

    fn children(expr: &IsNullExpr, alloc: Global) -> Mem<Vec<&ExprRef>> {
        expr.child_list(alloc)
    }

    fn with_children(
        expr: &IsNullExpr,
        _alloc: Global,
        children: Vec<ExprRef>,
    ) -> Result<IsNullExpr, ExprError> {
        expr.with_children(children)
    }

    fn to_expr(expr: &IsNullExpr, alloc: Global) -> Mem<ExprRef> {
        ExprRef::new(alloc, Expr::IsNull(expr.clone()?))
    }
}

/// The kind of matches of texts and patterns.
#[derive(Debug)]
pub struct LikeVTable;

impl VTable for LikeVTable {
    type Expr = LikeExpr;

    ghost kind = { encodings.Like };

    ghost tree = { like_tree };

    ghost holds_kind = { λ _. refl };

    ghost clone_holds_same = { λ x copy same. same };

    fn encoding() -> ExprEncoding {
        ExprEncoding::Like
    }

    fn pick(expr: &ExprRef) -> Option<&LikeExpr> {
        match expr.expr() {
            Expr::Like(node) => Some(node),
            _ => None,
        }
    }

    fn children(expr: &LikeExpr, alloc: Global) -> Mem<Vec<&ExprRef>> {
        expr.child_list(alloc)
    }

    fn with_children(
        expr: &LikeExpr,
        _alloc: Global,
        children: Vec<ExprRef>,
    ) -> Result<LikeExpr, ExprError> {
        expr.with_children(children)
    }

    fn to_expr(expr: &LikeExpr, alloc: Global) -> Mem<ExprRef> {
        ExprRef::new(alloc, Expr::Like(expr.clone()?))
    }
}

/// The kind of memberships in lists.
#[derive(Debug)]
pub struct ListContainsVTable;

impl VTable for ListContainsVTable {
    type Expr = ListContainsExpr;

    ghost kind = { encodings.ListContains };

    ghost tree = { contains_tree };

    ghost holds_kind = { λ _. refl };

    ghost clone_holds_same = { λ x copy same. same };

    fn encoding() -> ExprEncoding {
        ExprEncoding::ListContains
    }

    fn pick(expr: &ExprRef) -> Option<&ListContainsExpr> {
        match expr.expr() {
            Expr::ListContains(node) => Some(node),
            _ => None,
        }
    }

    fn children(expr: &ListContainsExpr, alloc: Global) -> Mem<Vec<&ExprRef>> {
        expr.child_list(alloc)
    }

    fn with_children(
        expr: &ListContainsExpr,
        _alloc: Global,
        children: Vec<ExprRef>,
    ) -> Result<ListContainsExpr, ExprError> {
        expr.with_children(children)
    }

    fn to_expr(expr: &ListContainsExpr, alloc: Global) -> Mem<ExprRef> {
        ExprRef::new(alloc, Expr::ListContains(expr.clone()?))
    }
}

/// The kind of constants.
#[derive(Debug)]
pub struct LiteralVTable;

impl VTable for LiteralVTable {
    type Expr = LiteralExpr;

    ghost kind = { encodings.Literal };

    ghost tree = { literal_tree };

    ghost holds_kind = { λ _. refl };

    ghost clone_holds_same = { λ x copy same. same };

    fn encoding() -> ExprEncoding {
        ExprEncoding::Literal
    }

    fn pick(expr: &ExprRef) -> Option<&LiteralExpr> {
        match expr.expr() {
            Expr::Literal(node) => Some(node),
            _ => None,
        }
    }

    fn children(expr: &LiteralExpr, alloc: Global) -> Mem<Vec<&ExprRef>> {
        expr.child_list(alloc)
    }

    fn with_children(
        expr: &LiteralExpr,
        _alloc: Global,
        children: Vec<ExprRef>,
    ) -> Result<LiteralExpr, ExprError> {
        expr.with_children(children)
    }

    fn to_expr(expr: &LiteralExpr, alloc: Global) -> Mem<ExprRef> {
        ExprRef::new(alloc, Expr::Literal(expr.clone()?))
    }
}

/// The kind of the fields of several structs.
#[derive(Debug)]
pub struct MergeVTable;

impl VTable for MergeVTable {
    type Expr = MergeExpr;

    ghost kind = { encodings.Merge };

    ghost tree = { merge_tree };

    ghost holds_kind = { λ _. refl };

    ghost clone_holds_same = { λ x copy same. same };

    fn encoding() -> ExprEncoding {
        ExprEncoding::Merge
    }

    fn pick(expr: &ExprRef) -> Option<&MergeExpr> {
        match expr.expr() {
            Expr::Merge(node) => Some(node),
            _ => None,
        }
    }

    fn children(expr: &MergeExpr, alloc: Global) -> Mem<Vec<&ExprRef>> {
        expr.child_list(alloc)
    }

    fn with_children(
        expr: &MergeExpr,
        _alloc: Global,
        children: Vec<ExprRef>,
    ) -> Result<MergeExpr, ExprError> {
        expr.with_children(children)
    }

    fn to_expr(expr: &MergeExpr, alloc: Global) -> Mem<ExprRef> {
        ExprRef::new(alloc, Expr::Merge(expr.clone()?))
    }
}

/// The kind of negations.
#[derive(Debug)]
pub struct NotVTable;

impl VTable for NotVTable {
    type Expr = NotExpr;

    ghost kind = { encodings.Not };

    ghost tree = { not_tree };

    ghost holds_kind = { λ _. refl };

    ghost clone_holds_same = { λ x copy same. same };

    fn encoding() -> ExprEncoding {
        ExprEncoding::Not
    }

    fn pick(expr: &ExprRef) -> Option<&NotExpr> {
        match expr.expr() {
            Expr::Not(node) => Some(node),
            _ => None,
        }
    }

    fn children(expr: &NotExpr, alloc: Global) -> Mem<Vec<&ExprRef>> {
        expr.child_list(alloc)
    }

    fn with_children(
        expr: &NotExpr,
        _alloc: Global,
        children: Vec<ExprRef>,
    ) -> Result<NotExpr, ExprError> {
        expr.with_children(children)
    }

    fn to_expr(expr: &NotExpr, alloc: Global) -> Mem<ExprRef> {
        ExprRef::new(alloc, Expr::Not(expr.clone()?))
    }
}

/// The kind of structs of named values.
#[derive(Debug)]
pub struct PackVTable;

impl VTable for PackVTable {
    type Expr = PackExpr;

    ghost kind = { encodings.Pack };

    ghost tree = { pack_tree };

    ghost holds_kind = { λ _. refl };

    ghost clone_holds_same = { λ x copy same. ap pack_tree same };

    fn encoding() -> ExprEncoding {
        ExprEncoding::Pack
    }

    fn pick(expr: &ExprRef) -> Option<&PackExpr> {
        match expr.expr() {
            Expr::Pack(node) => Some(node),
            _ => None,
        }
    }

    fn children(expr: &PackExpr, alloc: Global) -> Mem<Vec<&ExprRef>> {
        expr.child_list(alloc)
    }

    fn with_children(
        expr: &PackExpr,
        _alloc: Global,
        children: Vec<ExprRef>,
    ) -> Result<PackExpr, ExprError> {
        expr.with_children(children)
    }

    fn to_expr(expr: &PackExpr, alloc: Global) -> Mem<ExprRef> {
        ExprRef::new(alloc, Expr::Pack(expr.clone()?))
    }
}

/// The kind of the row.
#[derive(Debug)]
pub struct RootVTable;

impl VTable for RootVTable {
    type Expr = RootExpr;

    ghost kind = { encodings.Root };

    ghost tree = { root_tree };

    ghost holds_kind = { λ _. refl };

    ghost clone_holds_same = { λ x copy same. same };

    fn encoding() -> ExprEncoding {
        ExprEncoding::Root
    }

    fn pick(expr: &ExprRef) -> Option<&RootExpr> {
        match expr.expr() {
            Expr::Root(node) => Some(node),
            _ => None,
        }
    }

    fn children(expr: &RootExpr, alloc: Global) -> Mem<Vec<&ExprRef>> {
        expr.child_list(alloc)
    }

    fn with_children(
        expr: &RootExpr,
        _alloc: Global,
        children: Vec<ExprRef>,
    ) -> Result<RootExpr, ExprError> {
        expr.with_children(children)
    }

    fn to_expr(expr: &RootExpr, alloc: Global) -> Mem<ExprRef> {
        ExprRef::new(alloc, Expr::Root(expr.clone()?))
    }
}

/// The kind of some fields of structs.
#[derive(Debug)]
pub struct SelectVTable;

impl VTable for SelectVTable {
    type Expr = SelectExpr;

    ghost kind = { encodings.Select };

    ghost tree = { select_tree };

    ghost holds_kind = { λ _. refl };

    ghost clone_holds_same = { λ x copy same. same };

    fn encoding() -> ExprEncoding {
        ExprEncoding::Select
    }

    fn pick(expr: &ExprRef) -> Option<&SelectExpr> {
        match expr.expr() {
            Expr::Select(node) => Some(node),
            _ => None,
        }
    }

    fn children(expr: &SelectExpr, alloc: Global) -> Mem<Vec<&ExprRef>> {
        expr.child_list(alloc)
    }

    fn with_children(
        expr: &SelectExpr,
        _alloc: Global,
        children: Vec<ExprRef>,
    ) -> Result<SelectExpr, ExprError> {
        expr.with_children(children)
    }

    fn to_expr(expr: &SelectExpr, alloc: Global) -> Mem<ExprRef> {
        ExprRef::new(alloc, Expr::Select(expr.clone()?))
    }
}
