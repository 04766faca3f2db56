// One constructor for each kind of expression.
ghost use Rattle.std.specs.Prelude.{◌≡◌, map, IfOk};
ghost use Rattle.vx_dtype.specs.TypeViews.{type_view};
ghost use Rattle.vx_dtype.specs.Values.{Typed};
ghost use Rattle.vx_expr.specs.declared.Operator.{Operator};
ghost use Rattle.vx_expr.specs.declared.FieldSelection.{FieldSelection};
ghost use Rattle.vx_expr.specs.Trees as tree;
ghost use Rattle.vx_expr.specs.Children.{is_root_tree};

use std::alloc::Global;
use vx_dtype::{BetweenOptions, DType, FieldName, FieldNames, Mem, NoMemory, Nullability, Scalar};
use vx_expr::{
    BetweenExpr, BinaryExpr, CastExpr, Expr, ExprError, ExprRef, GetItemExpr, IsNullExpr,
    ListContainsExpr, LiteralExpr, MergeExpr, NotExpr, Operator, PackExpr, RootExpr, SelectExpr,
};

/// The test whether the operands are equal.
pub fn eq(alloc: Global, lhs: ExprRef, rhs: ExprRef) -> Mem<ExprRef>
    ensures { IfOk result (λ made. made ≡ tree.binary lhs Operator.Eq rhs) }
{
    BinaryExpr::new_expr(alloc, lhs, Operator::Eq, rhs)
}

/// The test whether the operands differ.
pub fn not_eq(alloc: Global, lhs: ExprRef, rhs: ExprRef) -> Mem<ExprRef>
    ensures { IfOk result (λ made. made ≡ tree.binary lhs Operator.NotEq rhs) }
{
    BinaryExpr::new_expr(alloc, lhs, Operator::NotEq, rhs)
}

/// The test whether the left operand is greater.
pub fn gt(alloc: Global, lhs: ExprRef, rhs: ExprRef) -> Mem<ExprRef>
    ensures { IfOk result (λ made. made ≡ tree.binary lhs Operator.Gt rhs) }
{
    BinaryExpr::new_expr(alloc, lhs, Operator::Gt, rhs)
}

/// The test whether the left operand is greater or equal.
pub fn gt_eq(alloc: Global, lhs: ExprRef, rhs: ExprRef) -> Mem<ExprRef>
    ensures { IfOk result (λ made. made ≡ tree.binary lhs Operator.Gte rhs) }
{
    BinaryExpr::new_expr(alloc, lhs, Operator::Gte, rhs)
}

/// The test whether the left operand is less.
pub fn lt(alloc: Global, lhs: ExprRef, rhs: ExprRef) -> Mem<ExprRef>
    ensures { IfOk result (λ made. made ≡ tree.binary lhs Operator.Lt rhs) }
{
    BinaryExpr::new_expr(alloc, lhs, Operator::Lt, rhs)
}

/// The test whether the left operand is less or equal.
pub fn lt_eq(alloc: Global, lhs: ExprRef, rhs: ExprRef) -> Mem<ExprRef>
    ensures { IfOk result (λ made. made ≡ tree.binary lhs Operator.Lte rhs) }
{
    BinaryExpr::new_expr(alloc, lhs, Operator::Lte, rhs)
}

/// Both operands, by the three-valued logic after Kleene.
pub fn and(alloc: Global, lhs: ExprRef, rhs: ExprRef) -> Mem<ExprRef>
    ensures { IfOk result (λ made. made ≡ tree.binary lhs Operator.And rhs) }
{
    BinaryExpr::new_expr(alloc, lhs, Operator::And, rhs)
}

/// One of the operands, by the three-valued logic after Kleene.
pub fn or(alloc: Global, lhs: ExprRef, rhs: ExprRef) -> Mem<ExprRef>
    ensures { IfOk result (λ made. made ≡ tree.binary lhs Operator.Or rhs) }
{
    BinaryExpr::new_expr(alloc, lhs, Operator::Or, rhs)
}

/// The sum of the operands, which has no value where it leaves the type.
pub fn checked_add(alloc: Global, lhs: ExprRef, rhs: ExprRef) -> Mem<ExprRef>
    ensures { IfOk result (λ made. made ≡ tree.binary lhs Operator.Add rhs) }
{
    BinaryExpr::new_expr(alloc, lhs, Operator::Add, rhs)
}

/// The row.
pub fn root(alloc: Global) -> Mem<ExprRef>
    ensures { IfOk result (λ made. made ≡ tree.root) }
{
    RootExpr::new_expr(alloc)
}

/// Whether an expression is the row.
pub fn is_root(expr: &ExprRef) -> bool
    ensures { result ≡ is_root_tree expr.now }
{
    matches!(expr.expr(), Expr::Root(_))
}

/// The constant that the value converts to.
pub fn lit<T: Into<Scalar>>(alloc: Global, value: T) -> Mem<ExprRef>
    ensures { IfOk result (λ made. (constant : Typed) × T.converts value constant × (made ≡ tree.literal constant)) }
{
    LiteralExpr::new_expr(alloc, value.into())
}

/// The field of this name in the row.
pub fn col(alloc: Global, field: FieldName) -> Mem<ExprRef>
    ensures { IfOk result (λ made. made ≡ tree.get_item field tree.root) }
{
    GetItemExpr::new_expr(alloc, field, root(alloc)?)
}

/// The field of this name in the struct.
pub fn get_item(alloc: Global, field: FieldName, child: ExprRef) -> Mem<ExprRef>
    ensures { IfOk result (λ made. made ≡ tree.get_item field child) }
{
    GetItemExpr::new_expr(alloc, field, child)
}

/// The operand with true and false exchanged.
pub fn not(alloc: Global, operand: ExprRef) -> Mem<ExprRef>
    ensures { IfOk result (λ made. made ≡ tree.not_of operand) }
{
    NotExpr::new_expr(alloc, operand)
}

/// The test whether the value is null.
pub fn is_null(alloc: Global, child: ExprRef) -> Mem<ExprRef>
    ensures { IfOk result (λ made. made ≡ tree.is_null_of child) }
{
    IsNullExpr::new_expr(alloc, child)
}

/// The value in the target type.
pub fn cast(alloc: Global, child: ExprRef, target: DType) -> Mem<ExprRef>
    ensures { IfOk result (λ made. made ≡ tree.cast child (type_view target)) }
{
    CastExpr::new_expr(alloc, child, target)
}

/// The test whether a value lies between these bounds.
pub fn between(
    alloc: Global,
    arr: ExprRef,
    lower: ExprRef,
    upper: ExprRef,
    options: BetweenOptions,
) -> Mem<ExprRef>
    ensures { IfOk result (λ made. made ≡ tree.between arr lower upper options) }
{
    BetweenExpr::new_expr(alloc, arr, lower, upper, options)
}

/// The test whether the list holds the value.
pub fn list_contains(alloc: Global, list: ExprRef, value: ExprRef) -> Mem<ExprRef>
    ensures { IfOk result (λ made. made ≡ tree.list_contains list value) }
{
    ListContainsExpr::new_expr(alloc, list, value)
}

/// The struct of these named values, of a type with this nullability.
pub fn pack(
    alloc: Global,
    elements: Vec<(FieldName, ExprRef)>,
    nullability: Nullability,
) -> Mem<ExprRef>
    ensures { IfOk result (λ made. made ≡ tree.pack (map (λ e. e.0) elements.items) (tree.trees_of (map (λ e. e.1) elements.items)) nullability) }
{
    let mut names = Vec::new(alloc);
    let mut values = Vec::new(alloc);
    for (name, value) in elements {
        names.push(name)?;
        values.push(value)?;
    }
    let names = FieldNames::new(alloc, names)?;
    match PackExpr::try_new_expr(alloc, names, values, nullability) {
        Ok(made) => Ok(made),
        Err(ExprError::NoMemory) => Err(NoMemory),
        Err(_) => unreachable!(),
    }
}

/// The fields of these structs, in a struct of a type with this nullability.
pub fn merge(alloc: Global, elements: Vec<ExprRef>, nullability: Nullability) -> Mem<ExprRef>
    ensures { IfOk result (λ made. made ≡ tree.merge (tree.trees_of elements.items) nullability) }
{
    MergeExpr::new_expr(alloc, elements, nullability)
}

/// These fields of the struct, in their listed order. Typing refuses a name that stands twice.
pub fn select(alloc: Global, names: FieldNames, child: ExprRef) -> Mem<ExprRef>
    ensures { IfOk result (λ made. made ≡ tree.select (FieldSelection.Include names) child) }
{
    SelectExpr::include_expr(alloc, names, child)
}

/// All fields of the struct but these, in the struct's order. A name may stand twice among these.
pub fn select_exclude(alloc: Global, names: FieldNames, child: ExprRef) -> Mem<ExprRef>
    ensures { IfOk result (λ made. made ≡ tree.select (FieldSelection.Exclude names) child) }
{
    SelectExpr::exclude_expr(alloc, names, child)
}
