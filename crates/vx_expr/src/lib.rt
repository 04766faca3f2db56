//! Expressions over nested nullable columns: the tree by kind, and the operators.
#![tactic(auto)]

mod children;
mod display;
mod equality;
mod errors;
mod expressions;
mod exprs;
mod laws;
mod leanings;
mod node_texts;
mod operators;
mod post_order;
mod selection_texts;
mod selections;
mod vortex_expr;

pub use children::{ExprId, one_child, three_children, two_children};
pub use errors::ExprError;
pub use expressions::{Expr, ExprRef};
pub use exprs::between::BetweenExpr;
pub use exprs::binary::BinaryExpr;
pub use exprs::cast::CastExpr;
pub use exprs::dynamic::DynamicComparisonExpr;
pub use exprs::get_item::GetItemExpr;
pub use exprs::like::LikeExpr;
pub use exprs::list_contains::ListContainsExpr;
pub use exprs::literal::LiteralExpr;
pub use exprs::merge::MergeExpr;
pub use exprs::pack::PackExpr;
pub use exprs::root::RootExpr;
pub use exprs::select::SelectExpr;
pub use exprs::unary::{IsNullExpr, Negation, NotExpr, NullTest, UnaryExpr, UnaryOperator};
pub use laws::{another_number_of_children_is_refused, own_children_change_nothing};
pub use node_texts::{DisplayAs, DisplayFormat};
pub use operators::{Operator, operators_order_by_number};
pub use selection_texts::write_names;
pub use selections::FieldSelection;
pub use vortex_expr::VortexExpr;
