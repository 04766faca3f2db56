// What a statement wants of a table.
ghost use Rattle.std.specs.Prelude.{◌≡◌, option_map, IfOk};
ghost use Rattle.vx_dtype.specs.Types.{Fields};
ghost use Rattle.vx_laws_statements.specs.Statements as statements;
ghost use Rattle.vx_laws_shell.specs.Wants as spec;
ghost use Rattle.vx_shell.specs.WantViews.{WantsOf};
ghost use Rattle.vx_sql_forms.specs.Views.{typed_view};
ghost use Rattle.vx_sql.specs.StatementAnswers.{key_view, plan_view};

use crate::errors::Refusal;
use std::alloc::Global;
use vx_dtype::Mem;
use vx_expr::ExprRef;
use vx_sql::{Key, Plan};
use vx_sql_forms::boolean;

/// The rows that are wanted of a table.
#[derive(Clone, Copy)]
pub(crate) enum Wanted<'p> {
    /// All, or the first so many, in the table's order.
    InOrder(Option<u64>),
    /// The first so many by a key.
    FirstBy(&'p Key, u32),
}

/// The most rows that are wanted by a key: as many are held at once.
const MOST_BY_KEY: u64 = 1_048_576;

/// The first so many rows by a key.
fn first_by(key: &Key, limit: Option<u64>) -> Result<Wanted<'_>, Refusal>
    ensures { (columns : Fields) (plan : statements.Plan) → WantsOf columns plan (spec.wanted_by columns plan (key_view key.now) limit) result }
{
    match limit {
        None => Err(Refusal::Unlimited),
        Some(count) => {
            if count > MOST_BY_KEY {
                return Err(Refusal::TooMany(count));
            }
            Ok(Wanted::FirstBy(key, count as u32))
        }
    }
}

/// What a plan wants. Unlimited where an order stands without a limit, else TooMany where the limit is more than 1,048,576; without an order any limit is
/// taken.
#[tactic(auto, unfolding(vx_laws_shell::specs::Wants::wanted_of))]
pub(crate) fn wanted_of(plan: &Plan) -> Result<Wanted<'_>, Refusal>
    ensures { (columns : Fields) → WantsOf columns (plan_view plan.now) (spec.wanted_of columns (plan_view plan.now)) result }
{
    match &plan.order {
        None => Ok(Wanted::InOrder(plan.limit)),
        Some(key) => first_by(key, plan.limit),
    }
}

/// The condition by which a plan takes rows: true where it has none.
pub(crate) fn condition_of(alloc: Global, plan: &Plan) -> Mem<ExprRef>
    ensures { IfOk result (λ e. e ≡ spec.condition_tree (option_map typed_view plan.now.filter)) }
{
    match &plan.filter {
        Some(condition) => Ok(condition.expr.clone()?),
        None => Ok(boolean(alloc, true)?.expr.clone()?),
    }
}
