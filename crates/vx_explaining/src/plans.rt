// The explanation of a statement over the zones of a table.
ghost use Rattle.std.specs.Prelude.{◌≡◌, ◌^◌, ◌<◌, true, None, Ok, length, option_map, IfOk};
ghost use Rattle.vx_dtype.specs.Types.{Bytes, Fields};
ghost use Rattle.vx_laws_listing.specs.Listing.{AreSoundZones};
ghost use Rattle.vx_laws_statements.specs.Clauses as clauses;
ghost use Rattle.vx_laws_statements.specs.Statements as statements;
ghost use Rattle.vx_laws_statements.specs.Statements.{plan_of};
ghost use Rattle.vx_laws_shell.specs.Running.{end_by};
ghost use Rattle.vx_laws_shell.specs.Wants.{OrderRefusal, condition_tree, too_many, wanted_by, wanted_of};
ghost use Rattle.vx_semantics.specs.Tables.{row_type};
ghost use Rattle.vx_sql_forms.specs.Views.{typed_view};
ghost use Rattle.vx_sql.specs.StatementAnswers.{plan_view};
ghost use Rattle.vx_sql_lines.specs.Told.{TellsStatement};
ghost use Rattle.vx_zones.specs.Zoning.{broken_rule};
ghost use Rattle.vx_laws_explaining.specs.Explained as spec;
ghost use Rattle.vx_laws_explaining.specs.Explaining.{error_line};
ghost use Rattle.vx_laws_explaining.specs.Explanations.{explanation_in};
ghost use Rattle.vx_explaining.specs.ExplainedViews.{asked_view, explained_view, form_view};
ghost use Rattle.vx_explaining.specs.ExplainingSteps.{AnswersWanted, ExplainsZones, RefusesStatement, WritesText};
ghost use Rattle.vx_explaining.specs.PlanSteps.{ExplainsPlan, IsLineOf, TellsCount};

use crate::errors::{PieceError, Refusal};
use crate::explained::{Explained, explained_by};
use crate::words::{Asked, Form};
use crate::writing::write_explanation;
use std::alloc::{AllocError, Global};
use vx_dtype::{Mem, NoMemory};
use vx_expr::ExprRef;
use vx_io::Sink;
use vx_sql::Plan;
use vx_sql_forms::boolean;
use vx_sql_lines::{ToldError, told_plan};
use vx_zones::ZoneMap;

/// The most rows that are wanted by a key.
const MOST_BY_KEY: u64 = 1_048_576;

/// More rows are wanted by a key than can be held at once.
fn too_many(alloc: Global, count: u64) -> Refusal
    ensures { TellsCount count result }
{
    match format!(in alloc; "error: LIMIT {count}: behind ORDER BY it is 1048576 at most\n") {
        Ok(line) => Refusal::Statement(line),
        Err(AllocError) => Refusal::NoMemory,
    }
}

/// Whether so many rows are wanted by a key.
fn wanted_by_key(alloc: Global, limit: Option<u64>) -> Result<(), Refusal>
    ensures { (columns : Fields) (plan : statements.Plan) (key : clauses.Key) → AnswersWanted (wanted_by columns plan key limit) result }
{
    match limit {
        None => Err(Refusal::Unlimited),
        Some(count) => {
            if count > MOST_BY_KEY {
                return Err(too_many(alloc, count));
            }
            Ok(())
        }
    }
}

/// Whether the rows of a plan are wanted, as for a run of `sql`.
#[tactic(auto, unfolding(vx_laws_shell::specs::Wants::wanted_of))]
fn wanted(alloc: Global, plan: &Plan) -> Result<(), Refusal>
    ensures { (columns : Fields) → AnswersWanted (wanted_of columns (plan_view plan.now)) result }
{
    match &plan.order {
        None => Ok(()),
        Some(_) => wanted_by_key(alloc, plan.limit),
    }
}

/// The condition by which a plan takes rows: true where it has none.
fn condition_of(alloc: Global, plan: &Plan) -> Mem<ExprRef>
    ensures { IfOk result (λ e. e ≡ condition_tree (option_map typed_view plan.now.filter)) }
{
    match &plan.filter {
        Some(condition) => Ok(condition.expr.clone()?),
        None => Ok(boolean(alloc, true)?.expr.clone()?),
    }
}

/// What is explained of a plan over the zones of a table, whose blocks have these lengths.
fn explained_of<'z>(
    alloc: Global,
    zones: &'z ZoneMap,
    lengths: &'z [u32],
    plan: &Plan,
) -> Mem<Explained<'z>>
    requires rules { broken_rule zones.now ≡ None }
    requires lengths { lengths.now ≡ zones.now.lengths }
    requires planned { (text : Bytes) × (plan_of (row_type zones.now.columns) text ≡ Ok (plan_view plan.now)) }
    ensures { IfOk result (λ x. explained_view x ≡ spec.explained_of zones.now (plan_view plan.now)) }
{
    let filter = condition_of(alloc, plan)?;
    let projection = plan.rows.expr.clone()?;
    explained_by(alloc, zones, lengths, filter, projection, &plan.order)
}

/// Writes the explanation of a plan.
fn write_plan<O: Sink>(
    alloc: Global,
    form: Form,
    zones: &ZoneMap,
    lengths: &[u32],
    plan: &Plan,
    output: &mut O,
) -> Result<(), PieceError>
    requires rules { broken_rule zones.now ≡ None }
    requires lengths { lengths.now ≡ zones.now.lengths }
    requires planned { (text : Bytes) × (plan_of (row_type zones.now.columns) text ≡ Ok (plan_view plan.now)) }
    ensures { let end = end_by O.written O.faults in
        WritesText (explanation_in (form_view form) (spec.explained_of zones.now (plan_view plan.now))) (end output.old) (end output.new) result }
{
    match explained_of(alloc, zones, lengths, plan) {
        Ok(explained) => write_explanation(alloc, form, &explained, output),
        Err(NoMemory) => Err(PieceError::NoMemory),
    }
}

/// Explains a plan whose rows are wanted.
fn explain_wanted<O: Sink>(
    alloc: Global,
    form: Form,
    zones: &ZoneMap,
    lengths: &[u32],
    plan: &Plan,
    output: &mut O,
) -> Result<(), Refusal>
    requires rules { broken_rule zones.now ≡ None }
    requires lengths { lengths.now ≡ zones.now.lengths }
    requires planned { (text : Bytes) × (plan_of (row_type zones.now.columns) text ≡ Ok (plan_view plan.now)) }
    ensures { let end = end_by O.written O.faults in
        ExplainsPlan (explanation_in (form_view form) (spec.explained_of zones.now (plan_view plan.now))) (end output.old) (end output.new) result }
{
    match write_plan(alloc, form, zones, lengths, plan, output) {
        Ok(()) => Ok(()),
        Err(error) => Err(Refusal::from(error)),
    }
}

/// Explains the plan that a statement names over the zones of a table.
fn explain_plan<O: Sink>(
    alloc: Global,
    asked: Asked<'_>,
    zones: &ZoneMap,
    lengths: &[u32],
    plan: &Plan,
    output: &mut O,
) -> Result<(), Refusal>
    requires rules { broken_rule zones.now ≡ None }
    requires lengths { lengths.now ≡ zones.now.lengths }
    requires planned { plan_of (row_type zones.now.columns) asked.statement.now ≡ Ok (plan_view plan.now) }
    ensures { let end = end_by O.written O.faults in
        ExplainsZones zones.now (asked_view asked.entry) (end output.old) (end output.new) result }
{
    match wanted(alloc, plan) {
        Ok(()) => explain_wanted(alloc, asked.form, zones, lengths, plan, output),
        Err(refusal) => Err(refusal),
    }
}

/// The line of a statement that isn't taken, as it is told.
pub(crate) fn statement_refusal(alloc: Global, error: ToldError) -> Refusal
    ensures { IsLineOf error result }
{
    match error {
        ToldError::NoMemory => Refusal::NoMemory,
        ToldError::Refused(line) => match format!(in alloc; "error: {line}\n") {
            Ok(line) => Refusal::Statement(line),
            Err(AllocError) => Refusal::NoMemory,
        },
    }
}

/// Explains a statement over the zones of a table.
pub(crate) fn explain_zones<O: Sink>(
    alloc: Global,
    asked: Asked<'_>,
    zones: &ZoneMap,
    output: &mut O,
) -> Result<(), Refusal>
    ensures sound { AreSoundZones zones.now }
    ensures explains { let end = end_by O.written O.faults in
        ExplainsZones zones.now (asked_view asked.entry) (end output.old) (end output.new) result }
{
    let lengths = zones.lengths();
    match told_plan(alloc, asked.statement, zones.dtype()) {
        Ok(plan) => explain_plan(alloc, asked, zones, lengths, &plan, output),
        Err(error) => Err(statement_refusal(alloc, error)),
    }
}
