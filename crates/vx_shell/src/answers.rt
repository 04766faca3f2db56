// What is answered over a store.
ghost use Rattle.std.specs.Prelude.{◌≡◌, ◌≤◌, None, Some, Ok, length};
ghost use Rattle.vx_dtype.specs.Types.{Bytes};
ghost use Rattle.vx_laws_shell.specs.Running.{end_by};
ghost use Rattle.vx_laws_shell.specs.Wants as spec;
ghost use Rattle.vx_laws_statements.specs.Statements.{plan_of};
ghost use Rattle.vx_scan.specs.Stores.{AgreesWith, IsSameStore, WhereTold};
ghost use Rattle.vx_semantics.specs.Tables.{row_type};
ghost use Rattle.vx_sql.specs.StatementAnswers.{plan_view};
ghost use Rattle.vx_sql_lines.specs.Told.{TellsStatement};
ghost use Rattle.vx_zones.specs.Zoning.{broken_rule};
ghost use Rattle.vx_shell.specs.Founds.{AnswersStore, FindsPlanned, FindsStatement, FindsWithin};
ghost use Rattle.vx_shell.specs.WantViews.{WantsOf};
ghost use Rattle.vx_shell.specs.AskedBlocks.{AsksInOrder};
ghost use Rattle.vx_shell_words.specs.WordViews.{asked_view, range_view};

use crate::errors::Refusal;
use crate::rows_by_key::write_by_key;
use crate::rows_in_order::write_in_order;
use crate::wants::{Wanted, condition_of, wanted_of};
use std::alloc::Global;
use vx_block_parts::{BlockPart, parts_read_their_blocks};
use vx_dtype::NoMemory;
use vx_expr::ExprRef;
use vx_io::Sink;
use vx_scan::ColumnStore;
use vx_shell_words::{Asked, BlockRange};
use vx_sql::Plan;
use vx_sql_lines::{ToldError, told_plan};

/// What was found in blocks: how many they are, how many of them were skipped, and how many rows were written.
#[derive(Clone, Copy, Debug)]
pub(crate) struct Found {
    pub(crate) blocks: u32,
    pub(crate) skipped: u32,
    pub(crate) rows: u64,
}

/// What was found, or why the rows weren't written whole, and the store as it was left.
#[derive(Drop)]
pub(crate) struct Answered<S: ColumnStore> {
    pub(crate) found: Result<Found, Refusal>,
    pub(crate) store: S,
}

/// Writes the rows that are wanted by a plan of a store, whose condition this is.
fn write_wanted<S: ColumnStore, O: Sink>(
    alloc: Global,
    plan: &Plan,
    filter: &ExprRef,
    wanted: Wanted<'_>,
    store: &mut S,
    output: &mut O,
) -> Result<Found, Refusal>
    requires rules { broken_rule (S.seen store.old).zones ≡ None }
    requires planned { (text : Bytes) × (plan_of (row_type (S.seen store.old).zones.columns) text ≡ Ok (plan_view plan.now)) }
    requires filter { filter.now ≡ spec.condition_tree (plan_view plan.now).filter }
    requires wanted { WantsOf (S.seen store.old).zones.columns (plan_view plan.now)
        (spec.wanted_of (S.seen store.old).zones.columns (plan_view plan.now)) (Ok wanted) }
    ensures same { IsSameStore (S.seen store.old) (S.seen store.new) }
    ensures moves { S.moves store.old store.new }
    ensures finds { FindsPlanned (plan_view plan.now) (S.seen store.old) (S.seen store.new) (end_by O.written O.faults output.old)
        (end_by O.written O.faults output.new) result }
{
    let rows = &plan.rows.expr;
    match wanted {
        Wanted::InOrder(limit) => write_in_order(alloc, filter, rows, limit, store, output),
        Wanted::FirstBy(key, count) => {
            write_by_key(alloc, filter, rows, key, count, store, output)
        }
    }
}

/// Writes the rows of a plan of a store, whose condition this is.
fn write_filtered<S: ColumnStore, O: Sink>(
    alloc: Global,
    plan: &Plan,
    filter: &ExprRef,
    store: &mut S,
    output: &mut O,
) -> Result<Found, Refusal>
    requires rules { broken_rule (S.seen store.old).zones ≡ None }
    requires planned { (text : Bytes) × (plan_of (row_type (S.seen store.old).zones.columns) text ≡ Ok (plan_view plan.now)) }
    requires filter { filter.now ≡ spec.condition_tree (plan_view plan.now).filter }
    ensures same { IsSameStore (S.seen store.old) (S.seen store.new) }
    ensures moves { S.moves store.old store.new }
    ensures finds { FindsPlanned (plan_view plan.now) (S.seen store.old) (S.seen store.new) (end_by O.written O.faults output.old)
        (end_by O.written O.faults output.new) result }
{
    match wanted_of(plan) {
        Ok(wanted) => write_wanted(alloc, plan, filter, wanted, store, output),
        Err(refusal) => Err(refusal),
    }
}

/// Writes the rows of a plan of a store.
fn write_planned<S: ColumnStore, O: Sink>(
    alloc: Global,
    plan: &Plan,
    store: &mut S,
    output: &mut O,
) -> Result<Found, Refusal>
    requires rules { broken_rule (S.seen store.old).zones ≡ None }
    requires planned { (text : Bytes) × (plan_of (row_type (S.seen store.old).zones.columns) text ≡ Ok (plan_view plan.now)) }
    ensures same { IsSameStore (S.seen store.old) (S.seen store.new) }
    ensures moves { S.moves store.old store.new }
    ensures finds { FindsPlanned (plan_view plan.now) (S.seen store.old) (S.seen store.new) (end_by O.written O.faults output.old)
        (end_by O.written O.faults output.new) result }
{
    match condition_of(alloc, plan) {
        Ok(filter) => write_filtered(alloc, plan, &filter, store, output),
        Err(NoMemory) => Err(Refusal::NoMemory),
    }
}

/// Writes the rows of the plan that a statement was answered with over a store.
fn write_answered<S: ColumnStore, O: Sink>(
    alloc: Global,
    statement: &str,
    answer: Result<Plan, ToldError>,
    store: &mut S,
    output: &mut O,
) -> Result<Found, Refusal>
    requires rules { broken_rule (S.seen store.old).zones ≡ None }
    requires agrees { WhereTold (S.seen store.old).held (AgreesWith (S.seen store.old).zones) }
    requires answer { let t = row_type (S.seen store.old).zones.columns in TellsStatement plan_view statement.now t (plan_of t statement.now) answer }
    ensures same { IsSameStore (S.seen store.old) (S.seen store.new) }
    ensures moves { S.moves store.old store.new }
    ensures finds { FindsStatement statement.now (S.seen store.old) (S.seen store.new) (end_by O.written O.faults output.old)
        (end_by O.written O.faults output.new) result }
{
    match answer {
        Ok(plan) => write_planned(alloc, &plan, store, output),
        Err(error) => Err(Refusal::from(error)),
    }
}

/// Writes the rows that a statement names over a store.
fn write_named<S: ColumnStore, O: Sink>(
    alloc: Global,
    statement: &str,
    store: &mut S,
    output: &mut O,
) -> Result<Found, Refusal>
    ensures same { IsSameStore (S.seen store.old) (S.seen store.new) }
    ensures moves { S.moves store.old store.new }
    ensures rules { broken_rule (S.seen store.old).zones ≡ None }
    ensures agrees { WhereTold (S.seen store.old).held (AgreesWith (S.seen store.old).zones) }
    ensures finds { FindsStatement statement.now (S.seen store.old) (S.seen store.new) (end_by O.written O.faults output.old)
        (end_by O.written O.faults output.new) result }
{
    let answer = told_plan(alloc, statement, store.zones().dtype());
    write_answered(alloc, statement, answer, store, output)
}

/// What is answered over all blocks of a store.
fn answer_whole<S: ColumnStore + Drop, O: Sink>(
    alloc: Global,
    statement: &str,
    store: S,
    output: &mut O,
) -> Answered<S>
    ensures same { IsSameStore (S.seen store) (S.seen result.store) }
    ensures moves { S.moves store result.store }
    ensures rules { broken_rule (S.seen store).zones ≡ None }
    ensures agrees { WhereTold (S.seen store).held (AgreesWith (S.seen store).zones) }
    ensures finds { FindsStatement statement.now (S.seen store) (S.seen result.store) (end_by O.written O.faults output.old)
        (end_by O.written O.faults output.new) result.found }
{
    let mut store = store;
    let found = write_named(alloc, statement, &mut store, output);
    Answered { found, store }
}

/// What is answered over the blocks of a store from one on, up to another one and without it, all of which it has.
fn answer_part<S: ColumnStore + Drop, O: Sink>(
    alloc: Global,
    statement: &str,
    from: u32,
    up_to: u32,
    store: S,
    output: &mut O,
) -> Answered<S>
    requires order { from ≤ up_to }
    requires within { up_to ≤ length (S.seen store).zones.lengths }
    requires agrees { WhereTold (S.seen store).held (AgreesWith (S.seen store).zones) }
    ensures same { IsSameStore (S.seen store) (S.seen result.store) }
    ensures moves { S.moves store result.store }
    ensures finds { FindsWithin statement.now (record { from = from; up_to = up_to }) (S.seen store) (S.seen result.store)
        (end_by O.written O.faults output.old) (end_by O.written O.faults output.new) result.found }
{
    parts_read_their_blocks();
    match BlockPart::try_new(alloc, store, from, up_to) {
        Ok(part) => {
            let Answered { found, store } = answer_whole(alloc, statement, part, output);
            Answered {
                found,
                store: store.into_store(),
            }
        }
        Err(store) => Answered {
            found: Err(Refusal::NoMemory),
            store,
        },
    }
}

/// What is answered over these blocks of a store. PastEnd where it hasn't all of them.
fn answer_range<S: ColumnStore + Drop, O: Sink>(
    alloc: Global,
    asked: Asked<'_>,
    range: BlockRange,
    store: S,
    output: &mut O,
) -> Answered<S>
    requires blocks { (asked_view asked).blocks ≡ Some (range_view range) }
    requires order { range.from ≤ range.up_to }
    ensures same { IsSameStore (S.seen store) (S.seen result.store) }
    ensures moves { S.moves store result.store }
    ensures answers { AnswersStore (asked_view asked.entry) (S.seen store) (S.seen result.store)
        (end_by O.written O.faults output.old) (end_by O.written O.faults output.new) result.found }
{
    let blocks = store.zones().lengths().len();
    if range.up_to > blocks as u64 {
        return Answered {
            found: Err(Refusal::PastEnd(range, blocks)),
            store,
        };
    }
    let from = range.from as u32;
    let up_to = range.up_to as u32;
    answer_part(alloc, asked.statement, from, up_to, store, output)
}

/// What is answered over a store to what words ask: the rows are written block by block as they are found, each as a line. Before the first row come, in this
/// order: PastEnd where blocks are asked that the store hasn't; the refusal of the statement; Unlimited and TooMany of its order.
pub(crate) fn answer<S: ColumnStore + Drop, O: Sink>(
    alloc: Global,
    asked: Asked<'_>,
    store: S,
    output: &mut O,
) -> Answered<S>
    requires { AsksInOrder (asked_view asked) }
    ensures same { IsSameStore (S.seen store) (S.seen result.store) }
    ensures moves { S.moves store result.store }
    ensures answers { AnswersStore (asked_view asked.entry) (S.seen store) (S.seen result.store)
        (end_by O.written O.faults output.old) (end_by O.written O.faults output.new) result.found }
{
    match asked.blocks {
        None => answer_whole(alloc, asked.statement, store, output),
        Some(range) => answer_range(alloc, asked, range, store, output),
    }
}
