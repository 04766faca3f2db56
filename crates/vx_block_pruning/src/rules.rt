// A filter's rule over a table's statistics, made once and asked of runs of blocks.
ghost use Rattle.std.specs.Prelude.{◌≡◌, ◌+◌, ◌≤◌, true, false, length, Ok, IfOk};
ghost use Rattle.std.proofs.Math.ListN.{replicate};
ghost use Rattle.vx_dtype.specs.Types.{Ty};
ghost use Rattle.vx_expr.specs.Trees.{Tree};
ghost use Rattle.vx_semantics.specs.Typing.{typed_of};
ghost use Rattle.vx_semantics.specs.Slots.{slots_fit};
ghost use Rattle.vx_semantics.specs.Tables.{row_type};
ghost use Rattle.vx_block_pruning.specs.Available.{TellsAvailable};
ghost use Rattle.vx_block_pruning.specs.BlocksRuledOut.{run_ruled_out};
ghost use Rattle.vx_block_pruning.specs.PruningRules.{IsRuleOf, pruning_tree};
ghost use Rattle.vx_block_pruning.specs.PruningTruths.{IsEvaluable, pruning_truths};

use crate::joined_names::{alone, alone_names, joined_names};
use crate::tables::statistics_table;
use crate::truths::{evaluated, truths};
use std::alloc::Global;
use vx_dtype::{FieldNames, Mem, Scalar};
use vx_eval::Scope;
use vx_expr::ExprRef;
use vx_prune::{checked_pruning_expr, standing};
use vx_zones::ZoneMap;

/// A filter's rule over a table's statistics, made once and asked of runs of blocks: a run is one evaluation over its own blocks' statistics,
/// however many blocks the table has, and the slots may change from one run to the next.
#[derive(Debug, Drop)]
pub struct PruningRule {
    // The filter's pruning expression, none where the statistics tell of none.
    pruning: Option<ExprRef>,
    // Of each statistic, whether it is available: no other has its joined name.
    available: Vec<bool>,
    // The joined names of those that are, in order.
    names: FieldNames,
}

impl PruningRule {
    /// The rule of a filter over a table's statistics. The filter is typed over the table's rows.
    pub fn new(alloc: Global, zones: &ZoneMap, filter: &ExprRef) -> Mem<PruningRule>
        requires typed { (u : Ty) × (typed_of (row_type zones.now.columns) filter.now ≡ Ok u) }
        ensures { IfOk result (λ rule. IsRuleOf zones.now filter.now rule) }
    {
        let joined = joined_names(alloc, zones.statistics())?;
        let all = joined.as_slice();
        let noted = standing(alloc, all)?;
        let available = alone(alloc, all, &noted)?;
        let names = FieldNames::new(alloc, alone_names(alloc, all, &noted)?)?;
        let pruning = pruning_of(alloc, zones, filter)?;
        Ok(PruningRule {
            pruning,
            available,
            names,
        })
    }

    /// Which blocks of a run the filter rules out, with these slots: a block's statistics show that the filter is true at no row there. One truth
    /// value per block of the run, in order. The run begins at a block, counted from 0, and is so many blocks long, all of them the table's. The
    /// statistics are those that the rule was made of, and the slots fit the filter.
    pub fn rules_out(
        &self,
        alloc: Global,
        zones: &ZoneMap,
        first: u32,
        count: u32,
        slots: &[Option<Scalar>],
    ) -> Mem<Vec<bool>>
        requires rule { (filter : Tree) × IsRuleOf zones.now filter self.now × (slots_fit slots.now filter ≡ true) }
        requires blocks { first + count ≤ length zones.now.lengths }
        ensures { (filter : Tree) → IsRuleOf zones.now filter self.now → slots_fit slots.now filter ≡ true
            → IfOk result (λ flags. flags.items ≡ run_ruled_out zones.now slots.now first count filter) }
    {
        match &self.pruning {
            Some(pruning) => self.pruned(alloc, zones, pruning, first, count, slots),
            None => none_of(alloc, count),
        }
    }

    /// At which blocks of a run the pruning expression is true.
    fn pruned(
        &self,
        alloc: Global,
        zones: &ZoneMap,
        pruning: &ExprRef,
        first: u32,
        count: u32,
        slots: &[Option<Scalar>],
    ) -> Mem<Vec<bool>>
        requires available { TellsAvailable zones.now self.now.available.items self.now.names }
        requires evaluable { IsEvaluable zones.now slots.now pruning.now }
        requires blocks { first + count ≤ length zones.now.lengths }
        ensures { IfOk result (λ flags. flags.items ≡ pruning_truths zones.now slots.now first count pruning.now) }
    {
        if count == 0 {
            return Ok(Vec::new(alloc));
        }
        let available = self.available.as_slice();
        let table = statistics_table(alloc, zones, &self.names, available, first, count)?;
        let scope = Scope::new(table).with_slots(copied(alloc, slots)?);
        truths(alloc, &evaluated(alloc, pruning, &scope)?)
    }
}

/// The pruning expression of a filter over a table's available statistics, None where they tell of none.
fn pruning_of(alloc: Global, zones: &ZoneMap, filter: &ExprRef) -> Mem<Option<ExprRef>>
    ensures { IfOk result (λ pruning. pruning ≡ pruning_tree zones.now filter.now) }
{
    match checked_pruning_expr(alloc, filter, &zones.available(alloc)?)? {
        Some((pruning, _required)) => Ok(Some(pruning)),
        None => Ok(None),
    }
}

/// The slots again.
fn copied(alloc: Global, slots: &[Option<Scalar>]) -> Mem<Vec<Option<Scalar>>>
    ensures { IfOk result (λ copy. copy.items ≡ slots.now) }
{
    Ok(Vec::from_clones(alloc, slots)?)
}

/// That none of this many blocks is ruled out.
fn none_of(alloc: Global, blocks: u32) -> Mem<Vec<bool>>
    ensures { IfOk result (λ flags. flags.items ≡ replicate blocks false) }
{
    let mut flags = Vec::with_capacity(alloc, blocks as usize)?;
    for _ in 0..blocks {
        flags.push(false)?;
    }
    Ok(flags)
}
