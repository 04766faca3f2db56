// What a pruning rule says of a run of blocks, held for the blocks that come.
ghost use Rattle.std.specs.Prelude.{◌≡◌, ◌*◌, ◌<◌, min, max, ℕ, Bool, true, length, IfOk, IfSome};
ghost use Rattle.vx_expr.specs.Trees.{Tree};
ghost use Rattle.vx_semantics.specs.Pruning.{rules_out};
ghost use Rattle.vx_semantics.specs.Slots.{slots_fit};
ghost use Rattle.vx_block_pruning.specs.PruningRules.{IsRuleOf};
ghost use Rattle.vx_topk.specs.RuledRuns.{AreTold};

use std::alloc::Global;
use vx_block_pruning::PruningRule;
use vx_dtype::{Mem, Scalar};
use vx_zones::ZoneMap;

/// What a pruning rule says of a run of blocks, which begins at a block, with slots that stay.
#[derive(Drop)]
pub(crate) struct RuledRun {
    first: u32,
    ruled: Vec<bool>,
}

impl RuledRun {
    /// What is said of no block.
    pub(crate) fn none(alloc: Global) -> RuledRun
        ensures { (says : ℕ → Bool) → AreTold says result }
    {
        RuledRun {
            first: 0,
            ruled: Vec::new(alloc),
        }
    }

    /// Whether the rule rules a block out, with slots that are those of what is held. Where nothing is held of this block, the rule is asked of a
    /// run that begins there, so that many blocks that are skipped one behind the other take few evaluations.
    pub(crate) fn rules_out(
        &mut self,
        alloc: Global,
        rule: &PruningRule,
        zones: &ZoneMap,
        block: u32,
        slots: &[Option<Scalar>],
    ) -> Mem<bool>
        requires rule { (filter : Tree) × IsRuleOf zones.now filter rule.now × (slots_fit slots.now filter ≡ true) }
        requires block { block < length zones.now.lengths }
        ensures { (filter : Tree) → IsRuleOf zones.now filter rule.now → slots_fit slots.now filter ≡ true →
            AreTold (λ b. rules_out zones.now slots.now b filter) self.old →
            IfOk result (λ out. (out ≡ rules_out zones.now slots.now block filter) × AreTold (λ b. rules_out zones.now slots.now b filter) self.new) }
    {
        if let Some(out) = self.said_of(block) {
            return Ok(out);
        }
        let left = zones.lengths().len() as u32 - block;
        let ruled = rule.rules_out(alloc, zones, block, self.next_length(left), slots)?;
        let out = ruled[0];
        self.first = block;
        self.ruled = ruled;
        Ok(out)
    }

    /// What is held of a block, none where it isn't of the run.
    fn said_of(&self, block: u32) -> Option<bool>
        ensures { (says : ℕ → Bool) → AreTold says self.now → IfSome result (λ out. out ≡ says block) }
    {
        if block < self.first {
            return None;
        }
        let place = (block - self.first) as usize;
        let ruled = self.ruled.as_slice();
        if place < ruled.len() {
            Some(ruled[place])
        } else {
            None
        }
    }

    /// How long the next run is: twice as long as this one, one block behind a run of none, and at most as long as the blocks that are left.
    fn next_length(&self, left: u32) -> u32
        ensures { result ≡ min (max 1 (length self.now.ruled.items * 2)) left }
    {
        let twice = self.ruled.len().saturating_mul(2).max(1);
        twice.min(left as usize) as u32
    }
}
