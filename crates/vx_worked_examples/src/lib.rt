//! Worked examples: what the definitions of vx_semantics, of the crates below it and of vx_passes give for cases worked by hand, as theorems about them.
#![tactic(auto)]

pub mod asking_examples;
pub mod built_examples;
pub mod column_examples;
pub mod falsification_examples;
pub mod honesty_examples;
pub mod instance_examples;
pub mod loose_typing_examples;
pub mod meaning_examples;
pub mod partition_examples;
pub mod premise_examples;
pub mod pruning_examples;
pub mod rule_examples;
pub mod scan_examples;
pub mod simplification_examples;
pub mod strict_typing_examples;
pub mod top_examples;
pub mod tree_examples;
pub mod type_examples;
