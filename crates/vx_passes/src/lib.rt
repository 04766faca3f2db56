//! Definitions alone: the trees that the passes over expressions make, and their refusals.
#![tactic(auto)]
