//! What expressions mean, as definitions alone: typing, meaning, asked columns, statistics, pruning and scans.
#![tactic(auto)]
