//! Tests of words, numbers and columns.
#![tactic(auto)]

#[cfg(test)]
mod columns_ample;
#[cfg(test)]
mod numbers_ample;
#[cfg(test)]
mod texts_ample;
#[cfg(test)]
mod words_ample;
