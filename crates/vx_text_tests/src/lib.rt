//! Tests of the wire form and queries.
#![tactic(auto)]

#[cfg(test)]
mod kinds;
#[cfg(test)]
mod text;
#[cfg(test)]
mod tokens;
#[cfg(test)]
mod wire;
#[cfg(test)]
mod wire_bytes;
