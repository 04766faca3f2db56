//! Tests of requests, scans and the program.
#![tactic(auto)]

#[cfg(test)]
mod ends;
#[cfg(test)]
mod explaining;
#[cfg(test)]
mod requests;
#[cfg(test)]
mod running;
#[cfg(test)]
mod scanning;
