//! Tests of tables of conformance cases.
#![tactic(auto)]

#[cfg(test)]
mod equal;
#[cfg(test)]
mod tables;
