//! Tests of devices that fail: each read and each write of a run in turn, truncated inputs, and shelves and notes that
//! fail.
#![tactic(auto)]

#[cfg(test)]
mod cut;
#[cfg(test)]
mod equal;
#[cfg(test)]
mod inputs;
#[cfg(test)]
mod outputs;
#[cfg(test)]
mod plans;
#[cfg(test)]
mod ports;
#[cfg(test)]
mod runs;
