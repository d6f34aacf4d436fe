//! Tests of the program as one call: its commands, over the outside in memory.
#![tactic(auto)]

#[cfg(test)]
mod captures;
#[cfg(test)]
mod drills;
#[cfg(test)]
mod equal;
#[cfg(test)]
mod program;
#[cfg(test)]
mod scripts;
#[cfg(test)]
mod services;
#[cfg(test)]
mod vectors;
