//! Tests of plans: the contents of a document, the node that a plan makes, and the outcomes of its commands.
#![tactic(auto)]

#[cfg(test)]
mod equal;
#[cfg(test)]
mod nodes;
#[cfg(test)]
mod outcomes;
#[cfg(test)]
mod plans;
