//! Tests of a node: what its station answers, the exchanges of its initiator, and transfers of whole files.
#![tactic(auto)]

#[cfg(test)]
mod answers;
#[cfg(test)]
mod equal;
#[cfg(test)]
mod exchanges;
#[cfg(test)]
mod transfers;
#[cfg(test)]
mod windows;
