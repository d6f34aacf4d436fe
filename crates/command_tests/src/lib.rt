//! Tests of commands: their envelopes and addresses, the orders that they encode, and their effect on tables.
#![tactic(auto)]

#[cfg(test)]
mod addresses;
#[cfg(test)]
mod envelopes;
#[cfg(test)]
mod equal;
#[cfg(test)]
mod plc_orders;
#[cfg(test)]
mod slc_orders;
#[cfg(test)]
mod tables;
