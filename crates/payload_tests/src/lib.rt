//! Tests of addresses from their texts, of the payloads of commands at them, and of the contents of replies.
#![tactic(auto)]

#[cfg(test)]
mod addresses;
#[cfg(test)]
mod equal;
#[cfg(test)]
mod payloads;
#[cfg(test)]
mod replies;
