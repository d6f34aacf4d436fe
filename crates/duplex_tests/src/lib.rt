//! Tests of an end of a full-duplex line and of its parts: sender, receiver, the order of the bytes that it sends.
#![tactic(auto)]

#[cfg(test)]
mod end;
#[cfg(test)]
mod equal;
#[cfg(test)]
mod receiver;
#[cfg(test)]
mod responses;
#[cfg(test)]
mod sender;
#[cfg(test)]
mod serving;
