//! Tests of the ends of a half-duplex line: a slave, the master, what they send, and a router behind the master.
#![tactic(auto)]

#[cfg(test)]
mod equal;
#[cfg(test)]
mod giving;
#[cfg(test)]
mod master;
#[cfg(test)]
mod router;
#[cfg(test)]
mod slave;
