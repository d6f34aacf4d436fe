//! Tests of the outside in memory: sources, sinks, ports and a buffer.
#![tactic(auto)]

#[cfg(test)]
mod buffers;
#[cfg(test)]
mod equal;
#[cfg(test)]
mod ports;
#[cfg(test)]
mod streams;
