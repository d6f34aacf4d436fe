//! The base of every layer of `df1`: byte sources, byte sinks and signal ports, each with counted faults, their forms
//! in memory and over std, and the types that several layers share.
#![tactic(auto)]

mod ahead;
mod appending;
mod byte_run;
mod bytes_in;
mod bytes_out;
mod code;
mod collected;
mod control;
mod feed_port;
mod file_type;
mod host;
mod link;
mod message;
mod nowhere;
mod outside;
mod port;
mod port_mem;
#[cfg(test)]
mod port_tests;
mod signal;
mod standard;
#[cfg(test)]
mod tests;
mod whole;
mod whole_input;

pub use appending::append;
pub use byte_run::ByteRun;
pub use bytes_in::BytesIn;
pub use bytes_out::BytesOut;
pub use code::Code;
pub use collected::Collected;
pub use control::{ACK, DLE, ENQ, ETX, NAK, STX};
pub use feed_port::FeedPort;
pub use file_type::FileType;
pub use host::{Did, Fate, Host, News};
pub use link::{Act, Out, Resp, Step, Turn};
pub use message::{MAX_BODY, MAX_DATA, MAX_PAYLOAD, MIN_BODY, REPLY};
pub use nowhere::Nowhere;
pub use outside::{Failed, NoMemory, Sink, Source};
pub use port::Port;
pub use port_mem::PortMem;
pub use signal::Signal;
pub use standard::{StdIn, StdOut};
pub use whole::write_all;
pub use whole_input::an_input_gives_its_signals;
