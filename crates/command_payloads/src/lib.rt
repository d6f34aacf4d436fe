//! Payloads of commands that read or write data files, as an initiator issues them: CMD and what follows TNS (manual
//! topics: commands, addressing).
//!
//! | Command | Payload | Its data |
//! |---|---|---|
//! | echo | `06 00`, data | any bytes |
//! | status | `06 03` | |
//! | unprotected read | `01`, address, size | words of the compatibility file |
//! | unprotected write | `08`, address, data | words of the compatibility file |
//! | word range read | `0F 01`, range, size | words |
//! | word range write | `0F 00`, range, data | words |
//! | typed read | `0F 68`, range, count | elements |
//! | typed write | `0F 67`, range, parameter of an array, data | elements |
//! | read-modify-write | `0F 26`, level address, AND mask, OR mask | bits of one word |
//! | logical read | `0F A1` or `0F A2`, size, address of two or three fields | words |
//! | logical write | `0F A9` or `0F AA`, size, address of two or three fields, data | words |
//! | masked write | `0F AB`, size, address of three fields, mask, data | bits of words |
//!
//! The address of an unprotected command is the number of a byte, in 2 bytes, low byte first. A range is an offset of 0
//! and a total, of 2 bytes each, low byte first, and a level address: the whole range is read or written. A size is one
//! byte, in bytes. Addresses have their shortest encoding. Data are words, each low byte first; a float is two words,
//! the low one first.
#![tactic(auto)]

mod basic;
mod bits;
mod fault;
pub mod laws;
mod logical;
mod pieces;
mod typed;
mod word_range;

pub use basic::{echo, station_status, unprotected_read, unprotected_write};
pub use bits::{bit_write, read_modify_write};
pub use fault::PayloadFault;
pub use logical::{logical_read, logical_write, masked_write};
pub use typed::{typed_read, typed_write};
pub use word_range::{word_range_read, word_range_write};
