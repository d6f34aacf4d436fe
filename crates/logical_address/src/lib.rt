//! Logical addresses and parameters: how the numbers of a file, an element and a sub-element, and the type and size of
//! data, are encoded in a command's bytes.
//!
//! | Spelled | Bytes |
//! |---|---|
//! | value | one byte 0 to 254, or FF and two bytes, low first |
//! | three-field address | file as a value, file type as one byte, element as a value, with three fields the sub-element as a value |
//! | level address | a mask byte, then a value for each of its bits 0 to 3 that is set: area, file, element, sub-element |
//! | parameter | a flag byte, then the bytes of the kind, then the bytes of the size |
//!
//! The FF encoding of a value under 255 is read and never written (manual topic: addressing).
#![tactic(auto)]

mod laws;
mod levels;
mod param;
mod three;
mod value;

pub use laws::{one_spelling, shortest_is_shortest, worked_values, written_is_read};
pub use levels::{LevelFault, Levels, read_levels, write_levels};
pub use param::{Param, ParamFault, element_param, read_param, write_array};
pub use three::{Three, read_three, write_three};
pub use value::read_value;
