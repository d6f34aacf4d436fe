//! Decoding and encoding of lines for the C library: a decoder of each side of a line, the numbers of the decoded
//! items, and the bytes of frames, messages and polls.
#![tactic(auto)]

mod decoder;
mod hearing;
mod side;
mod spelling;

pub use decoder::LineDecoder;
pub use hearing::Hearing;
pub use side::side_of;
pub use spelling::{frame_of, message_of, poll_of, reply_of};
