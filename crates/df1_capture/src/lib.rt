//! Captures of a line, read from an input piece by piece: what is decoded in one is reported line by line, or counted.
#![tactic(auto)]

mod capture;
mod checking;
mod dissecting;

pub use capture::{Capture, CaptureFault};
pub use checking::check;
pub use dissecting::dissect;
