//! Laws of handles between threads.

use crate::seat::Seat;

/// Accepts what may move from one thread to another.
fn may_cross<T: Send>(_value: &T) {}

/// A law: a handle may move from one thread to another with what it holds.
pub fn a_handle_may_cross(seat: &Seat) {
    may_cross(seat);
}
