//! The values that the keys of an end may have in C.

ghost use Rattle.std.specs.Prelude.{◌≡◌, ◌==◌, not};
ghost use Rattle.std.specs.List.{list_any};
ghost use Rattle.c_ends.specs.Values.{from_one, given_or_first, reserved_fault, value_fault, values_of as the_values};

use crate::code::Code;
use end_settings::{EndKey, Values};

/// Returns the values of a key: those of its row, except that a reply may take as few ticks as one, since the caller
/// chooses the tick period.
fn values_of(key: EndKey) -> Values
    ensures { result ≡ the_values key }
{
    match key {
        EndKey::ReplyTicks => from_one(key.values()),
        _ => key.values(),
    }
}

/// Returns these numbers, and those from 1 on below them.
fn from_one(values: Values) -> Values
    ensures { result ≡ from_one values }
{
    match values {
        Values::Switch => Values::Switch,
        Values::Number { most, .. } => Values::Number { least: 1, most },
    }
}

/// Returns `fault` if a key may not have this number.
pub(crate) fn value_fault(key: EndKey, fault: Code, number: u32) -> Option<Code>
    ensures { result ≡ value_fault key fault number }
{
    match values_of(key).fitting(Some(number)) {
        Some(_) => None,
        None => Some(fault),
    }
}

/// Returns the value of a key that is passed as this number: the default value if it is 0.
pub(crate) fn given_or_first(key: EndKey, number: u32) -> u32
    ensures { result ≡ given_or_first key number }
{
    if number == 0 {
        key.first().value(0)
    } else {
        number
    }
}

/// Returns a code if a reserved member isn't 0.
pub(crate) fn reserved_fault(reserved: &[u32]) -> Option<Code>
    ensures { result ≡ reserved_fault reserved.now }
{
    if has_other(reserved) {
        Some(Code::NotReserved)
    } else {
        None
    }
}

/// Returns whether one of these members isn't 0.
fn has_other(reserved: &[u32]) -> bool
    ensures { result ≡ list_any (λ member. not (member == 0)) reserved.now }
{
    reserved.iter().any(|member| *member != 0)
}
