//! The node behind an end that a handle holds.

ghost use Rattle.std.specs.Prelude.{◌≡◌};
ghost use Rattle.std.specs.Option.{option_copied};
ghost use Rattle.c_calls.specs.Behind.{node_in};

use c_ends::Held;
use df1_node::Node;

/// Returns the node behind an end; a decoder has none.
pub(crate) fn node_of(held: &Held) -> Option<&Node>
    ensures { option_copied result ≡ node_in held.now }
{
    match held {
        Held::Decoder(_) => None,
        Held::Duplex(end) => Some(end.host()),
        Held::Master(end) => Some(end.host().inner()),
        Held::Slave(end) => Some(end.host()),
    }
}
