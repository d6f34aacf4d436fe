//! What a handle may hold.

use c_lines::LineDecoder;
use df1_node::Node;
use duplex_end::End;
use half_master::Master;
use half_slave::Slave;
use station_router::Router;

/// What a handle holds: a decoder, or an end of a link over a node.
#[derive(Drop)]
pub enum Held {
    /// A decoder of one side of a line.
    Decoder(LineDecoder),
    /// An end of a full-duplex link.
    Duplex(End<Node>),
    /// The master of a half-duplex link, which may carry messages between its stations.
    Master(Master<Router<Node>>),
    /// A slave of a half-duplex link.
    Slave(Slave<Node>),
}

impl Held {
    ghost use Rattle.std.specs.Prelude.{◌≡◌};
    ghost use Rattle.c_ends.specs.Held.{is_end};

    /// Returns whether it is an end of a link.
    pub fn is_end(&self) -> bool
        ensures { result ≡ is_end self.now }
    {
        match self {
            Held::Decoder(_) => false,
            Held::Duplex(_) | Held::Master(_) | Held::Slave(_) => true,
        }
    }
}
