//! The host of the master of a line: a node, or a router in front of one, which carries messages from station to
//! station.

ghost use Rattle.std.specs.Prelude.{◌≡◌, None, OnOk, unwrap_or};
ghost use Rattle.df1_node.specs.Initiator.{issue_fault};
ghost use Rattle.df1_node.specs.Node.{after_node_issue};

use crate::Router;
use df1_base::{Host, NoMemory};
use df1_node::{IssueFault, Node};

/// A host that contains a node, which executes and issues the commands. It may carry messages from station to station.
pub trait MasterHost: Host {
    ghost use Rattle.std.specs.Prelude.{◌≡◌, ℕ, List, Bool, None, OnOk, unwrap_or};
    ghost use Rattle.df1_node.specs.Initiator.{issue_fault};
    ghost use Rattle.df1_node.specs.Node.{NodeState, after_node_issue};

    /// The node within, and the host with another one.
    ghost node: { Self → NodeState };

    ghost with_node: { Self → NodeState → Self };

    /// Whether the host carries a body to a station instead of handing it to the node.
    ghost carries: { Self → List ℕ → Bool };

    /// Returns the node within.
    fn node(&self) -> &Node
        ensures { result.now ≡ node self.now };

    /// Lets the node issue a command with the SRC `src`, or with its own address if that is None. The payload has 1 to
    /// 245 bytes, bit 6 of its CMD is clear, and the node has issued fewer than 65,535 commands (manual topic: message
    /// packets).
    fn issue(&mut self, src: Option<u8>, dst: u8, payload: &[u8]) -> Result<(), NoMemory>
        requires { issue_fault (node self.old).initiator payload.now ≡ None }
        ensures { OnOk result (self.new ≡ with_node self.old (after_node_issue (node self.old) (unwrap_or src (node self.old).initiator.node) dst payload.now)) };

    /// Returns whether the host carries a body to a station instead of handing it to the node (manual topic:
    /// addressing).
    fn carries(&self, body: &[u8]) -> bool
        ensures { result ≡ carries self.now body.now };
}

impl MasterHost for Node {
    ghost use Rattle.std.specs.Prelude.{false};

    ghost node = { λ n. n };

    ghost with_node = { λ _ n. n };

    ghost carries = { λ _ _. false };

    fn node(&self) -> &Node {
        self
    }

    fn issue(&mut self, src: Option<u8>, dst: u8, payload: &[u8]) -> Result<(), NoMemory> {
        issue_in_name(self, src, dst, payload)
    }

    fn carries(&self, _body: &[u8]) -> bool {
        false
    }
}

impl<H: MasterHost + Drop> MasterHost for Router<H> {
    ghost use Rattle.std.specs.Prelude.{◌||◌};
    ghost use Rattle.station_router.specs.Router.{is_carried, with_inner};

    ghost node = { λ r. H.node r.inner };

    ghost with_node = { λ r n. with_inner r (H.with_node r.inner n) };

    ghost carries = { λ r body. H.carries r.inner body || is_carried r.stations body };

    fn node(&self) -> &Node {
        self.inner().node()
    }

    fn issue(&mut self, src: Option<u8>, dst: u8, payload: &[u8]) -> Result<(), NoMemory> {
        self.inner_mut().issue(src, dst, payload)
    }

    fn carries(&self, body: &[u8]) -> bool {
        self.inner().carries(body) || self.carries(body)
    }
}

/// Lets a node issue a command with the SRC `src`, or with its own address if that is None. The payload has 1 to 245
/// bytes, bit 6 of its CMD is clear, and the node has issued fewer than 65,535 commands.
fn issue_in_name(node: &mut Node, src: Option<u8>, dst: u8, payload: &[u8]) -> Result<(), NoMemory>
    requires { issue_fault node.old.initiator payload.now ≡ None }
    ensures { OnOk result (node.new ≡ after_node_issue node.old (unwrap_or src node.old.initiator.node) dst payload.now) }
{
    let issued = match src {
        Some(src) => node.issue_from(src, dst, payload),
        None => node.issue(dst, payload),
    };
    match issued {
        Ok(_) => Ok(()),
        Err(IssueFault::NoMemory) => Err(NoMemory),
        Err(_) => unreachable!(),
    }
}
