//! The contents of a plan.

use df1_check::Check;
use script_parts::EndPlan;
use script_statement::{Bytes, Items};

/// The commands of a plan, in order.
pub type Commands = Items<PlannedCommand>;

/// A command of a plan.
#[derive(Drop)]
pub struct PlannedCommand {
    /// The source (SRC) of the command, or None if it is the end itself.
    pub src: Option<u8>,
    /// The payload of 1 to 245 bytes. Its first byte is CMD, whose bit 6 is clear.
    pub payload: Bytes,
}

/// A plan that was read.
pub struct Plan {
    /// The check that ends a frame.
    pub check: Check,
    /// The address to which the commands are sent, 0 to 255.
    pub peer: u8,
    /// The settings and files of the end; it has the name a.
    pub end: EndPlan,
    /// The commands that the end issues, in order, at most 65,535.
    pub issue: Commands,
}

// By hand, so that whoever drops one proves nothing of its parts.
impl Drop for Plan {
    fn drop(self) {
        let Plan {
            check: _,
            peer: _,
            end: _end,
            issue: _issue,
        } = self;
    }
}
