//! The commands that a service issues before the first signal: those of its plan, or the orders of a transfer.

ghost use Rattle.std.specs.Prelude.{◌≡◌, ◌+◌, ◌*◌, ◌/◌, ◌≤◌, All, IfErr, IsOk, IsTrue, None, OnOk, length};
ghost use Rattle.bulk_orders.specs.Orders.{orders_of, pull_payload, push_payload};
ghost use Rattle.df1_node.specs.Initiator.{issue_fault};
ghost use Rattle.script_statement.specs.Statements.{is_payload};
ghost use Rattle.df1_service.specs.Service.{CanBeIssued, after_command, after_commands, after_order, all_issued, orders_issued, seen};

use arrayvec::ArrayVec;
use bulk_orders::{order_count, pull_order, push_order};
use df1_base::NoMemory;
use df1_node::{IssueFault, Node};
use df1_plan::{Plan, PlannedCommand};

/// The commands that a service issues to the peer of its plan, before the first signal.
#[derive(Clone, Copy, Debug, PartialEq, Eq)]
pub enum Issues<'a> {
    /// None.
    Nothing,
    /// Those of the plan.
    Plan,
    /// The orders of a transfer that reads the first words of a file.
    Pull {
        /// The file, 0 to 999.
        file: u16,
        /// How many words, 1 to 3,000.
        words: u16,
    },
    /// The orders of a transfer that writes the first words of a file.
    Push {
        /// The file, 0 to 999.
        file: u16,
        /// The words, 1 to 3,000, each low byte first.
        bytes: &'a [u8],
    },
}

/// Issues them in order, the orders of a transfer with the node itself as source. Each payload of the plan has 1 to 245
/// bytes with bit 6 of its CMD clear, the plan has at most 65,535, and the node has issued none. An error is want of
/// memory; the node can then only be dropped.
pub(crate) fn issue_before(node: &mut Node, plan: &Plan, issues: Issues<'_>) -> Result<(), NoMemory>
    requires payloads { All (λ command. IsTrue (is_payload command.payload)) plan.now.issue }
    requires few { length plan.now.issue ≤ 65535 }
    requires within { CanBeIssued (seen issues) }
    requires none { length node.old.initiator.issued ≡ 0 }
    ensures { OnOk result (node.new ≡ after_commands (seen issues.entry) plan.now node.old) }
{
    match issues {
        Issues::Nothing => Ok(()),
        Issues::Plan => issue_all(node, plan.peer, plan.issue.as_slice()),
        Issues::Pull { file, words } => issue_pull(node, plan.peer, file, words),
        Issues::Push { file, bytes } => issue_push(node, plan.peer, file, bytes),
    }
}

/// Issues commands to the node `dst`, in order. Each payload has 1 to 245 bytes with bit 6 of its CMD clear, and at
/// most 65,535 commands are issued in all. An error is want of memory.
fn issue_all(node: &mut Node, dst: u8, commands: &[PlannedCommand]) -> Result<(), NoMemory>
    requires payloads { All (λ command. IsTrue (is_payload command.payload)) commands.now }
    requires few { length node.old.initiator.issued + length commands.now ≤ 65535 }
    ensures { OnOk result (node.new ≡ all_issued node.old dst commands.now) }
{
    for command in commands {
        issue(node, dst, command)?;
    }
    Ok(())
}

/// Issues a command with its source, or else with the node itself as source. An error is want of memory.
fn issue(node: &mut Node, dst: u8, command: &PlannedCommand) -> Result<(), NoMemory>
    requires { issue_fault node.old.initiator command.now.payload ≡ None }
    ensures { OnOk result (node.new ≡ after_command node.old dst command.now) }
{
    let payload = command.payload.as_slice();
    match command.src {
        Some(src) => issued(node.issue_from(src, dst, payload)),
        None => issued(node.issue(dst, payload)),
    }
}

/// Issues the orders of a transfer that reads so many words of a file. An error is want of memory.
fn issue_pull(node: &mut Node, dst: u8, file: u16, words: u16) -> Result<(), NoMemory>
    requires file { file ≤ 999 }
    requires words { (1 ≤ words) × (words ≤ 3000) }
    requires none { length node.old.initiator.issued ≡ 0 }
    ensures { OnOk result (node.new ≡ orders_issued node.old dst (pull_payload file words) (orders_of words)) }
{
    let mut order = ArrayVec::new();
    for n in 0..order_count(words) {
        pull_order(file, words, n + 1, &mut order);
        issue_order(node, dst, &order)?;
    }
    Ok(())
}

/// Issues the orders of a transfer that writes these words to a file. An error is want of memory.
fn issue_push(node: &mut Node, dst: u8, file: u16, bytes: &[u8]) -> Result<(), NoMemory>
    requires file { file ≤ 999 }
    requires words { (2 ≤ length bytes.now) × (length bytes.now ≤ 6000) }
    requires whole { length bytes.now ≡ 2 * (length bytes.now / 2) }
    requires none { length node.old.initiator.issued ≡ 0 }
    ensures { OnOk result (node.new ≡ orders_issued node.old dst (push_payload file bytes.now) (orders_of (length bytes.now / 2))) }
{
    let mut order = ArrayVec::new();
    for n in 0..order_count((bytes.len() / 2) as u16) {
        push_order(file, bytes, n + 1, &mut order);
        issue_order(node, dst, &order)?;
    }
    Ok(())
}

/// Issues an order with the node itself as source. An error is want of memory.
fn issue_order(node: &mut Node, dst: u8, order: &[u8]) -> Result<(), NoMemory>
    requires { issue_fault node.old.initiator order.now ≡ None }
    ensures { OnOk result (node.new ≡ after_order node.old dst order.now) }
{
    issued(node.issue(dst, order))
}

/// Returns the result of issuing a command that may be issued: the only error is want of memory.
fn issued(number: Result<u32, IssueFault>) -> Result<(), NoMemory>
    requires { IfErr number (λ fault. fault ≡ IssueFault.NoMemory) }
    ensures { OnOk result (IsOk number) }
{
    match number {
        Ok(_) => Ok(()),
        Err(IssueFault::NoMemory) => Err(NoMemory),
        Err(_) => unreachable!(),
    }
}
