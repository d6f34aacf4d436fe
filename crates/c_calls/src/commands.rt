//! The calls on an end's commands: issuing a command, its outcome, and its reply.
//!
//! | Number | Outcome of a command |
//! |---|---|
//! | 1 | it waits to be handed out |
//! | 2 | it was handed out |
//! | 3 | its reply was accepted |
//! | 4 | it was given up on its way, or dropped before it was handed out |
//! | 5 | no reply came in time |

ghost use Rattle.std.specs.Prelude.{◌≡◌, length, unwrap_or, Some};
ghost use Rattle.std.specs.Option.{option_map};
ghost use Rattle.df1_node.specs.Initiator.{outcome_of};
ghost use Rattle.df1_node.specs.Node.{after_node_issue};
ghost use Rattle.c_calls.specs.Behind.{code_at, told_at, with_change};
ghost use Rattle.c_calls.specs.Commands.{IsIssue, next_number, node_refusal, outcome_code, outcome_number, outcome_told, refusal, reply_code, reply_told, station_refusal};
ghost use Rattle.c_calls.specs.Copied.{copied};

use crate::behind::node_of;
use crate::copying::copy;
use c_ends::{Code, Held};
use c_transfers::fault_code;
use df1_node::{Node, Outcome};

/// Issues a command of an end with `src` as its SRC, or with the end's own address if that is None. `number` becomes
/// its number.
pub fn issue(held: &mut Held, src: Option<u8>, dst: u8, payload: &[u8], number: &mut u32) -> u32
    ensures { IsIssue (refusal (Some held.old) dst payload.now) (with_change (λ node. after_node_issue node (unwrap_or src node.initiator.node) dst payload.now) held.old) (told_at (Some held.old) (λ node. Some (next_number node)) number.old) result held.old held.new number.old number.new }
{
    if let Some(fault) = station_refusal(held, dst) {
        return fault.number();
    }
    match held {
        Held::Decoder(_) => Code::NoHandle.number(),
        Held::Duplex(end) => issue_at(end.host_mut(), src, dst, payload, number),
        Held::Master(end) => issue_at(end.host_mut().inner_mut(), src, dst, payload, number),
        Held::Slave(end) => issue_at(end.host_mut(), src, dst, payload, number),
    }
}

/// Returns the refusal of a message to a node: a master sends messages only to its stations.
pub(crate) fn station_refusal(held: &Held, dst: u8) -> Option<Code>
    ensures { result ≡ station_refusal held.now dst }
{
    match held {
        Held::Master(end) if !end.has_station(dst) => Some(Code::NoStation),
        Held::Decoder(_) | Held::Duplex(_) | Held::Master(_) | Held::Slave(_) => None,
    }
}

fn issue_at(node: &mut Node, src: Option<u8>, dst: u8, payload: &[u8], number: &mut u32) -> u32
    ensures { IsIssue (node_refusal (Some node.old) payload.now) (after_node_issue node.old (unwrap_or src node.old.initiator.node) dst payload.now) (next_number node.old) result node.old node.new number.old number.new }
{
    let issued = match src {
        Some(src) => node.issue_from(src, dst, payload),
        None => node.issue(dst, payload),
    };
    match issued {
        Ok(issued) => {
            *number = issued;
            Code::Done.number()
        }
        Err(fault) => fault_code(fault).number(),
    }
}

/// Reports the outcome of a command by the number in the module's table.
pub fn tell_outcome(held: &Held, number: u32, outcome: &mut u32) -> Code
    ensures code { result ≡ code_at (Some held.now) (λ node. outcome_code (outcome_of node.initiator number)) }
    ensures told { outcome.new ≡ told_at (Some held.now) (λ node. outcome_told node number) outcome.old }
{
    let Some(node) = node_of(held) else {
        return Code::NoHandle;
    };
    let Some(became) = node.initiator().outcome(number) else {
        return Code::NoCommand;
    };
    *outcome = outcome_number(became);
    Code::Done
}

fn outcome_number(outcome: Outcome) -> u32
    ensures { result ≡ outcome_number outcome }
{
    match outcome {
        Outcome::Waiting => 1,
        Outcome::Out => 2,
        Outcome::Answered => 3,
        Outcome::Undelivered => 4,
        Outcome::Unanswered => 5,
    }
}

/// Copies the accepted reply to a command. `count` becomes its number of bytes.
pub fn copy_reply(held: &Held, number: u32, into: &mut [u8], count: &mut usize) -> Code
    ensures code { result ≡ code_at (Some held.now) (λ node. reply_code node number (length into.old)) }
    ensures bytes { into.new ≡ told_at (Some held.now) (λ node. option_map (copied into.old) (reply_told node number)) into.old }
    ensures count { count.new ≡ told_at (Some held.now) (λ node. option_map length (reply_told node number)) count.old }
{
    let Some(node) = node_of(held) else {
        return Code::NoHandle;
    };
    let commands = node.initiator();
    match commands.outcome(number) {
        None => Code::NoCommand,
        Some(Outcome::Answered) => copy(commands.reply(number), into, count),
        Some(Outcome::Waiting | Outcome::Out) => Code::NotAnswered,
        Some(Outcome::Undelivered | Outcome::Unanswered) => Code::NotAnswered,
    }
}
