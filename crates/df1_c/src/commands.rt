//! The commands that an end behind a handle issues: issuing a command, its outcome, and its reply.

ghost use Rattle.std.specs.Prelude.{◌≡◌, ℕ, List, length, Some};
ghost use Rattle.std.specs.Option.{option_map};
ghost use Rattle.df1_check.specs.declared.Check.{Check as CheckKind};
ghost use Rattle.df1_node.specs.Initiator.{outcome_of};
ghost use Rattle.df1_node.specs.Node.{after_node_issue};
ghost use Rattle.c_ends.specs.Code.{code_number};
ghost use Rattle.c_calls.specs.Behind.{code_at, told_at, with_change};
ghost use Rattle.c_calls.specs.Commands.{IsIssue, next_number, outcome_code, outcome_told, refusal, reply_code, reply_told};
ghost use Rattle.c_calls.specs.Copied.{copied};
ghost use Rattle.df1_c.specs.Arrived.{IsEndFor};
ghost use Rattle.df1_c.specs.Held.{holding};

use crate::seat::Seat;
use c_calls::{copy_reply, issue, tell_outcome};
use c_ends::Code;
use std::alloc::Global;

/// Issues a command to a node, with the end's own node as SRC. The payload is CMD and what follows TNS.
#[tactic(auto, unfolding(crate::specs::Held::value_in))]
#[unsafe(no_mangle)]
pub extern "C" fn df1_end_issue(
    alloc: Global,
    end: &mut Seat,
    dst: u8,
    payload: &[u8],
    number: &mut u32,
) -> u32
    ensures issued { IsIssue (refusal (holding end.old) dst payload.now) (option_map (with_change (λ node. after_node_issue node node.initiator.node dst payload.now)) (holding end.old)) (told_at (holding end.old) (λ node. Some (next_number node)) number.old) result (holding end.old) (holding end.new) number.old number.new }
    ensures stands { (check : CheckKind) (bytes : List ℕ) → IsEndFor check bytes (holding end.old) → IsEndFor check bytes (holding end.new) }
{
    let Some(mut held) = end.take(alloc) else {
        return Code::NoHandle.number();
    };
    let code = issue(&mut held, None, dst, payload, number);
    *end = Seat::of(held);
    code
}

/// Issues a command to a node, with `src` as its SRC. The payload is CMD and what follows TNS.
#[tactic(auto, unfolding(crate::specs::Held::value_in))]
#[unsafe(no_mangle)]
pub extern "C" fn df1_end_issue_from(
    alloc: Global,
    end: &mut Seat,
    src: u8,
    dst: u8,
    payload: &[u8],
    number: &mut u32,
) -> u32
    ensures issued { IsIssue (refusal (holding end.old) dst payload.now) (option_map (with_change (λ node. after_node_issue node src dst payload.now)) (holding end.old)) (told_at (holding end.old) (λ node. Some (next_number node)) number.old) result (holding end.old) (holding end.new) number.old number.new }
    ensures stands { (check : CheckKind) (bytes : List ℕ) → IsEndFor check bytes (holding end.old) → IsEndFor check bytes (holding end.new) }
{
    let Some(mut held) = end.take(alloc) else {
        return Code::NoHandle.number();
    };
    let code = issue(&mut held, Some(src), dst, payload, number);
    *end = Seat::of(held);
    code
}

/// Reports the outcome of a command.
#[tactic(auto, unfolding(crate::specs::Held::value_in))]
#[unsafe(no_mangle)]
pub extern "C" fn df1_end_outcome(
    alloc: Global,
    end: &mut Seat,
    number: u32,
    outcome: &mut u32,
) -> u32
    ensures code { result ≡ code_number (code_at (holding end.old) (λ node. outcome_code (outcome_of node.initiator number))) }
    ensures same { holding end.new ≡ holding end.old }
    ensures told { outcome.new ≡ told_at (holding end.old) (λ node. outcome_told node number) outcome.old }
{
    let Some(held) = end.take(alloc) else {
        return Code::NoHandle.number();
    };
    let code = tell_outcome(&held, number, outcome);
    *end = Seat::of(held);
    code.number()
}

/// Copies the accepted reply to a command.
#[tactic(auto, unfolding(crate::specs::Held::value_in))]
#[unsafe(no_mangle)]
pub extern "C" fn df1_end_reply(
    alloc: Global,
    end: &mut Seat,
    number: u32,
    into: &mut [u8],
    count: &mut usize,
) -> u32
    ensures code { result ≡ code_number (code_at (holding end.old) (λ node. reply_code node number (length into.old))) }
    ensures same { holding end.new ≡ holding end.old }
    ensures bytes { into.new ≡ told_at (holding end.old) (λ node. option_map (copied into.old) (reply_told node number)) into.old }
    ensures count { count.new ≡ told_at (holding end.old) (λ node. option_map length (reply_told node number)) count.old }
{
    let Some(held) = end.take(alloc) else {
        return Code::NoHandle.number();
    };
    let code = copy_reply(&held, number, into, count);
    *end = Seat::of(held);
    code.number()
}
