//! The calls on an end's transfers: whole files, by orders that are issued together, and the result so far of each.

ghost use Rattle.std.specs.Prelude.{◌≡◌, length, Some};
ghost use Rattle.std.specs.Option.{option_map};
ghost use Rattle.c_transfers.specs.Transfers.{after_pull, after_push, pull_fault, push_fault};
ghost use Rattle.c_calls.specs.Behind.{code_at, told_at, with_change};
ghost use Rattle.c_calls.specs.Commands.{IsIssue, next_number};
ghost use Rattle.c_calls.specs.Copied.{copied};
ghost use Rattle.c_calls.specs.Transfers.{pull_refusal, pulled_code, pulled_told, push_refusal, pushed_code, pushed_told, words_told};

use crate::behind::node_of;
use crate::commands::station_refusal;
use crate::copying::copy;
use arrayvec::ArrayVec;
use c_ends::{Code, Held};
use c_transfers::{TransferTold, issue_pull, issue_push, pulled, pushed};
use df1_node::Node;

/// Issues the orders of a transfer that reads the first words of a file of a node, all of them or none. `first` becomes
/// the number of the first.
pub fn pull(held: &mut Held, dst: u8, file: u16, words: u32, first: &mut u32) -> u32
    ensures { IsIssue (pull_refusal (Some held.old) dst file words) (with_change (after_pull dst file words) held.old) (told_at (Some held.old) (λ node. Some (next_number node)) first.old) result held.old held.new first.old first.new }
{
    if let Some(fault) = station_refusal(held, dst) {
        return fault.number();
    }
    match held {
        Held::Decoder(_) => Code::NoHandle.number(),
        Held::Duplex(end) => pull_at(end.host_mut(), dst, file, words, first),
        Held::Master(end) => pull_at(end.host_mut().inner_mut(), dst, file, words, first),
        Held::Slave(end) => pull_at(end.host_mut(), dst, file, words, first),
    }
}

fn pull_at(node: &mut Node, dst: u8, file: u16, words: u32, first: &mut u32) -> u32
    ensures { IsIssue (pull_fault node.old file words) (after_pull dst file words node.old) (next_number node.old) result node.old node.new first.old first.new }
{
    match issue_pull(node, dst, file, words) {
        Ok(number) => {
            *first = number;
            Code::Done.number()
        }
        Err(fault) => fault.number(),
    }
}

/// Issues the orders of a transfer that writes words to the beginning of a file of a node, all of them or none. `first`
/// becomes the number of the first.
pub fn push(held: &mut Held, dst: u8, file: u16, bytes: &[u8], first: &mut u32) -> u32
    ensures { IsIssue (push_refusal (Some held.old) dst file (length bytes.now)) (with_change (after_push dst file bytes.now) held.old) (told_at (Some held.old) (λ node. Some (next_number node)) first.old) result held.old held.new first.old first.new }
{
    if let Some(fault) = station_refusal(held, dst) {
        return fault.number();
    }
    match held {
        Held::Decoder(_) => Code::NoHandle.number(),
        Held::Duplex(end) => push_at(end.host_mut(), dst, file, bytes, first),
        Held::Master(end) => push_at(end.host_mut().inner_mut(), dst, file, bytes, first),
        Held::Slave(end) => push_at(end.host_mut(), dst, file, bytes, first),
    }
}

fn push_at(node: &mut Node, dst: u8, file: u16, bytes: &[u8], first: &mut u32) -> u32
    ensures { IsIssue (push_fault node.old file (length bytes.now)) (after_push dst file bytes.now node.old) (next_number node.old) result node.old node.new first.old first.new }
{
    match issue_push(node, dst, file, bytes) {
        Ok(number) => {
            *first = number;
            Code::Done.number()
        }
        Err(fault) => fault.number(),
    }
}

/// Reports the result so far of a transfer that reads, and copies its words if it is whole. `count` becomes their
/// number of bytes. If they don't fit, `came` is unchanged.
pub fn copy_pulled(
    held: &Held,
    first: u32,
    words: u32,
    into: &mut [u8],
    count: &mut usize,
    came: &mut TransferTold,
) -> Code
    ensures code { result ≡ code_at (Some held.now) (λ node. pulled_code node first words (length into.old)) }
    ensures bytes { into.new ≡ told_at (Some held.now) (λ node. option_map (copied into.old) (words_told node first words)) into.old }
    ensures count { count.new ≡ told_at (Some held.now) (λ node. option_map length (words_told node first words)) count.old }
    ensures told { came.new ≡ told_at (Some held.now) (λ node. pulled_told node first words (length into.old)) came.old }
{
    let Some(node) = node_of(held) else {
        return Code::NoHandle;
    };
    let mut data = ArrayVec::new();
    match pulled(node.initiator(), first, words, &mut data) {
        Ok(told) => {
            if data.len() <= into.len() {
                *came = told;
            }
            copy(&data, into, count)
        }
        Err(fault) => fault,
    }
}

/// Reports the result so far of a transfer that writes.
pub fn tell_pushed(held: &Held, first: u32, words: u32, came: &mut TransferTold) -> Code
    ensures code { result ≡ code_at (Some held.now) (λ node. pushed_code words) }
    ensures told { came.new ≡ told_at (Some held.now) (λ node. pushed_told node first words) came.old }
{
    let Some(node) = node_of(held) else {
        return Code::NoHandle;
    };
    match pushed(node.initiator(), first, words) {
        Ok(told) => {
            *came = told;
            Code::Done
        }
        Err(fault) => fault,
    }
}
