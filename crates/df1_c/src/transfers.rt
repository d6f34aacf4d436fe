//! The transfers of an end behind a handle: whole files, by orders that are issued together, and the result so far of
//! each.

ghost use Rattle.std.specs.Prelude.{◌≡◌, ℕ, List, length, Some};
ghost use Rattle.std.specs.Option.{option_map};
ghost use Rattle.df1_check.specs.declared.Check.{Check as CheckKind};
ghost use Rattle.c_ends.specs.Code.{code_number};
ghost use Rattle.c_transfers.specs.Transfers.{after_pull, after_push};
ghost use Rattle.c_calls.specs.Behind.{code_at, told_at, with_change};
ghost use Rattle.c_calls.specs.Commands.{IsIssue, next_number};
ghost use Rattle.c_calls.specs.Copied.{copied};
ghost use Rattle.c_calls.specs.Transfers.{pull_refusal, pulled_code, pulled_told, push_refusal, pushed_code, pushed_told, words_told};
ghost use Rattle.df1_c.specs.Arrived.{IsEndFor};
ghost use Rattle.df1_c.specs.Held.{holding};

use crate::seat::Seat;
use c_calls::{copy_pulled, pull, push, tell_pushed};
use c_ends::Code;
use c_transfers::TransferTold;
use std::alloc::Global;

/// Issues the orders of a transfer that reads the first words of a file of a node, with the end's own node as SRC: all
/// of them or none.
#[tactic(auto, unfolding(crate::specs::Held::value_in))]
#[unsafe(no_mangle)]
pub extern "C" fn df1_end_pull(
    alloc: Global,
    end: &mut Seat,
    dst: u8,
    file: u16,
    words: u32,
    first: &mut u32,
) -> u32
    ensures issued { IsIssue (pull_refusal (holding end.old) dst file words) (option_map (with_change (after_pull dst file words)) (holding end.old)) (told_at (holding end.old) (λ node. Some (next_number node)) first.old) result (holding end.old) (holding end.new) first.old first.new }
    ensures stands { (check : CheckKind) (bytes : List ℕ) → IsEndFor check bytes (holding end.old) → IsEndFor check bytes (holding end.new) }
{
    let Some(mut held) = end.take(alloc) else {
        return Code::NoHandle.number();
    };
    let code = pull(&mut held, dst, file, words, first);
    *end = Seat::of(held);
    code
}

/// Issues the orders of a transfer that writes words to the beginning of a file of a node, with the end's own node as
/// SRC: all of them or none.
#[tactic(auto, unfolding(crate::specs::Held::value_in))]
#[unsafe(no_mangle)]
pub extern "C" fn df1_end_push(
    alloc: Global,
    end: &mut Seat,
    dst: u8,
    file: u16,
    bytes: &[u8],
    first: &mut u32,
) -> u32
    ensures issued { IsIssue (push_refusal (holding end.old) dst file (length bytes.now)) (option_map (with_change (after_push dst file bytes.now)) (holding end.old)) (told_at (holding end.old) (λ node. Some (next_number node)) first.old) result (holding end.old) (holding end.new) first.old first.new }
    ensures stands { (check : CheckKind) (heard : List ℕ) → IsEndFor check heard (holding end.old) → IsEndFor check heard (holding end.new) }
{
    let Some(mut held) = end.take(alloc) else {
        return Code::NoHandle.number();
    };
    let code = push(&mut held, dst, file, bytes, first);
    *end = Seat::of(held);
    code
}

/// Reports the result so far of a transfer that reads, and copies its words if it is whole.
#[tactic(auto, unfolding(crate::specs::Held::value_in))]
#[unsafe(no_mangle)]
pub extern "C" fn df1_end_pulled(
    alloc: Global,
    end: &mut Seat,
    first: u32,
    words: u32,
    into: &mut [u8],
    count: &mut usize,
    came: &mut TransferTold,
) -> u32
    ensures code { result ≡ code_number (code_at (holding end.old) (λ node. pulled_code node first words (length into.old))) }
    ensures same { holding end.new ≡ holding end.old }
    ensures bytes { into.new ≡ told_at (holding end.old) (λ node. option_map (copied into.old) (words_told node first words)) into.old }
    ensures count { count.new ≡ told_at (holding end.old) (λ node. option_map length (words_told node first words)) count.old }
    ensures told { came.new ≡ told_at (holding end.old) (λ node. pulled_told node first words (length into.old)) came.old }
{
    let Some(held) = end.take(alloc) else {
        return Code::NoHandle.number();
    };
    let code = copy_pulled(&held, first, words, into, count, came);
    *end = Seat::of(held);
    code.number()
}

/// Reports the result so far of a transfer that writes.
#[tactic(auto, unfolding(crate::specs::Held::value_in))]
#[unsafe(no_mangle)]
pub extern "C" fn df1_end_pushed(
    alloc: Global,
    end: &mut Seat,
    first: u32,
    words: u32,
    came: &mut TransferTold,
) -> u32
    ensures code { result ≡ code_number (code_at (holding end.old) (λ node. pushed_code words)) }
    ensures same { holding end.new ≡ holding end.old }
    ensures told { came.new ≡ told_at (holding end.old) (λ node. pushed_told node first words) came.old }
{
    let Some(held) = end.take(alloc) else {
        return Code::NoHandle.number();
    };
    let code = tell_pushed(&held, first, words, came);
    *end = Seat::of(held);
    code.number()
}
