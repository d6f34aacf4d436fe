//! Runs of bytes that an end behind a handle receives or sends, as by the calls for one byte.

ghost use Rattle.std.specs.Prelude.{◌≡◌, ◌++◌, ℕ, List, length, min, take};
ghost use Rattle.std.specs.Option.{option_map};
ghost use Rattle.df1_check.specs.declared.Check.{Check as CheckKind};
ghost use Rattle.c_ends.specs.Code.{code_number};
ghost use Rattle.c_calls.specs.Answers.{end_code, told_of};
ghost use Rattle.c_calls.specs.Copied.{copied};
ghost use Rattle.c_calls.specs.Runs.{after_given, after_heard, given_told, heard_told, is_quiet, most_given};
ghost use Rattle.df1_c.specs.Arrived.{IsEndFor};
ghost use Rattle.df1_c.specs.Held.{holding};

use crate::seat::Seat;
use c_calls::{GivenTold, give_run, hear_run};
use c_ends::{Code, StepTold};
use std::alloc::Global;

/// Receives bytes up to the first after which there is something to do, and reports what the end made of the last one.
#[tactic(auto, unfolding(crate::specs::Held::value_in))]
#[unsafe(no_mangle)]
pub extern "C" fn df1_end_bytes(
    alloc: Global,
    end: &mut Seat,
    bytes: &[u8],
    used: &mut usize,
    step: &mut StepTold,
) -> u32
    ensures code { result ≡ code_number (end_code (holding end.old)) }
    ensures after { holding end.new ≡ option_map (λ held. after_heard held bytes.now) (holding end.old) }
    ensures used { used.new ≡ told_of (holding end.old) (λ held. option_map (λ heard. heard.used) (heard_told held bytes.now)) used.old }
    ensures told { step.new ≡ told_of (holding end.old) (λ held. option_map (λ heard. heard.step) (heard_told held bytes.now)) step.old }
    ensures stands { (check : CheckKind) (before : List ℕ) → IsEndFor check before (holding end.old) → IsEndFor check (before ++ take used.new bytes.now) (holding end.new) }
{
    let Some(mut held) = end.take(alloc) else {
        return Code::NoHandle.number();
    };
    let code = hear_run(&mut held, bytes, used, step);
    *end = Seat::of(held);
    code.number()
}

/// Puts the next bytes to transmit into a buffer, up to the first that ends a message.
#[tactic(auto, unfolding(crate::specs::Held::value_in))]
#[unsafe(no_mangle)]
pub extern "C" fn df1_end_take_bytes(
    alloc: Global,
    end: &mut Seat,
    into: &mut [u8],
    given: &mut GivenTold,
) -> u32
    ensures code { result ≡ code_number (end_code (holding end.old)) }
    ensures after { holding end.new ≡ option_map (after_given (min (length into.old) most_given)) (holding end.old) }
    ensures bytes { into.new ≡ told_of (holding end.old) (λ held. option_map (λ run. copied into.old run.bytes) (given_told (min (length into.old) most_given) held)) into.old }
    ensures told { given.new ≡ told_of (holding end.old) (λ held. option_map (λ run. record { length = length run.bytes; last = run.last; quiet = is_quiet run.after }) (given_told (min (length into.old) most_given) held)) given.old }
    ensures stands { (check : CheckKind) (bytes : List ℕ) → IsEndFor check bytes (holding end.old) → IsEndFor check bytes (holding end.new) }
{
    let Some(mut held) = end.take(alloc) else {
        return Code::NoHandle.number();
    };
    let code = give_run(&mut held, into, given);
    *end = Seat::of(held);
    code.number()
}
