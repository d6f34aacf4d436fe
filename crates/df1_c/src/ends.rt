//! An end behind a handle: bytes that it receives, ticks, bytes that it sends, and its release.

ghost use Rattle.std.specs.Prelude.{◌≡◌, ◌↔◌, ◌∷◌, ◌++◌, [], ℕ, List, IsTrue, length, nat_lt, if◌then◌else◌};
ghost use Rattle.std.specs.Option.{option_map};
ghost use Rattle.df1_check.specs.declared.Check.{Check as CheckKind};
ghost use Rattle.c_ends.specs.Code.{code_number};
ghost use Rattle.c_calls.specs.Answers.{end_code, told_of};
ghost use Rattle.c_calls.specs.Copied.{copied};
ghost use Rattle.c_calls.specs.Ends.{after_byte, after_take, after_tick, body_code, body_of, gone_of, out_of, quiet_of, step_of, tick_code, turn_of, with_room};
ghost use Rattle.c_calls.specs.State.{state_of};
ghost use Rattle.df1_c.specs.Arrived.{Copies, HearsWhole, IsBodyOf, IsEndFor};
ghost use Rattle.df1_c.specs.Held.{freed, holding};

use crate::seat::Seat;
use c_calls::{StateTold, copy_body, give, hear, tell_quiet, tell_state, tick};
use c_ends::{Code, OutTold, StepTold, TurnTold};
use std::alloc::Global;
use std::mem::ManuallyDrop;

/// Frees an end and its memory.
#[tactic(auto, unfolding(crate::specs::Held::value_in))]
#[unsafe(no_mangle)]
pub extern "C" fn df1_end_free(alloc: Global, end: &mut Seat) -> u32
    ensures code { result ≡ code_number (end_code (holding end.old)) }
    ensures after { holding end.new ≡ freed (holding end.old) }
{
    let Some(held) = end.take(alloc) else {
        return Code::NoHandle.number();
    };
    if !held.is_end() {
        *end = Seat::of(held);
        return Code::NoHandle.number();
    }
    let _gone = ManuallyDrop::into_inner(Box::into_inner(held));
    Code::Done.number()
}

/// Receives a byte, and reports what the end made of it.
#[tactic(auto, unfolding(crate::specs::Held::value_in))]
#[unsafe(no_mangle)]
pub extern "C" fn df1_end_byte(alloc: Global, end: &mut Seat, byte: u8, step: &mut StepTold) -> u32
    ensures code { result ≡ code_number (end_code (holding end.old)) }
    ensures after { holding end.new ≡ option_map (λ held. after_byte held byte) (holding end.old) }
    ensures told { step.new ≡ told_of (holding end.old) (λ held. step_of held byte) step.old }
    ensures stands { (check : CheckKind) (bytes : List ℕ) → IsEndFor check bytes (holding end.old) → IsEndFor check (bytes ++ byte ∷ []) (holding end.new) }
    ensures whole { (check : CheckKind) (bytes : List ℕ) → IsEndFor check bytes (holding end.old) → IsTrue step.new.whole ↔ HearsWhole check (bytes ++ byte ∷ []) (holding end.old) }
{
    let Some(mut held) = end.take(alloc) else {
        return Code::NoHandle.number();
    };
    let code = hear(&mut held, byte, step);
    *end = Seat::of(held);
    code.number()
}

/// Copies the body of the frame or message that ended at the latest byte.
#[tactic(auto, unfolding(crate::specs::Held::value_in))]
#[unsafe(no_mangle)]
pub extern "C" fn df1_end_body(
    alloc: Global,
    end: &mut Seat,
    into: &mut [u8],
    count: &mut usize,
) -> u32
    ensures code { result ≡ code_number (body_code (holding end.old) (length into.old)) }
    ensures same { holding end.new ≡ holding end.old }
    ensures bytes { into.new ≡ told_of (holding end.old) (λ held. option_map (copied into.old) (body_of held)) into.old }
    ensures count { count.new ≡ told_of (holding end.old) (λ held. option_map length (body_of held)) count.old }
    ensures lent { (check : CheckKind) (bytes : List ℕ) → IsEndFor check bytes (holding end.old) → Copies (IsBodyOf check bytes (holding end.old)) result into.old into.new count.new }
{
    let Some(held) = end.take(alloc) else {
        return Code::NoHandle.number();
    };
    let code = copy_body(&held, into, count);
    *end = Seat::of(held);
    code.number()
}

/// Performs a tick.
#[tactic(auto, unfolding(crate::specs::Held::value_in))]
#[unsafe(no_mangle)]
pub extern "C" fn df1_end_tick(
    alloc: Global,
    end: &mut Seat,
    turn: &mut TurnTold,
    gone: &mut [u32],
) -> u32
    ensures code { result ≡ code_number (tick_code (holding end.old) (length gone.old)) }
    ensures after { holding end.new ≡ (if nat_lt (length gone.old) 16 then holding end.old else option_map after_tick (holding end.old)) }
    ensures told { turn.new ≡ told_of (holding end.old) (λ held. with_room (length gone.old) (turn_of held)) turn.old }
    ensures gone { gone.new ≡ told_of (holding end.old) (λ held. with_room (length gone.old) (option_map (copied gone.old) (gone_of held))) gone.old }
    ensures stands { (check : CheckKind) (bytes : List ℕ) → IsEndFor check bytes (holding end.old) → IsEndFor check bytes (holding end.new) }
{
    let Some(mut held) = end.take(alloc) else {
        return Code::NoHandle.number();
    };
    let code = tick(&mut held, turn, gone);
    *end = Seat::of(held);
    code.number()
}

/// Puts the next byte to transmit, if there is one, into `out`.
#[tactic(auto, unfolding(crate::specs::Held::value_in))]
#[unsafe(no_mangle)]
pub extern "C" fn df1_end_take(alloc: Global, end: &mut Seat, out: &mut OutTold) -> u32
    ensures code { result ≡ code_number (end_code (holding end.old)) }
    ensures after { holding end.new ≡ option_map after_take (holding end.old) }
    ensures told { out.new ≡ told_of (holding end.old) out_of out.old }
    ensures stands { (check : CheckKind) (bytes : List ℕ) → IsEndFor check bytes (holding end.old) → IsEndFor check bytes (holding end.new) }
{
    let Some(mut held) = end.take(alloc) else {
        return Code::NoHandle.number();
    };
    let code = give(&mut held, out);
    *end = Seat::of(held);
    code.number()
}

/// Reports whether the end has nothing to transmit.
#[tactic(auto, unfolding(crate::specs::Held::value_in))]
#[unsafe(no_mangle)]
pub extern "C" fn df1_end_quiet(alloc: Global, end: &mut Seat, quiet: &mut bool) -> u32
    ensures code { result ≡ code_number (end_code (holding end.old)) }
    ensures same { holding end.new ≡ holding end.old }
    ensures told { quiet.new ≡ told_of (holding end.old) quiet_of quiet.old }
{
    let Some(held) = end.take(alloc) else {
        return Code::NoHandle.number();
    };
    let code = tell_quiet(&held, quiet);
    *end = Seat::of(held);
    code.number()
}

/// Reports the state of the end.
#[tactic(auto, unfolding(crate::specs::Held::value_in))]
#[unsafe(no_mangle)]
pub extern "C" fn df1_end_state(alloc: Global, end: &mut Seat, state: &mut StateTold) -> u32
    ensures code { result ≡ code_number (end_code (holding end.old)) }
    ensures same { holding end.new ≡ holding end.old }
    ensures told { state.new ≡ told_of (holding end.old) state_of state.old }
{
    let Some(held) = end.take(alloc) else {
        return Code::NoHandle.number();
    };
    let code = tell_state(&held, state);
    *end = Seat::of(held);
    code.number()
}
