//! The calls on an end: bytes that it receives, the body that it lends, ticks, and bytes that it sends.

ghost use Rattle.std.specs.Prelude.{◌≡◌, length, nat_lt, if◌then◌else◌, Some, None};
ghost use Rattle.std.specs.Option.{option_map, unwrap_or};
ghost use Rattle.half_master.specs.Master.{master_after_byte, step_at_byte};
ghost use Rattle.c_ends.specs.Told.{out_told, routed_told, step_told, turn_told};
ghost use Rattle.c_calls.specs.Answers.{end_code};
ghost use Rattle.c_calls.specs.Behind.{routed_host};
ghost use Rattle.c_calls.specs.Copied.{copied};
ghost use Rattle.c_calls.specs.Ends.{after_byte, after_take, after_tick, body_code, body_of, gone_of, is_carrying, out_of as out_in, quiet_of, step_of as step_in, tick_code, turn_of as turn_in, with_room};

use crate::copying::copy;
use arrayvec::ArrayVec;
use c_ends::{Code, Held, OutTold, StepTold, TurnTold, out_of, routed, step_of, turn_of};
use df1_base::{Host, Out, Turn};
use df1_node::Node;
use half_master::Master;
use station_router::Router;

/// Room for all commands that one tick may leave unanswered.
const MAX_GONE: usize = 16;

/// Receives a byte, and reports what the end made of it.
pub fn hear(held: &mut Held, byte: u8, step: &mut StepTold) -> Code
    ensures code { result ≡ end_code (Some held.old) }
    ensures after { held.new ≡ after_byte held.old byte }
    ensures told { step.new ≡ unwrap_or (step_in held.old byte) step.old }
{
    let Some(told) = made_of(held, byte) else {
        return Code::NoHandle;
    };
    *step = told;
    Code::Done
}

/// Feeds a byte to an end, and returns what it made of it.
pub(crate) fn made_of(held: &mut Held, byte: u8) -> Option<StepTold>
    ensures code { result ≡ None → end_code (Some held.old) ≡ Code.NoHandle }
    ensures after { held.new ≡ after_byte held.old byte }
    ensures told { result ≡ step_in held.old byte }
{
    match held {
        Held::Decoder(_) => None,
        Held::Duplex(end) => Some(step_of(end.on_byte(byte))),
        Held::Master(end) => Some(routed_step(end, byte)),
        Held::Slave(end) => Some(step_of(end.on_byte(byte))),
    }
}

/// Feeds a byte to a master, and returns what it made of it and whether it carries the message that it received.
fn routed_step(end: &mut Master<Router<Node>>, byte: u8) -> StepTold
    ensures after { end.new ≡ master_after_byte routed_host end.old byte }
    ensures told { result ≡ routed_told (is_carrying (master_after_byte routed_host end.old byte)) (step_told (step_at_byte routed_host end.old byte)) }
{
    let told = step_of(end.on_byte(byte));
    let carried = end.host().carries(end.body());
    routed(carried, told)
}

/// Copies the body of the frame or message that ended at the latest byte. `count` becomes its number of bytes.
pub fn copy_body(held: &Held, into: &mut [u8], count: &mut usize) -> Code
    ensures code { result ≡ body_code (Some held.now) (length into.old) }
    ensures bytes { into.new ≡ unwrap_or (option_map (copied into.old) (body_of held.now)) into.old }
    ensures count { count.new ≡ unwrap_or (option_map length (body_of held.now)) count.old }
{
    match body(held) {
        Some(body) => copy(body, into, count),
        None => Code::NoHandle,
    }
}

fn body(held: &Held) -> Option<&[u8]>
    ensures { option_map (λ body. body.now) result ≡ body_of held.now }
{
    match held {
        Held::Decoder(_) => None,
        Held::Duplex(end) => Some(end.body()),
        Held::Master(end) => Some(end.body()),
        Held::Slave(end) => Some(end.body()),
    }
}

/// Performs a tick and reports what it did. The commands that it left unanswered are put at the front of `gone`, which
/// must have room for 16.
pub fn tick(held: &mut Held, turn: &mut TurnTold, gone: &mut [u32]) -> Code
    ensures code { result ≡ tick_code (Some held.old) (length gone.old) }
    ensures after { held.new ≡ (if nat_lt (length gone.old) 16 then held.old else after_tick held.old) }
    ensures told { turn.new ≡ unwrap_or (with_room (length gone.old) (turn_in held.old)) turn.old }
    ensures gone { gone.new ≡ unwrap_or (with_room (length gone.old) (option_map (copied gone.old) (gone_of held.old))) gone.old }
{
    if !held.is_end() {
        return Code::NoHandle;
    }
    if gone.len() < MAX_GONE {
        return Code::NoRoom;
    }
    let mut left = ArrayVec::new();
    if let Some(made) = turned(held, &mut left) {
        *turn = turn_of(made, left.len() as u32);
        gone[..left.len()].copy_from_slice(&left);
    }
    Code::Done
}

/// Performs a tick of an end, and returns what it did. Puts the commands that it left unanswered into `gone`.
fn turned(held: &mut Held, gone: &mut ArrayVec<u32, 16>) -> Option<Turn>
    ensures after { held.new ≡ after_tick held.old }
    ensures told { option_map (λ turn. turn_told turn (length gone.new.items)) result ≡ turn_in held.old }
    ensures gone { option_map (λ turn. gone.new.items) result ≡ gone_of held.old }
{
    match held {
        Held::Decoder(_) => None,
        Held::Duplex(end) => Some(end.on_tick(gone)),
        Held::Master(end) => Some(end.on_tick(gone)),
        Held::Slave(end) => {
            end.host_mut().tick(gone);
            Some(Turn::Still)
        }
    }
}

/// Puts the next byte to transmit, if there is one, into `out`.
pub fn give(held: &mut Held, out: &mut OutTold) -> Code
    ensures code { result ≡ end_code (Some held.old) }
    ensures after { held.new ≡ after_take held.old }
    ensures told { out.new ≡ unwrap_or (out_in held.old) out.old }
{
    let Some(given) = given_of(held) else {
        return Code::NoHandle;
    };
    *out = out_of(given);
    Code::Done
}

/// Takes the next byte of an end.
pub(crate) fn given_of(held: &mut Held) -> Option<Option<Out>>
    ensures code { result ≡ None → end_code (Some held.old) ≡ Code.NoHandle }
    ensures after { held.new ≡ after_take held.old }
    ensures told { option_map out_told result ≡ out_in held.old }
{
    match held {
        Held::Decoder(_) => None,
        Held::Duplex(end) => Some(end.take()),
        Held::Master(end) => Some(end.take()),
        Held::Slave(end) => Some(end.take()),
    }
}

/// Reports whether the end has nothing to transmit.
pub fn tell_quiet(held: &Held, quiet: &mut bool) -> Code
    ensures code { result ≡ end_code (Some held.now) }
    ensures told { quiet.new ≡ unwrap_or (quiet_of held.now) quiet.old }
{
    let Some(is_quiet) = quiet_of(held) else {
        return Code::NoHandle;
    };
    *quiet = is_quiet;
    Code::Done
}

/// Returns whether an end has nothing to transmit.
pub(crate) fn quiet_of(held: &Held) -> Option<bool>
    ensures code { result ≡ None → end_code (Some held.now) ≡ Code.NoHandle }
    ensures told { result ≡ quiet_of held.now }
{
    match held {
        Held::Decoder(_) => None,
        Held::Duplex(end) => Some(end.quiet()),
        Held::Master(end) => Some(end.quiet()),
        Held::Slave(end) => Some(end.quiet()),
    }
}
