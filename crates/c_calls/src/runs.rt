//! Runs of bytes, as by the calls for one byte: those that an end receives up to the first after which there is
//! something to do, and those that it sends up to the first that ends a message.

ghost use Rattle.std.specs.Prelude.{◌≡◌, ◌≤◌, [], length, min, Some};
ghost use Rattle.std.specs.Option.{option_map, unwrap_or};
ghost use Rattle.c_calls.specs.Answers.{end_code};
ghost use Rattle.c_calls.specs.Copied.{copied};
ghost use Rattle.c_calls.specs.Ends.{after_take};
ghost use Rattle.c_calls.specs.Runs.{after_given, after_heard, given_of, given_told, heard_of, heard_told, is_quiet, is_told, most_given, out_at};

use crate::copying::copy;
use crate::ends::{given_of, made_of, quiet_of};
use arrayvec::ArrayVec;
use c_ends::{Code, Held, OutTold, StepTold, out_of};

/// The maximum number of bytes of one transmitted run: those of any frame, and some more.
const MOST_GIVEN: usize = 512;

/// A step with nothing to report.
const STILL: StepTold = StepTold {
    act: 0,
    did: 0,
    did_command: 0,
    news: 0,
    news_command: 0,
    whole: false,
    station: 0,
};

/// The description of a transmitted run, besides its bytes.
#[repr(C)]
#[derive(Clone, Copy)]
pub struct GivenTold {
    /// The number of bytes.
    pub length: usize,
    /// Whether the last byte ends a message.
    pub last: bool,
    /// Whether there is nothing more to transmit.
    pub quiet: bool,
}

/// Receives the first of these bytes, up to one after which there is something to do: something to report, or something
/// to transmit. Receives all of them if there is no such byte. `used` becomes the number of bytes received, `step` what
/// the last of them did.
pub fn hear_run(held: &mut Held, bytes: &[u8], used: &mut usize, step: &mut StepTold) -> Code
    ensures code { result ≡ end_code (Some held.old) }
    ensures after { held.new ≡ after_heard held.old bytes.now }
    ensures used { used.new ≡ unwrap_or (option_map (λ heard. heard.used) (heard_told held.old bytes.now)) used.old }
    ensures step { step.new ≡ unwrap_or (option_map (λ heard. heard.step) (heard_told held.old bytes.now)) step.old }
{
    if !held.is_end() {
        return Code::NoHandle;
    }
    let (count, last) = heard_run(held, bytes);
    *used = count;
    *step = last;
    Code::Done
}

/// Receives bytes of a run, and returns how many were received and what the last of them did.
fn heard_run(held: &mut Held, bytes: &[u8]) -> (usize, StepTold)
    ensures after { held.new ≡ (heard_of held.old bytes.now).after }
    ensures used { result.0 ≡ (heard_of held.old bytes.now).used }
    ensures step { result.1 ≡ (heard_of held.old bytes.now).step }
{
    let mut step = STILL;
    for (at, byte) in bytes.iter().enumerate() {
        step = made_of(held, *byte).unwrap_or(STILL);
        if is_told(step) || !is_quiet(held) {
            return (at + 1, step);
        }
    }
    (bytes.len(), step)
}

/// Returns whether a step has something to report.
fn is_told(step: StepTold) -> bool
    ensures { result ≡ is_told step }
{
    step.act != 0
        || step.did != 0
        || step.did_command != 0
        || step.news != 0
        || step.news_command != 0
        || step.whole
        || step.station != 0
}

/// Returns whether there is nothing to transmit.
fn is_quiet(held: &Held) -> bool
    ensures { result ≡ is_quiet held.now }
{
    quiet_of(held).unwrap_or(true)
}

/// Puts the next bytes to transmit at the front of a buffer: as many as it has room for, at most 512, up to the first
/// that ends a message. `given` becomes their number, whether the last of them ends a message, and whether there is
/// nothing more to transmit.
pub fn give_run(held: &mut Held, into: &mut [u8], given: &mut GivenTold) -> Code
    ensures code { result ≡ end_code (Some held.old) }
    ensures after { held.new ≡ after_given (min (length into.old) most_given) held.old }
    ensures bytes { into.new ≡ unwrap_or (option_map (λ run. copied into.old run.bytes) (given_told (min (length into.old) most_given) held.old)) into.old }
    ensures told { given.new ≡ unwrap_or (option_map (λ run. record { length = length run.bytes; last = run.last; quiet = is_quiet run.after }) (given_told (min (length into.old) most_given) held.old)) given.old }
{
    if !held.is_end() {
        return Code::NoHandle;
    }
    let mut bytes = ArrayVec::new();
    let last = given_run(held, into.len().min(MOST_GIVEN), &mut bytes);
    let mut length = 0;
    let _fits = copy(&bytes, into, &mut length);
    *given = GivenTold {
        length,
        last,
        quiet: is_quiet(held),
    };
    Code::Done
}

/// Takes the bytes of a run, at most `room` of them. Returns whether the last of them ends a message.
fn given_run(held: &mut Held, room: usize, bytes: &mut ArrayVec<u8, 512>) -> bool
    requires empty { bytes.old.items ≡ [] }
    requires room { room ≤ 512 }
    ensures after { held.new ≡ (given_of room held.old).after }
    ensures bytes { bytes.new.items ≡ (given_of room held.old).bytes }
    ensures last { result ≡ (given_of room held.old).last }
    ensures few { length bytes.new.items ≤ room }
{
    for _ in 0..room {
        let out = out_at(held);
        if !out.there {
            return false;
        }
        bytes.push(out.byte);
        if out.last {
            return true;
        }
    }
    false
}

/// Takes the next byte to transmit, if there is one.
fn out_at(held: &mut Held) -> OutTold
    ensures after { held.new ≡ after_take held.old }
    ensures told { result ≡ out_at held.old }
{
    out_of(given_of(held).flatten())
}
