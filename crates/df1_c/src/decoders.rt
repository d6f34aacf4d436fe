//! A decoder behind a handle: its creation, the bytes that it receives, the body that it lends, and its release.

ghost use Rattle.std.specs.Prelude.{◌≡◌, ◌∷◌, ◌++◌, [], ℕ, List, length, Some};
ghost use Rattle.std.specs.Option.{option_map, option_or, unwrap_or};
ghost use Rattle.df1_check.specs.declared.Check.{Check as CheckKind};
ghost use Rattle.half_frame.specs.declared.side.Side.{Side as LineSide};
ghost use Rattle.half_frame.specs.declared.side.Side.TheVariants.{Full};
ghost use Rattle.c_lines.specs.Arrived.{IsBody, IsHearing};
ghost use Rattle.c_lines.specs.Sides.{side_of as the_side_of};
ghost use Rattle.c_ends.specs.Code.{code_number};
ghost use Rattle.c_ends.specs.Links.{check_of};
ghost use Rattle.c_calls.specs.Answers.{told_of};
ghost use Rattle.c_calls.specs.Copied.{copied};
ghost use Rattle.df1_c.specs.Arrived.{Copies, IsDecoderFor};
ghost use Rattle.df1_c.specs.Held.{IsMake, holding, taken_fault};
ghost use Rattle.df1_c.specs.Decoders.{after_fed, decoder_code, decoder_freed, heard_in, is_decoder, lent_code, lent_in, new_decoder, side_decoder, side_fault};

use crate::seat::Seat;
use c_calls::copy;
use c_ends::{Code, Held, check_of};
use c_lines::{Hearing, LineDecoder, side_of};
use half_frame::Side;
use std::alloc::Global;
use std::mem::ManuallyDrop;

/// Fills an empty handle with a decoder of a full-duplex line that has received nothing.
#[tactic(auto, unfolding(crate::specs::Held::value_in))]
#[unsafe(no_mangle)]
pub extern "C" fn df1_decoder_make(alloc: Global, crc: bool, decoder: &mut Seat) -> u32
    ensures made { IsMake (taken_fault (holding decoder.old)) (new_decoder Full crc) result (holding decoder.old) (holding decoder.new) }
    ensures stands { result ≡ code_number Code.Done → IsDecoderFor Full (check_of crc) [] (holding decoder.new) }
{
    if !decoder.is_empty() {
        return Code::NoHandle.number();
    }
    fill(alloc, Side::Full, crc, decoder).number()
}

/// Fills an empty handle with a decoder of this side of a line that has received nothing.
#[tactic(auto, unfolding(crate::specs::Held::value_in))]
#[unsafe(no_mangle)]
pub extern "C" fn df1_decoder_make_side(
    alloc: Global,
    side: u32,
    crc: bool,
    decoder: &mut Seat,
) -> u32
    ensures made { IsMake (option_or (taken_fault (holding decoder.old)) (side_fault side)) (side_decoder side crc) result (holding decoder.old) (holding decoder.new) }
    ensures stands { (line_side : LineSide) → the_side_of side ≡ Some line_side → result ≡ code_number Code.Done → IsDecoderFor line_side (check_of crc) [] (holding decoder.new) }
{
    if !decoder.is_empty() {
        return Code::NoHandle.number();
    }
    let Some(side) = side_of(side) else {
        return Code::BadSide.number();
    };
    fill(alloc, side, crc, decoder).number()
}

/// Fills an empty handle with a decoder of a side that has received nothing, unless there is no memory.
#[tactic(auto, unfolding(crate::specs::Held::value_in))]
fn fill(alloc: Global, side: Side, crc: bool, decoder: &mut Seat) -> Code
    requires { holding decoder.old ≡ None }
    ensures { IsMake None (new_decoder side crc) (code_number result) (holding decoder.old) (holding decoder.new) }
{
    let made = Held::Decoder(LineDecoder::new(side, check_of(crc)));
    decoder.fill(alloc, Ok(made))
}

/// Frees a decoder and its memory.
#[tactic(auto, unfolding(crate::specs::Held::value_in))]
#[unsafe(no_mangle)]
pub extern "C" fn df1_decoder_free(alloc: Global, decoder: &mut Seat) -> u32
    ensures code { result ≡ code_number (decoder_code (holding decoder.old)) }
    ensures after { holding decoder.new ≡ decoder_freed (holding decoder.old) }
{
    let Some(held) = decoder.take(alloc) else {
        return Code::NoHandle.number();
    };
    if !is_decoder(&held) {
        *decoder = Seat::of(held);
        return Code::NoHandle.number();
    }
    let _gone = ManuallyDrop::into_inner(Box::into_inner(held));
    Code::Done.number()
}

fn is_decoder(held: &Held) -> bool
    ensures { result ≡ is_decoder held.now }
{
    match held {
        Held::Decoder(_) => true,
        Held::Duplex(_) | Held::Master(_) | Held::Slave(_) => false,
    }
}

/// Receives a byte, and reports what is decoded at it.
#[tactic(auto, unfolding(crate::specs::Held::value_in))]
#[unsafe(no_mangle)]
pub extern "C" fn df1_decoder_byte(
    alloc: Global,
    decoder: &mut Seat,
    byte: u8,
    hearing: &mut Hearing,
) -> u32
    ensures code { result ≡ code_number (decoder_code (holding decoder.old)) }
    ensures after { holding decoder.new ≡ option_map (λ held. after_fed held byte) (holding decoder.old) }
    ensures told { hearing.new ≡ told_of (holding decoder.old) (λ held. heard_in held byte) hearing.old }
    ensures stands { (side : LineSide) (check : CheckKind) (bytes : List ℕ) → IsDecoderFor side check bytes (holding decoder.old) → IsDecoderFor side check (bytes ++ byte ∷ []) (holding decoder.new) }
    ensures heard { (side : LineSide) (check : CheckKind) (bytes : List ℕ) → IsDecoderFor side check bytes (holding decoder.old) → IsHearing side check (bytes ++ byte ∷ []) hearing.new }
{
    let Some(mut held) = decoder.take(alloc) else {
        return Code::NoHandle.number();
    };
    let code = feed(&mut held, byte, hearing);
    *decoder = Seat::of(held);
    code.number()
}

fn feed(held: &mut Held, byte: u8, hearing: &mut Hearing) -> Code
    ensures code { result ≡ decoder_code (Some held.old) }
    ensures after { held.new ≡ after_fed held.old byte }
    ensures told { hearing.new ≡ unwrap_or (heard_in held.old byte) hearing.old }
{
    match held {
        Held::Decoder(decoder) => {
            *hearing = decoder.feed(byte);
            Code::Done
        }
        Held::Duplex(_) | Held::Master(_) | Held::Slave(_) => Code::NoHandle,
    }
}

/// Copies the body of the frame or message that ended at the latest byte.
#[tactic(auto, unfolding(crate::specs::Held::value_in))]
#[unsafe(no_mangle)]
pub extern "C" fn df1_decoder_body(
    alloc: Global,
    decoder: &mut Seat,
    into: &mut [u8],
    count: &mut usize,
) -> u32
    ensures code { result ≡ code_number (lent_code (holding decoder.old) (length into.old)) }
    ensures same { holding decoder.new ≡ holding decoder.old }
    ensures bytes { into.new ≡ told_of (holding decoder.old) (λ held. option_map (copied into.old) (lent_in held)) into.old }
    ensures count { count.new ≡ told_of (holding decoder.old) (λ held. option_map length (lent_in held)) count.old }
    ensures lent { (side : LineSide) (check : CheckKind) (bytes : List ℕ) → IsDecoderFor side check bytes (holding decoder.old) → Copies (IsBody side check bytes) result into.old into.new count.new }
{
    let Some(held) = decoder.take(alloc) else {
        return Code::NoHandle.number();
    };
    let code = copy_lent(&held, into, count);
    *decoder = Seat::of(held);
    code.number()
}

fn copy_lent(held: &Held, into: &mut [u8], count: &mut usize) -> Code
    ensures code { result ≡ lent_code (Some held.now) (length into.old) }
    ensures bytes { into.new ≡ unwrap_or (option_map (copied into.old) (lent_in held.now)) into.old }
    ensures count { count.new ≡ unwrap_or (option_map length (lent_in held.now)) count.old }
{
    match held {
        Held::Decoder(decoder) => copy(decoder.body(), into, count),
        Held::Duplex(_) | Held::Master(_) | Held::Slave(_) => Code::NoHandle,
    }
}
