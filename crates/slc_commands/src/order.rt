//! Logical orders, and how they are read.
ghost use Rattle.std.specs.Prelude.{◌≡◌, ℕ, List, IfOk, IfErr, Ok};
ghost use Rattle.std.specs.Option.{option_map};
ghost use Rattle.std.specs.Result.{result_map_both};
ghost use Rattle.slc_commands.specs.Order.{IsOrder, Order, SpellsOrder, data_len, fields, fnc_of, has_mask, has_sub, mask_front, order_of, seen, spelled_order, writes};

use df1_base::Code;
use logical_address::{Three, read_three};

/// The code that refuses an order that isn't encoded as its function requires.
const ILLEGAL: Code = Code::Sts(0x10);

/// The mask of a write that replaces all bits.
const ALL_BITS: u16 = 0xFFFF;

/// A function of the logical commands, with its FNC in hexadecimal.
#[derive(Clone, Copy, Debug, PartialEq, Eq)]
pub enum SlcFnc {
    /// A1: read with an address of two fields.
    Read2,
    /// A2: read with an address of three fields.
    Read3,
    /// A9: write with an address of two fields.
    Write2,
    /// AA: write with an address of three fields.
    Write3,
    /// AB: masked write with an address of three fields.
    Masked,
}

impl SlcFnc {
    /// Returns whether the function writes.
    pub fn writes(self) -> bool
        ensures { result ≡ writes self }
    {
        match self {
            SlcFnc::Read2 | SlcFnc::Read3 => false,
            SlcFnc::Write2 | SlcFnc::Write3 | SlcFnc::Masked => true,
        }
    }
}

/// An order of one of these functions.
#[derive(Clone, Copy, Debug)]
pub struct SlcOrder<'a> {
    /// The function.
    pub fnc: SlcFnc,
    /// The place of its first word.
    pub at: Three,
    /// The number of bytes that are read or written.
    pub size: u8,
    /// The bits of each word that are written: FFFF if the function isn't Masked.
    pub mask: u16,
    /// The words to write, each low byte first; empty for a read.
    pub bytes: &'a [u8],
}

/// Reads the order of a payload, which is the bytes after TNS and begins with FNC (manual topic: commands).
///
/// Returns STS 10 exactly if FNC is missing or none of these, a field is cut off, bytes are left after a read, or the
/// data of a write isn't as long as its size says.
pub fn read_slc(payload: &[u8]) -> Result<SlcOrder<'_>, Code>
    ensures reads { result_map_both seen (λ code. code) result ≡ order_of payload.now }
    ensures spelled { IfOk result (λ order. SpellsOrder (seen order) payload.now) }
    ensures known { (order : Order) → SpellsOrder order payload.now → result_map_both seen (λ code. code) result ≡ Ok order }
    ensures order { IfOk result (λ order. IsOrder (seen order)) }
    ensures refused { IfErr result (λ code. code ≡ Code.Sts 0x10) }
{
    match spelled_order(payload) {
        Some(order) => Ok(order),
        None => Err(ILLEGAL),
    }
}

/// Returns the order that a payload encodes.
#[tactic(auto, unfolding(crate::specs::Order::spelled_order))]
fn spelled_order(payload: &[u8]) -> Option<SlcOrder<'_>>
    ensures { option_map seen result ≡ spelled_order payload.now }
{
    match payload {
        [fnc, rest @ ..] => fields(fnc_of(*fnc)?, rest),
        [] => None,
    }
}

/// Reads the fields of an order after FNC.
#[tactic(auto, unfolding(crate::specs::Order::fields))]
fn fields(fnc: SlcFnc, bytes: &[u8]) -> Option<SlcOrder<'_>>
    ensures { option_map seen result ≡ fields fnc bytes.now }
{
    let [size, rest @ ..] = bytes else {
        return None;
    };
    let (at, used) = read_three(rest, has_sub(fnc))?;
    let (mask, bytes) = mask_front(fnc, &rest[used..])?;
    if bytes.len() != data_len(fnc, *size) {
        return None;
    }
    Some(SlcOrder {
        fnc,
        at,
        size: *size,
        mask,
        bytes,
    })
}

/// Returns the mask at the front, if the function has one, and the bytes after it.
fn mask_front(fnc: SlcFnc, bytes: &[u8]) -> Option<(u16, &[u8])>
    ensures { option_map (λ found. (found.0, found.1.now)) result ≡ mask_front (has_mask fnc) bytes.now }
{
    match (fnc, bytes) {
        (SlcFnc::Masked, [low, high, rest @ ..]) => Some((u16::from_le_bytes([*low, *high]), rest)),
        (SlcFnc::Masked, _) => None,
        _ => Some((ALL_BITS, bytes)),
    }
}

/// Returns the function of an FNC.
fn fnc_of(byte: u8) -> Option<SlcFnc>
    ensures { result ≡ fnc_of byte }
{
    match byte {
        0xA1 => Some(SlcFnc::Read2),
        0xA2 => Some(SlcFnc::Read3),
        0xA9 => Some(SlcFnc::Write2),
        0xAA => Some(SlcFnc::Write3),
        0xAB => Some(SlcFnc::Masked),
        _ => None,
    }
}

/// Returns whether the address of a function has a sub-element.
fn has_sub(fnc: SlcFnc) -> bool
    ensures { result ≡ has_sub fnc }
{
    match fnc {
        SlcFnc::Read2 | SlcFnc::Write2 => false,
        SlcFnc::Read3 | SlcFnc::Write3 | SlcFnc::Masked => true,
    }
}

/// Returns the number of bytes of data of an order.
fn data_len(fnc: SlcFnc, size: u8) -> usize
    ensures { result ≡ data_len fnc size }
{
    if fnc.writes() { usize::from(size) } else { 0 }
}
