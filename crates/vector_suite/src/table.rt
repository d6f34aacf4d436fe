//! Running a table of cases.
ghost use Rattle.std.specs.Prelude.{◌≡◌, ◌≤◌, [], ◌∷◌, IfOk, length};
ghost use Rattle.std.specs.List.{AllByRecursion};
ghost use Rattle.df1_frame.specs.Units.{bytes_of, units};
ghost use Rattle.vector_suite.specs.Vectors.{IsCase, IsInput, differs, first_differing, low_first, made};

use crate::case::{Case, Kind};
use crate::station::answer;
use arrayvec::ArrayVec;
use df1_base::NoMemory;
use df1_check::{Check, bcc, crc};
use df1_frame::Framer;
use std::alloc::Global;

/// The buffer size for the result of a case, in bytes: a frame of 250 bytes, each doubled, with a CRC has 506.
const MADE: usize = 512;

/// Returns the index, from 0, of the first case whose expected bytes differ from those that its kind makes of its
/// input, and None if there is none. An error is want of memory. There are at most 1,024 cases.
///
/// Each text of a case has at most `L` bytes, which is at most 512. The input of a frame has at most 250 bytes. The
/// input of an answer is the body of a command: 6 to 250 bytes, bit 6 of CMD clear.
pub fn run_table<const N: usize, const L: usize>(
    alloc: Global,
    cases: &[Case<L>; N],
) -> Result<Option<usize>, NoMemory>
    requires longest { L ≤ 512 }
    requires most { N ≤ 1024 }
    requires cases { AllByRecursion (IsCase L) cases.now }
    ensures { IfOk result (λ place. place ≡ first_differing cases.now) }
{
    for (place, case) in cases.iter().enumerate() {
        if differs(alloc, case)? {
            return Ok(Some(place));
        }
    }
    Ok(None)
}

/// Returns whether a case's expected bytes differ from those that its kind makes of its input.
fn differs<const L: usize>(alloc: Global, case: &Case<L>) -> Result<bool, NoMemory>
    requires longest { L ≤ 512 }
    requires case { IsCase L case.now }
    ensures { IfOk result (λ answer. answer ≡ differs case.now) }
{
    let made = made(alloc, case.kind, &case.input[..case.len])?;
    Ok(made.as_slice() != &case.want[..case.want_len])
}

/// Returns what a kind makes of an input.
fn made(alloc: Global, kind: Kind, input: &[u8]) -> Result<ArrayVec<u8, MADE>, NoMemory>
    requires { IsInput kind input.now }
    ensures { IfOk result (λ bytes. bytes.items ≡ made kind input.now) }
{
    match kind {
        Kind::Bcc => Ok(bytes_of(&[bcc(input)])),
        Kind::Crc => Ok(bytes_of(&low_first(crc(input)))),
        Kind::FrameBcc => Ok(frame(Check::Bcc, input)),
        Kind::FrameCrc => Ok(frame(Check::Crc, input)),
        Kind::Answer => Ok(bytes_of(&answer(alloc, input)?)),
    }
}

/// Returns these bytes, which fit.
fn bytes_of(bytes: &[u8]) -> ArrayVec<u8, MADE>
    requires { length bytes.now ≤ MADE }
    ensures { result.items ≡ bytes.now }
{
    let mut made = ArrayVec::new();
    made.try_extend_from_slice(bytes).unwrap();
    made
}

/// Returns the two bytes of a number, the low one first.
fn low_first(n: u16) -> [u8; 2]
    ensures { result ≡ low_first n }
{
    n.to_le_bytes()
}

/// Returns the frame of a body of at most 250 bytes.
fn frame(check: Check, body: &[u8]) -> ArrayVec<u8, MADE>
    requires { length body.now ≤ 250 }
    ensures { result.items ≡ bytes_of (units check body.now) }
{
    let mut framer = Framer::new();
    framer.begin(body, check);
    let mut bytes = ArrayVec::new();
    while let Some(unit) = framer.next_unit() {
        bytes.push(unit.first);
        if let Some(second) = unit.second {
            bytes.push(second);
        }
    }
    bytes
}
