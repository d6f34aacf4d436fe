//! The reasons why there is no payload.
ghost use Rattle.std.specs.Prelude.{◌≡◌, ◌≤◌, ⊤, MatchOption};
ghost use Rattle.command_payloads.specs.Faults.{count_fault, element_fault, sub_fault};

use data_addresses::Address;
use df1_base::FileType;
use thiserror::Error;

/// The maximum number of words of a command: 244 bytes of data.
pub(crate) const MOST_WORDS: usize = 122;

/// The reason why there is no payload for what was requested.
#[derive(Clone, Copy, Debug, PartialEq, Eq, Error)]
pub enum PayloadFault {
    /// No word or element is read or written.
    #[error("no word is read or written")]
    NoData,
    /// The payload, or the data of its reply, doesn't fit in a message.
    #[error("the data is more than a message has room for")]
    TooMuchData,
    /// A typed command addresses elements of a Timer, Counter or Control file, whose data has no type.
    #[error("elements of the file have no type for a typed command")]
    NoType,
    /// A typed command or an address of two fields names a sub-element.
    #[error("the command has no room for a sub-element")]
    NoSub,
    /// A typed command writes half a float.
    #[error("the words are no whole elements")]
    HalfElement,
    /// The address has no bit, or one over 15.
    #[error("the address has no bit 0 to 15")]
    NoBit,
}

/// Returns the fault of a number of words: there is none, or they exceed 244 bytes.
pub(crate) fn count_fault(words: usize) -> Option<PayloadFault>
    ensures fault { result ≡ count_fault words }
    ensures fits { MatchOption result ((1 ≤ words) × (words ≤ 122)) (λ _. ⊤) }
{
    if words == 0 {
        Some(PayloadFault::NoData)
    } else if words > MOST_WORDS {
        Some(PayloadFault::TooMuchData)
    } else {
        None
    }
}

/// Returns the reason why elements from an address on have no typed commands.
pub(crate) fn element_fault(at: &Address) -> Option<PayloadFault>
    ensures { result ≡ element_fault at.now }
{
    match at.kind {
        FileType::Timer | FileType::Counter | FileType::Control => Some(PayloadFault::NoType),
        FileType::Status | FileType::Bit | FileType::Integer | FileType::Float => sub_fault(at),
    }
}

/// Returns the fault of an address whose sub-element can't be encoded.
pub(crate) fn sub_fault(at: &Address) -> Option<PayloadFault>
    ensures { result ≡ sub_fault at.now }
{
    if at.sub == 0 {
        None
    } else {
        Some(PayloadFault::NoSub)
    }
}
