//! The codes of faults.

ghost use Rattle.std.specs.Prelude.{◌≡◌};
ghost use Rattle.c_payloads.specs.Faults.{address_code, payload_code};

use c_ends::Code;
use command_payloads::PayloadFault;
use data_addresses::AddressFault;

/// Returns the code of a text that is not an address.
pub(crate) fn address_code(fault: AddressFault) -> Code
    ensures { result ≡ address_code fault }
{
    match fault {
        AddressFault::NoType => Code::NoAddressType,
        AddressFault::NoFile => Code::NoAddressFile,
        AddressFault::NoColon => Code::NoAddressColon,
        AddressFault::NoElement => Code::NoAddressElement,
        AddressFault::NoSub => Code::NoAddressSub,
        AddressFault::NoBit => Code::NoAddressBit,
        AddressFault::NoEnd => Code::NoAddressEnd,
    }
}

/// Returns the code of the fault of a payload.
pub(crate) fn payload_code(fault: PayloadFault) -> Code
    ensures { result ≡ payload_code fault }
{
    match fault {
        PayloadFault::NoData => Code::NoData,
        PayloadFault::TooMuchData => Code::TooMuchData,
        PayloadFault::NoType => Code::NoElementType,
        PayloadFault::NoSub => Code::NoSub,
        PayloadFault::HalfElement => Code::HalfElement,
        PayloadFault::NoBit => Code::NoBit,
    }
}
