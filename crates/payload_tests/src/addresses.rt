//! Tests of texts with their addresses, and of invalid texts with the first part that is at fault.
use crate::equal::is;
use arrayvec::ArrayVec;
use data_addresses::{Address, AddressFault, read_address, write_address};
use df1_base::FileType;

/// Each text with its type, file, element, sub-element and bit.
const TAKEN: [(&[u8], FileType, u16, u16, u16, Option<u8>); 13] = [
    (b"N7:3", FileType::Integer, 7, 3, 0, None),
    (b"N7:3/5", FileType::Integer, 7, 3, 0, Some(5)),
    (b"N007:03/015", FileType::Integer, 7, 3, 0, Some(15)),
    (b"N999:999", FileType::Integer, 999, 999, 0, None),
    (b"B3:1/0", FileType::Bit, 3, 1, 0, Some(0)),
    (b"F8:0", FileType::Float, 8, 0, 0, None),
    (b"F8:0.1", FileType::Float, 8, 0, 1, None),
    (b"T4:1.ACC", FileType::Timer, 4, 1, 2, None),
    (b"T4:1.CTL/13", FileType::Timer, 4, 1, 0, Some(13)),
    (b"C5:0.PRE", FileType::Counter, 5, 0, 1, None),
    (b"R6:0.POS", FileType::Control, 6, 0, 2, None),
    (b"S2:1", FileType::Status, 2, 1, 0, None),
    (b"S:1/15", FileType::Status, 2, 1, 0, Some(15)),
];

/// Each text with its fault.
const REFUSED: [(&[u8], AddressFault); 18] = [
    (b"", AddressFault::NoType),
    (b"O:0", AddressFault::NoType),
    (b"n7:0", AddressFault::NoType),
    (b"N:0", AddressFault::NoFile),
    (b"N1000:0", AddressFault::NoFile),
    (b"S", AddressFault::NoFile),
    (b"N7", AddressFault::NoColon),
    (b"N7;0", AddressFault::NoColon),
    (b"N7:", AddressFault::NoElement),
    (b"N7:1000", AddressFault::NoElement),
    (b"T4:1.LEN", AddressFault::NoSub),
    (b"N7:0.ACC", AddressFault::NoSub),
    (b"T4:1.3", AddressFault::NoSub),
    (b"N7:3/", AddressFault::NoBit),
    (b"N7:3/16", AddressFault::NoBit),
    (b"F8:0/1", AddressFault::NoBit),
    (b"N7:3 ", AddressFault::NoEnd),
    (b"T4:1.ACCX", AddressFault::NoEnd),
];

#[test]
fn texts_are_addresses(rt: HostRuntime) {
    for (text, kind, file, element, sub, bit) in TAKEN {
        let at = Address {
            kind,
            file,
            element,
            sub,
            bit,
        };
        is(&rt, read_address(text), Ok(at));
    }
}

#[test]
fn other_texts_tell_their_fault(rt: HostRuntime) {
    for (text, fault) in REFUSED {
        is(&rt, read_address(text), Err(fault));
    }
}

#[test]
fn addresses_are_told_shortly(rt: HostRuntime) {
    let rows: [(&[u8], &[u8]); 5] = [
        (b"N007:03/015", b"N7:3/15"),
        (b"S:1", b"S2:1"),
        (b"T4:1.ACC", b"T4:1.2"),
        (b"T4:1.CTL/13", b"T4:1/13"),
        (b"F8:0", b"F8:0"),
    ];
    let mut told = ArrayVec::new();
    for (text, short) in rows {
        let at = read_address(text).expect(&rt, "an address");
        write_address(&at, &mut told);
        is(&rt, told.as_slice(), short);
    }
}
