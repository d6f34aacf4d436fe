//! Tests of the checks of known bytes, at once and byte by byte.
use crate::equal::is;
use df1_check::{CRC_TABLE, Check, Running, bcc, crc};

#[test]
fn checks_of_known_bytes(rt: HostRuntime) {
    let message = [0x08, 0x09, 0x06, 0x00, 0x02, 0x04, 0x03];
    is(&rt, bcc(&message), 0xE0);
    is(&rt, bcc(&[]), 0);
    is(&rt, crc(b"123456789"), 0xBB3D);
    is(&rt, CRC_TABLE[1], 0xC0C1);
    is(
        &rt,
        crc(&[0x08, 0x09, 0x06, 0x00, 0x02, 0x04, 0x03, 0x03]),
        0x4898,
    );
}

#[test]
fn running_checks_of_known_bytes(rt: HostRuntime) {
    let mut block = Running::new(Check::Bcc);
    for b in [0x08, 0x09, 0x06, 0x00, 0x02, 0x04, 0x03] {
        block.step(b);
    }
    is(&rt, block.value(), 0xE0);
    let mut cyclic = Running::new(Check::Crc);
    for b in b"123456789" {
        cyclic.step(*b);
    }
    is(&rt, cyclic.value(), 0xBB3D);
}
