//! Tests of addresses and parameters of known bytes.
use crate::equal::is;
use arrayvec::ArrayVec;
use df1_base::FileType;
use logical_address::{
    LevelFault, Levels, Param, ParamFault, Three, read_levels, read_param, read_three, read_value,
    write_array, write_levels, write_three,
};
use std::process::Abort;

#[test]
fn values_have_two_spellings(rt: HostRuntime) {
    is(&rt, read_value(&[0x00]), Some((0, 1)));
    is(&rt, read_value(&[0xFE, 0x07]), Some((254, 1)));
    is(&rt, read_value(&[0xFF, 0x00, 0x00]), Some((0, 3)));
    is(&rt, read_value(&[0xFF, 0x05, 0x00]), Some((5, 3)));
    is(&rt, read_value(&[0xFF, 0xFE, 0x00]), Some((254, 3)));
    is(&rt, read_value(&[0xFF, 0xFF, 0x00]), Some((255, 3)));
    is(&rt, read_value(&[0xFF, 0xFF, 0xFF, 0x01]), Some((65535, 3)));
    is(&rt, read_value(&[]), None);
    is(&rt, read_value(&[0xFF]), None);
    is(&rt, read_value(&[0xFF, 0x05]), None);
}

#[test]
fn three_fields_are_read_up_to_where_they_are_cut_off(rt: HostRuntime) {
    let bytes = [0x07, 0x89, 0xFF, 0xFF, 0x00, 0x02, 0xAA];
    let two = Three {
        file: 7,
        kind: 0x89,
        element: 255,
        sub: 0,
    };
    let three = Three { sub: 2, ..two };
    is(&rt, read_three(&bytes, true), Some((three, 6)));
    is(&rt, read_three(&bytes, false), Some((two, 5)));
    for len in 0..6 {
        is(&rt, read_three(&bytes[..len], true), None);
    }
    is(&rt, read_three(&bytes[..4], false), None);
}

#[test]
fn level_addresses_tell_their_first_fault(rt: HostRuntime) {
    let whole = Levels {
        area: 1,
        file: 7,
        element: 300,
        sub: 2,
    };
    let bytes = [0x0F, 0x01, 0x07, 0xFF, 0x2C, 0x01, 0x02, 0xAA];
    is(&rt, read_levels(&bytes), Ok((whole, 7)));
    for len in 0..7 {
        is(&rt, read_levels(&bytes[..len]), Err(LevelFault::Truncated));
    }
    let short = Levels {
        area: 0,
        file: 7,
        element: 0,
        sub: 0,
    };
    is(&rt, read_levels(&[0x06, 0x07, 0x00]), Ok((short, 3)));
    is(
        &rt,
        read_levels(&[0x0F, 0x00, 0xFF, 0x07, 0x00, 0x00, 0x00]),
        Ok((short, 7)),
    );
    for mask in [0x16, 0x26, 0x46, 0x86, 0x10, 0xF0] {
        is(
            &rt,
            read_levels(&[mask, 0x07, 0x00]),
            Err(LevelFault::TooMany),
        );
    }
    for mask in [0x00, 0x02, 0x04, 0x09, 0x0B, 0x0D] {
        is(&rt, read_levels(&[mask]), Err(LevelFault::TooFew));
    }
}

#[test]
fn addresses_are_written_in_the_shortest_way(rt: HostRuntime) {
    let mut bytes = ArrayVec::new();
    let mut at = Three {
        file: 7,
        kind: 0x89,
        element: 255,
        sub: 0,
    };
    write_three(&at, false, &mut bytes);
    is(
        &rt,
        bytes.as_slice(),
        [0x07, 0x89, 0xFF, 0xFF, 0x00].as_slice(),
    );
    at.element = 254;
    at.sub = 2;
    write_three(&at, true, &mut bytes);
    is(&rt, bytes.as_slice(), [0x07, 0x89, 0xFE, 0x02].as_slice());
    let mut to = Levels {
        area: 0,
        file: 7,
        element: 1,
        sub: 0,
    };
    write_levels(&to, &mut bytes);
    is(&rt, bytes.as_slice(), [0x06, 0x07, 0x01].as_slice());
    to.area = 1;
    to.sub = 2;
    write_levels(&to, &mut bytes);
    is(
        &rt,
        bytes.as_slice(),
        [0x0F, 0x01, 0x07, 0x01, 0x02].as_slice(),
    );
}

#[test]
fn parameters_tell_their_first_fault(rt: HostRuntime) {
    is_param(&rt, &[0x42], 4, 2, 1);
    is_param(&rt, &[0x22, 0x99], 2, 2, 1);
    is_param(&rt, &[0x94, 0x08], 8, 4, 2);
    is_param(&rt, &[0x99, 0x09, 0x05, 0x42], 9, 5, 3);
    is_param(&rt, &[0xAA, 0x09, 0x00, 0x2C, 0x01], 9, 300, 5);
    for bytes in [&[][..], &[0x90], &[0x49], &[0xA2, 0x09], &[0x99, 0x09]] {
        is(&rt, read_param(bytes), Err(ParamFault::Truncated));
    }
    for flag in [0x82, 0xB2, 0xF2, 0x28, 0x2B, 0x2F] {
        is(&rt, read_param(&[flag]), Err(ParamFault::WideField));
    }
}

fn is_param(rt: &impl Abort, bytes: &[u8], kind: u16, size: u16, used: usize) {
    is(rt, read_param(bytes), Ok((Param { kind, size }, used)));
}

#[test]
fn parameters_of_arrays(rt: HostRuntime) {
    is_array(&rt, FileType::Integer, 2, &[0x99, 0x09, 0x05, 0x42]);
    is_array(&rt, FileType::Status, 127, &[0x99, 0x09, 0xFF, 0x42]);
    is_array(&rt, FileType::Bit, 0, &[0x99, 0x09, 0x01, 0x22]);
    is_array(&rt, FileType::Float, 1, &[0x99, 0x09, 0x06, 0x94, 0x08]);
    is_array(&rt, FileType::Float, 63, &[0x99, 0x09, 0xFE, 0x94, 0x08]);
    is_array(&rt, FileType::Integer, 128, &[]);
    is_array(&rt, FileType::Float, 64, &[]);
    is_array(&rt, FileType::Float, 65535, &[]);
    is_array(&rt, FileType::Timer, 1, &[]);
    is_array(&rt, FileType::Counter, 1, &[]);
    is_array(&rt, FileType::Control, 1, &[]);
}

fn is_array(rt: &impl Abort, kind: FileType, count: u16, wanted: &[u8]) {
    let mut bytes = ArrayVec::new();
    is(rt, write_array(kind, count, &mut bytes), !wanted.is_empty());
    is(rt, bytes.as_slice(), wanted);
}
