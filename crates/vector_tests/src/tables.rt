//! Tests of which case of a table is reported to differ.
ghost use Rattle.std.specs.Prelude.{◌≤◌};
ghost use Rattle.std.specs.List.{AllByRecursion};
ghost use Rattle.vector_suite.specs.Vectors.{IsCase};

use crate::equal::is;
use std::process::Abort;
use std::test::Fail;
use vector_suite::{Case, Kind, forty_cases, run_table};

/// The BCC of three bytes.
const BCC: Case<8> = Case {
    kind: Kind::Bcc,
    len: 3,
    input: [0x08, 0x09, 0x06, 0, 0, 0, 0, 0],
    want_len: 1,
    want: [0xE9, 0, 0, 0, 0, 0, 0, 0],
};

/// The BCC of nothing, with another expected.
const WRONG: Case<8> = Case {
    kind: Kind::Bcc,
    len: 0,
    input: [0; 8],
    want_len: 1,
    want: [0xFF, 0, 0, 0, 0, 0, 0, 0],
};

/// A read of N7:0, and the reply of a station that has executed nothing before.
const READ: Case<16> = Case {
    kind: Kind::Answer,
    len: 12,
    input: [
        0x01, 0x00, 0x0F, 0x00, 0x01, 0x00, 0xA2, 0x02, 0x07, 0x89, 0x00, 0x00, 0, 0, 0, 0,
    ],
    want_len: 8,
    want: [
        0x00, 0x01, 0x4F, 0x00, 0x01, 0x00, 0x34, 0x12, 0, 0, 0, 0, 0, 0, 0, 0,
    ],
};

/// A write of N7:0, and its reply.
const WRITE: Case<16> = Case {
    kind: Kind::Answer,
    len: 14,
    input: [
        0x01, 0x00, 0x0F, 0x00, 0x01, 0x00, 0xAA, 0x02, 0x07, 0x89, 0x00, 0x00, 0xCD, 0xAB, 0, 0,
    ],
    want_len: 6,
    want: [
        0x00, 0x01, 0x4F, 0x00, 0x01, 0x00, 0, 0, 0, 0, 0, 0, 0, 0, 0, 0,
    ],
};

#[test]
fn none_of_the_forty_differs(rt: HostRuntime) -> Result<(), Fail> {
    is(&rt, run_table(rt.alloc(), &forty_cases()), Ok(None));
    Ok(())
}

#[test]
fn the_first_case_that_differs_is_told(rt: HostRuntime) -> Result<(), Fail> {
    let none: [Case<8>; 0] = [];
    is(&rt, run_table(rt.alloc(), &none), Ok(None));
    is(&rt, run_table(rt.alloc(), &[BCC, BCC]), Ok(None));
    is(&rt, run_table(rt.alloc(), &[WRONG, BCC]), Ok(Some(0)));
    is(
        &rt,
        run_table(rt.alloc(), &[BCC, WRONG, BCC, WRONG]),
        Ok(Some(1)),
    );
    Ok(())
}

#[test]
fn a_reply_that_is_longer_or_shorter_than_wanted_differs(rt: HostRuntime) -> Result<(), Fail> {
    let longer = Case {
        want_len: 7,
        ..READ
    };
    let shorter = Case {
        want_len: 9,
        ..READ
    };
    is(&rt, run_table(rt.alloc(), &[READ, longer]), Ok(Some(1)));
    is(&rt, run_table(rt.alloc(), &[READ, shorter]), Ok(Some(1)));
    Ok(())
}

#[test]
fn each_command_is_answered_by_a_new_station(rt: HostRuntime) -> Result<(), Fail> {
    // The word that is written isn't compared, and isn't read.
    is(&rt, run_table(rt.alloc(), &[WRITE, READ]), Ok(None));
    Ok(())
}

#[test]
fn what_stands_behind_a_text_is_not_compared(rt: HostRuntime) -> Result<(), Fail> {
    let behind = Case {
        input: [0x08, 0x09, 0x06, 0x55, 0, 0, 0, 0x55],
        want: [0xE9, 0x55, 0, 0, 0, 0, 0, 0x55],
        ..BCC
    };
    is(&rt, run_table(rt.alloc(), &[behind]), Ok(None));
    Ok(())
}

#[test]
fn the_longest_frame_is_compared(rt: HostRuntime) -> Result<(), Fail> {
    // A body of 250 DLE: their sum is 4,000, so the BCC is 60.
    let mut want = [0x10; 512];
    want[1] = 0x02;
    want[503] = 0x03;
    want[504] = 0x60;
    let longest = Case {
        kind: Kind::FrameBcc,
        len: 250,
        input: [0x10; 512],
        want_len: 505,
        want,
    };
    is(&rt, run_table(rt.alloc(), &[longest]), Ok(None));
    Ok(())
}

/// Returns a table of the maximum number of cases, each the BCC of nothing, of which none or the right byte is
/// expected.
fn table(want_len: usize) -> [Case<1>; 1024]
    requires { want_len ≤ 1 }
    ensures { AllByRecursion (IsCase 1) result }
{
    let case = Case {
        kind: Kind::Bcc,
        len: 0,
        input: [0],
        want_len,
        want: [0],
    };
    [case; 1024]
}

#[test]
fn a_table_has_up_to_1024_cases(rt: HostRuntime) -> Result<(), Fail> {
    is(&rt, run_table(rt.alloc(), &table(1)), Ok(None));
    is(&rt, run_table(rt.alloc(), &table(0)), Ok(Some(0)));
    Ok(())
}
