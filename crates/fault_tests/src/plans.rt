//! Tests of a shelf that fails, and of a plan that is too long.
use crate::equal::is;
use df1_base::{BytesIn, BytesOut};
use df1_shelf::ShelfMem;
use df1_tool::run;
use std::process::Abort;
use std::test::Fail;

/// Runs `serve p raw` over an ENQ and the plan `p`, a comment of so many bytes, and compares status and note. If
/// `fails` is set, reading the plan fails. The input and the output are unchanged.
fn served<R: Abort + AllocGlobal>(
    rt: &R,
    size: usize,
    fails: bool,
    status: u8,
    note: &str,
) -> Result<(), Fail> {
    let mut plan = Vec::new(rt.alloc());
    plan.resize(size, b'#')?;
    let mut shelf = ShelfMem::new(rt.alloc());
    shelf.add("p", &plan, fails)?;
    let mut words = Vec::new(rt.alloc());
    for word in ["serve", "p", "raw"] {
        words.push(String::from_str(rt.alloc(), word)?)?;
    }
    let ran = run(
        rt.alloc(),
        &words,
        shelf,
        BytesIn::new(rt.alloc(), b"\x10\x05", 1, &[])?,
        BytesOut::new(rt.alloc(), 100, 7, &[])?,
        BytesOut::new(rt.alloc(), 200, 200, &[])?,
    );
    is(rt, ran.status, status);
    is(rt, ran.out.held(), b"".as_slice());
    is(rt, ran.note.held(), note.as_bytes());
    is(rt, ran.input.left(), b"\x10\x05".as_slice());
    Ok(())
}

#[test]
fn a_plan_that_fails_or_is_too_long_is_told(rt: HostRuntime) -> Result<(), Fail> {
    served(&rt, 1, true, 6, "df1: plan cannot be read\n")?;
    served(
        &rt,
        1_048_577,
        false,
        6,
        "df1: plan is over 1048576 bytes\n",
    )
}
