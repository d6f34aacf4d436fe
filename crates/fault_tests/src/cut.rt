//! A test that a script that is cut before its `end` is complete is refused.
use crate::equal::is;
use df1_base::{BytesIn, BytesOut};
use df1_shelf::ShelfMem;
use df1_tool::run;
use std::process::Abort;
use std::test::Fail;

/// A line of the script: its text; the lengths at which its beginning is a statement, each with what is written then;
/// what is written for the whole line. whole line.
type Line = (&'static str, &'static [(usize, &'static str)], &'static str);

const LINES: [Line; 5] = [
    ("file b 7 89 16\n", &[(13, ""), (14, "")], ""),
    (
        "ai 0FAA02078900003412\n",
        &[
            (5, ""),
            (7, ""),
            (9, ""),
            (11, ""),
            (13, ""),
            (15, ""),
            (17, ""),
            (19, ""),
            (21, ""),
        ],
        "",
    ),
    (
        "ak 19\n",
        &[
            (2, "a sent 10\n"),
            (3, "a sent 10\n"),
            (4, "a sent 10\n"),
            (5, "a sent 100201000F000100AA0207890000341210036D\n"),
        ],
        "a sent 100201000F000100AA0207890000341210036D\n",
    ),
    (
        "ad 19\n",
        &[
            (2, ""),
            (3, ""),
            (4, ""),
            (5, "b exec 01000F000100AA02078900003412\n"),
        ],
        "b exec 01000F000100AA02078900003412\n",
    ),
    ("en", &[], ""),
];

/// Returns what is written for the first `count` bytes of a line, or None if they are not a statement.
fn cut_to(statements: &[(usize, &'static str)], count: usize) -> Option<&'static str> {
    for (at, told) in statements {
        if *at == count {
            return Some(told);
        }
    }
    None
}

#[test]
fn a_script_that_is_cut_is_refused(rt: HostRuntime) -> Result<(), Fail> {
    let mut before = String::new(rt.alloc());
    let mut told = String::new(rt.alloc());
    for (number, (text, statements, whole)) in LINES.iter().enumerate() {
        for count in 0..text.len() {
            let statement = cut_to(statements, count);
            let (line, cause) = match (count, statement) {
                (0, _) => (number + 1, "open"),
                (_, Some(_)) => (number + 2, "open"),
                (_, None) => (number + 1, "form"),
            };
            let part = str::from_utf8(text.as_bytes().get(..count).unwrap_or(&[])).unwrap_or("");
            let input = format!(in rt.alloc(); "{before}{part}")?;
            let out = format!(in rt.alloc(); "{told}{}", statement.unwrap_or(""))?;
            let note = format!(in rt.alloc(); "df1: line {line}: {cause}\n")?;
            let ran = run(
                rt.alloc(),
                &vec![in rt.alloc(); String::from_str(rt.alloc(), "replay")?]?,
                ShelfMem::new(rt.alloc()),
                BytesIn::new(rt.alloc(), input.as_bytes(), 1, &[])?,
                BytesOut::new(rt.alloc(), 4000, 7, &[])?,
                BytesOut::new(rt.alloc(), 200, 200, &[])?,
            );
            is(&rt, ran.status, 3);
            is(&rt, ran.out.held(), out.as_bytes());
            is(&rt, ran.note.held(), note.as_bytes());
        }
        before.push_str(text)?;
        told.push_str(whole)?;
    }
    Ok(())
}
