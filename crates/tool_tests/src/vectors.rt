//! Tests of the command `vectors`, over the outside in memory.
use crate::equal::is;
use crate::program::{USAGE, words};
use df1_base::{BytesIn, BytesOut};
use df1_shelf::ShelfMem;
use df1_tool::run;
use std::process::Abort;
use std::test::Fail;

#[test]
fn the_cases_are_told_and_the_input_is_left(rt: HostRuntime) -> Result<(), Fail> {
    let cases: [(&[&str], usize, u8, &str, &str); 3] = [
        (&["vectors"], 200, 0, "cases 40\n", ""),
        (&["vectors"], 3, 5, "cas", "df1: output cannot be written\n"),
        (&["vectors", "now"], 200, 2, "", USAGE),
    ];
    for (asked, room, status, out, note) in cases {
        let words = words(rt.alloc(), asked)?;
        let ran = run(
            rt.alloc(),
            &words,
            ShelfMem::new(rt.alloc()),
            BytesIn::new(rt.alloc(), b"end\n", 4096, &[])?,
            BytesOut::new(rt.alloc(), room, 7, &[])?,
            BytesOut::new(rt.alloc(), 300, 300, &[])?,
        );
        is(&rt, ran.status, status);
        is(&rt, ran.out.held(), out.as_bytes());
        is(&rt, ran.note.held(), note.as_bytes());
        is(&rt, ran.input.left(), b"end\n".as_slice());
    }
    Ok(())
}
