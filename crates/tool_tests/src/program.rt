//! Tests of the program, over the outside in memory.
use crate::equal::is;
use df1_base::{BytesIn, BytesOut, Failed, NoMemory};
use df1_node::{IssueFault, MakeFault};
use df1_plan::{PlanFault, PlanKey};
use df1_service::ServiceFault;
use df1_shelf::{FetchFault, ShelfMem};
use df1_tool::run;
use end_settings::EndKey;
use line_replay::StreamFault;
use line_script::{Cause, LineFault, ScriptFault};
use std::alloc::Global;
use std::fmt::Display;
use std::process::Abort;
use std::test::Fail;

/// The note for words that are none of the forms.
pub(crate) const USAGE: &str =
    "df1: usage: df1 replay | serve PLAN raw|timed | issue PLAN | dissect SIDE CHECK | check SIDE CHECK | drill SEED COUNT | vectors | storm SEED COUNT | route | pull PLAN FILE WORDS | push PLAN FILE HEX | rehearse pull FILE WORDS | rehearse push FILE HEX\n";

/// The expected result of a run of the program.
#[derive(Drop)]
struct Case {
    words: &'static [&'static str],
    input: &'static str,
    read_fails: &'static [u64],
    room: usize,
    status: u8,
    out: &'static str,
    note: &'static str,
}

/// Returns the words of a command line.
pub(crate) fn words(alloc: Global, texts: &[&str]) -> Result<Vec<String>, Fail> {
    let mut words = Vec::new(alloc);
    for text in texts {
        words.push(String::from_str(alloc, text)?)?;
    }
    Ok(words)
}

fn check<R: Abort + AllocGlobal>(rt: &R, case: &Case) -> Result<(), Fail> {
    let words = words(rt.alloc(), case.words)?;
    let ran = run(
        rt.alloc(),
        &words,
        ShelfMem::new(rt.alloc()),
        BytesIn::new(rt.alloc(), case.input.as_bytes(), 1, case.read_fails)?,
        BytesOut::new(rt.alloc(), case.room, 7, &[])?,
        BytesOut::new(rt.alloc(), 300, 300, &[])?,
    );
    is(rt, ran.status, case.status);
    is(rt, ran.out.held(), case.out.as_bytes());
    is(rt, ran.note.held(), case.note.as_bytes());
    Ok(())
}

/// Returns a run of a script that ends well.
fn played(input: &'static str, out: &'static str) -> Case {
    Case {
        words: &["replay"],
        input,
        read_fails: &[],
        room: 4000,
        status: 0,
        out,
        note: "",
    }
}

/// Returns a run of a script that is refused.
fn refused(input: &'static str, note: &'static str) -> Case {
    Case {
        words: &["replay"],
        input,
        read_fails: &[],
        room: 4000,
        status: 3,
        out: "",
        note,
    }
}

#[test]
fn a_script_is_played_and_reported(rt: HostRuntime) -> Result<(), Fail> {
    let cases = [
        // One write.
        played(
            "file b 7 89 16\nai 0FAA02078900003412\nak 19\nad 19\nend\n",
            "a sent 100201000F000100AA0207890000341210036D\nb exec 01000F000100AA02078900003412\nb word 7 0 1234\ndeceived 0\n",
        ),
        // An ordinary exchange with CRC.
        played(
            "set check crc\nai 060055\nak 99\nad 99\nbk 99\nbd 99\nak 99\nad 99\nend\n",
            "a sent 1002010006000100005510032901\nb exec 0100060001000055\nb sent 1006100200014600010055100360CB\na answered 1 00014600010055\na sent 1006\ndeceived 0\n",
        ),
        // A frame with CRC.
        played(
            "set check crc\nset a.node 9\nset b.node 8\nset a.tns 1026\nai 0603\nak 99\nend\n",
            "a sent 10020809060002040310039848\ndeceived 0\n",
        ),
        // The maximum number of replies that may wait.
        played("set a.room 64\nset b.room 64\nend\n", "deceived 0\n"),
        // Nothing happens.
        played("end\n", "deceived 0\n"),
        // Words of files of every type.
        played(
            "file b 2 84 1\nfile b 3 85 1\nfile b 4 86 2\nfile b 5 87 1\nfile b 8 8A 2\nfile b 6 88 1\nfile b 7 89 1\nfile a 8 8A 1\nword b 7 0 abcd\nword b 2 0 0001\nword b 3 0 8000\nword b 4 5 00FF\nword b 4 0 E000\nword b 5 2 0102\nword b 8 3 3F80\nword b 6 1 1000\nword a 8 1 4048\nend\n",
            "a word 8 1 4048\nb word 2 0 0001\nb word 3 0 8000\nb word 4 0 E000\nb word 4 5 00FF\nb word 5 2 0102\nb word 8 3 3F80\nb word 6 1 1000\nb word 7 0 ABCD\ndeceived 0\n",
        ),
        // An ordinary exchange.
        played(
            "file b 7 89 16\nai 0FAA02078900003412\nak 99\nad 99\nbk 99\nbd 99\nak 99\nad 99\nend\n",
            "a sent 100201000F000100AA0207890000341210036D\nb exec 01000F000100AA02078900003412\nb sent 1006100200014F0001001003AF\na answered 1 00014F000100\na sent 1006\nb word 7 0 1234\ndeceived 0\n",
        ),
        // A BCC of 10 isn't doubled.
        played(
            "set b.node 7\nai 0600E2\nak 99\nend\n",
            "a sent 100207000600010000E2100310\ndeceived 0\n",
        ),
        // Bytes of 10 are doubled.
        played(
            "set b.node 7\nset a.tns 16\nai 060010\nak 99\nend\n",
            "a sent 1002070006001010000010101003D3\ndeceived 0\n",
        ),
        // A lost ACK.
        played(
            "file b 7 89 16\nai 0FAA02078900003412\nak 19\nad 19\nbk 2\nbx 2\nat 10\nak 2\nad 2\nbk 13\nbd 13\nak 2\nad 2\nend\n",
            "a sent 100201000F000100AA0207890000341210036D\nb exec 01000F000100AA02078900003412\nb sent 1006\na enquiry\na sent 1005\nb sent 1006100200014F0001001003AF\na answered 1 00014F000100\na sent 1006\nb word 7 0 1234\ndeceived 0\n",
        ),
        // A damaged frame and a lost NAK.
        played(
            "file b 7 89 16\nai 0FAA02078900003412\nak 19\nad 2\nac 01\nad 17\nbk 2\nbx 2\nat 10\nak 2\nad 2\nbk 2\nbd 2\nak 19\nad 19\nbk 13\nbd 13\nak 2\nad 2\nend\n",
            "a sent 100201000F000100AA0207890000341210036D\nb damaged\nb sent 1015\na enquiry\na sent 1005\nb sent 1015\na sent 100201000F000100AA0207890000341210036D\nb exec 01000F000100AA02078900003412\nb sent 1006100200014F0001001003AF\na answered 1 00014F000100\na sent 1006\nb word 7 0 1234\ndeceived 0\n",
        ),
        // An ACK that becomes a NAK.
        played(
            "file b 7 89 16\nai 0FAA02078900003412\nak 19\nad 19\nbk 2\nbd 1\nbc 13\nbd 1\nak 19\nad 19\nbk 13\nbd 13\nak 2\nad 2\nend\n",
            "a sent 100201000F000100AA0207890000341210036D\nb exec 01000F000100AA02078900003412\nb sent 1006\na sent 100201000F000100AA0207890000341210036D\nb repeat\nb sent 1006100200014F0001001003AF\na answered 1 00014F000100\na sent 1006\nb word 7 0 1234\ndeceived 0\n",
        ),
        // A stale ACK.
        played(
            "file b 7 89 16\nai 0FAA02078900003412\nai 0FAA02078901007856\nak 19\nad 19\nbk 13\nat 10\nak 2\nad 2\nbk 2\nbd 13\nak 21\nbd 2\nad 2\nax 19\nat 100\nend\n",
            "a sent 100201000F000100AA0207890000341210036D\nb exec 01000F000100AA02078900003412\nb sent 1006100200014F0001001003AF\na enquiry\na sent 1005\nb sent 1006\na answered 1 00014F000100\na sent 1006100201000F000200AA020789010078561003E3\na unanswered 2\nb word 7 0 1234\ndeceived 0\n",
        ),
        // An embedded response.
        played(
            "set a.embed on\nfile b 7 89 16\nai 0FAA02078900003412\nbi 060055\nak 8\nbk 13\nbd 13\nak 13\nad 21\nend\n",
            "a sent 100201000F000100\nb sent 100200010600010000551003A3\na exec 0001060001000055\na sent 1006AA0207890000341210036D\nb exec 01000F000100AA02078900003412\nb word 7 0 1234\ndeceived 0\n",
        ),
        // A foreign command.
        played(
            "file b 7 89 16\nan 100201000F000100AA0207890000341210036D\nend\n",
            "b exec 01000F000100AA02078900003412\nb word 7 0 1234\ndeceived 1\n",
        ),
        // A foreign reply.
        played(
            "bn 10020001460009001003B0\nend\n",
            "a stray 000146000900\ndeceived 1\n",
        ),
        // Too many NAKs.
        played(
            "set a.max_naks 0\nfile b 7 89 16\nai 0FAA02078900003412\nak 19\nax 19\nbn 1015\nend\n",
            "a sent 100201000F000100AA0207890000341210036D\na undelivered 1\ndeceived 0\n",
        ),
        // Too many ENQs.
        played(
            "set b.max_enqs 0\nai 060055\nak 13\nad 13\nbk 99\nbt 10\nend\n",
            "a sent 100201000600010000551003A3\nb exec 0100060001000055\nb sent 1006100200014600010055100363\nb dropped\ndeceived 0\n",
        ),
        // No room for a message.
        played(
            "set a.reply_ticks 33\nai 060055\nai 060055\nai 060055\nak 13\nad 13\nbk 2\nbd 2\nat 33\nak 13\nad 13\nbk 2\nbd 2\nat 33\nak 13\nad 13\nbk 2\nend\n",
            "a sent 100201000600010000551003A3\nb exec 0100060001000055\nb sent 1006\na unanswered 1\na sent 100201000600020000551003A2\nb exec 0100060002000055\nb sent 1006\na unanswered 2\na sent 100201000600030000551003A1\nb full\nb sent 1015\ndeceived 0\n",
        ),
        // A half-duplex line without stations.
        played("set mode half\nend\n", "deceived 0\n"),
        // A write to a polled station, whose reply is lost and sent again at a later poll.
        played(
            "set mode half\nstation 3\nstation 5\nfile 3 7 89 16\nmi 3 0FAA02078900003412\nmk 22\nmd 3 22\nmd 5 22\n3k 2\n3d 2\nmt\nmk 4\nmd 3 4\nmd 5 4\n3k 11\n3x 11\nmt 10\nmt\nmk 4\nmd 3 4\nmd 5 4\n5k 2\n5d 2\nmt\nmk 4\nmd 3 4\nmd 5 4\n3k 11\n3d 11\nmk 2\nmd 3 2\nmd 5 2\nend\n",
            "m sent 100103100203000F000100AA02078900003412100368\n3 exec 03000F000100AA02078900003412\n3 sent 1006\nm sent 100503FD\n3 sent 100200034F0001001003AD\nm sent 100505FB\n5 sent 1004\nm sent 100503FD\n3 sent 100200034F0001001003AD\nm answered 1 00034F000100\nm sent 1006\n3 word 7 0 1234\ndeceived 0\n",
        ),
        // A write to a polled station over a line that loses nothing.
        played(
            "set mode half\nstation 3\nstation 5\nfile 3 7 89 16\nmi 3 0FAA02078900003412\nmk 22\nmd 3 22\nmd 5 22\n3k 2\n3d 2\nmt\nmk 4\nmd 3 4\nmd 5 4\n3k 11\n3d 11\nmk 2\nmd 3 2\nmd 5 2\nmt\nmk 4\nmd 3 4\nmd 5 4\n5k 2\n5d 2\nend\n",
            "m sent 100103100203000F000100AA02078900003412100368\n3 exec 03000F000100AA02078900003412\n3 sent 1006\nm sent 100503FD\n3 sent 100200034F0001001003AD\nm answered 1 00034F000100\nm sent 1006\nm sent 100505FB\n5 sent 1004\n3 word 7 0 1234\ndeceived 0\n",
        ),
    ];
    for case in &cases {
        check(&rt, case)?;
    }
    Ok(())
}

#[test]
fn a_run_that_does_not_end_well_tells_why(rt: HostRuntime) -> Result<(), Fail> {
    let cases = [
        // No input.
        refused("", "df1: line 1: open\n"),
        // A line after the end.
        refused("end\nzz\n", "df1: line 2: after\n"),
        // A line that is none of the forms.
        refused("zz", "df1: line 1: form\n"),
        // A second file.
        refused(
            "file b 7 89 16\nfile b 7 89 16\nend\n",
            "df1: line 2: twice\n",
        ),
        // Other words.
        Case {
            words: &["replay", "now"],
            input: "file b 7 89 16\nend\n",
            read_fails: &[],
            room: 4000,
            status: 2,
            out: "",
            note: USAGE,
        },
        // A read that fails.
        Case {
            words: &["replay"],
            input: "file b 7 89 16\nai 0FAA02078900003412\nak 19\nad 19\nend\n",
            read_fails: &[3],
            room: 4000,
            status: 4,
            out: "",
            note: "df1: input cannot be read\n",
        },
        // A read that fails after a line that is refused: the line came first.
        Case {
            words: &["replay"],
            input: "zz\nend\n",
            read_fails: &[4],
            room: 4000,
            status: 3,
            out: "",
            note: "df1: line 1: form\n",
        },
        // A read that fails before the line feed of such a line.
        Case {
            words: &["replay"],
            input: "zz\nend\n",
            read_fails: &[3],
            room: 4000,
            status: 4,
            out: "",
            note: "df1: input cannot be read\n",
        },
        // A read that fails when only `end` is missing.
        Case {
            words: &["replay"],
            input: "ai 0600\n",
            read_fails: &[9],
            room: 4000,
            status: 4,
            out: "",
            note: "df1: input cannot be read\n",
        },
        // A read that fails at the end of a script.
        Case {
            words: &["replay"],
            input: "end\n",
            read_fails: &[5],
            room: 4000,
            status: 4,
            out: "",
            note: "df1: input cannot be read\n",
        },
        // A line that is refused after events: the report of these is written.
        Case {
            words: &["replay"],
            input: "file b 7 89 16\nai 0FAA02078900003412\nak 19\nzz\n",
            read_fails: &[],
            room: 4000,
            status: 3,
            out: "a sent 100201000F000100AA0207890000341210036D\n",
            note: "df1: line 4: form\n",
        },
        // A read that fails after an event line: the line that is started has no effect.
        Case {
            words: &["replay"],
            input: "ai 060055\nak 2\nak 3",
            read_fails: &[20],
            room: 4000,
            status: 4,
            out: "a sent 1002\n",
            note: "df1: input cannot be read\n",
        },
        // An output that is full before a line that is refused: the output failed first.
        Case {
            words: &["replay"],
            input: "ai 060055\nak 2\nzz\n",
            read_fails: &[],
            room: 3,
            status: 5,
            out: "a s",
            note: "df1: output cannot be written\n",
        },
        // An output that is full.
        Case {
            words: &["replay"],
            input: "end\n",
            read_fails: &[],
            room: 3,
            status: 5,
            out: "dec",
            note: "df1: output cannot be written\n",
        },
    ];
    for case in &cases {
        check(&rt, case)?;
    }
    Ok(())
}

/// Runs `replay` over a script that ends well, and compares its report.
fn plays<R: Abort + AllocGlobal>(rt: &R, script: &str, report: &[&str]) -> Result<(), Fail> {
    let words = words(rt.alloc(), &["replay"])?;
    let ran = run(
        rt.alloc(),
        &words,
        ShelfMem::new(rt.alloc()),
        BytesIn::new(rt.alloc(), script.as_bytes(), 4096, &[])?,
        BytesOut::new(rt.alloc(), 4096, 4096, &[])?,
        BytesOut::new(rt.alloc(), 300, 300, &[])?,
    );
    let mut expected = String::new(rt.alloc());
    for part in report {
        expected.push_str(part)?;
    }
    is(rt, ran.status, 0);
    is(rt, ran.out.held(), expected.as_bytes());
    Ok(())
}

/// Returns this text repeated so many times.
fn repeated(alloc: Global, text: &str, times: u32) -> Result<String, Fail> {
    let mut all = String::new(alloc);
    for _ in 0..times {
        all.push_str(text)?;
    }
    Ok(all)
}

#[test]
fn the_largest_payload_is_sent(rt: HostRuntime) -> Result<(), Fail> {
    // 245 bytes, which make a body of 250. Those of the body sum up to 20,663, so the BCC is 49.
    let fives = repeated(rt.alloc(), "55", 243)?;
    let script = format!(in rt.alloc(); "ai 0600{fives}\nak 999\nend\n")?;
    plays(
        &rt,
        &script,
        &["a sent 100201000600010000", &fives, "100349\ndeceived 0\n"],
    )
}

#[test]
fn an_end_has_256_files_of_1000_words(rt: HostRuntime) -> Result<(), Fail> {
    let mut script = String::new(rt.alloc());
    for number in 0..256u32 {
        script.push_str(&format!(in rt.alloc(); "file a {number} 89 1000\n")?)?;
    }
    script.push_str("word a 255 999 1234\nend\n")?;
    plays(&rt, &script, &["a word 255 999 1234\ndeceived 0\n"])
}

#[test]
fn a_script_of_a_million_bytes_is_played(rt: HostRuntime) -> Result<(), Fail> {
    let ticks = repeated(rt.alloc(), "at 1\n", 200_000)?;
    let script = format!(in rt.alloc(); "{ticks}end\n")?;
    plays(&rt, &script, &["deceived 0\n"])
}

/// Compares the text of a fault.
fn says<R: Abort + AllocGlobal, T: Display>(rt: &R, fault: &T, text: &str) -> Result<(), Fail> {
    let told = format!(in rt.alloc(); "{fault}")?;
    is(rt, told.as_str(), text);
    Ok(())
}

#[test]
fn faults_of_the_outside_have_texts(rt: HostRuntime) -> Result<(), Fail> {
    says(&rt, &Failed, "a source or a sink failed")?;
    says(&rt, &NoMemory, "no memory")
}

#[test]
fn faults_of_a_node_have_texts(rt: HostRuntime) -> Result<(), Fail> {
    for (fault, text) in [
        (MakeFault::TooMany, "over 256 files"),
        (MakeFault::Empty(7), "file 7 has no elements"),
        (MakeFault::Large(7), "file 7 has over 1000 elements"),
        (MakeFault::Twice(7), "file 7 is given twice"),
        (MakeFault::NoMemory, "no memory"),
    ] {
        says(&rt, &fault, text)?;
    }
    for (fault, text) in [
        (IssueFault::Empty, "the payload is empty"),
        (IssueFault::TooLong, "the payload has over 245 bytes"),
        (IssueFault::NotCommand, "the payload is no command"),
        (IssueFault::Spent, "65535 commands were issued"),
        (IssueFault::NoMemory, "no memory"),
    ] {
        says(&rt, &fault, text)?;
    }
    Ok(())
}

#[test]
fn faults_of_a_service_have_texts(rt: HostRuntime) -> Result<(), Fail> {
    for (fault, text) in [
        (FetchFault::Failed, "the file cannot be read"),
        (FetchFault::TooLong, "the file is over its limit"),
        (FetchFault::NoMemory, "no memory"),
    ] {
        says(&rt, &fault, text)?;
    }
    for (cause, text) in [
        (PlanFault::Text, "text"),
        (PlanFault::UnknownKey, "unknown key"),
        (PlanFault::Key(PlanKey::Setting(EndKey::Room)), "key room"),
        (PlanFault::File(2), "file 2"),
        (PlanFault::Issue(3), "issue 3"),
        (PlanFault::NoMemory, "no memory"),
    ] {
        says(&rt, &cause, text)?;
    }
    for (fault, text) in [
        (ServiceFault::PlanFailed, "the plan cannot be read"),
        (ServiceFault::PlanTooLong, "the plan is over its limit"),
        (
            ServiceFault::Plan(PlanFault::Text),
            "the plan is refused: text",
        ),
        (
            ServiceFault::Form(4),
            "the record at 4 has none of the forms",
        ),
        (ServiceFault::Cut(4), "the record at 4 is cut"),
        (ServiceFault::Input, "the input cannot be read"),
        (ServiceFault::Output, "the output cannot be written"),
        (ServiceFault::TooLong, "the input is over its limit"),
        (ServiceFault::NoMemory, "no memory"),
    ] {
        says(&rt, &fault, text)?;
    }
    Ok(())
}

#[test]
fn faults_of_a_script_have_texts(rt: HostRuntime) -> Result<(), Fail> {
    for (cause, text) in [
        (Cause::Size, "size"),
        (Cause::Long, "long"),
        (Cause::After, "after"),
        (Cause::Form, "form"),
        (Cause::Place, "place"),
        (Cause::Missing, "missing"),
        (Cause::Value, "value"),
        (Cause::Twice, "twice"),
        (Cause::Spent, "spent"),
        (Cause::Events, "events"),
        (Cause::NoEnd, "open"),
    ] {
        says(&rt, &cause, text)?;
        says(&rt, &LineFault::Faulty(cause), text)?;
    }
    says(&rt, &LineFault::NoMemory, "no memory")?;
    let cause = Cause::Form;
    says(&rt, &ScriptFault::At { line: 3, cause }, "line 3: form")?;
    says(&rt, &ScriptFault::NoMemory, "no memory")?;
    says(&rt, &StreamFault::At { line: 3, cause }, "line 3: form")?;
    says(&rt, &StreamFault::SinkFailed, "the sink failed")?;
    says(&rt, &StreamFault::NoMemory, "no memory")
}

#[test]
fn an_end_issues_65535_commands_and_no_more(rt: HostRuntime) -> Result<(), Fail> {
    let words = words(rt.alloc(), &["replay"])?;
    let spent = "df1: line 65536: spent\n";
    let expected: [(&str, u32, u8, &str); 3] = [
        ("ai 0600\n", 65_535, 0, ""),
        ("ai 0600\n", 65_536, 3, spent),
        ("ai 0600\nai 9 0600\n", 32_768, 3, spent),
    ];
    for (lines, count, status, note) in expected {
        let mut text = repeated(rt.alloc(), lines, count)?;
        text.push_str("end\n")?;
        let ran = run(
            rt.alloc(),
            &words,
            ShelfMem::new(rt.alloc()),
            BytesIn::new(rt.alloc(), text.as_bytes(), 4096, &[])?,
            BytesOut::new(rt.alloc(), 300, 300, &[])?,
            BytesOut::new(rt.alloc(), 300, 300, &[])?,
        );
        is(&rt, ran.status, status);
        is(&rt, ran.note.held(), note.as_bytes());
    }
    Ok(())
}
