//! Tests of plans: their contents, and the cause for each invalid document.
use crate::equal::is;
use df1_base::FileType;
use df1_check::Check;
use df1_plan::{Plan, read_plan};
use std::process::Abort;

// Returns the plan of a document.
fn plan(rt: &impl Abort, alloc: std::alloc::Global, text: &str) -> Plan {
    match read_plan(alloc, text.as_bytes()) {
        Ok(plan) => plan,
        Err(_) => panic!(rt; "no plan"),
    }
}

#[test]
fn an_empty_document_is_a_plan(rt: HostRuntime) {
    let plan = plan(&rt, rt.alloc(), "");
    assert!(rt; plan.check == Check::Bcc && plan.peer == 0);
    assert!(rt; !plan.end.embed && plan.end.node == 1 && plan.end.tns == 1);
    assert!(rt; plan.end.ack_ticks == 10 && plan.end.max_naks == 3 && plan.end.max_enqs == 3);
    assert!(rt; plan.end.reply_ticks == 100 && plan.end.room == 2);
    assert!(rt; plan.end.window == 1 && plan.end.per_source == 16);
    assert!(rt; plan.end.compat == None && plan.end.block.as_slice().is_empty());
    assert!(rt; plan.end.files.as_slice().is_empty() && plan.issue.as_slice().is_empty());
}

#[test]
fn each_key_is_read(rt: HostRuntime) {
    let text =
        "check = \"crc\"\nembed = true\nnode = 7\npeer = 9\ntns = 65535\nack_ticks = 1000000\nmax_naks = 255\n\
        max_enqs = 0\nreply_ticks = 33\nroom = 64\nblock = \"01aB\"\ncompat = 3\nwindow = 16\nper_source = 1\n\
        issue = [\"060055\", { source = 255, payload = \"0603\" }, { payload = \"0600\", source = 0 }]\n\
        [[file]]\nnumber = 7\ntype = \"8A\"\ncount = 2\nwords = \"341278560100\"\n\
        [[file]]\nnumber = 3\ntype = \"85\"\ncount = 1000\n";
    let plan = plan(&rt, rt.alloc(), text);
    assert!(rt; plan.check == Check::Crc && plan.peer == 9);
    assert!(rt; plan.end.embed && plan.end.node == 7 && plan.end.tns == 65_535);
    assert!(rt;
        plan.end.ack_ticks == 1_000_000 && plan.end.max_naks == 255 && plan.end.max_enqs == 0
    );
    assert!(rt; plan.end.reply_ticks == 33 && plan.end.room == 64 && plan.end.compat == Some(3));
    is(&rt, plan.end.block.as_slice(), [0x01, 0xAB].as_slice());
    let files = plan.end.files.as_slice();
    assert!(rt; files.len() == 2);
    assert!(rt; files[0].number == 7 && files[0].kind == FileType::Float && files[0].count == 2);
    assert!(rt; files[1].number == 3 && files[1].kind == FileType::Bit && files[1].count == 1000);
    let words = plan.end.words.as_slice();
    assert!(rt; words.len() == 3);
    assert!(rt; words[0].file == 7 && words[0].index == 0 && words[0].value == 0x1234);
    assert!(rt; words[2].file == 7 && words[2].index == 2 && words[2].value == 0x0001);
    let issue = plan.issue.as_slice();
    assert!(rt; issue.len() == 3 && plan.end.window == 16 && plan.end.per_source == 1);
    assert!(rt;
        issue[0].src == None && issue[0].payload.as_slice() == [0x06, 0x00, 0x55].as_slice()
    );
    assert!(rt;
        issue[1].src == Some(255) && issue[1].payload.as_slice() == [0x06, 0x03].as_slice()
    );
    assert!(rt; issue[2].src == Some(0) && issue[2].payload.as_slice() == [0x06, 0x00].as_slice());
}

// Returns the cause for which a document is refused.
fn cause(rt: &impl Abort, alloc: std::alloc::Global, text: &[u8]) -> String {
    match read_plan(alloc, text) {
        Ok(_) => panic!(rt; "a plan"),
        Err(fault) => format!(in alloc; "{fault}").expect(rt, "memory"),
    }
}

#[test]
fn each_refusal_has_its_cause(rt: HostRuntime) {
    let rows = [
        ("speed = 1", "unknown key"),
        ("node = 300\nspeed = 1", "unknown key"),
        ("node = 300", "key node"),
        ("node = -1", "key node"),
        ("node = \"1\"", "key node"),
        ("tns = 65536\nack_ticks = 0", "key ack_ticks"),
        ("room = 1\nreply_ticks = 32", "key reply_ticks"),
        ("room = 65", "key room"),
        ("max_naks = 256", "key max_naks"),
        ("max_enqs = 256", "key max_enqs"),
        ("peer = 256", "key peer"),
        ("embed = 1", "key embed"),
        ("check = \"BCC\"", "key check"),
        ("block = \"1\"", "key block"),
        ("block = \"1\"\npeer = 256", "key block"),
        ("compat = 1000", "key compat"),
        ("compat = 7", "key compat"),
        ("compat = 7\ntns = -1", "key tns"),
        ("compat = 1000\nfile = 1", "key compat"),
        ("file = 1", "key file"),
        ("file = [1]", "file 1"),
        ("file = [{}]", "file 1"),
        ("issue = \"0600\"", "key issue"),
        ("issue = [\"4F00\"]", "issue 1"),
        ("issue = [\"0600\", \"\"]", "issue 2"),
        ("issue = [\"0600\", 6]", "issue 2"),
        ("window = 0", "key window"),
        ("window = 17", "key window"),
        ("window = \"1\"", "key window"),
        ("per_source = 0", "key per_source"),
        ("per_source = 17\nwindow = 17", "key per_source"),
        ("per_source = 17\nroom = 1", "key per_source"),
        ("per_source = 17\npeer = 256", "key peer"),
        ("window = 17\ntns = -1", "key tns"),
        ("window = 17\ncompat = 7", "key window"),
        ("max_sends = 3", "unknown key"),
        ("node = ", "text"),
        ("node = 1\nnode = 1", "text"),
    ];
    for (text, wanted) in rows {
        assert!(rt;
            cause(&rt, rt.alloc(), text.as_bytes()).as_str() == wanted,
            "{text}"
        );
    }
    is(
        &rt,
        cause(&rt, rt.alloc(), [0x23, 0xFF].as_slice()).as_str(),
        "text",
    );
}

#[test]
fn each_file_that_is_none_is_refused(rt: HostRuntime) {
    let rows = [
        "type = \"89\"\ncount = 2",
        "number = 7\ncount = 2",
        "number = 7\ntype = \"89\"",
        "number = 7\ntype = \"89\"\ncount = 2\nspeed = 1",
        "number = 1000\ntype = \"89\"\ncount = 2",
        "number = 7\ntype = \"8a\"\ncount = 2",
        "number = 7\ntype = 89\ncount = 2",
        "number = 7\ntype = \"89\"\ncount = 0",
        "number = 7\ntype = \"89\"\ncount = 1001",
        "number = 7\ntype = \"89\"\ncount = 2\nwords = \"\"",
        "number = 7\ntype = \"89\"\ncount = 2\nwords = \"34\"",
        "number = 7\ntype = \"89\"\ncount = 2\nwords = \"341\"",
        "number = 7\ntype = \"89\"\ncount = 2\nwords = \"341278560100\"",
        "number = 2\ntype = \"84\"\ncount = 1",
    ];
    for row in rows {
        let text = format!(in rt.alloc();
            "[[file]]\nnumber = 2\ntype = \"84\"\ncount = 4\n[[file]]\n{row}\n"
        ).expect(&rt, "memory");
        assert!(rt;
            cause(&rt, rt.alloc(), text.as_bytes()).as_str() == "file 2",
            "{row}"
        );
    }
}

#[test]
fn each_command_that_is_none_is_refused(rt: HostRuntime) {
    let rows = [
        "{}",
        "{ source = 9 }",
        "{ payload = \"0600\" }",
        "{ source = 256, payload = \"0600\" }",
        "{ source = -1, payload = \"0600\" }",
        "{ source = \"9\", payload = \"0600\" }",
        "{ source = 9, payload = 600 }",
        "{ source = 9, payload = \"060\" }",
        "{ source = 9, payload = \"\" }",
        "{ source = 9, payload = \"4F00\" }",
        "{ source = 9, payload = \"0600\", speed = 1 }",
        "{ src = 9, payload = \"0600\" }",
        "[9, \"0600\"]",
        "9",
    ];
    for row in rows {
        let text = format!(in rt.alloc(); "issue = [\"0600\", {row}, \"4F00\"]\n").expect(
            &rt, "memory",
        );
        assert!(rt;
            cause(&rt, rt.alloc(), text.as_bytes()).as_str() == "issue 2",
            "{row}"
        );
    }
}

#[test]
fn a_compatibility_file_holds_bits_or_integers(rt: HostRuntime) {
    for kind in ["84", "86", "87", "88", "8A"] {
        let text = format!(in rt.alloc();
            "compat = 7\n[[file]]\nnumber = 7\ntype = \"{kind}\"\ncount = 4\n"
        ).expect(&rt, "memory");
        assert!(rt;
            cause(&rt, rt.alloc(), text.as_bytes()).as_str() == "key compat",
            "{kind}"
        );
    }
}

#[test]
fn entries_are_counted_to_their_limits(rt: HostRuntime) {
    let mut files = String::new(rt.alloc());
    let mut issue = String::from_str(rt.alloc(), "issue = [").expect(&rt, "memory");
    for n in 0..256 {
        let file = format!(in rt.alloc();
            "[[file]]\nnumber = {n}\ntype = \"89\"\ncount = 1\n"
        ).expect(&rt, "memory");
        files.push_str(file.as_str()).expect(&rt, "memory");
    }
    for _ in 0..65_535 {
        issue.push_str("\"0600\",").expect(&rt, "memory");
    }
    let mut ample = issue.clone().expect(&rt, "memory");
    ample.push_str("]\n").expect(&rt, "memory");
    ample.push_str(files.as_str()).expect(&rt, "memory");
    let plan = plan(&rt, rt.alloc(), ample.as_str());
    assert!(rt; plan.end.files.as_slice().len() == 256 && plan.issue.as_slice().len() == 65_535);
    files
        .push_str("[[file]]\nnumber = 256\ntype = \"89\"\ncount = 1\n")
        .expect(&rt, "memory");
    is(
        &rt,
        cause(&rt, rt.alloc(), files.as_bytes()).as_str(),
        "file 257",
    );
    issue.push_str("\"0600\"]\n").expect(&rt, "memory");
    is(
        &rt,
        cause(&rt, rt.alloc(), issue.as_bytes()).as_str(),
        "issue 65536",
    );
}
