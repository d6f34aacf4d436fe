//! Tests of worked exchanges.
use crate::equal::is;
use arrayvec::ArrayVec;
use df1_base::{Did, Fate, FileType, Host, News};
use df1_node::{FileSpec, Initiator, IssueFault, Node, NodeSetup, Outcome, Station, Tables};
use std::test::Fail;

#[test]
fn payloads_are_refused(rt: HostRuntime) {
    let mut initiator = Initiator::new(rt.alloc(), 0, 1, 33);
    is(&rt, initiator.issue(1, b""), Err(IssueFault::Empty));
    is(&rt, initiator.issue(1, &[0; 246]), Err(IssueFault::TooLong));
    is(
        &rt,
        initiator.issue(1, b"\x4F\x00"),
        Err(IssueFault::NotCommand),
    );
    is(&rt, initiator.issue(1, b"\x06\x00"), Ok(1));
}

#[test]
fn after_the_last_command_none_is_issued(rt: HostRuntime) {
    let mut initiator = Initiator::new(rt.alloc(), 0, 1, 33);
    for n in 1..=65535u32 {
        is(&rt, initiator.issue(1, b"\x06\x00"), Ok(n));
    }
    is(&rt, initiator.issue(1, b"\x06\x00"), Err(IssueFault::Spent));
    is(&rt, initiator.outcome(65535), Some(Outcome::Waiting));
    is(&rt, initiator.outcome(65536), None);
}

const REPLY: &[u8] = b"\x00\x01\x46\x00\x01\x00\x55";

#[test]
fn a_reply_answers_its_command_once(rt: HostRuntime) -> Result<(), Fail> {
    let tables = Tables::new(rt.alloc(), &[])?;
    let setup = NodeSetup {
        node: 0,
        tns: 1,
        reply_ticks: 33,
        room: 2,
        window: 1,
        per_source: 16,
    };
    let mut node = Node::new(rt.alloc(), setup, Station::new(tables, None, b""))?;
    let mut body = ArrayVec::new();
    is(&rt, node.issue(1, b"\x06\x00\x55"), Ok(1));
    is(&rt, node.initiator().has_outstanding(), false);
    is(&rt, node.next(&mut body), true);
    is(
        &rt,
        body.as_slice(),
        b"\x01\x00\x06\x00\x01\x00\x00\x55".as_slice(),
    );
    is(&rt, node.initiator().has_outstanding(), true);
    is(&rt, node.next(&mut body), false);
    assert!(rt; node.has_room(REPLY));
    is(&rt, node.accept(REPLY), Did::Answered(1));
    is(&rt, node.initiator().has_outstanding(), false);
    assert!(rt; node.has_room(REPLY));
    is(&rt, node.accept(REPLY), Did::Stray);
    is(&rt, node.told(Fate::Undelivered), News::Nothing);
    is(&rt, node.initiator().outcome(1), Some(Outcome::Answered));
    is(&rt, node.initiator().reply(1), REPLY);
    is(&rt, node.initiator().outcome(2), None);
    Ok(())
}

/// Replies to commands 1 and 2.
const REPLIES: [&[u8]; 2] = [REPLY, b"\x00\x01\x46\x00\x02\x00"];

#[test]
fn each_reply_stays_as_it_came(rt: HostRuntime) -> Result<(), Fail> {
    let tables = Tables::new(rt.alloc(), &[])?;
    let setup = NodeSetup {
        node: 0,
        tns: 1,
        reply_ticks: 1,
        room: 2,
        window: 1,
        per_source: 16,
    };
    let mut node = Node::new(rt.alloc(), setup, Station::new(tables, None, b""))?;
    let mut body = ArrayVec::new();
    let mut gone = ArrayVec::new();
    for n in 1..=3u32 {
        is(&rt, node.issue(1, b"\x06\x00\x55"), Ok(n));
    }
    for (n, reply) in (1..).zip(REPLIES) {
        is(&rt, node.next(&mut body), true);
        is(&rt, node.accept(reply), Did::Answered(n));
    }
    is(&rt, node.next(&mut body), true);
    is(
        &rt,
        body.as_slice(),
        b"\x01\x00\x06\x00\x03\x00\x00\x55".as_slice(),
    );
    node.tick(&mut gone);
    is(&rt, gone.as_slice(), [3].as_slice());
    is(&rt, node.issue(1, b"\x06\x00"), Ok(4));
    is(&rt, node.initiator().reply(1), REPLIES[0]);
    is(&rt, node.initiator().reply(2), REPLIES[1]);
    is(&rt, node.initiator().reply(3), b"".as_slice());
    is(&rt, node.initiator().reply(4), b"".as_slice());
    Ok(())
}

/// A file and an index, whether an integer file 7 of 2 words has such a word, and its two words after that word was set
/// to 5.
const SET_WORDS: [(u16, u32, bool, [u16; 2]); 5] = [
    (7, 0, true, [5, 0]),
    (7, 1, true, [0, 5]),
    (7, 2, false, [0, 0]),
    (7, u32::MAX, false, [0, 0]),
    (8, 0, false, [0, 0]),
];

#[test]
fn a_word_is_set_where_there_is_one(rt: HostRuntime) -> Result<(), Fail> {
    let integers = FileSpec {
        number: 7,
        kind: FileType::Integer,
        count: 2,
    };
    let setup = NodeSetup {
        node: 0,
        tns: 1,
        reply_ticks: 33,
        room: 2,
        window: 1,
        per_source: 16,
    };
    for (file, index, known, words) in &SET_WORDS {
        let tables = Tables::new(rt.alloc(), &[integers])?;
        let mut node = Node::new(rt.alloc(), setup, Station::new(tables, None, b""))?;
        is(&rt, node.set_word(*file, *index, 5), *known);
        is(&rt, node.tables().flat(), words.as_slice());
    }
    Ok(())
}
