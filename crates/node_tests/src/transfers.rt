//! Tests of transfers of whole files: the orders of known transfers, and the result of a transfer, reply by reply.
ghost use Rattle.std.specs.Prelude.{◌≡◌, ◌≤◌, ◌*◌, ◌/◌, length};

use crate::equal::is;
use arrayvec::ArrayVec;
use bulk_orders::{Bulk, confirm, gather, order_count, pull_order, push_order};
use df1_base::Host;
use df1_node::{Node, NodeSetup, Station, Tables};
use std::alloc::Global;
use std::process::Abort;
use std::test::Fail;

// Compares an order that reads, or checks that there is none.
fn reads(rt: &impl Abort, file: u16, words: u16, j: u16, wanted: Option<&[u8]>)
    requires file { file ≤ 999 }
    requires words { (1 ≤ words) × (words ≤ 3000) }
{
    let mut order = ArrayVec::new();
    order.push(0xEE);
    is(rt, pull_order(file, words, j, &mut order), wanted.is_some());
    is(rt, order.as_slice(), wanted.unwrap_or(&[]));
}

#[test]
fn orders_that_read_have_their_offset_the_total_and_a_size(rt: HostRuntime) {
    reads(
        &rt,
        7,
        2,
        1,
        Some(b"\x0F\x01\x00\x00\x02\x00\x06\x07\x00\x04"),
    );
    reads(
        &rt,
        999,
        1,
        1,
        Some(b"\x0F\x01\x00\x00\x01\x00\x06\xFF\xE7\x03\x00\x02"),
    );
    reads(
        &rt,
        255,
        100,
        1,
        Some(b"\x0F\x01\x00\x00\x64\x00\x06\xFF\xFF\x00\x00\xC8"),
    );
    reads(
        &rt,
        254,
        101,
        2,
        Some(b"\x0F\x01\x64\x00\x65\x00\x06\xFE\x00\x02"),
    );
    reads(
        &rt,
        0,
        3000,
        30,
        Some(b"\x0F\x01\x54\x0B\xB8\x0B\x06\x00\x00\xC8"),
    );
    reads(&rt, 7, 100, 0, None);
    reads(&rt, 7, 100, 2, None);
    reads(&rt, 7, 101, 3, None);
    reads(&rt, 7, 3000, 31, None);
}

// Compares an order that writes, or checks that there is none.
fn writes(rt: &impl Abort, bytes: &[u8], j: u16, wanted: Option<&[u8]>)
    requires size { (2 ≤ length bytes.now) × (length bytes.now ≤ 6000) }
    requires whole { length bytes.now ≡ 2 * (length bytes.now / 2) }
{
    let mut order = ArrayVec::new();
    order.push(0xEE);
    is(rt, push_order(7, bytes, j, &mut order), wanted.is_some());
    is(rt, order.as_slice(), wanted.unwrap_or(&[]));
}

#[test]
fn orders_that_write_have_their_words(rt: HostRuntime) {
    writes(
        &rt,
        b"\x34\x12",
        1,
        Some(b"\x0F\x00\x00\x00\x01\x00\x06\x07\x00\x34\x12"),
    );
    writes(&rt, b"\x34\x12", 0, None);
    writes(&rt, b"\x34\x12", 2, None);
    let mut data = [0; 202];
    data[200] = 0xCD;
    data[201] = 0xAB;
    writes(
        &rt,
        &data,
        2,
        Some(b"\x0F\x00\x64\x00\x65\x00\x06\x07\x00\xCD\xAB"),
    );
    writes(&rt, &data, 3, None);
}

#[test]
fn each_hundred_words_have_an_order(rt: HostRuntime) {
    is(&rt, order_count(1), 1);
    is(&rt, order_count(100), 1);
    is(&rt, order_count(101), 2);
    is(&rt, order_count(3000), 30);
}

// Returns a node that has handed out two commands, 1 and 2, and has accepted these replies.
fn node_with(rt: &impl Abort, alloc: Global, replies: &[&[u8]]) -> Result<Node, Fail> {
    let setup = NodeSetup {
        node: 0,
        tns: 1,
        reply_ticks: 100,
        room: 2,
        window: 2,
        per_source: 16,
    };
    let station = Station::new(Tables::new(alloc, &[])?, None, &[]);
    let mut node = Node::new(alloc, setup, station)?;
    let mut body = ArrayVec::new();
    for _ in 0..2 {
        node.issue(1, b"\x0F\x01")?;
        node.next(&mut body);
    }
    for reply in replies {
        assert!(rt; reply.len() >= 6 && reply.len() <= 250);
        assert!(rt; node.has_room(reply));
        node.accept(reply);
    }
    Ok(node)
}

#[test]
fn a_transfer_tells_the_lowest_fault(rt: HostRuntime) -> Result<(), Fail> {
    let done = b"\x00\x01\x4F\x00\x01\x00";
    let next = b"\x00\x01\x4F\x00\x02\x00";
    let other = b"\x00\x01\x4F\x00\x02\x00\x34";
    let refused = b"\x00\x01\x4F\xF0\x01\x00\x06";
    let illegal = b"\x00\x01\x4F\x10\x02\x00";
    let cases: [(&[&[u8]], Bulk); 7] = [
        (&[], Bulk::Missing(1)),
        (&[done], Bulk::Missing(2)),
        (&[done, next], Bulk::Whole),
        (&[next, done], Bulk::Whole),
        (&[done, other], Bulk::Odd(2)),
        (
            &[refused, illegal],
            Bulk::Refused {
                number: 1,
                sts: 0xF0,
                ext: 0x06,
            },
        ),
        (
            &[done, illegal],
            Bulk::Refused {
                number: 2,
                sts: 0x10,
                ext: 0,
            },
        ),
    ];
    for (replies, wanted) in &cases {
        let node = node_with(&rt, rt.alloc(), replies)?;
        is(&rt, confirm(node.initiator(), 200), *wanted);
    }
    Ok(())
}

#[test]
fn words_stand_in_the_order_of_the_commands(rt: HostRuntime) -> Result<(), Fail> {
    let mut first = [0; 206];
    first[..6].copy_from_slice(b"\x00\x01\x4F\x00\x01\x00");
    first[6] = 0x11;
    let second = b"\x00\x01\x4F\x00\x02\x00\x78\x56";
    let mut words = ArrayVec::new();
    let node = node_with(&rt, rt.alloc(), &[second, &first])?;
    is(&rt, gather(node.initiator(), 101, &mut words), Bulk::Whole);
    assert!(rt; words.len() == 202);
    is(&rt, words[0], 0x11);
    is(&rt, words[200], 0x78);
    is(&rt, words[201], 0x56);
    is(&rt, gather(node.initiator(), 102, &mut words), Bulk::Odd(2));
    is(&rt, words.is_empty(), true);
    Ok(())
}
