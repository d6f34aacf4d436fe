//! Tests of replies of known bytes, texts of codes, and values in data.
use crate::equal::is;
use logical_address::Param;
use reply_values::{float_words, floats_in, read_reply, read_typed, status_text, words_in};
use std::test::Fail;

#[test]
fn replies_tell_their_status_and_data(rt: HostRuntime) {
    let rows: [(&[u8], u8, u8, &[u8]); 4] = [
        (&[0, 1, 0x4F, 0, 1, 0, 0x34, 0x12], 0, 0, &[0x34, 0x12]),
        (&[0, 1, 0x4F, 0, 1, 0], 0, 0, &[]),
        (&[0, 1, 0x48, 0x50, 1, 0], 0x50, 0, &[]),
        (&[0, 1, 0x4F, 0xF0, 1, 0, 0x0A], 0xF0, 0x0A, &[]),
    ];
    for (body, sts, ext, bytes) in rows {
        let reply = read_reply(body).expect(&rt, "a reply");
        is(&rt, (reply.sts, reply.ext), (sts, ext));
        is(&rt, reply.bytes, bytes);
    }
    is(&rt, read_reply(&[0, 1, 0x4F, 0xF0, 1, 0]).is_none(), true);
    is(&rt, read_reply(&[0, 1, 0x4F, 0, 1]).is_none(), true);
}

#[test]
fn codes_have_their_texts(rt: HostRuntime) {
    let rows: [(u8, u8, &str); 8] = [
        (0x00, 0x0A, "the command was executed"),
        (0x10, 0, "the command or its format is unknown there"),
        (0x18, 0, "the command or its format is unknown there"),
        (
            0x80,
            0,
            "there is no compatibility file, or the communication zone has a problem",
        ),
        (0x07, 0, "the station is offline"),
        (0xF0, 0x06, "there is no such file, element or sub-element"),
        (0xF0, 0x1C, "see the manual of the controller"),
        (0xE0, 0, "see the manual of the controller"),
    ];
    for (sts, ext, text) in rows {
        is(&rt, status_text(sts, ext), text);
    }
}

#[test]
fn values_are_read_from_data(rt: HostRuntime) -> Result<(), Fail> {
    is(
        &rt,
        words_in(&[0x34, 0x12]).expect(&rt, "words").as_slice(),
        [0x1234].as_slice(),
    );
    is(&rt, words_in(&[0x34]).is_none(), true);
    let typed = read_typed(&[0x99, 9, 6, 0x94, 8, 0, 0, 0xC0, 0x3F]).expect(&rt, "typed data");
    is(&rt, typed.element, Param { kind: 8, size: 4 });
    is(
        &rt,
        floats_in(typed.bytes).expect(&rt, "floats").as_slice(),
        [0x3FC0_0000].as_slice(),
    );
    is(&rt, floats_in(&[0, 0]).is_none(), true);
    is(
        &rt,
        read_typed(&[0x99, 9, 5, 0x42, 0x34, 0x12]).is_none(),
        true,
    );
    is(&rt, float_words(0x3FC0_0000), [0, 0x3FC0]);
    Ok(())
}
