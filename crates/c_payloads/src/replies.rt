//! The contents of replies.

ghost use Rattle.std.specs.Prelude.{◌≡◌, ◌≤◌, ◌-◌, IfSome, drop, length};
ghost use Rattle.reply_values.specs.Reply.{reply_of};
ghost use Rattle.reply_values.specs.Typed.{SpellsTyped, typed_of};
ghost use Rattle.c_payloads.specs.Replies.{answer_after, ended_text, reply_code, typed_after, typed_code};

use crate::parts::{AnswerParts, TypedParts};
use arrayvec::ArrayVec;
use c_ends::Code;

/// STS: the code is in EXT STS, the byte after TNS.
const EXTENDED: u8 = 0xF0;

/// Reports the status of a reply, and where its data is (manual topics: message packets, status codes). Returns
/// `NoReply`, with `answer` unchanged, if the reply is cut off.
pub fn read_reply(reply: &[u8], answer: &mut AnswerParts) -> Code
    ensures code { result ≡ reply_code (reply_of reply.now) }
    ensures told { answer.new ≡ answer_after (reply_of reply.now) answer.old }
    ensures place { IfSome (reply_of reply.now) (λ told. drop answer.new.start reply.now ≡ told.bytes) }
{
    let Some(told) = reply_values::read_reply(reply) else {
        return Code::NoReply;
    };
    *answer = AnswerParts {
        sts: told.sts,
        ext: told.ext,
        start: if told.sts == EXTENDED { 7 } else { 6 },
        count: told.bytes.len(),
    };
    Code::Done
}

/// Returns the text of STS and EXT STS, with a zero byte at its end (manual topic: status codes).
pub fn status_text(sts: u8, ext: u8) -> ArrayVec<u8, 80>
    ensures text { result.items ≡ ended_text sts ext }
    ensures most { length result.items ≤ 80 }
{
    let mut ended = ArrayVec::new();
    ended
        .try_extend_from_slice(reply_values::status_text(sts, ext).as_bytes())
        .unwrap();
    ended.push(0);
    ended
}

/// Reports the type of the data of a reply to a typed read, and where its words are (manual topics: addressing, typed
/// read). Returns `NoTypedData`, with `typed` unchanged, if it is no such data.
pub fn read_typed(bytes: &[u8], typed: &mut TypedParts) -> Code
    ensures code { result ≡ typed_code (typed_of bytes.now) }
    ensures told { typed.new ≡ typed_after (length bytes.now) (typed_of bytes.now) typed.old }
    ensures place { IfSome (typed_of bytes.now) (λ told. drop typed.new.start bytes.now ≡ told.bytes) }
    ensures spelled { IfSome (typed_of bytes.now) (λ told. SpellsTyped told bytes.now) }
{
    let Some(told) = reply_values::read_typed(bytes) else {
        return Code::NoTypedData;
    };
    *typed = TypedParts {
        kind: told.element.kind,
        size: told.element.size,
        is_array: told.is_array,
        start: bytes.len() - told.bytes.len(),
        count: told.bytes.len(),
    };
    Code::Done
}
