//! The contents of replies.

ghost use Rattle.std.specs.Prelude.{◌≡◌, ◌≤◌, length, drop, IfSome};
ghost use Rattle.reply_values.specs.Reply.{reply_of};
ghost use Rattle.reply_values.specs.Typed.{SpellsTyped, typed_of};
ghost use Rattle.c_ends.specs.Code.{code_number};
ghost use Rattle.c_calls.specs.Copied.{copied, room_code};
ghost use Rattle.c_payloads.specs.Replies.{answer_after, ended_text, reply_code, typed_after, typed_code};

use c_calls::copy;
use c_payloads::{AnswerParts, TypedParts, read_reply, read_typed, status_text};

/// Reports the status of a reply, and where its data is.
#[unsafe(no_mangle)]
pub extern "C" fn df1_reply_read(reply: &[u8], answer: &mut AnswerParts) -> u32
    ensures code { result ≡ code_number (reply_code (reply_of reply.now)) }
    ensures told { answer.new ≡ answer_after (reply_of reply.now) answer.old }
    ensures place { IfSome (reply_of reply.now) (λ told. drop answer.new.start reply.now ≡ told.bytes) }
{
    read_reply(reply, answer).number()
}

/// Puts the text of STS and EXT STS, with a zero byte at its end, into a buffer. `count` becomes its number of bytes
/// with that zero.
#[unsafe(no_mangle)]
pub extern "C" fn df1_status_text(sts: u8, ext: u8, into: &mut [u8], count: &mut usize) -> u32
    ensures code { result ≡ code_number (room_code (length (ended_text sts ext)) (length into.old)) }
    ensures bytes { into.new ≡ copied into.old (ended_text sts ext) }
    ensures count { count.new ≡ length (ended_text sts ext) }
    ensures most { count.new ≤ 80 }
{
    copy(&status_text(sts, ext), into, count).number()
}

/// Reports the type of the data of a reply to a typed read, and where its words are.
#[unsafe(no_mangle)]
pub extern "C" fn df1_typed_read(bytes: &[u8], typed: &mut TypedParts) -> u32
    ensures code { result ≡ code_number (typed_code (typed_of bytes.now)) }
    ensures told { typed.new ≡ typed_after (length bytes.now) (typed_of bytes.now) typed.old }
    ensures place { IfSome (typed_of bytes.now) (λ told. drop typed.new.start bytes.now ≡ told.bytes) }
    ensures spelled { IfSome (typed_of bytes.now) (λ told. SpellsTyped told bytes.now) }
{
    read_typed(bytes, typed).number()
}
