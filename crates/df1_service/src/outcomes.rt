//! The outcomes of an initiator's commands, a line for each in order. N is the command's number in decimal, from 1, and
//! HEX the reply in hexadecimal, in upper case.
//!
//! | Line | When |
//! |---|---|
//! | `N answered HEX` | its reply was accepted |
//! | `N undelivered` | it was given up on its way, or before |
//! | `N unanswered` | no reply came in time |
//! | `N unfinished` | it has no outcome yet |

ghost use Rattle.std.specs.Prelude.{◌≡◌, ◌+◌, ◌*◌, ◌≤◌, ◌++◌, OnErr, OnOk, length};
ghost use Rattle.arrayvec.specs.ArrayVec.{array_vec_len};
ghost use Rattle.hex.specs.Hex.{encode_upper};
ghost use Rattle.df1_base.specs.Outside.{Put, Rose, WroteLess, Later};
ghost use Rattle.df1_service.specs.Service.{outcome_line, outcomes_text};

use arrayvec::ArrayVec;
use df1_base::{Failed, Sink, append, write_all};
use df1_node::{Initiator, Outcome};
use replay_report::pair;

/// The maximum length of a line: a number of 10 digits, a word with its blanks, the digits of a body and a line feed.
const LINE: usize = 521;

/// A line, or the beginning of one.
type Text = ArrayVec<u8, LINE>;

/// Writes the outcome of each command of an initiator, one line per write. Returns `Failed` if the sink failed; then it
/// holds a first part of the text, and not all.
pub fn write_outcomes<K: Sink>(initiator: &Initiator, sink: &mut K) -> Result<(), Failed>
    ensures ok { OnOk result (Put (K.held sink.old) (K.held sink.new) (outcomes_text initiator.now)) }
    ensures missing { OnErr result (WroteLess (K.held sink.old) (K.held sink.new) (outcomes_text initiator.now)) }
    ensures calm { OnOk result (K.faults sink.new ≡ K.faults sink.old) }
    ensures later { Later (K.mark sink.old) (K.mark sink.new) (K.faults sink.old) (K.faults sink.new) }
    ensures cause { OnErr result (Rose (K.faults sink.old) (K.faults sink.new)) }
{
    let mut n = 1;
    while let Some(outcome) = initiator.outcome(n) {
        write_all(sink, &line_of(n, outcome, initiator.reply(n)))?;
        n += 1;
    }
    Ok(())
}

/// Returns the line of command `n`.
fn line_of(n: u32, outcome: Outcome, reply: &[u8]) -> Text
    requires { length reply.now ≤ 250 }
    ensures { result.items ≡ outcome_line n outcome reply.now }
{
    let mut line = ArrayVec::new();
    append(&mut line, itoa::Buffer::new().format(n).as_bytes());
    match outcome {
        Outcome::Answered => {
            append(&mut line, b" answered ");
            append_hex(&mut line, reply);
            append(&mut line, b"\n");
        }
        Outcome::Undelivered => append(&mut line, b" undelivered\n"),
        Outcome::Unanswered => append(&mut line, b" unanswered\n"),
        Outcome::Waiting | Outcome::Out => append(&mut line, b" unfinished\n"),
    }
    line
}

/// Appends two hexadecimal digits for each byte to a line that has room for them.
fn append_hex(line: &mut Text, bytes: &[u8])
    requires { array_vec_len line.old + 2 * length bytes.now ≤ LINE }
    ensures text { line.new.items ≡ line.old.items ++ encode_upper bytes.now }
    ensures size { array_vec_len line.new ≡ array_vec_len line.old + 2 * length bytes.now }
{
    for byte in bytes {
        append(line, &pair(*byte));
    }
}
