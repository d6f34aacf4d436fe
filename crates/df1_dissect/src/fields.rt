//! The fields of a message in a line: `dst=HH src=HH cmd=HH sts=HH tns=HHHH NAME REST` (manual topic: message packets).
ghost use Rattle.std.specs.Prelude.{◌≡◌, ◌≤◌, ◌+◌, ◌++◌, ◌∷◌, [], length};
ghost use Rattle.arrayvec.specs.ArrayVec.{array_vec_len};
ghost use Rattle.df1_dissect.specs.Lines.{byte_digits, envelope_text, fields_text, message_text};

use crate::command::message_name;
use crate::line::{append_bytes, append_code, high_digit, low_digit};
use arrayvec::ArrayVec;
use df1_base::{MAX_BODY, MAX_DATA, MIN_BODY, append};
use pccc_envelope::{Envelope, read_envelope};

/// Appends the fields of a body. A body too short for an envelope is appended in hexadecimal, without fields.
#[tactic(auto, unfolding(crate::specs::Lines::fields_text))]
pub(crate) fn append_fields<const N: usize>(text: &mut ArrayVec<u8, N>, body: &[u8])
    requires room { array_vec_len text.old + 600 ≤ N }
    requires body { length body.now ≤ MAX_BODY }
    ensures text { text.new.items ≡ text.old.items ++ fields_text body.now }
    ensures size { array_vec_len text.new ≤ array_vec_len text.old + 600 }
{
    match read_envelope(body) {
        Some(envelope) => append_message(text, envelope, &body[MIN_BODY..]),
        None => append_bytes(text, body),
    }
}

/// Appends the fields of a message, of which `rest` follows TNS.
fn append_message<const N: usize>(text: &mut ArrayVec<u8, N>, envelope: Envelope, rest: &[u8])
    requires room { array_vec_len text.old + 600 ≤ N }
    requires rest { length rest.now ≤ MAX_DATA }
    ensures text { text.new.items ≡ text.old.items ++ message_text envelope rest.now }
    ensures size { array_vec_len text.new ≤ array_vec_len text.old + 600 }
{
    append_envelope(text, envelope);
    append(text, message_name(envelope.cmd, rest).as_bytes());
    append(text, b" ");
    append_bytes(text, rest);
}

/// Appends the fields of an envelope.
fn append_envelope<const N: usize>(text: &mut ArrayVec<u8, N>, envelope: Envelope)
    requires { array_vec_len text.old + 40 ≤ N }
    ensures text { text.new.items ≡ text.old.items ++ envelope_text envelope }
    ensures size { array_vec_len text.new ≤ array_vec_len text.old + 40 }
{
    append_field(text, b"dst=", envelope.dst);
    append_field(text, b"src=", envelope.src);
    append_field(text, b"cmd=", envelope.cmd);
    append_field(text, b"sts=", envelope.sts);
    append_code(text, b"tns=", (envelope.tns / 256) as u8);
    append_code(text, b"", (envelope.tns % 256) as u8);
    append(text, b" ");
}

/// Appends a field of one byte, with a name of three letters and an equals sign, and a space. It is appended at once,
/// since each append reads the length of the text.
fn append_field<const N: usize>(text: &mut ArrayVec<u8, N>, name: &[u8], byte: u8)
    requires name { length name.now ≡ 4 }
    requires room { array_vec_len text.old + 7 ≤ N }
    ensures text { text.new.items ≡ text.old.items ++ name.now ++ byte_digits byte ++ 32 ∷ [] }
    ensures size { array_vec_len text.new ≡ array_vec_len text.old + 7 }
{
    let (high, low) = (high_digit(byte), low_digit(byte));
    append(text, &[name[0], name[1], name[2], name[3], high, low, b' ']);
}
