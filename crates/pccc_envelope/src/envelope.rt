//! The envelope of a message: how its six bytes are read and written, and the reply's form.
ghost use Rattle.std.specs.Prelude.{◌≡◌, ◌<◌, ◌≤◌, ◌++◌, ◌↔◌, ℕ, List, length, take, true, IsNone, IfSome};
ghost use Rattle.pccc_envelope.specs.declared.envelope.Envelope.{Envelope};
ghost use Rattle.pccc_envelope.specs.Envelope.{spelling, envelope_of, reply_form, is_reply};

use arrayvec::ArrayVec;
use df1_base::REPLY;

/// The place of SRC in a body.
pub(crate) const SRC: usize = 1;

/// The place of CMD in a body.
pub(crate) const CMD: usize = 2;

/// The place of TNS in a body, whose high byte follows the low one.
pub(crate) const TNS: usize = 4;

/// The six fields in front of each message body (manual topic: message packets).
#[derive(Clone, Copy, Debug, PartialEq, Eq)]
pub struct Envelope {
    /// The station that the message is for.
    pub dst: u8,
    /// The station that sends it.
    pub src: u8,
    /// The command, with bit 6 set in a reply.
    pub cmd: u8,
    /// The status of a reply. That of a command is not looked at.
    pub sts: u8,
    /// The transaction number, the same in a command and its reply.
    pub tns: u16,
}

/// Returns the envelope of a body, or None exactly if the body has under 6 bytes. What follows the envelope is not
/// looked at.
pub fn read_envelope(body: &[u8]) -> Option<Envelope>
    ensures none { IsNone result ↔ (length body.now < 6) }
    ensures fields { IfSome result (λ e. e ≡ envelope_of body.now) }
    ensures spelled { IfSome result (λ e. take 6 body.now ≡ spelling e) }
    ensures read_back { (e : Envelope) (rest : List ℕ) → body.now ≡ spelling e ++ rest → result ≡ Some e }
{
    match body {
        [dst, src, cmd, sts, low, high, ..] => Some(Envelope {
            dst: *dst,
            src: *src,
            cmd: *cmd,
            sts: *sts,
            tns: u16::from_le_bytes([*low, *high]),
        }),
        _ => None,
    }
}

/// Replaces `into` by the six bytes of the envelope.
pub fn write_envelope(e: &Envelope, into: &mut ArrayVec<u8, 250>)
    ensures spelled { into.new.items ≡ spelling e.now }
    ensures read_back { (rest : List ℕ) → envelope_of (into.new.items ++ rest) ≡ e.now }
{
    let [low, high] = e.tns.to_le_bytes();
    into.clear();
    into.push(e.dst);
    into.push(e.src);
    into.push(e.cmd);
    into.push(e.sts);
    into.push(low);
    into.push(high);
}

/// Returns the envelope of the reply to a command: DST and SRC swapped, bit 6 of CMD set, the status `sts`, the same
/// TNS.
pub fn reply_of(e: &Envelope, sts: u8) -> Envelope
    ensures form { result ≡ reply_form e.now sts }
    ensures is_reply { (rest : List ℕ) → is_reply (spelling result ++ rest) ≡ true }
{
    Envelope {
        dst: e.src,
        src: e.dst,
        cmd: e.cmd | REPLY,
        sts,
        tns: e.tns,
    }
}

/// Returns whether a body of at least 6 bytes is a reply, which bit 6 of its CMD says.
pub fn is_reply(body: &[u8]) -> bool
    requires { 6 ≤ length body.now }
    ensures { result ≡ is_reply body.now }
{
    body[CMD] & REPLY != 0
}
