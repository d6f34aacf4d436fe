//! What the parts of an end make of an act, of a fate, of a tick and of a byte that was sent.

ghost use Rattle.std.specs.Prelude.{◌≡◌, ◌≤◌, length, IsTrue};
ghost use Rattle.df1_base.specs.Host.{IsBody};
ghost use Rattle.df1_base.specs.HostAnswers.{did_at, host_told, news_of};
ghost use Rattle.duplex_receiver.specs.Receiver.{is_whole as is_whole_act};
ghost use Rattle.duplex_sender.specs.Sender.{phase_of, on_tick, tick_turn};
ghost use Rattle.duplex_end.specs.End.{sender_after, fate_at, responded, dropped, ends_here, after_out, host_after, fate_of_tick, asked, turn_told};

use arrayvec::ArrayVec;
use df1_base::{Act, Did, Fate, Host, News, Out, Resp, Turn};
use duplex_sender::{Phase, SendTurn, Sender};
use embedded_response::Mouth;

/// Hands an accepted body to the host.
pub(crate) fn take_in<H: Host>(host: &mut H, act: Act, body: &[u8]) -> Option<Did>
    requires body { act ≡ Act.Accept → IsBody body.now }
    requires room { act ≡ Act.Accept → IsTrue (H.room_for host.old body.now) }
    ensures did { result ≡ did_at H.Host act host.old body.now }
    ensures after { host.new ≡ host_after H.Host act host.old body.now }
{
    match act {
        Act::Accept => Some(hand_over(host, body)),
        _ => None,
    }
}

/// Hands a body to the host. It isn't inlined, since a byte at which none is accepted would pay for its stack space.
#[inline(never)]
fn hand_over<H: Host>(host: &mut H, body: &[u8]) -> Did
    requires body { IsBody body.now }
    requires room { IsTrue (H.room_for host.old body.now) }
    ensures did { result ≡ H.did host.old body.now }
    ensures after { host.new ≡ H.after_accept host.old body.now }
{
    host.accept(body)
}

/// Puts the response of an act into the transmitter.
pub(crate) fn respond(mouth: &mut Mouth, act: Act)
    ensures { mouth.new ≡ responded act mouth.old }
{
    match act {
        Act::Accept | Act::Repeat => mouth.offer(Resp::Ack),
        Act::Refuse | Act::Damaged => mouth.offer(Resp::Nak),
        Act::Forgot => mouth.forget(),
        Act::PeerEnq => mouth.enq(),
        Act::PeerAck | Act::PeerNak | Act::Nothing => {}
    }
}

/// Passes an ACK or a NAK to the sender, and returns the fate that this decides, if any.
pub(crate) fn hear_peer(sender: &mut Sender, act: Act) -> Option<Fate>
    ensures state { sender.new ≡ sender_after act sender.old }
    ensures fate { result ≡ fate_at act sender.old }
{
    match act {
        Act::PeerAck => sender.on_ack(),
        Act::PeerNak => sender.on_nak(),
        _ => None,
    }
}

/// Drops the pending ENQ if the sender leaves Waiting.
pub(crate) fn drop_wish(mouth: &mut Mouth, before: Phase, after: Phase)
    ensures { mouth.new ≡ dropped before after mouth.old }
{
    match (before, after) {
        (Phase::Waiting, Phase::Idle | Phase::Sending) => mouth.unask(),
        _ => {}
    }
}

/// Reports a fate to the host.
pub(crate) fn tell<H: Host>(host: &mut H, fate: Option<Fate>) -> News
    ensures news { result ≡ news_of H.Host fate host.old }
    ensures after { host.new ≡ host_told H.Host fate host.old }
{
    match fate {
        Some(fate) => host.told(fate),
        None => News::Nothing,
    }
}

/// Returns whether a whole frame is received at this act.
pub(crate) fn is_whole(act: Act) -> bool
    ensures { result ≡ is_whole_act act }
{
    match act {
        Act::Accept | Act::Repeat | Act::Refuse => true,
        _ => false,
    }
}

/// Does the sender's part of a tick.
pub(crate) fn tick_sender<H: Host>(sender: &mut Sender, mouth: &mut Mouth, host: &mut H) -> Turn
    ensures sender { sender.new ≡ on_tick sender.old }
    ensures mouth { mouth.new ≡ asked (tick_turn sender.old) mouth.old }
    ensures host { host.new ≡ host_told H.Host (fate_of_tick (tick_turn sender.old)) host.old }
    ensures turn { result ≡ turn_told H.Host (tick_turn sender.old) host.old }
{
    match sender.on_tick() {
        SendTurn::Still => Turn::Still,
        SendTurn::Ask => {
            mouth.ask();
            Turn::Ask
        }
        SendTurn::Failed => Turn::Failed(host.told(Fate::Undelivered)),
    }
}

/// Lets the sender wait if the last byte of a transmission was sent.
#[inline(always)]
pub(crate) fn note_out(sender: &mut Sender, out: Option<Out>)
    requires { IsTrue (ends_here out) → phase_of sender.old ≡ Phase.Sending }
    ensures { sender.new ≡ after_out out sender.old }
{
    if let Some(out) = out
        && out.last_of.is_some()
    {
        sender.sent_last();
    }
}

/// Copies a body into `into`.
pub(crate) fn fill(into: &mut ArrayVec<u8, 250>, body: &[u8])
    requires { length body.now ≤ 250 }
    ensures { into.new.items ≡ body.now }
{
    into.clear();
    let fits = into.try_extend_from_slice(body).is_ok();
    prove!(fits);
}
