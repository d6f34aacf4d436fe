//! What an effect does to the host, and what is reported of it.

ghost use Rattle.std.specs.Prelude.{◌≡◌, ℕ, IsSome, IsTrue};
ghost use Rattle.df1_base.specs.Host.{IsBody};
ghost use Rattle.df1_base.specs.HostAnswers.{host_told, news_of};
ghost use Rattle.half_master.specs.Master.{did_at, host_accepted, fate_of, host_ticked, gone_of, act_of, act_heard, is_good, turn_told};

use crate::table::Effect;
use arrayvec::ArrayVec;
use df1_base::{Act, Did, Fate, Host, News, Turn};
use half_frame::MasterHeard;

/// Hands an accepted body to the host.
pub(crate) fn take_in<H: Host>(host: &mut H, effect: Effect, body: &[u8]) -> Option<Did>
    requires { (place : ℕ) → effect ≡ Effect.Accepted place → IsBody body.now × IsTrue (H.room_for host.old body.now) }
    ensures did { result ≡ did_at H.Host effect host.old body.now }
    ensures after { host.new ≡ host_accepted H.Host effect host.old body.now }
{
    match effect {
        Effect::Accepted(_) => Some(host.accept(body)),
        _ => None,
    }
}

/// Has the host hand out its next message.
pub(crate) fn hand_out<H: Host>(host: &mut H) -> ArrayVec<u8, 250>
    requires { IsSome (H.Host.next_body host.old) }
    ensures next { H.Host.next_body host.old ≡ Some result.items }
    ensures fits { IsBody result.items }
    ensures after { host.new ≡ H.Host.after_next host.old }
{
    let mut body = ArrayVec::new();
    let _ = host.next(&mut body);
    body
}

/// Reports to the host the fate of its message, if one is decided.
pub(crate) fn tell<H: Host>(host: &mut H, effect: Effect) -> News
    ensures news { result ≡ news_of H.Host (fate_of effect) host.old }
    ensures after { host.new ≡ host_told H.Host (fate_of effect) host.old }
{
    match effect {
        Effect::Delivered => host.told(Fate::Delivered),
        Effect::GivenUp => host.told(Fate::Undelivered),
        _ => News::Nothing,
    }
}

/// Passes the host its tick, which comes with a poll alone. `gone` is replaced by the commands that are unanswered from
/// it on.
pub(crate) fn tick_host<H: Host>(host: &mut H, effect: Effect, gone: &mut ArrayVec<u32, 16>)
    ensures after { host.new ≡ host_ticked H.Host effect host.old }
    ensures gone { gone.new.items ≡ gone_of H.Host effect host.old }
{
    match effect {
        Effect::Polls => host.tick(gone),
        _ => gone.clear(),
    }
}

/// Returns what a byte is reported as: an ACK or a NAK whatever was done about it.
pub(crate) fn act_of(effect: Effect, heard: Option<MasterHeard>) -> Act
    ensures { result ≡ act_of effect heard }
{
    match effect {
        Effect::Accepted(_) => Act::Accept,
        Effect::Repeated => Act::Repeat,
        Effect::Refused => Act::Refuse,
        Effect::Damaged => Act::Damaged,
        _ => act_heard(heard),
    }
}

/// Returns what a decoded item that isn't a message is reported as.
fn act_heard(heard: Option<MasterHeard>) -> Act
    ensures { result ≡ act_heard heard }
{
    match heard {
        Some(MasterHeard::Ack) => Act::PeerAck,
        Some(MasterHeard::Nak) => Act::PeerNak,
        _ => Act::Nothing,
    }
}

/// Returns whether a whole message was received.
pub(crate) fn is_whole(heard: Option<MasterHeard>) -> bool
    ensures { result ≡ is_good heard }
{
    match heard {
        Some(MasterHeard::Good) => true,
        _ => false,
    }
}

/// Returns what a tick is reported as, with the host's answer to a fate.
pub(crate) fn turn_of(effect: Effect, news: News) -> Turn
    ensures { result ≡ turn_told effect news }
{
    match effect {
        Effect::GivenUp => Turn::Failed(news),
        _ => Turn::Still,
    }
}
