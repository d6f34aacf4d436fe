//! An end that is driven by the signals of a port: a byte is received, a tick passes, and the requested bytes are put
//! to the port before its next signal is taken (manual topic: full-duplex protocol).
ghost use Rattle.std.specs.Prelude.{◌≡◌, ◌≢◌, ◌∷◌, ◌++◌, [], List, IfSome, true};
ghost use Rattle.df1_base.specs.Outside.{Rose};
ghost use Rattle.df1_base.specs.Signals.{goes_on};
ghost use Rattle.df1_base.specs.declared.signal.Signal.{Signal as OneSignal};
ghost use Rattle.df1_base.specs.declared.signal.Signal.TheVariants as signal_of;
ghost use Rattle.duplex_end.specs.Serving.{BreaksOff, Hears, Serves, bytes_given, last_signal};

use crate::End;
use arrayvec::ArrayVec;
use df1_base::{Failed, Host, Port, Signal};

/// The most bytes that takes return until there is none.
const DRAIN: usize = 511;

/// How a serving ended.
#[derive(Clone, Copy, Debug, PartialEq, Eq)]
pub enum Served {
    /// The input has ended.
    Ended,
    /// The port failed to give its next signal.
    InFailed,
    /// The port failed to take a byte.
    OutFailed,
    /// A record at this offset has none of the forms.
    Bad(u64),
    /// The input is too long.
    Long,
}

/// Takes the signals of a port until it returns End, Bad or Long, or fails, and puts the bytes that the end sends at
/// each, all of them before the next signal is taken. `Ended`, `Bad` and `Long` are returned exactly at these signals.
/// `InFailed` is returned only if the port's count for `next` rose, and the port then holds no signal of what it took.
/// `OutFailed` is returned only if the count for `put` rose, with a first part put of what was to be sent at the last
/// signal. It takes no memory.
pub fn serve<P: Port, H: Host + Drop>(port: &mut P, end: &mut End<H>) -> Served
    ensures served { result ≢ Served.OutFailed → (signals : List OneSignal)
        × P.came port.old signals port.new × Serves H.Host end.old signals end.new (P.sent port.old) (P.sent port.new) }
    ensures stopped { IfSome (last_signal result) (λ last. P.ends_with port.new last) }
    ensures breaks_off { result ≡ Served.OutFailed → (signals : List OneSignal) × (last : OneSignal)
        × P.came port.old (signals ++ last ∷ []) port.new × BreaksOff H.Host end.old signals last end.new (P.sent port.old) (P.sent port.new) }
    ensures in_failed { result ≡ Served.InFailed → Rose (P.next_faults port.old) (P.next_faults port.new) }
    ensures dry { result ≡ Served.InFailed → P.dry port.new }
    ensures out_failed { result ≡ Served.OutFailed → Rose (P.put_faults port.old) (P.put_faults port.new) }
    ensures in_calm { result ≢ Served.InFailed → P.next_faults port.new ≡ P.next_faults port.old }
    ensures out_calm { result ≢ Served.OutFailed → P.put_faults port.new ≡ P.put_faults port.old }
{
    let mut given = ArrayVec::new();
    loop {
        match port.next() {
            Ok(Signal::End) => return Served::Ended,
            Ok(Signal::Bad(at)) => return Served::Bad(at),
            Ok(Signal::Long) => return Served::Long,
            Ok(signal) => hear(end, signal, &mut given),
            Err(Failed) => return Served::InFailed,
        }
        if port.put_all(&given).is_err() {
            return Served::OutFailed;
        }
    }
}

/// Passes to the end a signal that others may follow, and replaces `given` by the bytes that it sends at it.
fn hear<H: Host + Drop>(end: &mut End<H>, signal: Signal, given: &mut ArrayVec<u8, DRAIN>)
    requires { goes_on signal ≡ true }
    ensures { (heard : Hears H.Host end.old (signal ∷ []) end.new) × (given.new.items ≡ bytes_given H.Host end.old heard.letters) }
{
    given.clear();
    match signal {
        Signal::Byte(b) => {
            let _ = end.on_byte(b);
        }
        Signal::Tick => {
            let _ = end.on_tick(&mut ArrayVec::new());
        }
        Signal::Take => {
            if let Some(out) = end.take() {
                given.push(out.byte);
            }
        }
        Signal::Drain => drain(end, given),
        Signal::End | Signal::Bad(_) | Signal::Long => {}
    }
}

/// Takes until there is nothing to send, into an empty `given`. At most bytes there is nothing, which costs less to ask
/// than to take.
fn drain<H: Host + Drop>(end: &mut End<H>, given: &mut ArrayVec<u8, DRAIN>)
    requires { given.old.items ≡ [] }
    ensures { (heard : Hears H.Host end.old (signal_of.Drain ∷ []) end.new) × (given.new.items ≡ bytes_given H.Host end.old heard.letters) }
{
    if end.quiet() {
        return;
    }
    while let Some(out) = end.take() {
        given.push(out.byte);
    }
}
