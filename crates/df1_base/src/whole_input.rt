//! What holds of a port over a source that reports its bytes. The function does nothing.
ghost use Rattle.std.specs.Prelude.{◌≡◌, ◌∷◌, ◌++◌, [], Bool, List, Some, false, ℕ};
ghost use Rattle.df1_base.specs.Feed.{Came, Feed, EndsWith, signals_to_come};
ghost use Rattle.df1_base.specs.Signals.{input_signals};
ghost use Rattle.df1_base.specs.declared.signal.Signal.{Signal as OneSignal};

use crate::{Sink, Source};

/// The signals that a port over a source returns before it stops, and the one at which it stops, are those of all the
/// bytes that the source reports. For a new port, they are those of the whole input.
pub fn an_input_gives_its_signals<S: Source, K: Sink>()
    ensures begins { (source : S) (sink : K) (timed : Bool) (bytes : List ℕ)
        → signals_to_come (record { source = source; sink = sink; timed = timed; used = 0; waiting = []; drains = false }) bytes ≡ input_signals timed 0 bytes }
    ensures stops { (begun ended : Feed S K) (bytes : List ℕ) (signals : List OneSignal) (last : OneSignal)
        → S.left begun.source ≡ Some bytes → Came S.left begun signals ended → EndsWith S.left ended last
        → signals_to_come begun bytes ≡ signals ++ last ∷ [] }
{}
