//! The outside of an end of a link: the signals that come to it, and the bytes that it transmits.
use crate::{Failed, Signal};

/// The source of an end's signals, and the destination of its bytes.
///
/// It may report which signals it returned between two of its states, and that nothing but a last one is to come. It
/// may also report the bytes that were put.
pub trait Port {
    ghost use Rattle.std.specs.Prelude.{◌≡◌, ◌+◌, ◌≤◌, List, ℕ, [], ◌∷◌, ◌++◌, Option, IfOk, OnOk, OnErr, true};
    ghost use Rattle.std.specs.Io.KnownBytes.{Keeps};
    ghost use Rattle.df1_base.specs.Outside.{Rose, Put, WroteLess, WrotePart};
    ghost use Rattle.df1_base.specs.declared.signal.Signal.{Signal as OneSignal};
    ghost use Rattle.df1_base.specs.Signals.{Gave, goes_on};

    /// Between two states the port returned these signals, which others may follow.
    ghost came: { Self → List OneSignal → Self → Type 0 };

    /// This signal, after which none follows, is the only one to come.
    ghost ends_with: { Self → OneSignal → Type 0 };

    /// Of what the port took, no signal is left to be returned.
    ghost dry: { Self → Type 0 };

    /// The bytes that were put, if the port reports them.
    ghost sent: { Self → Option (List ℕ) };

    /// At most so many signals may still come before an End, Bad or Long.
    ghost most: { Self → ℕ };

    /// How often `next` has failed.
    ghost next_faults: { Self → ℕ };

    /// How often `put` has failed.
    ghost put_faults: { Self → ℕ };

    /// Returns the next signal, which is then no longer to come, unless it is End, Bad or Long. Returns `Failed` only
    /// if the count for `next` rose; then no signal came, and the port holds none. Otherwise the count is unchanged.
    fn next(&mut self) -> Result<Signal, Failed>
        ensures gave { IfOk result (λ signal. Gave came ends_with self.old self.new signal) }
        ensures failed { OnErr result (came self.old [] self.new) }
        ensures dry { OnErr result (dry self.new) }
        ensures sent { Keeps (sent self.old) (sent self.new) }
        ensures fewer { IfOk result (λ signal. goes_on signal ≡ true → most self.new + 1 ≤ most self.old) }
        ensures no_more { most self.new ≤ most self.old }
        ensures calm { OnOk result (next_faults self.new ≡ next_faults self.old) }
        ensures later { next_faults self.old ≤ next_faults self.new }
        ensures cause { OnErr result (Rose (next_faults self.old) (next_faults self.new)) }
        ensures other { put_faults self.new ≡ put_faults self.old };

    /// Puts a byte. Returns `Failed` only if the count for `put` rose, and then the byte was not put. Otherwise the
    /// count is unchanged.
    fn put(&mut self, b: u8) -> Result<(), Failed>
        ensures put { OnOk result (Put (sent self.old) (sent self.new) (b ∷ [])) }
        ensures failed { OnErr result (Keeps (sent self.old) (sent self.new)) }
        ensures none_came { came self.old [] self.new }
        ensures no_more { most self.new ≤ most self.old }
        ensures calm { OnOk result (put_faults self.new ≡ put_faults self.old) }
        ensures later { put_faults self.old ≤ put_faults self.new }
        ensures cause { OnErr result (Rose (put_faults self.old) (put_faults self.new)) }
        ensures other { next_faults self.new ≡ next_faults self.old };

    /// Puts all these bytes. If one can't be put, a first part of them was, and not all.
    fn put_all(&mut self, bytes: &[u8]) -> Result<(), Failed>
        ensures put { OnOk result (Put (sent self.old) (sent self.new) bytes.now) }
        ensures missing { OnErr result (WroteLess (sent self.old) (sent self.new) bytes.now) }
        ensures part { WrotePart (sent self.old) (sent self.new) bytes.now }
        ensures none_came { came self.old [] self.new }
        ensures no_more { most self.new ≤ most self.old }
        ensures calm { OnOk result (put_faults self.new ≡ put_faults self.old) }
        ensures later { put_faults self.old ≤ put_faults self.new }
        ensures cause { OnErr result (Rose (put_faults self.old) (put_faults self.new)) }
        ensures other { next_faults self.new ≡ next_faults self.old }
    {
        for byte in bytes {
            self.put(*byte)?;
        }
        Ok(())
    }

    /// If nothing happens, no signal comes.
    ghost none_came: { (p : Self) → came p [] p };

    /// Signals that came between two states, and then those up to a third, came between the first and the third.
    ghost more_came: { (p q r : Self) (first second : List OneSignal) → came p first q → came q second r → came p (first ++ second) r };
}
