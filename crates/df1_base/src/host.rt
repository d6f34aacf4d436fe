//! The host behind an end of a link: it accepts messages, hands out messages, and is informed of their fate.
//!
//! A host's meaning is functional: for a state of the host and an argument, its ghost members give the answer and the
//! next state. So an end over any host is one record beside the host, and each of its steps is one function.
use arrayvec::ArrayVec;

/// The fate of a message.
#[derive(Clone, Copy, Debug, PartialEq, Eq)]
pub enum Fate {
    /// The other end acknowledged it.
    Delivered,
    /// It was given up.
    Undelivered,
}

/// What a host did with a message that it accepted.
#[derive(Clone, Copy, Debug, PartialEq, Eq)]
pub enum Did {
    /// A command was executed.
    Executed,
    /// It is the reply to the command of this number.
    Answered(u32),
    /// A reply to no outstanding command.
    Stray,
}

/// The host's answer to a fate.
#[derive(Clone, Copy, Debug, PartialEq, Eq)]
pub enum News {
    /// Nothing to report.
    Nothing,
    /// The command of this number is undelivered.
    Undelivered(u32),
    /// A reply was given up.
    Dropped,
}

/// The host of an end.
///
/// A message is outstanding (*out*) from its hand-out until its fate is reported, and each fate is reported once. If no
/// message is outstanding, a fate changes nothing, and the answer is Nothing.
pub trait Host {
    ghost use Rattle.std.specs.Prelude.{◌≡◌, ℕ, List, Bool, true, false, Option, None, is_some, IsSome, IsTrue, IfSome, MatchOption};
    ghost use Rattle.std.specs.List.Sorted.{IsStrictlyIncreasing};
    ghost use Rattle.df1_base.specs.declared.host.Fate.{Fate};
    ghost use Rattle.df1_base.specs.declared.host.Did.{Did};
    ghost use Rattle.df1_base.specs.declared.host.News.{News};
    ghost use Rattle.df1_base.specs.declared.host.News.TheVariants.{Nothing};
    ghost use Rattle.df1_base.specs.Host.{IsBody};

    /// Whether there is room for a body.
    ghost room_for: { Self → List ℕ → Bool };

    /// What the host does with an accepted body, and the host after it.
    ghost did: { Self → List ℕ → Did };

    ghost after_accept: { Self → List ℕ → Self };

    /// The message that is handed out next, if one is, and the host after that.
    ghost next_body: { Self → Option (List ℕ) };

    ghost after_next: { Self → Self };

    /// Whether a message was handed out whose fate has not been reported.
    ghost is_out: { Self → Bool };

    /// The host's answer to the fate of the outstanding message, and the host after it.
    ghost news: { Self → Fate → News };

    ghost after_told: { Self → Fate → Self };

    /// The commands that are unanswered from a tick on, in rising order, and the host after the tick.
    ghost unanswered: { Self → List ℕ };

    ghost after_tick: { Self → Self };

    /// The host after it dropped what waits.
    ghost after_clear: { Self → Self };

    /// Each message that may be handed out has 6 to 250 bytes. This holds of every host that code can have.
    ghost holds_bodies: { Self → Type 0 };

    /// Returns whether there is room for a body of 6 to 250 bytes.
    fn has_room(&self, body: &[u8]) -> bool
        requires { IsBody body.now }
        ensures { result ≡ room_for self.now body.now };

    /// Takes a body of 6 to 250 bytes for which there is room, and returns what it did with it.
    fn accept(&mut self, body: &[u8]) -> Did
        requires body { IsBody body.now }
        requires room { IsTrue (room_for self.old body.now) }
        ensures did { result ≡ did self.old body.now }
        ensures after { self.new ≡ after_accept self.old body.now };

    /// Returns whether a message waits to be handed out. Such a message has 6 to 250 bytes.
    fn ready(&self) -> bool
        ensures ready { result ≡ is_some (next_body self.now) }
        ensures fits { IfSome (next_body self.now) IsBody }
        ensures holds { holds_bodies self.now };

    /// Hands out the next message, each message once. Returns true exactly if the host was ready, and then `into` is
    /// replaced by a body of 6 to 250 bytes. Otherwise nothing changes.
    fn next(&mut self, into: &mut ArrayVec<u8, 250>) -> bool
        ensures ready { result ≡ is_some (next_body self.old) }
        ensures body { MatchOption (next_body self.old) (into.new.items ≡ into.old.items) (λ body. into.new.items ≡ body) }
        ensures fits { IfSome (next_body self.old) IsBody }
        ensures after { self.new ≡ after_next self.old };

    /// Reports to the host the fate of the message that was handed out last. If there is no such message, or its fate
    /// was reported before, returns Nothing and changes nothing.
    fn told(&mut self, fate: Fate) -> News
        ensures news { result ≡ news self.old fate }
        ensures after { self.new ≡ after_told self.old fate };

    /// Lets a unit of time pass. `gone` is replaced by the commands that are unanswered from this tick on, in rising
    /// order.
    fn tick(&mut self, gone: &mut ArrayVec<u32, 16>)
        ensures gone { gone.new.items ≡ unanswered self.old }
        ensures after { self.new ≡ after_tick self.old };

    /// Drops every message that waits and wasn't handed out, replies and commands alike.
    fn clear(&mut self)
        ensures { self.new ≡ after_clear self.old };

    /// If no message waits, a hand-out changes nothing.
    ghost next_of_none: { (h : Self) → next_body h ≡ None → after_next h ≡ h };

    /// A message that is handed out is outstanding.
    ghost out_at_next: { (h : Self) → IsSome (next_body h) → is_out (after_next h) ≡ true };

    /// If no message is outstanding, a fate is answered by Nothing and changes nothing.
    ghost told_of_none: { (h : Self) (fate : Fate) → is_out h ≡ false → (news h fate ≡ Nothing) × (after_told h fate ≡ h) };

    /// A message whose fate was reported is not outstanding.
    ghost out_at_told: { (h : Self) (fate : Fate) → is_out (after_told h fate) ≡ false };

    /// Accepting a message, a tick and a clearing do not change whether a message is outstanding.
    ghost out_at_accept: { (h : Self) (body : List ℕ) → is_out (after_accept h body) ≡ is_out h };

    ghost out_at_tick: { (h : Self) → is_out (after_tick h) ≡ is_out h };

    ghost out_at_clear: { (h : Self) → is_out (after_clear h) ≡ is_out h };

    /// The unanswered commands are reported in rising order.
    ghost unanswered_rise: { (h : Self) → IsStrictlyIncreasing (unanswered h) };

    /// No message waits after a clearing.
    ghost none_at_clear: { (h : Self) → next_body (after_clear h) ≡ None };

    /// A message that is handed out is a body, and those that may be handed out stay such.
    ghost body_at_next: { (h : Self) → holds_bodies h → IfSome (next_body h) IsBody };

    ghost bodies_at_accept: { (h : Self) (body : List ℕ) → holds_bodies h → IsBody body → IsTrue (room_for h body) → holds_bodies (after_accept h body) };

    ghost bodies_at_next: { (h : Self) → holds_bodies h → holds_bodies (after_next h) };

    ghost bodies_at_told: { (h : Self) (fate : Fate) → holds_bodies h → holds_bodies (after_told h fate) };

    ghost bodies_at_tick: { (h : Self) → holds_bodies h → holds_bodies (after_tick h) };

    ghost bodies_at_clear: { (h : Self) → holds_bodies h → holds_bodies (after_clear h) };
}
