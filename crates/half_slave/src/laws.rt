//! What holds of a slave over every list of signals. The functions do nothing.

ghost use Rattle.std.specs.Prelude.{◌≡◌, ◌≤◌, ◌<◌, ◌+◌, ◌-◌, ◌^◌, ◌↔◌, ◌⊎◌, ◌∷◌, ◌++◌, [], ℕ, List, Bool, length, true, false, is_some, ◌&&◌, Some, IsNone, IsSome};
ghost use Rattle.std.specs.List.{fold};
ghost use Rattle.df1_base.specs.declared.host.Fate.TheVariants.{Delivered, Undelivered};
ghost use Rattle.df1_base.specs.declared.link.Out.{Out as Given};
ghost use Rattle.df1_check.specs.declared.Check.{Check as CheckKind};
ghost use Rattle.half_frame.specs.declared.heard.SlaveHeard.TheVariants.{Ack};
ghost use Rattle.pccc_envelope.specs.Accepted.{last_key, with_offer};
ghost use Rattle.half_slave.specs.declared.SlaveSetup.{SlaveSetup as Settings};
ghost use Rattle.half_slave.specs.Slave.{SlaveState, new_slave, with_host, is_quiet, heard_at, listened, fate_at, slave_after_byte, step_at_byte, slave_after_take, out_at_take, left_to_give};
ghost use Rattle.half_slave.specs.Arrived.{Arrival, StandsFor, Hears, HeardByGrammar, bytes_arrived};
ghost use Rattle.half_slave.specs.Emission.{Letter, slave_after, given_at, slave_after_all, emission, bytes_among, takes, Drains};
ghost use Rattle.half_slave.specs.Fates.{Counted, InTurn, IsGivenUp, events, sendings_begun};
ghost use Rattle.half_slave.specs.Wait.{since_sending, is_waiting};
ghost use Rattle.half_slave.specs.Received.{offers, handed_over};
ghost use Rattle.half_slave.specs.Reached.{Reached, Fits};
ghost use Rattle.half_slave.specs.Past.{Past, Came, handed_out, transmissions};
ghost use Rattle.df1_frame.specs.Wire.{AreSendingsOf};
ghost use Rattle.half_mouth.specs.Transmissions.{bytes_given, count_of, counted_to, last_body, numbers_ended, transmission_at};
ghost use Rattle.half_frame.specs.SlaveGives.{IsGivenBySlave};

use df1_base::Host;

/// The slave and what it has sent go on signal by signal.
pub fn signals_go_on<H: Host>()
    ensures slave { (s : SlaveState H) (before : List Letter) (signal : Letter) → slave_after_all H.Host s (before ++ signal ∷ []) ≡ slave_after H.Host (slave_after_all H.Host s before) signal }
    ensures given { (s : SlaveState H) (before : List Letter) (signal : Letter) → emission H.Host s (before ++ signal ∷ []) ≡ emission H.Host s before ++ given_at (slave_after_all H.Host s before) signal }
{}

/// What a slave decodes at a byte that arrives (a message, a poll, a response or nothing) is what the grammar of the
/// master's bytes, over all bytes that arrived so far, decodes at the last of them. A whole message is reported exactly
/// there. A slave stands for what arrived since it was new, over every signal, and a change of the host changes nothing
/// of this.
pub fn arrivals_are_heard<H: Host>()
    ensures none { (check : CheckKind) → HeardByGrammar check [] }
    ensures more { (check : CheckKind) (arrivals : List Arrival) (s : SlaveState H) (b : ℕ) → StandsFor check (bytes_arrived arrivals) s → HeardByGrammar check arrivals
        → HeardByGrammar check (arrivals ++ record { byte = b; whole = (step_at_byte H.Host s b).whole; station = (step_at_byte H.Host s b).station } ∷ []) }
    ensures hears { (check : CheckKind) (bytes : List ℕ) (s : SlaveState H) (b : ℕ) → StandsFor check bytes s → Hears check (bytes ++ b ∷ []) (heard_at s b) }
    ensures start { (setup : Settings) (host : H) → StandsFor setup.check [] (new_slave setup host) }
    ensures goes_on { (check : CheckKind) (bytes : List ℕ) (s : SlaveState H) (signal : Letter) → StandsFor check bytes s → StandsFor check (bytes ++ bytes_among (signal ∷ [])) (slave_after H.Host s signal) }
    ensures changes { (check : CheckKind) (bytes : List ℕ) (s : SlaveState H) (host : H) → StandsFor check bytes s → StandsFor check bytes (with_host s host) }
{}

/// Of the messages to its station a slave hands over those that are accepted, each once. A repeat of the last accepted
/// one is not handed over, and one that was refused is not remembered. The slave keeps the key of the last accepted
/// one.
pub fn messages_are_accepted_once<H: Host>()
    ensures start { (setup : Settings) (host : H) → (new_slave setup host).kept ≡ last_key [] }
    ensures handed { (s : SlaveState H) (before : List (List ℕ)) (signals : List Letter) → s.kept ≡ last_key before → before ++ handed_over H.Host s signals ≡ fold with_offer before (offers H.Host s signals) }
    ensures kept { (s : SlaveState H) (before : List (List ℕ)) (signals : List Letter) → s.kept ≡ last_key before → (slave_after_all H.Host s signals).kept ≡ last_key (before ++ handed_over H.Host s signals) }
{}

/// A message is handed out after the fate of the one before was reported, and it is sent at most `max_sends` times. Its
/// own fate is reported once, after that: undelivered exactly at a poll that is answered, if it was sent `max_sends`
/// times, and at a reset. If the host and the slave agree on whether a message is outstanding, as at a new slave over a
/// host with none outstanding, they do so after every signal. So each fate is reported of a message that is
/// outstanding.
pub fn a_fate_is_told_once<H: Host>()
    ensures start { (setup : Settings) (host : H) → 1 ≤ setup.max_sends → setup.max_sends < 2 ^ 32 → Counted (new_slave setup host) }
    ensures goes_on { (s : SlaveState H) (signal : Letter) → Counted s → Counted (slave_after H.Host s signal) }
    ensures changes { (s : SlaveState H) (host : H) → Counted s → Counted (with_host s host) }
    ensures gives_up { (s : SlaveState H) (b : ℕ) → (fate_at (listened s b) (heard_at s b) ≡ Some Undelivered) ↔ IsGivenUp s (heard_at s b) }
    ensures in_turn { (s : SlaveState H) (signals : List Letter) → Counted s → InTurn s.setup.max_sends (sendings_begun s) (events H.Host s signals) }
    ensures agree { (s : SlaveState H) (signals : List Letter) → H.Host.is_out s.host ≡ is_some s.held
        → H.Host.is_out (slave_after_all H.Host s signals).host ≡ is_some (slave_after_all H.Host s signals).held }
{}

/// An ACK counts exactly while a message is held, the last byte of its last sending was taken, and no header and no
/// poll was received since. A header or poll that was received during that sending makes no difference.
pub fn an_ack_counts_in_the_wait<H: Host>()
    ensures delivers { (s : SlaveState H) (b : ℕ) → (fate_at (listened s b) (heard_at s b) ≡ Some Delivered) ↔ ((heard_at s b ≡ Some Ack) × (is_waiting s.held ≡ true)) }
    ensures start { (setup : Settings) (host : H) → is_waiting (new_slave setup host).held ≡ (is_some (new_slave setup host).held && false) }
    ensures waits { (s : SlaveState H) (before : Bool) (signals : List Letter) → is_waiting s.held ≡ (is_some s.held && before)
        → is_waiting (slave_after_all H.Host s signals).held ≡ (is_some (slave_after_all H.Host s signals).held && since_sending H.Host before s signals) }
{}

/// Bytes that were started, and a response that waits, are sent before a poll starts anything: while something is to be
/// sent, no received byte changes what is being sent.
pub fn what_was_begun_is_given<H: Host>()
    ensures { (s : SlaveState H) (b : ℕ) → is_quiet s ≡ false → (slave_after_byte H.Host s b).mouth ≡ s.mouth }
{}

/// Transmissions are numbered from 1 in the order in which they start, by a count that stops at the last value of u64.
/// What is sent is the body of the one that was started last, also when its fate is reported meanwhile. Marked with the
/// number of a transmission are its last byte and the one-byte units of its body: until the count stops, such a byte is
/// sent while the body of the transmission of that number is. Last bytes are sent with the numbers 1, 2, 3 and so on,
/// up to that of the last transmission or the one before. Each message that the host handed out is transmitted, in
/// order, once or several times in a row.
pub fn transmissions_are_counted<H: Host>()
    ensures begun { (past : Past) (s : SlaveState H) → Came H.Host past s → s.mouth.begun ≡ count_of (transmissions past.events) }
    ensures sending { (past : Past) (s : SlaveState H) → Came H.Host past s → s.sending ≡ last_body (transmissions past.events) }
    ensures numbered { (past : Past) (s : SlaveState H) (out : Given) (n : ℕ) → Came H.Host past s → out_at_take s ≡ Some out → (out.last_of ≡ Some n) ⊎ (out.body_of ≡ Some n)
        → length (transmissions past.events) < 2 ^ 64 → transmission_at (transmissions past.events) n ≡ Some (slave_after_take s).sending }
    ensures ended { (past : Past) (s : SlaveState H) → Came H.Host past s → length (transmissions past.events) < 2 ^ 64
        → (numbers_ended past.gave ≡ counted_to (length (transmissions past.events))) ⊎ (numbers_ended past.gave ≡ counted_to (length (transmissions past.events) - 1)) }
    ensures running { (past : Past) (s : SlaveState H) → Came H.Host past s → AreSendingsOf (transmissions past.events) (handed_out past.events) }
{}

/// What a slave sent, whatever it received, and also if its host was changed: whole messages of its transmissions, in
/// order, each with a right check, and ACKs, NAKs and EOTs. At the end there may be a part of one of these. The master
/// decodes nothing else in it. What happened and was sent over the signals of a new slave is such a past.
pub fn what_is_given_is_df1<H: Host>()
    ensures wire { (past : Past) (s : SlaveState H) → Came H.Host past s → IsGivenBySlave s.setup.check (handed_out past.events) (bytes_given past.gave) }
    ensures signals { (setup : Settings) (host : H) (signals : List Letter) → H.Host.holds_bodies host
        → Came H.Host (record { events = events H.Host (new_slave setup host) signals; gave = emission H.Host (new_slave setup host) signals }) (slave_after_all H.Host (new_slave setup host) signals) }
{}

/// In every reachable slave, what is being sent is short, a message that is held is a body, and the host holds bodies.
pub fn what_is_held_fits<H: Host>()
    ensures { (s : SlaveState H) → Reached H.Host s → Fits H.Host s }
{}

/// A take returns a byte exactly if something is to be sent, and then leaves one fewer; otherwise it changes nothing.
/// Takes until one returns nothing return as many bytes as are left, lead to one slave, and leave nothing to be sent,
/// however many more takes follow. In every reachable slave at most 511 bytes are left.
pub fn a_drain_ends<H: Host>()
    ensures quiet { (s : SlaveState H) → IsNone (out_at_take s) → (is_quiet s ≡ true) × (slave_after_take s ≡ s) }
    ensures fewer { (s : SlaveState H) → IsSome (out_at_take s) → left_to_give (slave_after_take s) + 1 ≡ left_to_give s }
    ensures most { (s : SlaveState H) → Reached H.Host s → left_to_give s ≤ 511 }
    ensures drains { (s : SlaveState H) → (outs : List Given) × (last : SlaveState H) × Drains s outs last × (length outs ≡ left_to_give s) }
    ensures only { (s last other : SlaveState H) (outs others : List Given) → Drains s outs last → Drains s others other → (outs ≡ others) × (last ≡ other) }
    ensures drained { (s last : SlaveState H) (outs : List Given) → Drains s outs last → is_quiet last ≡ true }
    ensures by_takes { (s last : SlaveState H) (outs : List Given) (n : ℕ) → Drains s outs last → length outs ≤ n → (slave_after_all H.Host s (takes n) ≡ last) × (emission H.Host s (takes n) ≡ outs) }
{}
