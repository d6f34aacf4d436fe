//! What holds of a master over every list of signals. The functions do nothing.

ghost use Rattle.std.specs.Prelude.{◌≡◌, ◌≤◌, ◌<◌, ◌+◌, ◌-◌, ◌^◌, ◌↔◌, ◌⊎◌, ◌∷◌, ◌++◌, [], ℕ, List, length, true, false, Some, None, is_some, option_to_list, IsNone, IsSome};
ghost use Rattle.std.specs.List.{fold};
ghost use Rattle.df1_base.specs.declared.host.Fate.TheVariants.{Delivered, Undelivered};
ghost use Rattle.df1_base.specs.declared.link.Out.{Out as Given};
ghost use Rattle.df1_check.specs.declared.Check.{Check as CheckKind};
ghost use Rattle.half_frame.specs.MasterGives.{IsGivenByMaster};
ghost use Rattle.half_mouth.specs.Giving.{is_done};
ghost use Rattle.df1_frame.specs.Wire.{AreSendingsOf};
ghost use Rattle.half_mouth.specs.Transmissions.{bytes_given, count_of, counted_to, last_body, numbers_ended, transmission_at};
ghost use Rattle.pccc_envelope.specs.Accepted.{kept_after, last_key, with_offer};
ghost use Rattle.half_master.specs.declared.MasterSetup.{MasterSetup as Settings};
ghost use Rattle.half_master.specs.Stations.{AreStations, numbers_of};
ghost use Rattle.half_master.specs.Master.{MasterState, new_master, with_host, heard_at, step_at_byte, master_after_take, out_at_take};
ghost use Rattle.half_master.specs.Fitting.{Fits, most_left};
ghost use Rattle.half_master.specs.Reached.{Reached};
ghost use Rattle.half_master.specs.Fates.{InTurn, events, events_at, out_of, IsWithin};
ghost use Rattle.half_master.specs.Course.{fate_at, fates_in, IsDelivered, IsGivenUp};
ghost use Rattle.half_master.specs.Past.{Past, HasTicks, Came, with_signal, handed_out, transmissions};
ghost use Rattle.half_master.specs.Transmissions.{begun_after, sending_after};
ghost use Rattle.half_master.specs.Waits.{HasAllTicks};
ghost use Rattle.half_master.specs.Keys.{kept_at, is_polled, offers, handed_over};
ghost use Rattle.half_master.specs.Arrived.{Arrival, StandsFor, Hears, HeardByGrammar, bytes_arrived};
ghost use Rattle.half_master.specs.Emission.{Letter, Take, master_after, given_at, master_after_all, emission, bytes_among, takes, Drains};

use df1_base::Host;

/// The master and what it has sent go on signal by signal.
pub fn signals_go_on<H: Host>()
    ensures master { (e : MasterState H) (before : List Letter) (signal : Letter) → master_after_all H.Host e (before ++ signal ∷ []) ≡ master_after H.Host (master_after_all H.Host e before) signal }
    ensures given { (e : MasterState H) (before : List Letter) (signal : Letter) → emission H.Host e (before ++ signal ∷ []) ≡ emission H.Host e before ++ given_at H.Host (master_after_all H.Host e before) signal }
{}

/// What a master decodes at a byte that arrives (a message, a response or nothing) is what the grammar of the line,
/// over all bytes that arrived so far, decodes at the last of them. A whole message is reported exactly there. A master
/// stands for what arrived since it was new, over every signal, and a change of the host changes nothing of this.
pub fn arrivals_are_heard<H: Host>()
    ensures none { (check : CheckKind) → HeardByGrammar check [] }
    ensures more { (check : CheckKind) (arrivals : List Arrival) (e : MasterState H) (b : ℕ) → StandsFor check (bytes_arrived arrivals) e → HeardByGrammar check arrivals
        → HeardByGrammar check (arrivals ++ record { byte = b; whole = (step_at_byte H.Host e b).whole } ∷ []) }
    ensures hears { (check : CheckKind) (bytes : List ℕ) (e : MasterState H) (b : ℕ) → StandsFor check bytes e → Hears check (bytes ++ b ∷ []) (heard_at e b) }
    ensures start { (setup : Settings) (numbers : List ℕ) (host : H) → StandsFor setup.check [] (new_master setup numbers host) }
    ensures goes_on { (check : CheckKind) (bytes : List ℕ) (e : MasterState H) (signal : Letter) → StandsFor check bytes e → StandsFor check (bytes ++ bytes_among (signal ∷ [])) (master_after H.Host e signal) }
    ensures changes { (check : CheckKind) (bytes : List ℕ) (e : MasterState H) (host : H) → StandsFor check bytes e → StandsFor check bytes (with_host e host) }
{}

/// A message is handed out only while none is outstanding. It is sent once, and again at most `max_resends` times,
/// until its fate is reported, once: Delivered, or Undelivered exactly after all these times. One for no station is
/// reported Undelivered where it is handed out. If the host and the master agree on whether a message is outstanding,
/// as at a new master over a host with none outstanding, they do so after every signal. So each fate is reported of a
/// message that is outstanding.
pub fn a_fate_is_told_once<H: Host>()
    ensures in_turn { (e : MasterState H) (signals : List Letter) → IsWithin e.setup.max_resends e.phase → InTurn e.setup.max_resends (out_of e.phase) (events H.Host e signals) }
    ensures start { (setup : Settings) (numbers : List ℕ) (host : H) → IsWithin setup.max_resends (new_master setup numbers host).phase × (out_of (new_master setup numbers host).phase ≡ None) }
    ensures goes_on { (e : MasterState H) (signal : Letter) → IsWithin e.setup.max_resends e.phase → IsWithin (master_after H.Host e signal).setup.max_resends (master_after H.Host e signal).phase }
    ensures agree { (e : MasterState H) (signals : List Letter) → IsWithin e.setup.max_resends e.phase → H.Host.is_out e.host ≡ is_some (out_of e.phase)
        → H.Host.is_out (master_after_all H.Host e signals).host ≡ is_some (out_of (master_after_all H.Host e signals).phase) }
{}

/// A fate is reported in exactly these cases:
///
/// - Delivered at an ACK, while the outstanding message waits for one;
/// - Undelivered at a NAK while it waits, and at the last tick of the wait, if it was sent once and `max_resends` times
///   again;
/// - Undelivered where a message is handed out for no station of the list.
///
/// Whether it waits, and how often it was sent, is read off what was received, the ticks and the last bytes of
/// transmissions since the fate that was reported before, also if the host was changed.
pub fn fates_are_told_exactly_so<H: Host>()
    ensures delivered { (past : Past) (e : MasterState H) (signal : Letter) → Came H.Host past e → (fate_at H.Host e signal ≡ Some Delivered) ↔ IsDelivered e past.course signal }
    ensures given_up { (past : Past) (e : MasterState H) (signal : Letter) → Came H.Host past e → (fate_at H.Host e signal ≡ Some Undelivered) ↔ IsGivenUp H.Host e past.course signal }
    ensures told { (e : MasterState H) (signal : Letter) → fates_in (events_at H.Host e signal) ≡ option_to_list (fate_at H.Host e signal) }
{}

/// A message that is sent, for the first time or again, is one transmission more, and nothing else is: no poll and no
/// ACK. What is sent is the body of the transmission that was started last. Marked with the number of a transmission
/// are its last byte and the one-byte units of its body: until the count of transmissions stops at the last value of
/// u64, such a byte is sent while the body of the transmission of that number is. Last bytes are sent with the numbers
/// 1, 2, 3 and so on, up to that of the last transmission or the one before. Each message to a station that the host
/// handed out is transmitted, in order, once or several times in a row.
pub fn transmissions_are_counted<H: Host>()
    ensures begun { (e : MasterState H) (signals : List Letter) → (master_after_all H.Host e signals).mouth.begun ≡ begun_after e.mouth.begun (events H.Host e signals) }
    ensures sending { (e : MasterState H) (signals : List Letter) → (master_after_all H.Host e signals).sending ≡ sending_after e.sending (events H.Host e signals) }
    ensures count { (past : Past) (e : MasterState H) → Came H.Host past e → e.mouth.begun ≡ count_of (transmissions past.events) }
    ensures last { (past : Past) (e : MasterState H) → Came H.Host past e → e.sending ≡ last_body (transmissions past.events) }
    ensures numbered { (past : Past) (e : MasterState H) (out : Given) (n : ℕ) → Came H.Host past e → out_at_take H.Host e ≡ Some out → (out.last_of ≡ Some n) ⊎ (out.body_of ≡ Some n)
        → length (transmissions (with_signal H.Host past e Take).events) < 2 ^ 64 → transmission_at (transmissions (with_signal H.Host past e Take).events) n ≡ Some (master_after_take H.Host e).sending }
    ensures ended { (past : Past) (e : MasterState H) → Came H.Host past e → length (transmissions past.events) < 2 ^ 64
        → (numbers_ended past.gave ≡ counted_to (length (transmissions past.events))) ⊎ (numbers_ended past.gave ≡ counted_to (length (transmissions past.events) - 1)) }
    ensures running { (past : Past) (e : MasterState H) → Came H.Host past e → AreSendingsOf (transmissions past.events) (handed_out past.events) }
{}

/// What a master sent, whatever it received and also if its host was changed, is whole messages of its transmissions,
/// in order, polls and ACKs, and at the end perhaps a part of one of these. Each message has a right check and goes to
/// the station that its first byte names, and each poll has a right check. A slave decodes nothing else in it. What
/// happened and was sent over the signals of a new master is such a past.
pub fn what_is_given_is_df1<H: Host>()
    ensures wire { (past : Past) (e : MasterState H) → Came H.Host past e → IsGivenByMaster e.setup.check (handed_out past.events) (bytes_given past.gave) }
    ensures signals { (setup : Settings) (numbers : List ℕ) (host : H) (signals : List Letter) → HasTicks setup → AreStations numbers → H.Host.holds_bodies host
        → (past : Past) × (past.events ≡ events H.Host (new_master setup numbers host) signals) × (past.gave ≡ emission H.Host (new_master setup numbers host) signals) × Came H.Host past (master_after_all H.Host (new_master setup numbers host) signals) }
{}

/// Each station has its own filter: the key that is kept for the station at a place is the one that a filter keeps over
/// the messages of this station alone, each received after a poll of it. Of these messages the host is handed those
/// that are accepted, each once. A repeat of the last accepted one is not handed over, one that was refused is not
/// remembered, and a message is accepted from a polled station alone. The numbers of the list are unchanged.
pub fn each_station_has_its_own_key<H: Host>()
    ensures kept { (e : MasterState H) (place : ℕ) (signals : List Letter) → kept_at (master_after_all H.Host e signals).stations place ≡ fold kept_after (kept_at e.stations place) (offers H.Host e place signals) }
    ensures start { (setup : Settings) (numbers : List ℕ) (host : H) (place : ℕ) → kept_at (new_master setup numbers host).stations place ≡ last_key [] }
    ensures handed { (e : MasterState H) (place : ℕ) (before : List (List ℕ)) (signals : List Letter) → kept_at e.stations place ≡ last_key before → before ++ handed_over H.Host e place signals ≡ fold with_offer before (offers H.Host e place signals) }
    ensures key { (e : MasterState H) (place : ℕ) (before : List (List ℕ)) (signals : List Letter) → kept_at e.stations place ≡ last_key before
        → kept_at (master_after_all H.Host e signals).stations place ≡ last_key (before ++ handed_over H.Host e place signals) }
    ensures polled { (e : MasterState H) (b : ℕ) → IsSome (step_at_byte H.Host e b).did → (place : ℕ) × (is_polled e.phase place ≡ true) }
    ensures numbers { (e : MasterState H) (signal : Letter) → numbers_of (master_after H.Host e signal).stations ≡ numbers_of e.stations }
{}

/// In every reachable master, the stations are such as a list may have, and the one that is polled next and the one
/// that was polled have their places in it. A message that waits for its ACK is one to a station, and the host holds
/// bodies.
pub fn parts_fit<H: Host>()
    ensures fits { (e : MasterState H) → Reached H.Host e → Fits e.stations e.next e.phase e.mouth e.sending }
    ensures holds { (e : MasterState H) → Reached H.Host e → H.Host.holds_bodies e.host }
{}

/// In every reachable master, as long as a byte is left to be sent, the wait that follows has all its ticks.
pub fn a_wait_begins_with_all_ticks<H: Host>()
    ensures { (e : MasterState H) → Reached H.Host e → is_done e.mouth ≡ false → HasAllTicks e.setup e.phase }
{}

/// In every reachable master, a take that returns a byte leaves fewer to be sent, of at most 511. Takes until one
/// returns nothing return at most 511 bytes, lead to one end, and leave no byte to be sent.
pub fn a_drain_ends<H: Host>()
    ensures fewer { (e : MasterState H) → Reached H.Host e → IsSome (out_at_take H.Host e) → most_left H.Host (master_after_take H.Host e) + 1 ≤ most_left H.Host e }
    ensures most { (e : MasterState H) → Reached H.Host e → most_left H.Host e ≤ 511 }
    ensures drains { (e : MasterState H) → Reached H.Host e → (outs : List Given) × (last : MasterState H) × Drains H.Host e outs last × (length outs ≤ 511) }
    ensures only { (e last other : MasterState H) (outs others : List Given) → Drains H.Host e outs last → Drains H.Host e others other → (outs ≡ others) × (last ≡ other) }
    ensures drained { (e last : MasterState H) (outs : List Given) → Drains H.Host e outs last → is_done last.mouth ≡ true }
    ensures by_takes { (e last : MasterState H) (outs : List Given) → Drains H.Host e outs last
        → (master_after_all H.Host e (Take ∷ takes (length outs)) ≡ last) × (emission H.Host e (Take ∷ takes (length outs)) ≡ outs) }
{}
