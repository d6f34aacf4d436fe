//! What holds of an end over every list of signals. The functions do nothing.

ghost use Rattle.std.specs.Prelude.{◌≡◌, ◌≤◌, ◌+◌, ◌∷◌, ◌++◌, [], ℕ, List, length, false, None, IsNone, IsSome};
ghost use Rattle.std.specs.List.{fold};
ghost use Rattle.df1_base.specs.declared.link.Out.{Out as Given};
ghost use Rattle.df1_check.specs.declared.Check.{Check as CheckKind};
ghost use Rattle.df1_frame.specs.Wire.{IsDf1};
ghost use Rattle.duplex_receiver.specs.Hearing.{Stands};
ghost use Rattle.duplex_receiver.specs.Receiver.{response_after, last_response};
ghost use Rattle.duplex_end.specs.declared.Setup.{Setup as Settings};
ghost use Rattle.duplex_end.specs.End.{EndState, new_end, with_host, step_at_byte, next_place, end_after_take, out_at_take};
ghost use Rattle.duplex_end.specs.Joined.{Joined, IsShort, most_left};
ghost use Rattle.duplex_end.specs.Reached.{Reached, BodiesFit};
ghost use Rattle.duplex_end.specs.Fates.{InTurn, events, has_message};
ghost use Rattle.duplex_end.specs.Arrived.{Arrival, StandsFor, HeardByGrammar, bytes_arrived};
ghost use Rattle.duplex_end.specs.Moves.{Move, end_after_moves, HoldBodies, bytes_come, hearings_over, bytes_given, messages_over};
ghost use Rattle.duplex_end.specs.Emission.{Letter, Take, end_after, given_at, end_after_all, emission, bytes_among, hearings, acts, takes, Drains};

use df1_base::Host;

/// The end and what it has sent go on signal by signal.
pub fn signals_go_on<H: Host>()
    ensures end { (e : EndState H) (before : List Letter) (signal : Letter) → end_after_all H.Host e (before ++ signal ∷ []) ≡ end_after H.Host (end_after_all H.Host e before) signal }
    ensures given { (e : EndState H) (before : List Letter) (signal : Letter) → emission H.Host e (before ++ signal ∷ []) ≡ emission H.Host e before ++ given_at H.Host (end_after_all H.Host e before) signal }
{}

/// What an end has decoded is what the grammar of the line decodes in all its bytes, whatever ticks and takes came
/// between, and however its host was changed.
pub fn hears_what_the_grammar_hears<H: Host>()
    ensures signals { (setup : Settings) (host : H) (signals : List Letter)
        → Stands setup.check 250 (bytes_among signals) (hearings H.Host (new_end setup host) signals) (end_after_all H.Host (new_end setup host) signals).receiver }
    ensures moves { (setup : Settings) (host : H) (moves : List (Move H))
        → Stands setup.check 250 (bytes_come moves) (hearings_over H.Host (new_end setup host) moves) (end_after_moves H.Host (new_end setup host) moves).receiver }
{}

/// What an end sends, over signals and changes of its host, is whole frames, responses and ENQs, with perhaps the
/// beginning of one more at the end, and nothing else. Its frames carry the messages that the host handed out, in their
/// order, each perhaps several times in a row (manual topic: full-duplex protocol).
pub fn what_is_given_is_df1<H: Host>()
    ensures { (setup : Settings) (host : H) (moves : List (Move H)) → H.Host.holds_bodies host → HoldBodies H.Host moves
        → IsDf1 setup.check (messages_over H.Host (new_end setup host) moves) (bytes_given H.Host (new_end setup host) moves) }
{}

/// At each byte that arrives at an end a whole frame is received exactly if the grammar of the line, over all bytes
/// that arrived so far, decodes one at its last. An end stands for what arrived since it was new, over every signal,
/// and a change of the host changes nothing of this.
pub fn arrivals_are_heard<H: Host>()
    ensures none { (check : CheckKind) → HeardByGrammar check [] }
    ensures more { (check : CheckKind) (arrivals : List Arrival) (e : EndState H) (b : ℕ) → StandsFor check (bytes_arrived arrivals) e → HeardByGrammar check arrivals
        → HeardByGrammar check (arrivals ++ record { byte = b; whole = (step_at_byte H.Host e b).whole } ∷ []) }
    ensures start { (setup : Settings) (host : H) → StandsFor setup.check [] (new_end setup host) }
    ensures goes_on { (check : CheckKind) (bytes : List ℕ) (e : EndState H) (signal : Letter) → StandsFor check bytes e → StandsFor check (bytes ++ bytes_among (signal ∷ [])) (end_after H.Host e signal) }
    ensures changes { (check : CheckKind) (bytes : List ℕ) (e : EndState H) (host : H) → StandsFor check bytes e → StandsFor check bytes (with_host e host) }
{}

/// The last response of an end is the last that an act offered or set, NAK before any.
pub fn last_response_is_by_the_acts<H: Host>()
    ensures start { (setup : Settings) (host : H) (signals : List Letter) → (end_after_all H.Host (new_end setup host) signals).mouth.last ≡ last_response (acts H.Host (new_end setup host) signals) }
    ensures goes_on { (e : EndState H) (signals : List Letter) → (end_after_all H.Host e signals).mouth.last ≡ fold response_after e.mouth.last (acts H.Host e signals) }
{}

/// A message is handed out after the fate of the one before was reported, and its own fate is reported once, after
/// that. If the host and the sender agree on whether a message is outstanding, as at a new end over a host with none
/// outstanding, they do so after every signal. So each fate is reported of a message that is outstanding.
pub fn a_fate_is_told_once<H: Host>()
    ensures in_turn { (e : EndState H) (signals : List Letter) → InTurn (has_message e.sender) (events H.Host e signals) }
    ensures start { (setup : Settings) (host : H) → has_message (new_end setup host).sender ≡ false }
    ensures agree { (e : EndState H) (signals : List Letter) → H.Host.is_out e.host ≡ has_message e.sender
        → H.Host.is_out (end_after_all H.Host e signals).host ≡ has_message (end_after_all H.Host e signals).sender }
{}

/// In every reachable end, a frame that is started is the sender's, and short, and what is sent or handed out fits.
pub fn parts_stay_joined<H: Host>()
    ensures joined { (e : EndState H) → Reached H.Host e → Joined e.mouth e.sender }
    ensures short { (e : EndState H) → Reached H.Host e → IsShort e.mouth }
    ensures fits { (e : EndState H) → Reached H.Host e → BodiesFit H.Host e }
    ensures holds { (e : EndState H) → Reached H.Host e → H.Host.holds_bodies e.host }
{}

/// In every reachable end, a take returns a byte exactly if something is to be sent, and then leaves fewer, of at most
/// 511; otherwise it changes nothing. Takes until one returns nothing return at most 511 bytes, lead to one end, and
/// leave nothing to be sent, however many more takes follow.
pub fn a_drain_ends<H: Host>()
    ensures quiet { (e : EndState H) → IsNone (out_at_take H.Host e) → (next_place H.Host e ≡ None) × (end_after_take H.Host e ≡ e) }
    ensures fewer { (e : EndState H) → Reached H.Host e → IsSome (out_at_take H.Host e) → most_left H.Host (end_after_take H.Host e) + 1 ≤ most_left H.Host e }
    ensures most { (e : EndState H) → Reached H.Host e → most_left H.Host e ≤ 511 }
    ensures drains { (e : EndState H) → Reached H.Host e → (outs : List Given) × (last : EndState H) × Drains H.Host e outs last × (length outs ≤ 511) }
    ensures only { (e last other : EndState H) (outs others : List Given) → Drains H.Host e outs last → Drains H.Host e others other → (outs ≡ others) × (last ≡ other) }
    ensures drained { (e last : EndState H) (outs : List Given) → Drains H.Host e outs last → next_place H.Host last ≡ None }
    ensures by_takes { (e last : EndState H) (outs : List Given) (n : ℕ) → Drains H.Host e outs last → length outs ≤ n → (end_after_all H.Host e (takes n) ≡ last) × (emission H.Host e (takes n) ≡ outs) }
{}
