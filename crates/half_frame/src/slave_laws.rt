//! What holds of every list of bytes that a slave receives, and of messages, polls and pairs in it. The functions do
//! nothing.

ghost use Rattle.std.specs.Prelude.{◌≡◌, ◌≢◌, ◌≤◌, ℕ, List, [], ◌∷◌, ◌++◌, length, get_or, take, Option, Some, None};
ghost use Rattle.df1_check.specs.declared.Check.TheVariants as check;
ghost use Rattle.half_frame.specs.declared.heard.SlaveHeard.{SlaveHeard};
ghost use Rattle.half_frame.specs.declared.heard.SlaveHeard.TheVariants as heard;
ghost use Rattle.df1_frame.specs.Line.{Splits, ReadOff, answers, last_heard};
ghost use Rattle.df1_frame.specs.Runs.{heard_in_run, steps};
ghost use Rattle.half_frame.specs.Spelling.{message_bytes, poll_bytes, pair_bytes};
ghost use Rattle.half_frame.specs.SlaveGrammar.{Item, Front, Nothing, slave_hears, message_answers, poll_answers, pair_answers};
ghost use Rattle.half_frame.specs.SlaveStanding.{Listening, is_inside, lent};
ghost use Rattle.half_frame.specs.SlaveStep.{next};
ghost use Rattle.half_frame.specs.Runs.{slave_run_len};

use df1_check::Check;

/// Every list of bytes splits in exactly one way into what a slave decodes, and has one answer for each byte.
pub fn one_split_at_a_slave(check: Check)
    ensures exists { (N : ℕ) (bytes : List ℕ) → (items : List Item) × (front : Front) × Splits (slave_hears check N) bytes items front }
    ensures only { (N : ℕ) (bytes : List ℕ) (items others : List Item) (front rest : Front) →
        Splits (slave_hears check N) bytes items front → Splits (slave_hears check N) bytes others rest → (items ≡ others) × (front ≡ rest) }
    ensures answered { (N : ℕ) (bytes : List ℕ) (items : List Item) (front : Front) →
        Splits (slave_hears check N) bytes items front → length (answers (slave_hears check N) items front) ≡ length bytes }
{}

/// What a slave decodes at the bytes so far stays, whatever follows, so the division into pieces doesn't matter.
pub fn heard_stays_at_a_slave(check: Check)
    ensures stays { (N : ℕ) (bytes more : List ℕ) (so_far : List (Option SlaveHeard)) → ReadOff (slave_hears check N) bytes (answers (slave_hears check N)) so_far →
        (later : List (Option SlaveHeard)) × (length later ≡ length more) × ReadOff (slave_hears check N) (bytes ++ more) (answers (slave_hears check N)) (so_far ++ later) }
    ensures at_each { (N : ℕ) (front rest : List ℕ) (b : ℕ) (all : List (Option SlaveHeard)) → ReadOff (slave_hears check N) (front ++ b ∷ rest) (answers (slave_hears check N)) all
        → ReadOff (slave_hears check N) (front ++ b ∷ []) (last_heard (slave_hears check N)) (get_or all (length front) None) }
{}

/// A run has the bytes before the first DLE if a slave's receiver is in a body or outside, and none otherwise. In a
/// body nothing is decoded at them; outside, each is decoded as Stray.
pub fn heard_in_a_run_at_a_slave()
    ensures { (N : ℕ) (d : Listening) (bytes : List ℕ) → let run : List ℕ = take (slave_run_len d.standing bytes) bytes in
        (steps (next N) d run).1 ≡ heard_in_run heard.Stray (is_inside d.standing) run }
{}

/// A message to a station with a body of 6 to N bytes, after whole items, is decoded as its header at its fifth byte
/// and as addressed at its last byte, and nothing else, whatever follows. After its last byte its body is lent.
pub fn message_round_trip(check: Check)
    ensures heard { (N stn : ℕ) (before body : List ℕ) (items : List Item) → Splits (slave_hears check N) before items Nothing → 6 ≤ length body → length body ≤ N
        → ReadOff (slave_hears check N) (before ++ message_bytes check stn body) (answers (slave_hears check N)) (answers (slave_hears check N) items Nothing ++ message_answers check stn body) }
    ensures lent { (N stn : ℕ) (before body : List ℕ) (items : List Item) → Splits (slave_hears check N) before items Nothing → 6 ≤ length body → length body ≤ N
        → ReadOff (slave_hears check N) (before ++ message_bytes check stn body) (lent check N) body }
    ensures later { (N stn : ℕ) (before body more : List ℕ) (items : List Item) → Splits (slave_hears check N) before items Nothing → 6 ≤ length body → length body ≤ N
        → (later : List (Option SlaveHeard)) × (length later ≡ length more)
        × ReadOff (slave_hears check N) (before ++ message_bytes check stn body ++ more) (answers (slave_hears check N)) (answers (slave_hears check N) items Nothing ++ message_answers check stn body ++ later) }
{}

/// A poll of a station, after whole items, is decoded as that at its last byte, and nothing else, whatever follows.
pub fn poll_round_trip(check: Check)
    ensures heard { (N stn : ℕ) (before : List ℕ) (items : List Item) → Splits (slave_hears check N) before items Nothing
        → ReadOff (slave_hears check N) (before ++ poll_bytes stn) (answers (slave_hears check N)) (answers (slave_hears check N) items Nothing ++ poll_answers stn) }
    ensures later { (N stn : ℕ) (before more : List ℕ) (items : List Item) → Splits (slave_hears check N) before items Nothing
        → (later : List (Option SlaveHeard)) × (length later ≡ length more)
        × ReadOff (slave_hears check N) (before ++ poll_bytes stn ++ more) (answers (slave_hears check N)) (answers (slave_hears check N) items Nothing ++ poll_answers stn ++ later) }
{}

/// A pair that starts no item, after whole items, is decoded at its second byte, whatever follows: DLE ACK as Ack, DLE
/// NAK as Reset, and any other as a stray pair.
pub fn pair_round_trip_at_a_slave(check: Check)
    ensures heard { (N code : ℕ) (before : List ℕ) (items : List Item) → Splits (slave_hears check N) before items Nothing → code ≢ 1 → code ≢ 5
        → ReadOff (slave_hears check N) (before ++ pair_bytes code) (answers (slave_hears check N)) (answers (slave_hears check N) items Nothing ++ pair_answers code) }
    ensures later { (N code : ℕ) (before more : List ℕ) (items : List Item) → Splits (slave_hears check N) before items Nothing → code ≢ 1 → code ≢ 5
        → (later : List (Option SlaveHeard)) × (length later ≡ length more)
        × ReadOff (slave_hears check N) (before ++ pair_bytes code ++ more) (answers (slave_hears check N)) (answers (slave_hears check N) items Nothing ++ pair_answers code ++ later) }
    ensures ack { pair_answers 6 ≡ None ∷ Some heard.Ack ∷ [] }
    ensures reset { pair_answers 21 ≡ None ∷ Some heard.Reset ∷ [] }
{}

/// Messages with either check, polls, one of them with a BCC of 10, and a message that a poll cuts off.
pub fn worked_messages()
    ensures block { message_bytes check.Bcc 0x03 (0x03 ∷ 0x00 ∷ 0x0F ∷ 0x00 ∷ 0x01 ∷ 0x00 ∷ 0xAA ∷ 0x02 ∷ 0x07 ∷ 0x89 ∷ 0x00 ∷ 0x00 ∷ 0x34 ∷ 0x12 ∷ []) ≡
        0x10 ∷ 0x01 ∷ 0x03 ∷ 0x10 ∷ 0x02 ∷ 0x03 ∷ 0x00 ∷ 0x0F ∷ 0x00 ∷ 0x01 ∷ 0x00 ∷ 0xAA ∷ 0x02 ∷ 0x07 ∷ 0x89 ∷ 0x00 ∷ 0x00 ∷ 0x34 ∷ 0x12 ∷ 0x10 ∷ 0x03 ∷ 0x68 ∷ [] }
    ensures cyclic { message_bytes check.Crc 0x03 (0x03 ∷ 0x00 ∷ 0x06 ∷ 0x00 ∷ 0x01 ∷ 0x00 ∷ 0x00 ∷ 0x55 ∷ []) ≡
        0x10 ∷ 0x01 ∷ 0x03 ∷ 0x10 ∷ 0x02 ∷ 0x03 ∷ 0x00 ∷ 0x06 ∷ 0x00 ∷ 0x01 ∷ 0x00 ∷ 0x00 ∷ 0x55 ∷ 0x10 ∷ 0x03 ∷ 0x9E ∷ 0xEF ∷ [] }
    ensures poll { poll_bytes 0x03 ≡ 0x10 ∷ 0x05 ∷ 0x03 ∷ 0xFD ∷ [] }
    ensures check_of_16 { poll_bytes 0xF0 ≡ 0x10 ∷ 0x05 ∷ 0xF0 ∷ 0x10 ∷ [] }
    ensures cut_off { ReadOff (slave_hears check.Bcc 250) (0x10 ∷ 0x01 ∷ 0x03 ∷ 0x10 ∷ 0x02 ∷ 0x41 ∷ 0x10 ∷ 0x05 ∷ 0x05 ∷ 0xFB ∷ []) (answers (slave_hears check.Bcc 250))
        (None ∷ None ∷ None ∷ None ∷ Some (heard.Header 3) ∷ None ∷ None ∷ Some (heard.Damaged 3) ∷ None ∷ Some (heard.Poll 5) ∷ []) }
{}
