//! What holds of every list of bytes that the master receives, and of messages and pairs in it. The functions do
//! nothing.

ghost use Rattle.std.specs.Prelude.{◌≡◌, ◌≢◌, ◌≤◌, ℕ, List, [], ◌∷◌, ◌++◌, length, get_or, take, Option, Some, None};
ghost use Rattle.df1_check.specs.declared.Check.TheVariants as check;
ghost use Rattle.half_frame.specs.declared.heard.MasterHeard.{MasterHeard};
ghost use Rattle.half_frame.specs.declared.heard.MasterHeard.TheVariants as heard;
ghost use Rattle.df1_frame.specs.Line.{Splits, ReadOff, answers, last_heard};
ghost use Rattle.df1_frame.specs.Runs.{heard_in_run, steps};
ghost use Rattle.half_frame.specs.Spelling.{reply_bytes, pair_bytes};
ghost use Rattle.half_frame.specs.MasterGrammar.{Item, Front, Nothing, master_hears, reply_answers, pair_answers};
ghost use Rattle.half_frame.specs.MasterStanding.{Listening, is_inside, lent};
ghost use Rattle.half_frame.specs.MasterStep.{next};
ghost use Rattle.half_frame.specs.Runs.{master_run_len};

use df1_check::Check;

/// Every list of bytes splits in exactly one way into what the master decodes, and has one answer for each byte.
pub fn one_split_at_the_master(check: Check)
    ensures exists { (N : ℕ) (bytes : List ℕ) → (items : List Item) × (front : Front) × Splits (master_hears check N) bytes items front }
    ensures only { (N : ℕ) (bytes : List ℕ) (items others : List Item) (front rest : Front) →
        Splits (master_hears check N) bytes items front → Splits (master_hears check N) bytes others rest → (items ≡ others) × (front ≡ rest) }
    ensures answered { (N : ℕ) (bytes : List ℕ) (items : List Item) (front : Front) →
        Splits (master_hears check N) bytes items front → length (answers (master_hears check N) items front) ≡ length bytes }
{}

/// What the master decodes at the bytes so far stays, whatever follows, so the division into pieces doesn't matter.
pub fn heard_stays_at_the_master(check: Check)
    ensures stays { (N : ℕ) (bytes more : List ℕ) (so_far : List (Option MasterHeard)) → ReadOff (master_hears check N) bytes (answers (master_hears check N)) so_far →
        (later : List (Option MasterHeard)) × (length later ≡ length more) × ReadOff (master_hears check N) (bytes ++ more) (answers (master_hears check N)) (so_far ++ later) }
    ensures at_each { (N : ℕ) (front rest : List ℕ) (b : ℕ) (all : List (Option MasterHeard)) → ReadOff (master_hears check N) (front ++ b ∷ rest) (answers (master_hears check N)) all
        → ReadOff (master_hears check N) (front ++ b ∷ []) (last_heard (master_hears check N)) (get_or all (length front) None) }
{}

/// A run has the bytes before the first DLE if the master's receiver is in a body or outside, and none otherwise. In a
/// body nothing is decoded at them; outside, each is decoded as Stray.
pub fn heard_in_a_run_at_the_master()
    ensures { (N : ℕ) (d : Listening) (bytes : List ℕ) → let run : List ℕ = take (master_run_len d.standing bytes) bytes in
        (steps (next N) d run).1 ≡ heard_in_run heard.Stray (is_inside d.standing) run }
{}

/// A slave's message with a body of 6 to N bytes, after whole items, is decoded as good at its last byte, and nothing
/// else, whatever follows. After its last byte its body is lent.
pub fn reply_round_trip(check: Check)
    ensures heard { (N : ℕ) (before body : List ℕ) (items : List Item) → Splits (master_hears check N) before items Nothing → 6 ≤ length body → length body ≤ N
        → ReadOff (master_hears check N) (before ++ reply_bytes check body) (answers (master_hears check N)) (answers (master_hears check N) items Nothing ++ reply_answers check body) }
    ensures lent { (N : ℕ) (before body : List ℕ) (items : List Item) → Splits (master_hears check N) before items Nothing → 6 ≤ length body → length body ≤ N
        → ReadOff (master_hears check N) (before ++ reply_bytes check body) (lent check N) body }
    ensures later { (N : ℕ) (before body more : List ℕ) (items : List Item) → Splits (master_hears check N) before items Nothing → 6 ≤ length body → length body ≤ N
        → (later : List (Option MasterHeard)) × (length later ≡ length more)
        × ReadOff (master_hears check N) (before ++ reply_bytes check body ++ more) (answers (master_hears check N)) (answers (master_hears check N) items Nothing ++ reply_answers check body ++ later) }
{}

/// A pair that starts no message, after whole items, is decoded at its second byte, whatever follows: DLE ACK as Ack,
/// DLE NAK as Nak, DLE EOT as Eot, and any other as a stray pair.
pub fn pair_round_trip_at_the_master(check: Check)
    ensures heard { (N code : ℕ) (before : List ℕ) (items : List Item) → Splits (master_hears check N) before items Nothing → code ≢ 2
        → ReadOff (master_hears check N) (before ++ pair_bytes code) (answers (master_hears check N)) (answers (master_hears check N) items Nothing ++ pair_answers code) }
    ensures later { (N code : ℕ) (before more : List ℕ) (items : List Item) → Splits (master_hears check N) before items Nothing → code ≢ 2
        → (later : List (Option MasterHeard)) × (length later ≡ length more)
        × ReadOff (master_hears check N) (before ++ pair_bytes code ++ more) (answers (master_hears check N)) (answers (master_hears check N) items Nothing ++ pair_answers code ++ later) }
    ensures ack { pair_answers 6 ≡ None ∷ Some heard.Ack ∷ [] }
    ensures nak { pair_answers 21 ≡ None ∷ Some heard.Nak ∷ [] }
    ensures eot { pair_answers 4 ≡ None ∷ Some heard.Eot ∷ [] }
{}

/// A slave's message, and one that the start of the next cuts off, after an EOT.
pub fn worked_replies()
    ensures block { reply_bytes check.Bcc (0x00 ∷ 0x03 ∷ 0x4F ∷ 0x00 ∷ 0x01 ∷ 0x00 ∷ []) ≡ 0x10 ∷ 0x02 ∷ 0x00 ∷ 0x03 ∷ 0x4F ∷ 0x00 ∷ 0x01 ∷ 0x00 ∷ 0x10 ∷ 0x03 ∷ 0xAD ∷ [] }
    ensures cut_off { ReadOff (master_hears check.Bcc 250) (0x10 ∷ 0x04 ∷ 0x10 ∷ 0x02 ∷ 0x00 ∷ 0x10 ∷ 0x02 ∷ []) (answers (master_hears check.Bcc 250))
        (None ∷ Some heard.Eot ∷ None ∷ None ∷ None ∷ None ∷ Some heard.Damaged ∷ []) }
{}
