//! What holds of every list of bytes on a full-duplex line, and of frames in it. The functions do nothing.

ghost use Rattle.std.specs.Prelude.{◌≡◌, ◌≢◌, ◌≤◌, ℕ, List, [], ◌∷◌, ◌++◌, length, take, Option, Some, None};
ghost use Rattle.df1_check.specs.declared.Check.TheVariants as check;
ghost use Rattle.df1_frame.specs.declared.heard.Heard.{Heard};
ghost use Rattle.df1_frame.specs.declared.heard.Heard.TheVariants as heard;
ghost use Rattle.df1_frame.specs.Line.{Splits, ReadOff, answers, last_heard};
ghost use Rattle.df1_frame.specs.Spelling.{Piece, Spells, pieces_of};
ghost use Rattle.df1_frame.specs.Units.{bytes_of, units};
ghost use Rattle.df1_frame.specs.Grammar.{Item, Front, Nothing, full_duplex, good_answers};
ghost use Rattle.df1_frame.specs.Standing.{Decoding, is_inside, lent};
ghost use Rattle.df1_frame.specs.Step.{next};
ghost use Rattle.df1_frame.specs.Runs.{heard_in_run, run_len, steps};

use df1_check::Check;

/// Every list of bytes splits in exactly one way, and has one answer for each byte.
pub fn one_split(check: Check)
    ensures exists { (N : ℕ) (bytes : List ℕ) → (items : List Item) × (front : Front) × Splits (full_duplex check N) bytes items front }
    ensures only { (N : ℕ) (bytes : List ℕ) (items others : List Item) (front rest : Front) →
        Splits (full_duplex check N) bytes items front → Splits (full_duplex check N) bytes others rest → (items ≡ others) × (front ≡ rest) }
    ensures answered { (N : ℕ) (bytes : List ℕ) (items : List Item) (front : Front) →
        Splits (full_duplex check N) bytes items front → length (answers (full_duplex check N) items front) ≡ length bytes }
{}

/// What is decoded at the bytes so far stays, whatever follows, so the division into pieces doesn't matter.
pub fn heard_stays(check: Check)
    ensures { (N : ℕ) (bytes more : List ℕ) (so_far : List (Option Heard)) → ReadOff (full_duplex check N) bytes (answers (full_duplex check N)) so_far →
        (later : List (Option Heard)) × (length later ≡ length more) × ReadOff (full_duplex check N) (bytes ++ more) (answers (full_duplex check N)) (so_far ++ later) }
{}

/// A run has the bytes before the first DLE if a decoder is in a frame's body or outside a frame, and none otherwise.
/// In a body nothing is decoded at them; outside, each is decoded as Stray.
pub fn heard_in_a_run()
    ensures { (N : ℕ) (d : Decoding) (bytes : List ℕ) → let run : List ℕ = take (run_len d.standing bytes) bytes in
        (steps (next N) d run).1 ≡ heard_in_run heard.Stray (is_inside d.standing) run }
{}

/// A frame with a body of 6 to N bytes, after whole items, is decoded as the responses in it, each at its second byte,
/// and as good at its last byte, and nothing else, whatever follows. After its last byte its body is lent.
pub fn round_trip(check: Check)
    ensures heard { (N : ℕ) (before body bytes : List ℕ) (items : List Item) (pieces : List Piece) → Splits (full_duplex check N) before items Nothing
        → Spells check pieces body bytes → 6 ≤ length body → length body ≤ N
        → ReadOff (full_duplex check N) (before ++ bytes) (answers (full_duplex check N)) (answers (full_duplex check N) items Nothing ++ good_answers check pieces) }
    ensures lent { (N : ℕ) (before body bytes : List ℕ) (items : List Item) (pieces : List Piece) → Splits (full_duplex check N) before items Nothing
        → Spells check pieces body bytes → 6 ≤ length body → length body ≤ N
        → ReadOff (full_duplex check N) (before ++ bytes) (lent check N) body }
    ensures later { (N : ℕ) (before body bytes more : List ℕ) (items : List Item) (pieces : List Piece) → Splits (full_duplex check N) before items Nothing
        → Spells check pieces body bytes → 6 ≤ length body → length body ≤ N
        → (later : List (Option Heard)) × (length later ≡ length more)
        × ReadOff (full_duplex check N) (before ++ bytes ++ more) (answers (full_duplex check N)) (answers (full_duplex check N) items Nothing ++ good_answers check pieces ++ later) }
{}

/// The manual's example with either check, and frames in which a BCC is 10 and bytes of the body are 10.
pub fn worked_frames()
    ensures block { bytes_of (units check.Bcc (0x08 ∷ 0x09 ∷ 0x06 ∷ 0x00 ∷ 0x02 ∷ 0x04 ∷ 0x03 ∷ [])) ≡
        0x10 ∷ 0x02 ∷ 0x08 ∷ 0x09 ∷ 0x06 ∷ 0x00 ∷ 0x02 ∷ 0x04 ∷ 0x03 ∷ 0x10 ∷ 0x03 ∷ 0xE0 ∷ [] }
    ensures cyclic { bytes_of (units check.Crc (0x08 ∷ 0x09 ∷ 0x06 ∷ 0x00 ∷ 0x02 ∷ 0x04 ∷ 0x03 ∷ [])) ≡
        0x10 ∷ 0x02 ∷ 0x08 ∷ 0x09 ∷ 0x06 ∷ 0x00 ∷ 0x02 ∷ 0x04 ∷ 0x03 ∷ 0x10 ∷ 0x03 ∷ 0x98 ∷ 0x48 ∷ [] }
    ensures check_of_16 { bytes_of (units check.Bcc (0x07 ∷ 0x00 ∷ 0x06 ∷ 0x00 ∷ 0x01 ∷ 0x00 ∷ 0x00 ∷ 0xE2 ∷ [])) ≡
        0x10 ∷ 0x02 ∷ 0x07 ∷ 0x00 ∷ 0x06 ∷ 0x00 ∷ 0x01 ∷ 0x00 ∷ 0x00 ∷ 0xE2 ∷ 0x10 ∷ 0x03 ∷ 0x10 ∷ [] }
    ensures body_of_16 { bytes_of (units check.Bcc (0x07 ∷ 0x00 ∷ 0x06 ∷ 0x00 ∷ 0x10 ∷ 0x00 ∷ 0x00 ∷ 0x10 ∷ [])) ≡
        0x10 ∷ 0x02 ∷ 0x07 ∷ 0x00 ∷ 0x06 ∷ 0x00 ∷ 0x10 ∷ 0x10 ∷ 0x00 ∷ 0x00 ∷ 0x10 ∷ 0x10 ∷ 0x10 ∷ 0x03 ∷ 0xD3 ∷ [] }
{}

/// The units of a frame spell its body, without responses.
pub fn frame_spells(check: Check)
    ensures { (body : List ℕ) → Spells check (pieces_of body) body (bytes_of (units check body)) }
{}

/// In a frame without responses, with a body of 6 to N bytes and after whole items, nothing is decoded before its last
/// byte, and there it is good.
pub fn whole_frame(check: Check)
    ensures before { (N : ℕ) (before body front rest : List ℕ) (b : ℕ) (items : List Item) → Splits (full_duplex check N) before items Nothing
        → 6 ≤ length body → length body ≤ N → front ++ b ∷ rest ≡ bytes_of (units check body) → rest ≢ []
        → ReadOff (full_duplex check N) (before ++ front ++ b ∷ []) (last_heard (full_duplex check N)) None }
    ensures end { (N : ℕ) (before body front : List ℕ) (b : ℕ) (items : List Item) → Splits (full_duplex check N) before items Nothing
        → 6 ≤ length body → length body ≤ N → front ++ b ∷ [] ≡ bytes_of (units check body)
        → ReadOff (full_duplex check N) (before ++ front ++ b ∷ []) (last_heard (full_duplex check N)) (Some heard.Good) }
{}
