//! Laws of runs of bytes, of changed words over all calls that look for them, and of words that are set.

ghost use Rattle.std.specs.Prelude.{◌≡◌, ◌⊎◌, ◌<◌, ◌≤◌, ◌+◌, ◌-◌, ◌&&◌, ◌==◌, ℕ, List, Some, true, false, length, nat_le, nat_lt, slice_get, if◌then◌else◌};
ghost use Rattle.data_files.specs.Tables.{with_words};
ghost use Rattle.df1_node.specs.Node.{NodeState};
ghost use Rattle.c_ends.specs.declared.held.Held.{Held as Handled};
ghost use Rattle.c_calls.specs.Runs.{GivenFull, GivenMessage, GivenShort, HeardAll, HeardSome, given_of, heard_of};
ghost use Rattle.c_calls.specs.Words.{first_change, is_range, range_told, seen_with, with_tables, word_told, words_set};

/// A law: a run is received completely, with nothing to do after any byte, or up to the first byte after which there is
/// something to do. The state afterwards, and the effect of the last byte, are as by calls for one byte at a time.
pub fn a_run_ends_where_there_is_something_to_do()
    ensures { (held : Handled) (bytes : List ℕ) → HeardAll 0 held bytes (heard_of held bytes) ⊎ HeardSome 0 held bytes (heard_of held bytes) }
{}

/// A law: a transmitted run has as many bytes as there is room for, or ends before a take that returns nothing, or ends
/// with the first byte that ends a message. The bytes, and the state afterwards, are as by takes of one byte at a time.
pub fn a_run_is_given_up_to_the_end_of_a_message()
    ensures { (room : ℕ) (held : Handled) → GivenFull room held (given_of room held) ⊎ (GivenShort room held (given_of room held) ⊎ GivenMessage room held (given_of room held)) }
{}

/// A law: while a word differs from what was seen of it, one such word is reported, and each call continues after the
/// word reported last. So calls until none is reported report each differing word once, and what was seen then equals
/// the words.
pub fn each_change_is_told()
    ensures all { (words seen : List ℕ) → length seen ≡ length words → first_change words seen ≡ length words → seen ≡ words }
    ensures within { (words seen : List ℕ) → length seen ≡ length words → first_change words seen ≤ length words }
    ensures on { (words seen : List ℕ) → length seen ≡ length words → first_change words seen < length words → first_change words seen < first_change words (seen_with words seen) }
    ensures kept { (words seen : List ℕ) → length (seen_with words seen) ≡ length seen }
{}

/// A law: if a file has the words of a run, setting them leaves its node with the tables that have them, and nothing
/// else of the node changes. Each word of the run is then reported as it was set, and every other word as before; so
/// the run is reported as it was set. If the file doesn't have them all, the node is unchanged.
pub fn a_run_of_words_is_set()
    ensures tables { (node : NodeState) (file first : ℕ) (values : List ℕ) → is_range node file first (length values) ≡ true → words_set file first values node ≡ with_tables node (with_words node.station.tables file first values) }
    ensures each { (node : NodeState) (file first : ℕ) (values : List ℕ) (other place : ℕ) → is_range node file first (length values) ≡ true → word_told (words_set file first values node) other place ≡ (if (other == file) && (nat_le first place && nat_lt place (first + length values)) then slice_get values (place - first) else word_told node other place) }
    ensures run { (node : NodeState) (file first : ℕ) (values : List ℕ) → is_range node file first (length values) ≡ true → range_told (words_set file first values node) file first (length values) ≡ Some values }
    ensures none { (node : NodeState) (file first : ℕ) (values : List ℕ) → is_range node file first (length values) ≡ false → words_set file first values node ≡ node }
{}
