//! Laws of words that were set.
ghost use Rattle.std.specs.Prelude.{◌≡◌, ℕ, ◌+◌, ◌-◌, ◌&&◌, ◌==◌, List, length, nat_le, nat_lt, slice_get, if◌then◌else◌};
ghost use Rattle.data_files.specs.Tables.{DataTables, with_word, with_words, word_at};

/// After a word was set it has the value set, and every other word is unchanged.
pub fn one_word_is_set()
    ensures { (tables : DataTables) (number index word other place : ℕ) → word_at (with_word tables number index word) other place ≡ (if (other == number) && (place == index) then Some word else word_at tables other place) }
{}

/// After several words were set each of them has the value set, and every other word is unchanged.
pub fn each_word_is_set()
    ensures { (tables : DataTables) (number first : ℕ) (words : List ℕ) (other place : ℕ) → word_at (with_words tables number first words) other place ≡ (if (other == number) && (nat_le first place && nat_lt place (first + length words)) then slice_get words (place - first) else word_at tables other place) }
{}
