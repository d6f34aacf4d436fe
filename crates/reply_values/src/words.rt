//! Words in data, each low byte first.
ghost use Rattle.std.specs.Prelude.{◌≡◌, false, true, MatchOption};
ghost use Rattle.data_files.specs.WordBytes.{words_of};
ghost use Rattle.reply_values.specs.Values.{are_words};

use arrayvec::ArrayVec;
use data_files::words_of;
use df1_base::MAX_DATA;

/// Returns the words of data, and None exactly if it has an odd number of bytes, or over 244.
pub fn words_in(bytes: &[u8]) -> Option<ArrayVec<u16, 122>>
    ensures none { MatchOption result (are_words bytes.now ≡ false) (λ _. are_words bytes.now ≡ true) }
    ensures words { MatchOption result (are_words bytes.now ≡ false) (λ words. words.items ≡ words_of bytes.now) }
{
    if bytes.len() % 2 != 0 || bytes.len() > MAX_DATA {
        return None;
    }
    Some(words_of(bytes))
}
