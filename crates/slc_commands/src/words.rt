//! The words that a write makes of the old ones.
ghost use Rattle.std.specs.Prelude.{◌≡◌, ◌*◌, ◌≤◌, length};
ghost use Rattle.data_files.specs.WordBytes.{words_of};
ghost use Rattle.slc_commands.specs.Words.{masked, masked_word};

use arrayvec::ArrayVec;

/// Returns the words that a write makes of `old`, with the new bits in `bytes`.
pub(crate) fn masked_words(mask: u16, old: &[u16], bytes: &[u8]) -> ArrayVec<u16, 122>
    requires room { length old.now ≤ 122 }
    requires data { length bytes.now ≡ 2 * length old.now }
    ensures words { result.items ≡ masked mask old.now (words_of bytes.now) }
    ensures count { length result.items ≡ length old.now }
{
    let mut words = ArrayVec::new();
    for (place, word) in old.iter().enumerate() {
        let new = u16::from_le_bytes([bytes[2 * place], bytes[2 * place + 1]]);
        words.push(masked_word(mask, *word, new));
    }
    words
}

/// Returns the bits of `new` where the mask is set, and those of `old` elsewhere.
fn masked_word(mask: u16, old: u16, new: u16) -> u16
    ensures { result ≡ masked_word mask old new }
{
    (old & !mask) | (new & mask)
}
