//! Words in data, each low byte first.
ghost use Rattle.std.specs.Prelude.{◌≡◌, ◌+◌, ◌*◌, ◌≤◌, ◌++◌, length};
ghost use Rattle.arrayvec.specs.ArrayVec.{array_vec_len};
ghost use Rattle.data_files.specs.WordBytes.{bytes_of, words_of};

use arrayvec::ArrayVec;

/// Appends the bytes of words to `out`, each low byte first.
pub fn push_words(words: &[u16], out: &mut ArrayVec<u8, 244>)
    requires { array_vec_len out.old + 2 * length words.now ≤ 244 }
    ensures { out.new.items ≡ out.old.items ++ bytes_of words.now }
{
    for word in words {
        let [low, high] = word.to_le_bytes();
        out.push(low);
        out.push(high);
    }
}

/// Returns the words of data, each low byte first. An odd last byte is ignored.
pub fn words_of(bytes: &[u8]) -> ArrayVec<u16, 122>
    requires { length bytes.now ≤ 244 }
    ensures { result.items ≡ words_of bytes.now }
{
    let mut words = ArrayVec::new();
    let mut rest = bytes;
    while let [low, high, left @ ..] = rest {
        words.push(u16::from_le_bytes([*low, *high]));
        rest = left;
    }
    words
}
