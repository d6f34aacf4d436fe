//! Runs of bytes before a DLE.

ghost use Rattle.std.specs.Prelude.{◌≡◌};
ghost use Rattle.df1_frame.specs.Runs.{plain_len};

use df1_base::DLE;

/// Returns how many bytes stand before the first DLE: all if there is none.
pub fn plain_len(bytes: &[u8]) -> usize
    ensures { result ≡ plain_len bytes.now }
{
    for (at, b) in bytes.iter().enumerate() {
        if *b == DLE {
            return at;
        }
    }
    bytes.len()
}
