//! Bytes as pairs of hexadecimal digits, high digit first, letters in upper case.
ghost use Rattle.std.specs.Prelude.{◌≡◌, ◌≤◌, ◌+◌, ◌*◌, ◌++◌, [], ◌∷◌, OnOk, OnErr, length};
ghost use Rattle.arrayvec.specs.ArrayVec.{array_vec_len};
ghost use Rattle.df1_base.specs.Outside.{Rose, Put, WroteLess, Later};
ghost use Rattle.hex.specs.Hex.{encode_upper};

use crate::short::{ROOM, Short};
use arrayvec::ArrayVec;
use df1_base::{Failed, Sink, write_all};

/// The digits, by their values.
static DIGITS: [u8; 16] = *b"0123456789ABCDEF";

/// The number of bytes written at once, each as two digits.
const PIECE: usize = 32;

/// Writes each byte as two digits.
pub(crate) fn put_hex<K: Sink>(sink: &mut K, bytes: &[u8]) -> Result<(), Failed>
    ensures ok { OnOk result (Put (K.held sink.old) (K.held sink.new) (encode_upper bytes.now)) }
    ensures missing { OnErr result (WroteLess (K.held sink.old) (K.held sink.new) (encode_upper bytes.now)) }
    ensures calm { OnOk result (K.faults sink.new ≡ K.faults sink.old) }
    ensures later { Later (K.mark sink.old) (K.mark sink.new) (K.faults sink.old) (K.faults sink.new) }
    ensures cause { OnErr result (Rose (K.faults sink.old) (K.faults sink.new)) }
{
    let mut rest = bytes;
    while !rest.is_empty() {
        let (piece, more) = rest.split_at(rest.len().min(PIECE));
        write_all(sink, &pairs(piece))?;
        rest = more;
    }
    Ok(())
}

/// Returns the digits of a piece.
fn pairs(bytes: &[u8]) -> Short
    requires { length bytes.now ≤ PIECE }
    ensures { result.items ≡ encode_upper bytes.now }
{
    let mut digits = ArrayVec::new();
    append_pairs(&mut digits, bytes);
    digits
}

/// Appends the digits of bytes to a text that has room for them.
pub(crate) fn append_pairs(line: &mut Short, bytes: &[u8])
    requires { array_vec_len line.old + 2 * length bytes.now ≤ ROOM }
    ensures text { line.new.items ≡ line.old.items ++ encode_upper bytes.now }
    ensures size { array_vec_len line.new ≡ array_vec_len line.old + 2 * length bytes.now }
{
    for byte in bytes {
        let [high, low] = pair(*byte);
        line.push(high);
        line.push(low);
    }
}

/// Returns the two hexadecimal digits of a byte, high digit first, letters in upper case.
pub fn pair(byte: u8) -> [u8; 2]
    ensures { result ≡ encode_upper (byte ∷ []) }
{
    [
        DIGITS[usize::from(byte / 16)],
        DIGITS[usize::from(byte % 16)],
    ]
}
