//! Decimal numbers at the front of a text.
ghost use Rattle.std.specs.Prelude.{◌≡◌, ◌≤◌, length, take, nat_le, if◌then◌else◌, Some, None, IfSome};
ghost use Rattle.std.specs.Option.{option_map};
ghost use Rattle.data_addresses.specs.Numbers.{digits, is_digit, number_front, number_of};

/// Returns the number at the front, at most `most`, and what follows its digits. Returns None if there is no digit, or
/// a larger number.
#[tactic(auto, using(crate::proofs::Digits::digits_within))]
pub(crate) fn number_front(most: u16, text: &[u8]) -> Option<(u16, &[u8])>
    requires { most ≤ 999 }
    ensures reads { option_map (λ found. (found.0, found.1.now)) result ≡ number_front most text.now }
    ensures most { IfSome result (λ found. found.0 ≤ most) }
{
    let count = digit_count(text);
    if count == 0 {
        return None;
    }
    let number = number_of(most, &text[..count])?;
    Some((number, &text[count..]))
}

/// Returns the number of digits at the front.
fn digit_count(text: &[u8]) -> usize
    ensures { result ≡ length (digits text.now) }
{
    for (count, byte) in text.iter().enumerate() {
        if !is_digit(*byte) {
            return count;
        }
    }
    text.len()
}

/// Returns the number of these digits, and None if it is over `most`.
fn number_of(most: u16, digits: &[u8]) -> Option<u16>
    requires { most ≤ 999 }
    ensures { result ≡ (if nat_le (number_of digits.now) most then Some (number_of digits.now) else None) }
{
    let mut number = 0;
    for digit in digits {
        number = 10 * number + u16::from(digit.saturating_sub(b'0'));
        if number > most {
            return None;
        }
    }
    Some(number)
}

/// Returns whether a byte is a digit.
fn is_digit(byte: u8) -> bool
    ensures { result ≡ is_digit byte }
{
    b'0' <= byte && byte <= b'9'
}
