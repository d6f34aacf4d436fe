//! Parsing numbers among the arguments.
ghost use Rattle.std.specs.Prelude.{◌≡◌};
ghost use Rattle.script_statement.specs.Words.{within, number_of as short_number};
ghost use Rattle.df1_tool.specs.Forms.{number_of as the_number};

use script_statement::number_of as short_number;

/// The maximum number of decimal digits of a number.
const DIGITS: usize = 10;

/// Parses a number, if the word is 1 to 10 decimal digits and the number is within these bounds.
pub(crate) fn number_within(word: &str, least: u32, most: u32) -> Option<u32>
    ensures { result ≡ within least most (the_number word.now) }
{
    match number_of(word.as_bytes()) {
        Some(n) if u64::from(least) <= n && n <= u64::from(most) => Some(n as u32),
        _ => None,
    }
}

/// Parses a number, if the word is 1 to 9 decimal digits and the number is within these bounds.
pub(crate) fn short_within(word: &str, least: u16, most: u16) -> Option<u16>
    ensures { result ≡ within least most (short_number word.now) }
{
    match short_number(word.as_bytes()) {
        Some(n) if u32::from(least) <= n && n <= u32::from(most) => Some(n as u16),
        _ => None,
    }
}

/// Parses a word of 1 to 10 decimal digits. Leading zeros count as digits.
#[tactic(auto, unfolding(crate::specs::Forms::number_of))]
fn number_of(word: &[u8]) -> Option<u64>
    ensures { result ≡ the_number word.now }
{
    if word.is_empty() || word.len() > DIGITS {
        return None;
    }
    let mut value = 0;
    for byte in word {
        if !byte.is_ascii_digit() {
            return None;
        }
        value = value * 10 + u64::from(byte - b'0');
    }
    Some(value)
}
