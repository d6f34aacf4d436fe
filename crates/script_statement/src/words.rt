//! The words of a script line, separated by blanks or tabs, and what a word means by itself: a number of 1 to 9 decimal
//! digits, or pairs of hexadecimal digits of either case.
ghost use Rattle.std.specs.Prelude.{◌≡◌, ◌<◌, ◌&&◌, [], ◌∷◌, map, take, ◌%◌, not, position, IfOk, OnErr, MatchOption, length, nat_le};
ghost use Rattle.std.specs.Str.{bytes_eq};
ghost use Rattle.hex.specs.Hex.{decode_of, decode_sized};
ghost use Rattle.script_statement.specs.Words.{words, is_blank, number_of, within, hex_of as the_bytes, byte_of as the_byte, register_of as the_register, byte_in, register_in};

use crate::{Bytes, Items};
use arrayvec::ArrayVec;
use df1_base::NoMemory;
use hex::{FromHex, FromHexError};
use std::alloc::Global;

/// The most decimal digits of a number.
const DIGITS: usize = 9;

/// One word more than the longest form has.
const WORDS: usize = 6;

/// The first words of a line.
pub type FirstWords<'a> = ArrayVec<&'a [u8], WORDS>;

/// Returns the first words of a line, separated by blanks and tabs: all of them, or one more than the longest form has.
pub fn first_words(line: &[u8]) -> FirstWords<'_>
    ensures { map (λ x. x.now) result.items ≡ take 6 (words line.now) }
{
    let mut words = ArrayVec::new();
    let mut rest = line;
    while !words.is_full() {
        let Some((word, more)) = next_word(rest) else {
            return words;
        };
        words.push(word);
        rest = more;
    }
    words
}

/// Returns the first word of a line, and what follows it.
fn next_word(line: &[u8]) -> Option<(&[u8], &[u8])>
    ensures { MatchOption result (words line.now ≡ [])
        (λ cut. (words line.now ≡ cut.0.now ∷ words cut.1.now) × (length cut.1.now < length line.now)) }
{
    let begun = &line[word_start(line).unwrap_or(line.len())..];
    if begun.is_empty() {
        return None;
    }
    Some(begun.split_at(word_end(begun).unwrap_or(begun.len())))
}

/// Returns the index of the first byte of a word.
fn word_start(line: &[u8]) -> Option<usize>
    ensures { result ≡ position (λ byte. not (is_blank byte)) line.now }
{
    line.iter().position(|byte| !is_blank(*byte))
}

/// Returns the index of the first blank or tab.
fn word_end(line: &[u8]) -> Option<usize>
    ensures { result ≡ position is_blank line.now }
{
    line.iter().position(|byte| is_blank(*byte))
}

/// Returns whether a byte separates words.
fn is_blank(byte: u8) -> bool
    ensures { result ≡ is_blank byte }
{
    byte == b' ' || byte == b'\t'
}

/// Returns the number that a word of 1 to 9 decimal digits spells: 0 to 999,999,999. Leading zeros count as digits.
/// Returns None exactly if the word is empty, has over 9 bytes, or contains a byte that is not a decimal digit.
#[tactic(auto, unfolding(crate::specs::Words::number_of))]
pub fn number_of(word: &[u8]) -> Option<u32>
    ensures { result ≡ number_of word.now }
{
    if word.is_empty() || word.len() > DIGITS {
        return None;
    }
    let mut value = 0;
    for byte in word {
        if !byte.is_ascii_digit() {
            return None;
        }
        value = value * 10 + u32::from(byte - b'0');
    }
    Some(value)
}

/// Returns a number that lies within these bounds.
pub(crate) fn within(least: u32, most: u32, number: Option<u32>) -> Option<u32>
    ensures { result ≡ within least most number }
{
    match number {
        Some(n) if least <= n && n <= most => Some(n),
        _ => None,
    }
}

/// Returns whether there are this many bytes, from the least to the most.
pub(crate) fn is_within(least: usize, most: usize, bytes: &[u8]) -> bool
    ensures { result ≡ (nat_le least (length bytes.now) && nat_le (length bytes.now) most) }
{
    least <= bytes.len() && bytes.len() <= most
}

/// Returns whether a word is this text.
pub(crate) fn is(word: &[u8], text: &str) -> bool
    ensures { result ≡ bytes_eq word.now text.now }
{
    word == text.as_bytes()
}

/// Returns the bytes that a word of pairs of hexadecimal digits of either case spells. Returns None if a byte is not
/// such a digit, or their number is odd; a word of an odd length takes no memory.
#[inline(never)]
pub fn hex_of(alloc: Global, word: &[u8]) -> Result<Option<Bytes>, NoMemory>
    ensures value { IfOk result (λ bytes. bytes ≡ the_bytes word.now) }
    ensures memory { OnErr result (length word.now % 2 ≡ 0) }
{
    match hex::decode(alloc, word) {
        Ok(bytes) => Ok(Some(Items::from_vec(bytes))),
        Err(FromHexError::OutOfMemory) => Err(NoMemory),
        Err(_) => Ok(None),
    }
}

/// Returns the byte that two hexadecimal digits spell.
pub(crate) fn byte_of(word: &[u8]) -> Option<u8>
    ensures { result ≡ the_byte word.now }
{
    let byte = <[u8; 1] as FromHex>::from_hex(word).ok()?;
    byte_in(&byte)
}

/// Returns the byte of a list of one.
fn byte_in(bytes: &[u8]) -> Option<u8>
    ensures { result ≡ byte_in bytes.now }
{
    match bytes {
        [byte] => Some(*byte),
        _ => None,
    }
}

/// Returns the word of a data file that four hexadecimal digits of either case spell, its high byte first: 0 to 65,535.
/// Returns None exactly if the bytes are not four such digits.
pub fn register_of(word: &[u8]) -> Option<u16>
    ensures { result ≡ the_register word.now }
{
    let bytes = <[u8; 2] as FromHex>::from_hex(word).ok()?;
    register_in(&bytes)
}

/// Returns the word of a high and a low byte.
fn register_in(bytes: &[u8]) -> Option<u16>
    ensures { result ≡ register_in bytes.now }
{
    match bytes {
        [high, low] => Some(u16::from(*high) * 256 + u16::from(*low)),
        _ => None,
    }
}
