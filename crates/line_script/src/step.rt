//! Steps, the most frequent lines of a full-duplex script, recognized without trying the other forms: an end and the
//! letter of a verb, a blank, and one or two digits for the count.
ghost use Rattle.std.specs.Prelude.{◌≡◌, ◌==◌, ◌≤◌, ◌+◌, ◌∷◌, ◌++◌, [], IfSome, Some, List, ℕ, drop, false, length, option_map, take};
ghost use Rattle.std.specs.Option.{ForSome};
ghost use Rattle.duplex_script.specs.Drafts.{times_event as the_times};
ghost use Rattle.script_statement.specs.Statements.{end_of as the_end, statement_of as the_statement};
ghost use Rattle.script_statement.specs.Words.{is_blank, number_of, words};
ghost use Rattle.line_script.specs.Fed.{HasNoFeed};
ghost use Rattle.line_script.specs.Lines.{is_passed_over};
ghost use Rattle.line_script.specs.Steps.{count_in, side_in, step_in};
ghost use Rattle.script_statement.specs.declared.statement.EndName.{EndName as Name};
ghost use Rattle.script_statement.specs.declared.statement.Statement.{Statement as Form};

use crate::Event;
use duplex_script::times_event;
use script_statement::{EndLetter, Verb, verb_of};

/// What happens a number of times, 1 to 99, at an end of a full-duplex link, or at its queue.
#[derive(Clone, Copy, Debug, PartialEq, Eq)]
pub struct TimesEvent {
    pub side: EndLetter,
    pub verb: Verb,
    pub n: u32,
}

impl TimesEvent {
    /// Returns its event.
    pub fn event(self) -> Event
        ensures { result ≡ the_times self.side self.verb self.n }
    {
        times_event(self.side, self.verb, self.n)
    }
}

/// Returns the bytes before the first line feed at a position that a step allows: after four, five or six bytes.
/// Returns None if there is none there.
#[inline(always)]
pub(crate) fn short_line(bytes: &[u8]) -> Option<&[u8]>
    ensures cut { IfSome result (λ line. (4 ≤ length line.now) × (length line.now ≤ 6) × (take (length line.now + 1) bytes.now ≡ line.now ++ 10 ∷ [])) }
    ensures first { (line more : List ℕ) → HasNoFeed (drop 4 line) → 4 ≤ length line → length line ≤ 6 → bytes.now ≡ line ++ 10 ∷ more → option_map (λ found. found.now) result ≡ Some line }
{
    match bytes {
        [_, _, _, _, b'\n', ..] => Some(&bytes[..4]),
        [_, _, _, _, _, b'\n', ..] => Some(&bytes[..5]),
        [_, _, _, _, _, _, b'\n', ..] => Some(&bytes[..6]),
        _ => None,
    }
}

/// Returns the step that a line is. It is inlined, like all that feeds a step: a script is mostly steps.
#[inline(always)]
pub(crate) fn step_of(line: &[u8]) -> Option<TimesEvent>
    ensures value { result ≡ step_in line.now }
    ensures says { ForSome result (λ step. (is_passed_over (words line.now) ≡ false)
        × (the_statement (words line.now) ≡ Some (Form.Times step.side step.verb (Some step.n)))) }
{
    match line {
        [end, letter, b' ', digits @ ..] => Some(TimesEvent {
            side: side_of(*end)?,
            verb: verb_of(*letter)?,
            n: count_of(digits)?,
        }),
        _ => None,
    }
}

/// Returns the end of a full-duplex link that a letter names.
pub(crate) fn side_of(letter: u8) -> Option<EndLetter>
    ensures value { result ≡ side_in (the_end (letter ∷ [])) }
    ensures letter { ForSome result (λ side. (the_end (letter ∷ []) ≡ Some (Name.Known side)) × (is_blank letter ≡ false) × ((letter == 35) ≡ false)) }
{
    match letter {
        b'a' => Some(EndLetter::A),
        b'b' => Some(EndLetter::B),
        _ => None,
    }
}

/// Returns a number of one or two digits of which the first isn't 0: 1 to 99.
#[tactic(auto, unfolding(script_statement::specs::Words::number_of))]
pub(crate) fn count_of(word: &[u8]) -> Option<u32>
    ensures value { result ≡ count_in word.now }
    ensures number { ForSome result (λ n. (number_of word.now ≡ Some n) × (1 ≤ n) × (n ≤ 99)) }
{
    match word {
        [ones @ b'1'..=b'9'] => Some(u32::from(ones - b'0')),
        [tens @ b'1'..=b'9', ones @ b'0'..=b'9'] => {
            Some(u32::from(tens - b'0') * 10 + u32::from(ones - b'0'))
        }
        _ => None,
    }
}
