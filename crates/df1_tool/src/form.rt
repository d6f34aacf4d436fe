//! The forms of the command line, and their parsing.
ghost use Rattle.std.specs.Prelude.{◌≡◌, ◌≤◌, IfSome, IsSome, length, map, string_bytes};
ghost use Rattle.df1_tool.specs.Forms.{capture_of as the_capture, captured, check_of as the_check, form_of as the_form, form_of_four as of_four, form_of_one as of_one, form_of_three as of_three, form_of_two as of_two, mode_of as the_mode, pull_by, pull_of as the_pull, push_of as the_push, rehearsal_of as the_rehearsal, rehearsed as the_rehearsed, rounds_by, rounds_of as the_rounds, service_of, side_of as the_side};

use crate::data_words::data_of;
use crate::note::{Note, noted};
use crate::number::{number_within, short_within};
use crate::refusal::Refusal;
use df1_capture::Capture;
use df1_check::Check;
use df1_drill::MOST_ROUNDS;
use half_frame::Side;

/// The highest number of a data file.
const MOST_FILE: u16 = 999;

/// The maximum number of words of a transfer.
const MOST_WORDS: u16 = 3000;

/// A command of the program.
#[derive(Clone, Copy, Debug, PartialEq, Eq)]
pub(crate) enum Form {
    /// `replay`: reads a script, runs it and prints its report.
    Replay,
    /// `serve PLAN raw` or `serve PLAN timed`: serves a plan's end over the input and the output.
    Serve {
        /// Whether the input has records.
        timed: bool,
    },
    /// `issue PLAN`: serves it over a timed input, issues the plan's commands, and reports their outcomes.
    Issue,
    /// `dissect SIDE CHECK`: reports each item that is decoded in a capture.
    Dissect(Capture),
    /// `check SIDE CHECK`: reports how many of these items are faults of the line.
    Check(Capture),
    /// `drill SEED COUNT`: runs a script that is made from the two numbers, and reports the result.
    Drill(Rounds),
    /// `storm SEED COUNT`: the same with a script in which bodies are damaged.
    Storm(Rounds),
    /// `vectors`: runs the forty conformance cases, and reports whether one differs.
    Vectors,
    /// `pull PLAN FILE WORDS`: serves a plan's end over a timed input, issues the orders of a transfer that reads the
    /// first words of a file, and reports the result of the transfer.
    Pull {
        /// The file, 0 to 999.
        file: u16,
        /// How many words, 1 to 3,000.
        count: u16,
    },
    /// `push PLAN FILE HEX`: the same for a transfer that writes the words that the fourth word spells.
    Push {
        /// The file, 0 to 999.
        file: u16,
    },
    /// `route`: reads the script of a route, runs it and prints its report.
    Route,
    /// `rehearse pull FILE WORDS`: reads a script, runs it after the orders of a transfer that reads the first words of
    /// a file, prints its report, and reports the result of the transfer.
    RehearsePull {
        /// The file, 0 to 999.
        file: u16,
        /// How many words, 1 to 3,000.
        count: u16,
    },
    /// `rehearse push FILE HEX`: the same for a transfer that writes the words that the fourth word spells.
    RehearsePush {
        /// The file, 0 to 999.
        file: u16,
    },
}

/// The two numbers of a script of rounds.
#[derive(Clone, Copy, Debug, PartialEq, Eq)]
pub(crate) struct Rounds {
    /// The seed: where its patterns (or its hits) and its words begin.
    pub seed: u32,
    /// The number of rounds, 1 to 20,000.
    pub count: u32,
}

/// The refusal of words that are none of the forms.
#[derive(Clone, Copy, Debug, PartialEq, Eq)]
pub(crate) struct NoForm;

impl Refusal for NoForm {
    ghost use Rattle.std.specs.Prelude.{◌≡◌};
    ghost use Rattle.df1_tool.specs.Notes.{usage};

    ghost status_of = { λ _. 2 };

    ghost note_of = { λ _. usage };

    fn status(&self) -> u8 {
        2
    }

    fn note(&self) -> Note {
        noted(
            b"df1: usage: df1 replay | serve PLAN raw|timed | issue PLAN | dissect SIDE CHECK | check SIDE CHECK | drill SEED COUNT | vectors | storm SEED COUNT | route | pull PLAN FILE WORDS | push PLAN FILE HEX | rehearse pull FILE WORDS | rehearse push FILE HEX\n",
        )
    }
}

/// Returns the form that the words have, if they have one. A plan's name is the second word.
#[tactic(auto, unfolding(crate::specs::Forms::form_of))]
pub(crate) fn form_of(words: &[String]) -> Option<Form>
    ensures value { result ≡ the_form (map string_bytes words.now) }
    ensures named { IfSome result (λ form. IsSome (service_of (map string_bytes words.now) form) → 2 ≤ length words.now) }
{
    match words {
        [word] => form_of_one(word),
        [word, _] => form_of_two(word),
        [word, second, third] => form_of_three(word, second, third),
        [word, second, third, fourth] => form_of_four(word, second, third, fourth),
        _ => None,
    }
}

/// Returns the form of one word.
fn form_of_one(word: &str) -> Option<Form>
    ensures { result ≡ of_one word.now }
{
    match word {
        "replay" => Some(Form::Replay),
        "route" => Some(Form::Route),
        "vectors" => Some(Form::Vectors),
        _ => None,
    }
}

/// Returns the form of two words, of which this is the first.
fn form_of_two(word: &str) -> Option<Form>
    ensures { result ≡ of_two word.now }
{
    match word {
        "issue" => Some(Form::Issue),
        _ => None,
    }
}

/// Returns the form of three words.
fn form_of_three(word: &str, second: &str, third: &str) -> Option<Form>
    ensures { result ≡ of_three word.now second.now third.now }
{
    match word {
        "serve" => mode_of(third),
        "dissect" => Some(Form::Dissect(capture_of(second, third)?)),
        "check" => Some(Form::Check(capture_of(second, third)?)),
        "drill" => Some(Form::Drill(rounds_of(second, third)?)),
        "storm" => Some(Form::Storm(rounds_of(second, third)?)),
        _ => None,
    }
}

/// Returns the form of four words.
fn form_of_four(word: &str, second: &str, third: &str, fourth: &str) -> Option<Form>
    ensures { result ≡ of_four word.now second.now third.now fourth.now }
{
    match word {
        "pull" => pull_of(third, fourth),
        "push" => push_of(third, fourth),
        "rehearse" => rehearsal_of(second, third, fourth),
        _ => None,
    }
}

/// Returns the rehearsal of a transfer, if these words are a kind of transfer and its arguments.
fn rehearsal_of(kind: &str, file: &str, what: &str) -> Option<Form>
    ensures { result ≡ the_rehearsal kind.now file.now what.now }
{
    match kind {
        "pull" => rehearsed(pull_of(file, what)),
        "push" => rehearsed(push_of(file, what)),
        _ => None,
    }
}

/// Returns the rehearsal of a transfer.
fn rehearsed(transfer: Option<Form>) -> Option<Form>
    ensures { result ≡ the_rehearsed transfer }
{
    match transfer? {
        Form::Pull { file, count } => Some(Form::RehearsePull { file, count }),
        Form::Push { file } => Some(Form::RehearsePush { file }),
        _ => None,
    }
}

/// Returns the transfer that reads so many words of a file, if both words are numbers in range.
fn pull_of(file: &str, count: &str) -> Option<Form>
    ensures { result ≡ the_pull file.now count.now }
{
    pull_by(
        short_within(file, 0, MOST_FILE),
        short_within(count, 1, MOST_WORDS),
    )
}

/// Returns the transfer of both numbers, if both are present.
fn pull_by(file: Option<u16>, count: Option<u16>) -> Option<Form>
    ensures { result ≡ pull_by file count }
{
    match (file, count) {
        (Some(file), Some(count)) => Some(Form::Pull { file, count }),
        _ => None,
    }
}

/// Returns the transfer that writes words to a file, if these words are the file's number and the words to write.
fn push_of(file: &str, hex: &str) -> Option<Form>
    ensures { result ≡ the_push file.now hex.now }
{
    let file = short_within(file, 0, MOST_FILE)?;
    match data_of(hex) {
        Some(_) => Some(Form::Push { file }),
        None => None,
    }
}

/// Returns the form that the last word of `serve` asks for, if it is one of the two.
fn mode_of(word: &str) -> Option<Form>
    ensures { result ≡ the_mode word.now }
{
    match word {
        "raw" => Some(Form::Serve { timed: false }),
        "timed" => Some(Form::Serve { timed: true }),
        _ => None,
    }
}

/// Returns the rounds that these words specify, if both are numbers in range.
fn rounds_of(seed: &str, count: &str) -> Option<Rounds>
    ensures { result ≡ the_rounds seed.now count.now }
{
    rounds_by(
        number_within(seed, 0, u32::MAX),
        number_within(count, 1, MOST_ROUNDS),
    )
}

/// Returns the rounds of both numbers, if both are present.
fn rounds_by(seed: Option<u32>, count: Option<u32>) -> Option<Rounds>
    ensures { result ≡ rounds_by seed count }
{
    match (seed, count) {
        (Some(seed), Some(count)) => Some(Rounds { seed, count }),
        _ => None,
    }
}

/// Returns the capture that these words specify, if they are a side and a check.
fn capture_of(side: &str, check: &str) -> Option<Capture>
    ensures { result ≡ the_capture side.now check.now }
{
    captured(side_of(side), check_of(check))
}

/// Returns the capture of this side and check, if both are present.
fn captured(side: Option<Side>, check: Option<Check>) -> Option<Capture>
    ensures { result ≡ captured side check }
{
    match (side, check) {
        (Some(side), Some(check)) => Some(Capture { side, check }),
        _ => None,
    }
}

/// Returns the side that a word names, if it is one of the three.
fn side_of(word: &str) -> Option<Side>
    ensures { result ≡ the_side word.now }
{
    match word {
        "full" => Some(Side::Full),
        "master" => Some(Side::Master),
        "slave" => Some(Side::Slave),
        _ => None,
    }
}

/// Returns the check that a word names, if it is one of the two.
fn check_of(word: &str) -> Option<Check>
    ensures { result ≡ the_check word.now }
{
    match word {
        "bcc" => Some(Check::Bcc),
        "crc" => Some(Check::Crc),
        _ => None,
    }
}
