//! The result of a drill or a storm, and the line that reports it.
ghost use Rattle.std.specs.Prelude.{◌≡◌, ◌≤◌, ◌+◌, ◌++◌, IfOk, decimal, length};
ghost use Rattle.arrayvec.specs.ArrayVec.{array_vec_len};
ghost use Rattle.replay_report.specs.Report.{word_digits};
ghost use Rattle.script_parts.specs.HalfPlayable.{CanBePlayed};
ghost use Rattle.df1_drill.specs.Tally.{drilled, line_of, run_tally as the_tally};

use crate::report_text::text_of;
use crate::script::drill_script;
use crate::tally::{answered, damaged, enquiries, executed, issued, repeats};
use arrayvec::ArrayVec;
use df1_base::{NoMemory, append};
use df1_check::crc;
use line_world::replay;
use replay_report::pair;
use round_scripts::MOST_ROUNDS;
use script_parts::Script;
use std::alloc::Global;

/// The buffer size for the line, in bytes: seven numbers of at most 20 digits, four hexadecimal digits, and the words.
pub const LINE: usize = 219;

/// The result of the run of a script.
#[derive(Clone, Copy, Debug, PartialEq, Eq)]
pub struct Drilled {
    /// The number of commands that the script issues.
    pub issued: usize,
    /// The number of commands that were executed.
    pub executed: usize,
    /// The number of commands that were answered.
    pub answered: usize,
    /// The number of messages that arrived damaged.
    pub damaged: usize,
    /// The number of duplicate messages.
    pub repeats: usize,
    /// The number of times a missing response was asked for.
    pub enquiries: usize,
    /// The number of times an end was deceived.
    pub deceived: u64,
    /// The CRC-16 of the report's text.
    pub report: u16,
}

/// Runs the drill's script of `count` rounds, at most 20,000, whose patterns and words begin at `seed`, and counts what
/// its report says. An error is want of memory.
pub fn drill(alloc: Global, seed: u32, count: u32) -> Result<Drilled, NoMemory>
    requires { count ≤ MOST_ROUNDS }
    ensures { IfOk result (λ d. d ≡ drilled seed count) }
{
    run_tally(alloc, &drill_script(alloc, seed, count)?)
}

/// Runs a script that can be played, and counts what its report says. An error is want of memory.
pub(crate) fn run_tally(alloc: Global, script: &Script) -> Result<Drilled, NoMemory>
    requires { CanBePlayed script.now }
    ensures { IfOk result (λ d. d ≡ the_tally script.now) }
{
    let record = replay(alloc, script)?;
    let report = text_of(alloc, &record)?;
    let lines = record.lines.as_slice();
    Ok(Drilled {
        issued: issued(script.events.as_slice()),
        executed: executed(lines),
        answered: answered(lines),
        damaged: damaged(lines),
        repeats: repeats(lines),
        enquiries: enquiries(lines),
        deceived: record.deceived,
        report: crc(report.bytes()),
    })
}

impl Drilled {
    /// Returns the line that reports it, which ends with a line feed: the counts in decimal, and the CRC in four
    /// hexadecimal digits, high byte first.
    pub fn line(&self) -> ArrayVec<u8, LINE>
        ensures { result.items ≡ line_of self.now }
    {
        let mut line = ArrayVec::new();
        append_count(&mut line, b"issued ", self.issued as u64);
        append_count(&mut line, b" executed ", self.executed as u64);
        append_count(&mut line, b" answered ", self.answered as u64);
        append_count(&mut line, b" damaged ", self.damaged as u64);
        append_count(&mut line, b" repeats ", self.repeats as u64);
        append_count(&mut line, b" enquiries ", self.enquiries as u64);
        append_count(&mut line, b" deceived ", self.deceived);
        append(&mut line, b" report ");
        append_digits(&mut line, self.report);
        append(&mut line, b"\n");
        line
    }
}

/// Appends a name and a count to a line that has room for them.
fn append_count(line: &mut ArrayVec<u8, LINE>, name: &[u8], n: u64)
    requires { array_vec_len line.old + length name.now + 20 ≤ LINE }
    ensures text { line.new.items ≡ line.old.items ++ name.now ++ decimal n }
    ensures size { array_vec_len line.new ≤ array_vec_len line.old + length name.now + 20 }
{
    append(line, name);
    append(line, itoa::Buffer::new().format(n).as_bytes());
}

/// Appends the four hexadecimal digits of a number, high byte first, to a line that has room for them.
fn append_digits(line: &mut ArrayVec<u8, LINE>, n: u16)
    requires { array_vec_len line.old + 4 ≤ LINE }
    ensures text { line.new.items ≡ line.old.items ++ word_digits n }
    ensures size { array_vec_len line.new ≡ array_vec_len line.old + 4 }
{
    append(line, &pair((n / 256) as u8));
    append(line, &pair((n % 256) as u8));
}
