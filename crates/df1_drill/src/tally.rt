//! Counts of a script's commands, and of the lines of each kind in a report.
ghost use Rattle.std.specs.Prelude.{◌≡◌, count_by};
ghost use Rattle.script_parts.specs.HalfPlayable.{is_issue as the_issue_test};
ghost use Rattle.df1_drill.specs.Tally.{is_answered as the_answered_test, is_damaged as the_damaged_test, is_enquiry as the_enquiry_test, is_exec as the_exec_test, is_repeat as the_repeat_test};

use replay_report::Line;
use script_parts::Event;

/// Returns how many commands are issued.
pub(crate) fn issued(events: &[Event]) -> usize
    ensures { result ≡ count_by the_issue_test events.now }
{
    events.iter().filter(|event| is_issue(event)).count()
}

/// Returns how many commands were executed.
pub(crate) fn executed(lines: &[Line]) -> usize
    ensures { result ≡ count_by the_exec_test lines.now }
{
    lines.iter().filter(|line| is_exec(line)).count()
}

/// Returns how many commands were answered.
pub(crate) fn answered(lines: &[Line]) -> usize
    ensures { result ≡ count_by the_answered_test lines.now }
{
    lines.iter().filter(|line| is_answered(line)).count()
}

/// Returns how many messages arrived damaged.
pub(crate) fn damaged(lines: &[Line]) -> usize
    ensures { result ≡ count_by the_damaged_test lines.now }
{
    lines.iter().filter(|line| is_damaged(line)).count()
}

/// Returns how many messages were duplicates.
pub(crate) fn repeats(lines: &[Line]) -> usize
    ensures { result ≡ count_by the_repeat_test lines.now }
{
    lines.iter().filter(|line| is_repeat(line)).count()
}

/// Returns how often a missing response was asked for.
pub(crate) fn enquiries(lines: &[Line]) -> usize
    ensures { result ≡ count_by the_enquiry_test lines.now }
{
    lines.iter().filter(|line| is_enquiry(line)).count()
}

fn is_issue(event: &Event) -> bool
    ensures { result ≡ the_issue_test event.now }
{
    matches!(event, Event::Issue { .. })
}

fn is_exec(line: &Line) -> bool
    ensures { result ≡ the_exec_test line.now }
{
    matches!(line, Line::Exec { .. })
}

fn is_answered(line: &Line) -> bool
    ensures { result ≡ the_answered_test line.now }
{
    matches!(line, Line::Answered { .. })
}

fn is_damaged(line: &Line) -> bool
    ensures { result ≡ the_damaged_test line.now }
{
    matches!(line, Line::Damaged { .. })
}

fn is_repeat(line: &Line) -> bool
    ensures { result ≡ the_repeat_test line.now }
{
    matches!(line, Line::Repeat { .. })
}

fn is_enquiry(line: &Line) -> bool
    ensures { result ≡ the_enquiry_test line.now }
{
    matches!(line, Line::Enquiry { .. })
}
