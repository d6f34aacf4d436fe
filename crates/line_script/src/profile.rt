//! What a script is read for, and the forms and places that follow from it.
ghost use Rattle.std.specs.Prelude.{◌≡◌, map, true, IfOk};
ghost use Rattle.half_script.specs.Forms.{is_kept_out as the_outside, kept as the_kept, said_by};
ghost use Rattle.line_script.specs.Forms.{full_form as the_full_form, is_barred as the_bar, is_half_form as the_half_form, is_to_station as the_way_test, issues_at_a as the_issue_test, names_both as the_both_test, said_for};

use df1_base::NoMemory;
use script_statement::{EndLetter, HalfEvent, Statement, Way, statement_of, station_issue};
use std::alloc::Global;

/// What a script is read for.
#[derive(Clone, Copy, Debug, PartialEq, Eq)]
pub enum Profile {
    /// A replay, of a script of either mode.
    Replay,
    /// A route, of a half-duplex script whose master carries messages between the stations, so that these issue
    /// commands too.
    Route,
    /// A rehearsal, of a full-duplex script that has no commands of end a: these are put in front of it.
    Rehearse,
}

/// Returns what the words of a line say, if they are one of the forms.
pub(crate) fn said(
    alloc: Global,
    words: &[&[u8]],
    profile: Profile,
) -> Result<Option<Statement>, NoMemory>
    ensures { IfOk result (λ s. s ≡ said_for profile (map (λ x. x.now) words.now)) }
{
    match profile {
        Profile::Replay => statement_of(alloc, words),
        Profile::Route => routed(alloc, words),
        Profile::Rehearse => Ok(full_form(statement_of(alloc, words)?)),
    }
}

/// Returns what the words of a line say if the master carries messages.
fn routed(alloc: Global, words: &[&[u8]]) -> Result<Option<Statement>, NoMemory>
    ensures { IfOk result (λ s. s ≡ said_by true (map (λ x. x.now) words.now)) }
{
    match station_issue(alloc, words)? {
        Some(event) => Ok(Some(Statement::Half(event))),
        None => Ok(kept(statement_of(alloc, words)?)),
    }
}

/// Returns a form, unless it is excluded when the master carries messages.
fn kept(statement: Option<Statement>) -> Option<Statement>
    ensures { result ≡ the_kept statement }
{
    match statement {
        Some(statement) if is_kept_out(&statement) => None,
        statement => statement,
    }
}

/// Returns whether a form is excluded when the master carries messages: `set mode`, and a command of the master with an
/// explicit SRC.
fn is_kept_out(statement: &Statement) -> bool
    ensures { result ≡ the_outside statement.now }
{
    match statement {
        Statement::Mode { .. } | Statement::Half(HalfEvent::IssueFrom { .. }) => true,
        _ => false,
    }
}

/// Returns a form, unless only half mode has it.
fn full_form(statement: Option<Statement>) -> Option<Statement>
    ensures { result ≡ the_full_form statement }
{
    match statement {
        Some(statement) if is_half_form(&statement) => None,
        statement => statement,
    }
}

/// Returns whether a form has the cause `place`, whatever else is wrong with it.
pub(crate) fn is_barred(statement: &Statement, profile: Profile) -> bool
    ensures { result ≡ the_bar profile statement.now }
{
    match profile {
        Profile::Replay | Profile::Route => false,
        Profile::Rehearse => issues_at_a(statement),
    }
}

/// Returns whether a statement has a form that only half mode has.
fn is_half_form(statement: &Statement) -> bool
    ensures { result ≡ the_half_form statement.now }
{
    match statement {
        Statement::Mode { half } => *half,
        Statement::Station(_) => true,
        Statement::Half(event) => names_both(event),
        _ => false,
    }
}

/// Returns whether an event names the master and a station.
fn names_both(event: &HalfEvent) -> bool
    ensures { result ≡ the_both_test event.now }
{
    match event {
        HalfEvent::Issue { .. } | HalfEvent::IssueFrom { .. } => true,
        HalfEvent::Deliver { way, .. } | HalfEvent::Lose { way, .. } => is_to_station(*way),
        HalfEvent::Alter { way, .. } | HalfEvent::Foreign { way, .. } => is_to_station(*way),
        _ => false,
    }
}

/// Returns whether it is the direction from the master.
fn is_to_station(way: Way) -> bool
    ensures { result ≡ the_way_test way }
{
    matches!(way, Way::ToStation(_))
}

/// Returns whether a statement issues a command at end a.
fn issues_at_a(statement: &Statement) -> bool
    ensures { result ≡ the_issue_test statement.now }
{
    match statement {
        Statement::Issue { side, .. } | Statement::IssueFrom { side, .. } => *side == EndLetter::A,
        _ => false,
    }
}
