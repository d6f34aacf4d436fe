//! What is wrong with a statement that follows the lines so far: one test for each flaw, and the first that fits.
ghost use Rattle.std.specs.Prelude.{◌≡◌};
ghost use Rattle.duplex_script.specs.Drafts.{flaw_of as the_flaw, is_misplaced as the_misplaced, is_missing as the_missing, is_out_of_range as the_range_test, is_twice as the_twice, is_spent as the_spent, steps_of as the_steps};

use crate::DuplexReader;
use end_drafts::{Flaw, Stage};
use end_settings::Role;
use script_statement::{EndName, Statement};

impl DuplexReader {
    /// Returns the first flaw that a statement has, in the order of the flaws.
    pub(crate) fn flaw_of(&self, statement: &Statement) -> Option<Flaw>
        ensures { result ≡ the_flaw self.now statement.now }
    {
        if is_misplaced(self.stage, statement) {
            Some(Flaw::Place)
        } else if self.is_missing(statement) {
            Some(Flaw::Missing)
        } else if self.is_out_of_range(statement) {
            Some(Flaw::Value)
        } else if self.is_twice(statement) {
            Some(Flaw::Twice)
        } else if self.is_spent(statement) {
            Some(Flaw::Spent)
        } else if steps_of(statement) > self.events_left {
            Some(Flaw::Events)
        } else {
            None
        }
    }

    /// Returns whether the statement names an end or an event that full duplex doesn't have, a key that isn't for its
    /// ends, or a file that isn't declared.
    fn is_missing(&self, statement: &Statement) -> bool
        ensures { result ≡ the_missing self.now statement.now }
    {
        match statement {
            Statement::Mode { half } => *half,
            Statement::Setup {
                end: EndName::Known(side),
                line,
            } => self.end(*side).lacks(Role::Duplex, line),
            Statement::Setup { .. } | Statement::Half(_) => true,
            _ => false,
        }
    }

    /// Returns whether a number, a word or a length is out of its range, or a compatibility file is of another type
    /// than bit or integer.
    fn is_out_of_range(&self, statement: &Statement) -> bool
        ensures { result ≡ the_range_test self.now statement.now }
    {
        match statement {
            Statement::Check(check) => check.is_none(),
            Statement::Setup {
                end: EndName::Known(side),
                line,
            } => self.end(*side).exceeds(line),
            Statement::Issue { payload, .. } => payload.is_none(),
            Statement::IssueFrom { src, payload, .. } => src.is_none() || payload.is_none(),
            Statement::Times { n, .. } => n.is_none(),
            Statement::Alter { mask, .. } => mask.is_none(),
            Statement::Foreign { bytes, .. } => bytes.is_none(),
            _ => false,
        }
    }

    /// Returns whether an earlier line set the key, the file or the word.
    fn is_twice(&self, statement: &Statement) -> bool
        ensures { result ≡ the_twice self.now statement.now }
    {
        match statement {
            Statement::Check(_) => self.check.is_some(),
            Statement::Setup {
                end: EndName::Known(side),
                line,
            } => self.end(*side).repeats(line),
            _ => false,
        }
    }

    /// Returns whether the statement is a command of an end that may issue no more.
    fn is_spent(&self, statement: &Statement) -> bool
        ensures { result ≡ the_spent self.now statement.now }
    {
        match statement {
            Statement::Issue { side, .. } | Statement::IssueFrom { side, .. } => {
                self.end(*side).commands_left == 0
            }
            _ => false,
        }
    }
}

/// Returns whether a statement may not stand here.
fn is_misplaced(stage: Stage, statement: &Statement) -> bool
    ensures { result ≡ the_misplaced stage statement.now }
{
    match statement {
        Statement::Mode { .. } => !stage.is_fresh(),
        Statement::Station(_) => true,
        Statement::Check(_) | Statement::Setup { .. } => stage.is_set_up(),
        _ => false,
    }
}

/// Returns how many events a statement counts.
pub(crate) fn steps_of(statement: &Statement) -> usize
    ensures { result ≡ the_steps statement.now }
{
    match statement {
        Statement::Issue { .. } | Statement::IssueFrom { .. } | Statement::Alter { .. } => 1,
        Statement::Times { n: Some(n), .. } => *n as usize,
        Statement::Foreign {
            bytes: Some(bytes),
            ..
        } => bytes.as_slice().len(),
        _ => 0,
    }
}
