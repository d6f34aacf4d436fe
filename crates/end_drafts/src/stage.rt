//! What the lines so far allow.
ghost use Rattle.std.specs.Prelude.{◌≡◌};
ghost use Rattle.end_drafts.specs.Stages.{is_fresh as the_fresh_test, is_set_up as the_set_up_test, stage_after};

use script_statement::Statement;

/// The kinds of lines so far.
#[derive(Clone, Copy, Debug, PartialEq, Eq)]
pub enum Stage {
    /// No line of a form so far.
    Fresh,
    /// Settings, stations, files and words so far, and no event.
    Settings,
    /// An event so far.
    Events,
    /// `end` so far.
    Ended,
}

impl Stage {
    /// Returns the stage after a statement.
    pub fn after(statement: &Statement) -> Stage
        ensures { result ≡ stage_after statement.now }
    {
        match statement {
            Statement::Mode { .. }
            | Statement::Check(_)
            | Statement::Station(_)
            | Statement::Setup { .. } => Stage::Settings,
            Statement::Issue { .. }
            | Statement::IssueFrom { .. }
            | Statement::Times { .. }
            | Statement::Alter { .. }
            | Statement::Foreign { .. }
            | Statement::Half(_) => Stage::Events,
            Statement::End => Stage::Ended,
        }
    }

    /// Returns whether there was no line of a form.
    pub fn is_fresh(self) -> bool
        ensures { result ≡ the_fresh_test self }
    {
        matches!(self, Stage::Fresh)
    }

    /// Returns whether there was an event, or `end`, so that no setting, station, file or word may follow.
    pub fn is_set_up(self) -> bool
        ensures { result ≡ the_set_up_test self }
    {
        matches!(self, Stage::Events | Stage::Ended)
    }
}
