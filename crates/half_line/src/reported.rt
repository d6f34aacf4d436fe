//! What is reported of a run: the lines of its report, and how often an end was deceived.

use replay_report::Page;

/// The lines so far, and how often an end was deceived.
#[derive(Drop)]
pub(crate) struct Reported {
    pub lines: Page,
    pub deceived: u64,
}
