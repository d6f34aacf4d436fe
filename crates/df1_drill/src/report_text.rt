//! The report of a drill, as one text in memory.
ghost use Rattle.std.specs.Prelude.{◌≡◌, IfOk};
ghost use Rattle.replay_report.specs.Report.{report};

use df1_base::{Collected, Failed, NoMemory};
use replay_report::{Record, print};
use std::alloc::Global;

/// Returns the text of the report of a run. An error is a failed allocation.
pub(crate) fn text_of(alloc: Global, run: &Record) -> Result<Collected, NoMemory>
    ensures { IfOk result (λ text. text.held ≡ report run.now) }
{
    let mut text = Collected::new(alloc);
    match print(run, &mut text) {
        Ok(()) => Ok(text),
        Err(Failed) => Err(NoMemory),
    }
}
