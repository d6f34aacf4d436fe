//! The ends of a script of rounds.
ghost use Rattle.std.specs.Prelude.{◌≡◌, IfOk};
ghost use Rattle.script_parts.specs.Plans.{first_plan};
ghost use Rattle.round_scripts.specs.Rounds.{setup};

use data_files::FileSpec;
use df1_base::{FileType, NoMemory};
use df1_check::Check;
use end_settings::Settings;
use script_parts::{EndPlan, Items, Script, Specs, Who};
use std::alloc::Global;

/// The most rounds of a script.
pub const MOST_ROUNDS: u32 = 20_000;

/// The address of end b.
pub(crate) const NODE_OF_B: u8 = 1;

/// The file that the commands write: the only one of end b.
const FILE: FileSpec = FileSpec {
    number: 7,
    kind: FileType::Integer,
    count: 16,
};

/// Returns the script without its events.
pub fn setup(alloc: Global) -> Result<Script, NoMemory>
    ensures { IfOk result (λ script. script ≡ setup) }
{
    let mut files = Items::new(alloc);
    files.push(FILE)?;
    let mut ends = Items::new(alloc);
    ends.push(end(alloc, Who::A, 0, Items::new(alloc)))?;
    ends.push(end(alloc, Who::B, NODE_OF_B, files))?;
    Ok(Script {
        half: false,
        check: Check::Bcc,
        ends,
        events: Items::new(alloc),
    })
}

/// Returns the plan of an end with this address and these files. All else has its initial value.
fn end(alloc: Global, who: Who, address: u8, files: Specs) -> EndPlan
    ensures { result ≡ record (first_plan who address) { files = files } }
{
    let settings = Settings::new();
    EndPlan::new(
        who,
        address,
        &settings,
        None,
        Items::new(alloc),
        files,
        Items::new(alloc),
    )
}
