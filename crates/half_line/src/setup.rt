//! How the ends are set up.

ghost use Rattle.std.specs.Prelude.{◌≡◌};
ghost use Rattle.half_line.specs.Run.{master_setup as the_master_setup, slave_setup as the_slave_setup};

use df1_check::Check;
use half_master::MasterSetup;
use half_slave::SlaveSetup;
use script_parts::EndPlan;

/// Returns the setup of the master of a plan, on a line whose messages end with this check.
pub(crate) fn master_setup(check: Check, plan: &EndPlan) -> MasterSetup
    ensures { result ≡ the_master_setup check plan.now }
{
    MasterSetup {
        check,
        ack_ticks: plan.ack_ticks,
        max_resends: plan.max_resends,
        poll_ticks: plan.poll_ticks,
    }
}

/// Returns the setup of the station of a plan: its number is its address.
pub(crate) fn slave_setup(check: Check, plan: &EndPlan) -> SlaveSetup
    ensures { result ≡ the_slave_setup check plan.now }
{
    SlaveSetup {
        station: plan.node,
        check,
        max_sends: plan.max_sends,
    }
}
