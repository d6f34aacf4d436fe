//! The setup of an end.

ghost use Rattle.std.specs.Prelude.{◌≡◌};
ghost use Rattle.outset.specs.Outset.{limits_of, setup_of};

use df1_check::Check;
use duplex_end::Setup;
use duplex_sender::Limits;
use script_parts::EndPlan;

/// Returns the setup of the end of a plan, on a line whose frames end with this check.
pub fn setup_of(check: Check, plan: &EndPlan) -> Setup
    ensures { result ≡ setup_of check plan.now }
{
    Setup {
        check,
        embed: plan.embed,
        limits: Limits {
            ack_ticks: plan.ack_ticks,
            max_naks: plan.max_naks,
            max_enqs: plan.max_enqs,
        },
    }
}
