//! The faults by which the service of a plan's end fails.
ghost use Rattle.std.specs.Prelude.{◌≡◌};

use df1_base::NoMemory;
use df1_plan::PlanFault;
use df1_shelf::FetchFault;
use thiserror::Error;

/// The reason why a service failed.
#[derive(Clone, Copy, Debug, PartialEq, Eq, Error)]
pub enum ServiceFault {
    /// The shelf failed to read the plan.
    #[error("the plan cannot be read")]
    PlanFailed,
    /// The plan is over 1,048,576 bytes.
    #[error("the plan is over its limit")]
    PlanTooLong,
    /// The document is not a plan, for this cause, which isn't want of memory.
    #[error("the plan is refused: {0}")]
    Plan(PlanFault),
    /// The record that begins at this offset of the input, in bytes from 0, has an unknown form.
    #[error("the record at {0} has none of the forms")]
    Form(u64),
    /// The record that begins at this offset of the input is a single last byte.
    #[error("the record at {0} is cut")]
    Cut(u64),
    /// The input failed.
    #[error("the input cannot be read")]
    Input,
    /// The output failed.
    #[error("the output cannot be written")]
    Output,
    /// The input is over 268,435,456 bytes.
    #[error("the input is over its limit")]
    TooLong,
    /// There is no memory left.
    #[error("no memory")]
    NoMemory,
}

impl From<NoMemory> for ServiceFault {
    ghost use Rattle.std.specs.Prelude.{◌≡◌};
    ghost use Rattle.df1_service.specs.declared.fault.ServiceFault.TheVariants.{NoMemory as Wanting};

    ghost from_gives = { λ _ e. e ≡ Wanting };

    fn from(_: NoMemory) -> Self {
        ServiceFault::NoMemory
    }
}

impl From<FetchFault> for ServiceFault {
    ghost use Rattle.std.specs.Prelude.{◌≡◌};
    ghost use Rattle.df1_service.specs.Plans.{fault_of_fetch};

    ghost from_gives = { λ fault e. e ≡ fault_of_fetch fault };

    fn from(fault: FetchFault) -> Self {
        match fault {
            FetchFault::Failed => ServiceFault::PlanFailed,
            FetchFault::TooLong => ServiceFault::PlanTooLong,
            FetchFault::NoMemory => ServiceFault::NoMemory,
        }
    }
}

impl From<PlanFault> for ServiceFault {
    ghost use Rattle.std.specs.Prelude.{◌≡◌};
    ghost use Rattle.df1_service.specs.Plans.{fault_of_plan};

    ghost from_gives = { λ fault e. e ≡ fault_of_plan fault };

    fn from(fault: PlanFault) -> Self {
        match fault {
            PlanFault::NoMemory => ServiceFault::NoMemory,
            cause => ServiceFault::Plan(cause),
        }
    }
}
