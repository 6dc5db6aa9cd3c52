//! Why a run stops before its end.

ghost use Rattle.std.specs.Prelude.{◌≡◌};
ghost use Rattle.mp_values.specs.declared.stop.Stop.TheVariants.{Refused as WasRefused, NoMemory as WantOfMemory};
ghost use Rattle.mp_values.specs.Outcome.{IsStop, stop_of};
ghost use Rattle.mp_values.specs.Refusals as refusals;
ghost use Rattle.mp_values.specs.Refusals.{error_of_token};

use crate::Fault;
use mp_report::SourceError;
use mp_scaled::{Bytes, NoMemory};
use mp_tokens::BadToken;
use std::alloc::Global;

/// Why a run stops before its end.
#[derive(Debug, Drop)]
pub enum Stop {
    /// The source is refused.
    Refused(SourceError),
    /// An item was to be taken, and the budget of steps was used up.
    OutOfSteps,
    /// A file of that name was asked for, and could not be read.
    Unread(Bytes),
    /// Memory ran out: the one stop that no definition knows.
    NoMemory,
}

impl From<NoMemory> for Stop {
    ghost from_gives = { λ _ made. made ≡ WantOfMemory };

    fn from(_: NoMemory) -> Stop {
        Stop::NoMemory
    }
}

impl From<Fault> for Stop {
    ghost from_gives = { λ fault made. made ≡ stop_of fault };

    fn from(fault: Fault) -> Stop {
        match fault {
            Fault::Refused(error) => Stop::Refused(error),
            Fault::NoMemory => Stop::NoMemory,
        }
    }
}

impl From<BadToken> for Stop {
    ghost from_gives = { λ cause made. made ≡ WasRefused (error_of_token cause) };

    fn from(cause: BadToken) -> Stop {
        Stop::from(Fault::from(cause))
    }
}

impl Stop {
    /// The refusal of something that is not built.
    pub fn not_built(alloc: Global, what: &[u8]) -> Stop
        ensures { IsStop result (refusals.not_built what.now) }
    {
        Stop::from(Fault::not_built(alloc, what))
    }

    /// The refusal of what stood where something else was wanted.
    pub fn unexpected(alloc: Global, wanted: &[u8], stood: &[u8]) -> Stop
        ensures { IsStop result (refusals.unexpected wanted.now stood.now) }
    {
        Stop::from(Fault::unexpected(alloc, wanted, stood))
    }
}
