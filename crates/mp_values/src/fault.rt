//! Why an act is not done.

ghost use Rattle.std.specs.Prelude.{◌≡◌, IfOk, IfErr};
ghost use Rattle.mp_values.specs.declared.fault.Fault.TheVariants.{Refused as WasRefused, NoMemory as WantOfMemory};
ghost use Rattle.mp_values.specs.Outcome.{IsFault};
ghost use Rattle.mp_values.specs.Refusals as refusals;
ghost use Rattle.mp_values.specs.Refusals.{error_of_arith, error_of_form, error_of_token};

use mp_forms::FormFault;
use mp_report::SourceError;
use mp_scaled::{Arith, Bytes, NoMemory};
use mp_tokens::BadToken;
use std::alloc::Global;

/// Why an act of a statement or an operator is not done. (A run has more causes to stop: [`crate::Stop`].)
#[derive(Debug, Drop)]
pub enum Fault {
    /// The source is refused.
    Refused(SourceError),
    /// Memory ran out: the one fault that no definition knows.
    NoMemory,
}

impl From<NoMemory> for Fault {
    ghost from_gives = { λ _ made. made ≡ WantOfMemory };

    fn from(_: NoMemory) -> Fault {
        Fault::NoMemory
    }
}

impl From<Arith> for Fault {
    ghost from_gives = { λ fault made. made ≡ WasRefused (error_of_arith fault) };

    fn from(fault: Arith) -> Fault {
        match fault {
            Arith::Overflow => Fault::Refused(SourceError::Overflow),
            Arith::DivisionByZero => Fault::Refused(SourceError::DivisionByZero),
        }
    }
}

impl From<FormFault> for Fault {
    ghost from_gives = { λ fault made. made ≡ WasRefused (error_of_form fault) };

    fn from(fault: FormFault) -> Fault {
        match fault {
            FormFault::Overflow => Fault::Refused(SourceError::Overflow),
            FormFault::CoefficientTooLarge => Fault::Refused(SourceError::CoefficientTooLarge),
            FormFault::DivisionByZero => Fault::Refused(SourceError::DivisionByZero),
        }
    }
}

impl From<BadToken> for Fault {
    ghost from_gives = { λ cause made. made ≡ WasRefused (error_of_token cause) };

    fn from(cause: BadToken) -> Fault {
        Fault::Refused(match cause {
            BadToken::Character(byte) => SourceError::BadCharacter(u32::from(byte)),
            BadToken::Unfinished => SourceError::UnfinishedString,
            BadToken::Enormous => SourceError::EnormousNumber,
        })
    }
}

/// A refusal, where there was memory for what it keeps.
fn refused(error: Result<SourceError, NoMemory>) -> Fault
    ensures made { IfOk error (λ e. result ≡ WasRefused e) }
    ensures starved { IfErr error (λ _. result ≡ WantOfMemory) }
{
    match error {
        Ok(error) => Fault::Refused(error),
        Err(NoMemory) => Fault::NoMemory,
    }
}

impl Fault {
    /// The refusal of a type that the operator or word does not allow.
    pub fn wrong_type(alloc: Global, op: &[u8]) -> Fault
        ensures { IsFault result (refusals.wrong_type op.now) }
    {
        refused(Bytes::copy_of(alloc, op).map(SourceError::WrongType))
    }

    /// The refusal of what is not built.
    pub fn not_built(alloc: Global, what: &[u8]) -> Fault
        ensures { IsFault result (refusals.unbuilt what.now) }
    {
        refused(Bytes::copy_of(alloc, what).map(SourceError::NotBuilt))
    }

    /// The refusal of an unknown where the operator or word needs a known value.
    pub fn not_known(alloc: Global, op: &[u8]) -> Fault
        ensures { IsFault result (refusals.not_known op.now) }
    {
        refused(Bytes::copy_of(alloc, op).map(SourceError::NotKnown))
    }

    /// The refusal of what stood where something else was wanted.
    pub fn unexpected(alloc: Global, wanted: &[u8], stood: &[u8]) -> Fault
        ensures { IsFault result (refusals.unexpected_error wanted.now stood.now) }
    {
        match (Bytes::copy_of(alloc, wanted), Bytes::copy_of(alloc, stood)) {
            (Ok(wanted), Ok(stood)) => Fault::Refused(SourceError::Unexpected(wanted, stood)),
            _ => Fault::NoMemory,
        }
    }
}
