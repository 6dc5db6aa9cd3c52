//! The texts of faults, which no clause says.

use mp_forms::FormFault;
use mp_scaled::Arith;
use mp_trig::TrigFault;
use std::alloc::Global;
use std::fmt::Display;
use std::test::Fail;

/// Fails with the first text that its fault does not show.
fn all_show<F: Display>(alloc: Global, rows: &[(F, &'static str)]) -> Result<(), Fail> {
    for (fault, want) in rows {
        if format!(in alloc; "{fault}")?.as_str() != *want {
            return Err(Fail::new(*want));
        }
    }
    Ok(())
}

#[test]
fn faults_show_these_texts(rt: HostRuntime) -> Result<(), Fail> {
    let alloc = rt.alloc();
    all_show(
        alloc,
        &[
            (Arith::Overflow, "overflow"),
            (Arith::DivisionByZero, "division by zero"),
        ],
    )?;
    all_show(
        alloc,
        &[
            (FormFault::Overflow, "overflow"),
            (FormFault::CoefficientTooLarge, "coefficient too large"),
            (FormFault::DivisionByZero, "division by zero"),
        ],
    )?;
    all_show(
        alloc,
        &[
            (TrigFault::OutOfDomain, "out of domain"),
            (TrigFault::Overflow, "overflow"),
        ],
    )
}
