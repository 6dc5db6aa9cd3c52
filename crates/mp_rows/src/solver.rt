use mp_forms::Form;
use mp_solver::{Equated, FormView, Fresh, State, System};
use std::alloc::Global;
use std::test::Fail;

/// A constant, and serials with their coefficients.
type Plain = (i32, &'static [(u32, i64)]);

/// 1 as a coefficient.
const ONE: i64 = 1 << 28;

/// The form with a constant and terms, made by the calls themselves.
fn form_of(alloc: Global, plain: Plain) -> Result<Form, Fail> {
    let (constant, terms) = plain;
    let mut form = Form::constant_of(alloc, constant);
    for (serial, coefficient) in terms {
        let unknown = Form::unknown(alloc, *serial)?;
        if coefficient.unsigned_abs() < 1 << 44 {
            form = form.add_times(alloc, *coefficient, &unknown)??;
        }
    }
    Ok(form)
}

fn system_of(alloc: Global, unknowns: u32) -> Result<System, Fail> {
    let mut system = System::new(alloc);
    for _ in 0..unknowns {
        system.fresh(b"u")?;
    }
    Ok(system)
}

/// What the equation comes to; none where it names another unknown.
fn equated(system: &mut System, form: &Form) -> Result<Option<Equated>, Fail> {
    if !system.has_unknowns_of(form) {
        return Ok(None);
    }
    let ready = system.ready(form)??;
    Ok(Some(system.equate(ready)))
}

fn is_form(form: &Form, plain: Plain) -> bool {
    let (constant, terms) = plain;
    form.constant() == constant
        && form.terms().len() == terms.len()
        && form.terms().iter().zip(terms).all(|(term, want)| term.serial == want.0
            && term.coefficient == want.1)
}

/// Whether the form, brought up to date, is that one.
fn reduces_to(alloc: Global, system: &System, form: Plain, want: Plain) -> Result<bool, Fail> {
    let form = form_of(alloc, form)?;
    if !system.has_unknowns_of(&form) {
        return Ok(false);
    }
    Ok(
        is_form(&system.reduce(alloc, &form)??, want)
            && is_form(&system.reduce_owned(alloc, form)??, want),
    )
}

/// A system of two unknowns after these equations; none where one comes to something else.
fn after(alloc: Global, equations: &[(Plain, Equated)]) -> Result<Option<System>, Fail> {
    let mut system = system_of(alloc, 2)?;
    for (form, want) in equations {
        let form = form_of(alloc, *form)?;
        if equated(&mut system, &form)? != Some(*want) {
            return Ok(None);
        }
    }
    Ok(Some(system))
}

/// Whether the equations come to what is said, and the forms are brought up to date to those.
fn solves(
    alloc: Global,
    equations: &[(Plain, Equated)],
    reduced: &[(Plain, Plain)],
) -> Result<bool, Fail> {
    let Some(system) = after(alloc, equations)? else {
        return Ok(false);
    };
    for (form, want) in reduced {
        if !reduces_to(alloc, &system, *form, *want)? {
            return Ok(false);
        }
    }
    Ok(true)
}

/// The first unknown, and the second.
const X: Plain = (0, &[(1, ONE)]);

const Y: Plain = (0, &[(2, ONE)]);

#[test]
fn equations(rt: HostRuntime) -> Result<(), Fail> {
    let alloc = rt.alloc();
    // x+y=3; x-y=1
    let sum: (Plain, Equated) = ((-196608, &[(1, ONE), (2, ONE)]), Equated::Accepted);
    let difference: (Plain, Equated) = ((-65536, &[(1, ONE), (2, -ONE)]), Equated::Accepted);
    assert!(rt; solves(alloc, &[sum], &[(Y, (196608, &[(1, -ONE)]))])?);
    assert!(rt;
        solves(
            alloc,
            &[sum, difference],
            &[(X, (131072, &[])), (Y, (65536, &[]))]
        )?
    );
    // 2x+y=3
    let twice: (Plain, Equated) = ((-196608, &[(1, 2 * ONE), (2, ONE)]), Equated::Accepted);
    assert!(rt; solves(alloc, &[twice], &[(X, (98304, &[(2, -ONE / 2)]))])?);
    Ok(())
}

#[test]
fn residuals(rt: HostRuntime) -> Result<(), Fail> {
    let alloc = rt.alloc();
    // x=1; x=1.00098; x=1.00099
    let one: (Plain, Equated) = ((-65536, &[(1, ONE)]), Equated::Accepted);
    let near: (Plain, Equated) = ((-65600, &[(1, ONE)]), Equated::Redundant(-64));
    let off: (Plain, Equated) = ((-65601, &[(1, ONE)]), Equated::Inconsistent(-65));
    assert!(rt; solves(alloc, &[one, near, off], &[(X, (65536, &[]))])?);
    // x=x
    let same: (Plain, Equated) = ((0, &[]), Equated::Redundant(0));
    assert!(rt; solves(alloc, &[same], &[(X, X)])?);
    // y=x; x/200000=1
    let equal: (Plain, Equated) = ((0, &[(1, ONE), (2, -ONE)]), Equated::Accepted);
    let large: (Plain, Equated) = ((-65536, &[(1, 1343)]), Equated::Overflow);
    assert!(rt; solves(alloc, &[equal, large], &[(X, X), (Y, X)])?);
    Ok(())
}

/// Whether a form has these terms and no others.
fn are_terms(form: &FormView<'_>, wanted: &[(u32, i64)]) -> bool {
    let mut found = form.terms();
    for want in wanted {
        match found.next() {
            Some(term) if term.serial == want.0 && term.coefficient == want.1 => {}
            _ => return false,
        }
    }
    found.next().is_none()
}

/// What is known of an unknown: its form, or that it is independent.
fn state_is(system: &System, serial: u32, want: Option<Plain>) -> bool {
    if !system.has_unknown(serial) {
        return false;
    }
    match (system.state(serial), want) {
        (State::Independent, None) => true,
        (State::Dependent(form), Some((constant, terms))) => {
            form.constant() == constant && are_terms(&form, terms)
        }
        _ => false,
    }
}

/// Whether the equations are accepted, and leave that of two unknowns.
fn leaves(
    alloc: Global,
    equations: &[(Plain, Equated)],
    states: [Option<Plain>; 2],
) -> Result<bool, Fail> {
    let Some(system) = after(alloc, equations)? else {
        return Ok(false);
    };
    Ok(state_is(&system, 1, states[0]) && state_is(&system, 2, states[1]))
}

#[test]
fn states(rt: HostRuntime) -> Result<(), Fail> {
    let alloc = rt.alloc();
    // 2x+y=3; y=1
    let twice: (Plain, Equated) = ((-196608, &[(1, 2 * ONE), (2, ONE)]), Equated::Accepted);
    let one: (Plain, Equated) = ((-65536, &[(2, ONE)]), Equated::Accepted);
    assert!(rt; leaves(alloc, &[], [None, None])?);
    assert!(rt; leaves(alloc, &[twice], [Some((98304, &[(2, -ONE / 2)])), None])?);
    assert!(rt;
        leaves(
            alloc,
            &[twice, one],
            [Some((65536, &[])), Some((65536, &[]))]
        )?
    );
    Ok(())
}

/// The name of an unknown, where there is such an unknown.
fn name_of(system: &System, serial: u32) -> Option<&[u8]> {
    if system.has_unknown(serial) {
        system.name(serial)
    } else {
        None
    }
}

#[test]
fn whole_or_not_at_all(rt: HostRuntime) -> Result<(), Fail> {
    let alloc = rt.alloc();
    let mut system = system_of(alloc, 3)?;
    // x+y=30000; z-x=30000
    let sum: Plain = (-1966080000, &[(1, ONE), (2, ONE)]);
    let difference: Plain = (-1966080000, &[(1, -ONE), (3, ONE)]);
    for form in [sum, difference] {
        let form = form_of(alloc, form)?;
        assert_eq!(rt; equated(&mut system, &form)?, Some(Equated::Accepted));
    }
    // x=10000
    let large = form_of(alloc, (-655360000, &[(1, ONE)]))?;
    for answer in [None, Some(Equated::Overflow)] {
        if answer.is_some() {
            assert_eq!(rt; equated(&mut system, &large)?, answer);
        }
        assert!(rt; state_is(&system, 1, None));
        assert!(rt; state_is(&system, 2, Some((1966080000, &[(1, -ONE)]))));
        assert!(rt; state_is(&system, 3, Some((1966080000, &[(1, ONE)]))));
        assert_eq!(rt; system.changes(), 5);
        assert_eq!(rt; system.used(), 2);
    }
    // x=2000
    let small = form_of(alloc, (-131072000, &[(1, ONE)]))?;
    assert_eq!(rt; equated(&mut system, &small)?, Some(Equated::Accepted));
    assert_eq!(rt; system.used(), 0);
    assert!(rt; state_is(&system, 2, Some((1835008000, &[]))));
    assert!(rt; state_is(&system, 3, Some((2097152000, &[]))));
    Ok(())
}

fn unname(system: &mut System, serial: u32) {
    if system.has_unknown(serial) {
        system.unname(serial);
    }
}

#[test]
fn names(rt: HostRuntime) -> Result<(), Fail> {
    let mut system = System::new(rt.alloc());
    for (name, serial) in [("x", 1), ("y", 2), ("", 3), ("x", 4)] {
        assert_eq!(rt; system.fresh(name.as_bytes())?, Fresh::Made(serial));
    }
    for serial in [0, 2, 2, 5] {
        unname(&mut system, serial);
    }
    for (serial, name) in [
        (0, None),
        (1, Some("x")),
        (2, None),
        (3, Some("")),
        (4, Some("x")),
        (5, None),
    ] {
        assert!(rt; name_of(&system, serial) == name.map(|name| name.as_bytes()));
    }
    Ok(())
}

/// The difference of the last unknown and the one before it is 1 unit.
fn step_of(alloc: Global, serial: u32) -> Result<Form, Fail> {
    let last = Form::unknown(alloc, serial)?;
    let before = Form::unknown(alloc, serial.saturating_sub(1))?;
    let form = Form::constant_of(alloc, -1).add_times(alloc, ONE, &last)??;
    Ok(form.add_times(alloc, -ONE, &before)??)
}

/// The number that an unknown equals, where that is known.
fn value_of(alloc: Global, system: &System, serial: u32) -> Result<Option<i32>, Fail> {
    let form = Form::unknown(alloc, serial)?;
    if !system.has_unknowns_of(&form) {
        return Ok(None);
    }
    let form = system.reduce(alloc, &form)??;
    Ok(form.terms().is_empty().then_some(form.constant()))
}

#[test]
fn a_chain_of_2000_equations(rt: HostRuntime) -> Result<(), Fail> {
    let alloc = rt.alloc();
    let mut system = system_of(alloc, 2001)?;
    for serial in 2..=2001 {
        let form = step_of(alloc, serial)?;
        assert_eq!(rt; equated(&mut system, &form)?, Some(Equated::Accepted));
    }
    let first = form_of(alloc, X)?;
    assert_eq!(rt; equated(&mut system, &first)?, Some(Equated::Accepted));
    assert_eq!(rt; system.changes(), 4002);
    for serial in 1..=2001 {
        assert_eq!(rt; value_of(alloc, &system, serial)?, Some(serial as i32 - 1));
    }
    Ok(())
}
