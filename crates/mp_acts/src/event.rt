//! What made the unknowns of a state what they are.

use mp_forms::Form;
use mp_scaled::Bytes;
use std::snapshot::Snapshot;

/// One step in the history of the unknowns. The code keeps which it is, and clauses see its name or form too.
#[derive(Drop)]
pub(crate) enum Event {
    /// One more unknown, of that name.
    Fresh(Snapshot<Bytes>),
    /// An equation that was accepted, as its left side minus its right side, as both stood.
    Equation(Snapshot<Form>),
}
