use crate::FormView;

/// What is known of an unknown.
#[derive(Drop)]
pub enum State<'a> {
    /// Nothing: it is independent.
    Independent,
    /// It equals this form, in which no dependent unknown occurs.
    Dependent(FormView<'a>),
}
