//! Loops: what a turn keeps for the next one, and what the text is a list of.

use crate::{Item, Items, Remaining, Scaled, Value};
use mp_scaled::Shared;

/// The values that are left of a loop's list.
pub type Values = Remaining<Value>;

/// The suffixes that are left of a loop's list.
pub type Suffixes = Remaining<Shared<Items>>;

/// What a loop still goes over.
#[derive(Drop)]
pub enum LeftOver {
    /// It has a next turn each time.
    Forever,
    /// Each of these values.
    Values(Values),
    /// Each of these suffixes.
    Suffixes(Suffixes),
    /// The numbers from `next` on, `by` apart, up to `until`.
    Steps {
        next: Scaled,
        by: Scaled,
        until: Scaled,
    },
}

/// What stands in the text behind one turn of a loop, and starts the next one when it is taken.
#[derive(Drop)]
pub struct Turn {
    pub left_over: LeftOver,
    /// The body of the loop, in which parameter 0 is its variable.
    pub body: Shared<Items>,
    /// The number of conditions that were open at the loop's heading.
    pub conditions: u32,
}

/// What the text that is left is a list of.
#[derive(Drop)]
pub enum Pending {
    Item(Item),
    Turn(Shared<Turn>),
}
