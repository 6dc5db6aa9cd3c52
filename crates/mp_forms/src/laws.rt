//! What holds of the definitions, as laws for the crates above.

ghost use Rattle.mp_pool.specs.Terms.{StayInOrder};

/// Law: what is made of the terms of forms, multiplied or added, stands in order again, and no coefficient of it is 0.
#[tactic(auto, using(crate::proofs::TermLemmas::stay_in_order))]
pub fn terms_stay_in_order()
    ensures { StayInOrder }
{}
