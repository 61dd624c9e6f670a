// Demand 2 of the lent bytes, put together from its parts (specs/).
#![tactic(auto)]

ghost use Rattle.spec_demands.specs.Tables.{Demand2};

// Demand 2.
pub fn demand_two()
    ensures { Demand2 }
{}
