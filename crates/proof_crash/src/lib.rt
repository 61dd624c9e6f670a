// Demand 3 with the state as a value, proved of the definitions (specs/): over every history from empty drives, cut and refused calls included, no restart in order is
// refused, and each finished one reads at every address a block sent there before it, no earlier than the latest-sent acknowledged one.
#![tactic(auto)]

ghost use Rattle.spec.specs.Demands.{Demand3Values};

// Demand 3 with the state as a value.
pub fn demand_three_values()
    ensures { Demand3Values }
{}
