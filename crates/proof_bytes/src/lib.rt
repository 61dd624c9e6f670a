// Demands 2 and 3 carried from the state as a value to the lent bytes (specs/): the state that every call leaves fits its bytes, so that a call on bytes is the call on the decoded state.
// specs/Two.antt makes demand 2 of the lent bytes from demand 2 of values. And the write of no bytes (02, item 1), and 8 before 7 (02, item 3), on the lent bytes.
#![tactic(auto)]

ghost use Rattle.spec_demands.specs.Histories.{Demand3};
ghost use Rattle.spec_demands.specs.EmptyWrites.{EmptyWrite};
ghost use Rattle.spec_demands.specs.FullFirst.{FullBeforeWaiting};

// Demand 3, of the lent bytes.
pub fn demand_three()
    ensures { Demand3 }
{}

// 02, item 1.
pub fn empty_write()
    ensures { EmptyWrite }
{}

// 02, item 3.
pub fn full_before_waiting()
    ensures { FullBeforeWaiting }
{}
