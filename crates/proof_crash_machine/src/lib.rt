// Demand 3 over a machine of stored items (no bytes), as a contract: it cannot be dropped unseen.
#![tactic(auto)]

ghost use Rattle.proof_crash_machine.specs.Facts.{Par};
ghost use Rattle.proof_crash_machine.specs.Theorem.{MachineDemand};

// From empty drives, after every history, each finished restart reads what it should, and none is refused.
pub fn demand_three()
    ensures { (p : Par) → MachineDemand p }
{}
